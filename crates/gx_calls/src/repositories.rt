//! Calls on a repository, and on the files of a branch that it holds.

ghost use Rattle.std.specs.Prelude.{IsTrue, map};
ghost use Rattle.gx_model.specs.declared.objects.Kind.TheVariants as kinds;
ghost use Rattle.gx_model.specs.Records.Sound.{Holds, IsHeldAs, IsNamedMap};
ghost use Rattle.gx_repo.specs.Objects.{HoldsEach};

use crate::answers::{Heap, Room, first_word, kind_of, number_of, parts_of};
use crate::stores::range_of;
use crate::trees::path_of;
use gx_object::{CommitParts, Kind, Mode, Name, Namer, TagParts};
use gx_repo::{Body, RefChange, RefList, Repo, report_changes};
use gx_text::{Ident, TreePath};
use gx_tree::PathTree;
use std::mem::swap;

/// A repository, another one, and refs that were copied.
#[derive(Drop)]
pub(crate) struct Repositories<'a, N: Namer> {
    pub(crate) repo: Repo<N, &'a Heap>,
    pub(crate) other: Repo<N, &'a Heap>,
    pub(crate) copied: Option<RefList<&'a Heap>>,
}

/// Answers the call of this name on a repository, if there is one.
pub(crate) fn answer<'a, N: Namer>(
    room: &mut Room<'a>,
    repositories: &mut Repositories<'a, N>,
    tree: &mut PathTree<&'a Heap>,
    call: &str,
    text: &[u8],
) -> bool {
    let (first, rest) = first_word(text);
    match call {
        "add-tree" => add_tree(room, &mut repositories.repo, tree),
        "add-shared" => add_shared(room, &mut repositories.repo, tree, first, rest),
        "swap-repositories" => {
            swap(&mut repositories.repo, &mut repositories.other);
            room.word("done");
        }
        "copy-refs" => {
            repositories.copied = repositories.repo.copy_refs().ok();
            room.word("done");
        }
        "report" => put_report(room, &repositories.repo, &repositories.copied),
        _ => return is_added(room, &mut repositories.repo, call, text),
    }
    true
}

/// Answers the call of this name that changes a repository alone, if there is one.
fn is_added<'a, N: Namer>(
    room: &mut Room<'a>,
    repo: &mut Repo<N, &'a Heap>,
    call: &str,
    text: &[u8],
) -> bool {
    let (first, rest) = first_word(text);
    match call {
        "add-blob" => {
            room.arm();
            room.named(repo.add_blob(text));
        }
        "add-owned" => add_owned(room, repo, text),
        "record" => {
            room.arm();
            room.named(repo.add_record(kind_of(first), rest));
        }
        "within" => add_within(room, repo, kind_of(first), rest),
        "commit" => add_commit(room, repo, first, rest),
        "child" => add_child(room, repo, first, rest),
        "tag" => add_tag(room, repo, first, rest),
        "publish" => publish(room, repo, text),
        "drop" => drop_refs(room, repo, text),
        "cut-records" => cut_records(room, repo, number_of(text)),
        "prune" => prune(room, repo, text),
        _ => return is_asked(room, repo, call, text),
    }
    true
}

/// Answers the question of this name, if there is one.
fn is_asked<N: Namer>(room: &mut Room<'_>, repo: &Repo<N, &Heap>, call: &str, text: &[u8]) -> bool {
    let (first, rest) = first_word(text);
    match call {
        "records" => room.told(repo.store().len()),
        "refs" => put_refs(room, repo),
        "holds" => match Name::read(rest) {
            Some(name) => room.yes_or_no(is_held(repo, kind_of(first), &name)),
            None => room.word("no name"),
        },
        "find-ref" => {
            room.arm();
            match repo.find_ref(text) {
                Ok(name) => room.found(name),
                Err(_) => room.refused(),
            }
        }
        _ => return false,
    }
    true
}

/// Adds a blob of bytes that are given.
fn add_owned<'a, N: Namer>(room: &mut Room<'a>, repo: &mut Repo<N, &'a Heap>, body: &[u8]) {
    room.arm();
    match Vec::from_slice(room.heap, body) {
        Ok(bytes) => room.named(repo.add_blob_owned(bytes)),
        Err(_) => room.refused(),
    }
}

/// Adds a record of bytes within a text, whose last owner the repository is.
fn add_within<'a, N: Namer>(
    room: &mut Room<'a>,
    repo: &mut Repo<N, &'a Heap>,
    kind: Kind,
    text: &[u8],
) {
    room.arm();
    match range_of(room.heap, text) {
        Ok(Some(range)) => room.named(repo.add_body(kind, Body::Within(range))),
        Ok(None) => room.word("no such bytes"),
        Err(_) => room.refused(),
    }
}

/// Whether an object of this kind is held under this name.
pub(crate) fn is_held<N: Namer>(repo: &Repo<N, &Heap>, kind: Kind, name: &Name) -> bool
    ensures { IsTrue result → Holds repo.now.1.records kind name.now.bytes }
{
    let Some((held, _body)) = repo.store().get(name) else {
        return false;
    };
    held == kind
}

/// Whether a file with this mode and name is held; a gitlink needn't be.
fn is_file_held<N: Namer>(repo: &Repo<N, &Heap>, mode: Mode, name: &Name) -> bool
    ensures { IsTrue result → IsHeldAs repo.now.1.records mode name.now.bytes }
{
    match mode {
        Mode::File | Mode::Exec | Mode::Link => is_held(repo, Kind::Blob, name),
        Mode::Gitlink => true,
        Mode::Dir => false,
    }
}

/// Whether the files of a tree are held. Want of memory hides it.
fn has_files<'a, N: Namer>(repo: &Repo<N, &'a Heap>, tree: &PathTree<&'a Heap>) -> bool
    ensures { IsTrue result → IsNamedMap repo.now.1.records tree.now.files }
{
    tree.name_map();
    let Ok(files) = tree.list() else {
        return false;
    };
    for file in files.as_slice() {
        if !is_file_held(repo, file.1, &file.2) {
            return false;
        }
    }
    true
}

/// Adds a tree whose files are held.
fn add_tree<'a, N: Namer>(
    room: &mut Room<'a>,
    repo: &mut Repo<N, &'a Heap>,
    tree: &mut PathTree<&'a Heap>,
) {
    if has_files(repo, tree) {
        room.arm();
        room.named(repo.add_tree(tree));
    }
}

/// Adds a tree, puts a file at a path, and adds it by the names that it remembers.
fn add_shared<'a, N: Namer>(
    room: &mut Room<'a>,
    repo: &mut Repo<N, &'a Heap>,
    tree: &mut PathTree<&'a Heap>,
    path: &[u8],
    digits: &[u8],
) {
    let path = path_of(room.heap, path);
    let name = Name::read(digits).unwrap_or(Name { bytes: [0; 20] });
    add_again(room, repo, tree, &path, name);
}

/// The same at this path, of a file with this name.
fn add_again<'a, N: Namer>(
    room: &mut Room<'a>,
    repo: &mut Repo<N, &'a Heap>,
    tree: &mut PathTree<&'a Heap>,
    path: &TreePath<&'a Heap>,
    name: Name,
) {
    if !has_files(repo, tree) {
        return;
    }
    let Ok(_) = repo.add_tree(tree) else {
        return;
    };
    let Ok(()) = tree.modify(path, Mode::File, name) else {
        return;
    };
    if has_files(repo, tree) {
        room.arm();
        room.named(repo.add_tree_shared(tree));
    }
}

/// Adds a commit with a tree that is held.
fn add_commit<'a, N: Namer>(
    room: &mut Room<'a>,
    repo: &mut Repo<N, &'a Heap>,
    tree: &[u8],
    message: &[u8],
) {
    let tree = Name::read(tree).unwrap_or(Name { bytes: [0; 20] });
    if is_held(repo, Kind::Tree, &tree) {
        add_parts(room, repo, tree, &[], message);
    }
}

/// Adds a commit with a tree and a parent that are held, and with an encoding.
fn add_child<'a, N: Namer>(
    room: &mut Room<'a>,
    repo: &mut Repo<N, &'a Heap>,
    tree: &[u8],
    text: &[u8],
) {
    let (parent, message) = first_word(text);
    let tree = Name::read(tree).unwrap_or(Name { bytes: [0; 20] });
    let parent = Name::read(parent).unwrap_or(Name { bytes: [0; 20] });
    if is_held(repo, Kind::Tree, &tree) && is_held(repo, Kind::Commit, &parent) {
        add_parts(room, repo, tree, &[parent], message);
    }
}

/// Adds a commit, with an encoding where it has parents.
fn add_parts<'x, 'a, N: Namer>(
    room: &mut Room<'a>,
    repo: &mut Repo<N, &'a Heap>,
    tree: Name,
    parents: &'x [Name],
    message: &'x [u8],
)
    requires tree { Holds repo.now.1.records kinds.Tree tree.bytes }
    requires parents { HoldsEach repo.now.1.records kinds.Commit (map (λ n. n.bytes) parents.now) }
{
    let Ok(author) = Ident::read(b"A <a@x> 1 +0000") else {
        return;
    };
    let encoding: Option<&[u8]> = if parents.is_empty() {
        None
    } else {
        Some(b"ISO-8859-1")
    };
    let parts = CommitParts {
        tree,
        parents,
        author,
        committer: author,
        encoding,
        further: b"",
        message,
    };
    room.arm();
    room.named(repo.add_commit(&parts));
}

/// Adds a tag of a commit that is held.
fn add_tag<'a, N: Namer>(
    room: &mut Room<'a>,
    repo: &mut Repo<N, &'a Heap>,
    object: &[u8],
    message: &[u8],
) {
    let object = Name::read(object).unwrap_or(Name { bytes: [0; 20] });
    if !is_held(repo, Kind::Commit, &object) {
        return;
    }
    let parts = TagParts {
        object,
        name: b"v1",
        tagger: None,
        message,
    };
    room.arm();
    room.named(repo.add_tag(&parts));
}

/// Sets the refs of lines, each with its object's digits before it.
fn publish<'a, N: Namer>(room: &mut Room<'a>, repo: &mut Repo<N, &'a Heap>, lines: &[u8]) {
    let lines = parts_of(room.alloc, lines, b'\n');
    let mut changes = Vec::new(room.alloc);
    put_changes(&mut changes, &lines);
    room.arm();
    room.done(repo.publish(&changes));
}

fn put_changes<'a>(changes: &mut Vec<RefChange<'a>>, lines: &[&'a [u8]]) {
    for line in lines {
        let (digits, name) = first_word(*line);
        if let Some(target) = Name::read(digits) {
            let _ = changes.push(RefChange { name, target });
        }
    }
}

/// Drops the refs of these names.
fn drop_refs<'a, N: Namer>(room: &mut Room<'a>, repo: &mut Repo<N, &'a Heap>, text: &[u8]) {
    let names = parts_of(room.alloc, text, b' ');
    room.done(repo.drop_refs(&names));
}

/// Keeps the first records alone, where there are no refs.
fn cut_records<'a, N: Namer>(room: &mut Room<'a>, repo: &mut Repo<N, &'a Heap>, len: usize) {
    if repo.refs().next().is_none() {
        repo.truncate(len);
        room.word("done");
    }
}

/// Lets go what no ref reaches, nor any of these names: so many objects, of so many bytes.
fn prune<'a, N: Namer>(room: &mut Room<'a>, repo: &mut Repo<N, &'a Heap>, names: &[u8]) {
    let names = parts_of(room.alloc, names, b' ');
    let mut kept = Vec::new(room.alloc);
    put_read(&mut kept, &names);
    prune_all_but(room, repo, &kept);
}

fn put_read(names: &mut Vec<Name>, texts: &[&[u8]]) {
    for digits in texts {
        if let Some(name) = Name::read(digits) {
            let _ = names.push(name);
        }
    }
}

fn prune_all_but<'a, N: Namer>(room: &mut Room<'a>, repo: &mut Repo<N, &'a Heap>, kept: &[Name]) {
    room.arm();
    match repo.prune(kept) {
        Ok(gone) => {
            room.told(gone.objects);
            room.put(b" ");
            room.told(gone.bytes);
        }
        Err(_) => room.refused(),
    }
}

/// The refs and what they hold.
fn put_refs<N: Namer>(room: &mut Room<'_>, repo: &Repo<N, &Heap>) {
    if repo.refs().next().is_none() {
        return room.word("none");
    }
    for (name, target) in repo.refs() {
        room.digits(&target);
        room.put(b" ");
        room.put(name);
        room.put(b"\n");
    }
}

/// The report of what refs differ from those that were copied.
fn put_report<'a, N: Namer>(
    room: &mut Room<'a>,
    repo: &Repo<N, &'a Heap>,
    copied: &Option<RefList<&'a Heap>>,
) {
    if let Some(copied) = copied {
        match report_changes(room.heap, copied.refs(), repo.refs()) {
            Ok(report) if report.is_empty() => room.word("nothing"),
            Ok(report) => room.put(&report),
            Err(_) => room.refused(),
        }
    }
}
