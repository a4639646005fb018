//! Calls on revisions and ranges of a repository.

use crate::answers::{Heap, Room, first_word};
use crate::repositories::is_held;
use crate::trees::path_of;
use gx_object::{CommitView, Kind, Name, Namer};
use gx_repo::Repo;
use gx_rev::{
    Parents, Range, Revision, Shown, answers_tell_values, commit, is_ancestor, look,
    reached_from_refs, tree_of_text, walk,
};
use gx_text::TreePath;

/// Answers the call of this name on a repository, if there is one.
pub(crate) fn answer<'a, N: Namer>(
    room: &mut Room<'a>,
    repo: &Repo<N, &'a Heap>,
    call: &str,
    text: &[u8],
) -> bool {
    match call {
        "read-range" => {
            room.arm();
            room.done(Range::read(room.heap, text));
        }
        "read-revision" => {
            room.arm();
            room.done(Revision::read(room.heap, text));
        }
        "look" => put_look(room, repo, text),
        "parents" => put_parents(room, repo, text),
        "walk" => put_walk(room, repo, text),
        "show" => put_shown(room, repo, text),
        "tree-of" => {
            room.arm();
            room.named(tree_of_text(room.heap, repo, text));
        }
        "tell" => {
            answers_tell_values(repo);
            room.word("done");
        }
        "reachable" => put_reachable(room, repo),
        "reaches" => put_reached(room, repo, text),
        _ => return false,
    }
    true
}

/// The bytes of the file at a path of a revision.
fn put_look<'a, N: Namer>(room: &mut Room<'a>, repo: &Repo<N, &'a Heap>, text: &[u8]) {
    let (revision, path) = first_word(text);
    let path = path_of(room.heap, path);
    if let Ok(revision) = Revision::read(room.heap, revision) {
        put_file(room, repo, &revision, &path);
    }
}

fn put_file<'a, N: Namer>(
    room: &mut Room<'a>,
    repo: &Repo<N, &'a Heap>,
    revision: &Revision<&'a Heap>,
    path: &TreePath<&'a Heap>,
) {
    room.arm();
    match look(room.heap, repo, revision, path) {
        Ok((_, bytes)) => room.put(&bytes),
        Err(fault) => room.told(fault),
    }
}

/// The parents of the commit of a revision.
fn put_parents<'a, N: Namer>(room: &mut Room<'a>, repo: &Repo<N, &'a Heap>, text: &[u8]) {
    if let Ok(revision) = Revision::read(room.heap, text) {
        put_parents_of(room, repo, &revision);
    }
}

fn put_parents_of<'a, N: Namer>(
    room: &mut Room<'a>,
    repo: &Repo<N, &'a Heap>,
    revision: &Revision<&'a Heap>,
) {
    match commit(repo, revision) {
        Ok(view) => put_each_parent(room, &view),
        Err(fault) => room.told(fault),
    }
}

fn put_each_parent(room: &mut Room<'_>, view: &CommitView<'_>) {
    room.told(view.parent_count());
    for place in 0..view.parent_count() {
        room.put(b"\n");
        room.found(view.parent(place));
    }
}

/// The commits that a word lists; none where it is empty.
fn put_walk<'a, N: Namer>(room: &mut Room<'a>, repo: &Repo<N, &'a Heap>, word: &[u8]) {
    if word.is_empty() {
        return put_walked(room, repo, &[]);
    }
    match Range::read(room.heap, word) {
        Ok(range) => put_walked(room, repo, &[range]),
        Err(fault) => room.told(fault),
    }
}

fn put_walked<'a, N: Namer>(
    room: &mut Room<'a>,
    repo: &Repo<N, &'a Heap>,
    ranges: &[Range<&'a Heap>],
) {
    room.arm();
    match walk(room.heap, repo, ranges) {
        Ok(names) => put_names(room, &names),
        Err(fault) if fault.word == 0 => room.told(fault.kind),
        Err(fault) => room.told(fault),
    }
}

fn put_names(room: &mut Room<'_>, names: &[Name]) {
    room.told(names.len());
    for name in names {
        room.put(b"\n");
        room.digits(name);
    }
}

/// The object or the submodule that a text shows.
fn put_shown<'a, N: Namer>(room: &mut Room<'a>, repo: &Repo<N, &'a Heap>, text: &[u8]) {
    room.arm();
    match Revision::eval_text(room.heap, repo, text) {
        Ok(Shown::Object(_, name)) => room.digits(&name),
        Ok(Shown::Submodule(_)) => room.word("submodule"),
        Err(fault) => room.told(fault),
    }
}

/// How many objects the refs reach.
fn put_reachable<'a, N: Namer>(room: &mut Room<'a>, repo: &Repo<N, &'a Heap>) {
    room.arm();
    match reached_from_refs(room.heap, repo) {
        Ok(marks) => put_marked(room, &marks),
        Err(_) => room.refused(),
    }
}

fn put_marked(room: &mut Room<'_>, marks: &[bool]) {
    let mut count = 0u64;
    for mark in marks {
        count = count.saturating_add(u64::from(*mark));
    }
    room.told(count);
}

/// Whether the first of two commits that are held reaches the second.
fn put_reached<'a, N: Namer>(room: &mut Room<'a>, repo: &Repo<N, &'a Heap>, text: &[u8]) {
    let (from, to) = first_word(text);
    let from = Name::read(from).unwrap_or(Name { bytes: [0; 20] });
    let to = Name::read(to).unwrap_or(Name { bytes: [0; 20] });
    if !is_held(repo, Kind::Commit, &from) || !is_held(repo, Kind::Commit, &to) {
        return;
    }
    let mut parents = Parents::new(room.heap);
    room.arm();
    match is_ancestor(room.heap, repo, &mut parents, &to, &from) {
        Ok(answer) => room.yes_or_no(answer),
        Err(_) => room.refused(),
    }
}
