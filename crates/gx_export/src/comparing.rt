//! What differs between the trees of two commits: the blobs of new files go out, and the lines of changes are gathered.

ghost use Rattle.std.specs.Prelude.{◌≡◌, false, IfSome};
ghost use Rattle.gx_model.specs.declared.objects.Kind.TheVariants as kinds;
ghost use Rattle.gx_model.specs.Histories.Files.{FileMap};
ghost use Rattle.gx_model.specs.Texts.{Bytes};
ghost use Rattle.gx_object.specs.Parts.{bytes_if};
ghost use Rattle.gx_rev.specs.Objects.{IsHeldAs, commit_at};
ghost use Rattle.gx_tree.specs.Nodes.{Level, files};
ghost use Rattle.gx_export.specs.Compared.{Compares, ComparesMaps, GathersChanges, HasFileIf, IsBelowIf, IsPairBelow, IsTreeIf, entries_if, file_if, or_other, path_unless, tree_if};
ghost use Rattle.gx_export.specs.Pairs.{is_same, shown_pair};
ghost use Rattle.gx_export.specs.Parts.{IsUnderWay, WhileUnderWay};

use crate::ExportFault;
use crate::changes::Changes;
use crate::pairs::{Pair, Pairs, is_same, name_in};
use crate::trees::add_file;
use crate::written::Written;
use gx_object::{Entry, Mode, Name, Namer, TreeEntries, held_tree};
use gx_repo::Repo;
use gx_rev::{entries_of, view_of};
use gx_text::{MOST_BYTES, Sink, TreePath};
use gx_tree::child;
use std::alloc::Allocator;

/// Writes the blobs of a held commit's files that differ from its first parent's and weren't written yet, and gathers the
/// lines of all that differs.
pub(crate) fn add_changes<N: Namer, A: Allocator + Copy, W: Sink>(
    alloc: A,
    repo: &Repo<N, A>,
    written: &mut Written<'_, W, A>,
    changes: &mut Changes<'_, A>,
    commit: &Name,
) -> Result<(), ExportFault>
    requires held { IsHeldAs kinds.Commit repo.now.1 commit.now }
    requires written { IsUnderWay N.name_of repo.now written.old changes.old.files }
    ensures { WhileUnderWay N.name_of repo.now written.old changes.old.files (λ ws.
        GathersChanges (N.name_of repo.now.0) repo.now.1 ws (commit_at repo.now.1 commit.now)
        written.old written.new changes.new result) }
{
    repo.sound();
    let view = view_of(repo, commit);
    let base = tree_of(repo, view.parent(0));
    let root = TreePath::root(alloc);
    changes.begin();
    compare_trees(
        alloc,
        repo,
        written,
        changes,
        &root,
        base,
        Some(view.tree()),
        MOST_BYTES,
    )
}

/// The tree of a held commit, where there is one.
fn tree_of<N: Namer, A: Allocator + Copy>(repo: &Repo<N, A>, commit: Option<Name>) -> Option<Name>
    requires { IfSome commit (IsHeldAs kinds.Commit repo.now.1) }
    ensures { bytes_if result ≡ tree_if (N.name_of repo.now.0) repo.now.1 commit }
{
    match commit {
        None => None,
        Some(commit) => Some(view_of(repo, &commit).tree()),
    }
}

/// Writes the blobs of what is new below `front`, and gathers the lines of what differs there. No tree has no files. The
/// paths have at most `room` bytes there.
#[cycle(compare)]
fn compare_trees<N: Namer, A: Allocator + Copy, W: Sink>(
    alloc: A,
    repo: &Repo<N, A>,
    written: &mut Written<'_, W, A>,
    changes: &mut Changes<'_, A>,
    front: &TreePath<A>,
    old: Option<Name>,
    new: Option<Name>,
    room: usize,
) -> Result<(), ExportFault>
    requires held { (f : FileMap Bytes) × (g : FileMap Bytes)
        × IsBelowIf (N.name_of repo.now.0) repo.now.1 room front.now (bytes_if old) f
        × IsBelowIf (N.name_of repo.now.0) repo.now.1 room front.now (bytes_if new) g }
    requires written { IsUnderWay N.name_of repo.now written.old changes.old.files }
    ensures { (f g : FileMap Bytes)
        → IsBelowIf (N.name_of repo.now.0) repo.now.1 room front.now (bytes_if old) f
        → IsBelowIf (N.name_of repo.now.0) repo.now.1 room front.now (bytes_if new) g
        → WhileUnderWay N.name_of repo.now written.old changes.old.files (λ ws. ComparesMaps
        (N.name_of repo.now.0) repo.now.1 ws front.now f g written.old written.new changes.old
        changes.new result) }
{
    for pair in Pairs::new(entries_in(repo, old), entries_in(repo, new)) {
        if !is_same(&pair) {
            compare_pair(alloc, repo, written, changes, front, &pair, room)?;
        }
    }
    Ok(())
}

/// Does so for what two trees have at one component, which differs.
#[cycle(compare)]
fn compare_pair<N: Namer, A: Allocator + Copy, W: Sink>(
    alloc: A,
    repo: &Repo<N, A>,
    written: &mut Written<'_, W, A>,
    changes: &mut Changes<'_, A>,
    front: &TreePath<A>,
    pair: &Pair<'_>,
    room: usize,
) -> Result<(), ExportFault>
    requires held { (p : Level × Level)
        × IsPairBelow (N.name_of repo.now.0) repo.now.1 room front.now pair.now p }
    requires written { IsUnderWay N.name_of repo.now written.old changes.old.files }
    requires other { is_same (shown_pair pair.now) ≡ false }
    ensures { (p : Level × Level)
        → IsPairBelow (N.name_of repo.now.0) repo.now.1 room front.now pair.now p
        → WhileUnderWay N.name_of repo.now written.old changes.old.files (λ ws. ComparesMaps
        (N.name_of repo.now.0) repo.now.1 ws front.now (files p.0) (files p.1) written.old
        written.new changes.old changes.new result) }
{
    let Some(entry) = one_of(pair) else {
        unreachable!();
    };
    let path = child(alloc, front, entry.component)?;
    if entry.mode != Mode::Dir {
        return compare_files(repo, written, changes, &path, &pair.new);
    }
    let used = entry.component.len();
    if used >= room {
        unreachable!();
    }
    compare_trees(
        alloc,
        repo,
        written,
        changes,
        &path,
        name_in(&pair.old),
        name_in(&pair.new),
        room - used - 1,
    )
}

/// Gathers the line of a file that is gone, or writes the blob of one that is new or another and gathers its line.
fn compare_files<N: Namer, A: Allocator + Copy, W: Sink>(
    repo: &Repo<N, A>,
    written: &mut Written<'_, W, A>,
    changes: &mut Changes<'_, A>,
    path: &TreePath<A>,
    new: &Option<Entry<'_>>,
) -> Result<(), ExportFault>
    requires held { HasFileIf repo.now.1 new.now }
    requires written { IsUnderWay N.name_of repo.now written.old changes.old.files }
    ensures { WhileUnderWay N.name_of repo.now written.old changes.old.files (λ ws. Compares
        (N.name_of repo.now.0) repo.now.1 ws (file_if path.now new.now) (path_unless path.now
        new.now) written.old written.new changes.old changes.new result) }
{
    match new {
        None => {
            changes.add_gone(path)?;
            Ok(())
        }
        Some(new) => add_file(repo, written, &mut changes.files, path, new.mode, &new.name),
    }
}

/// An entry of a pair: both are at one component, and both are directories or none is.
fn one_of<'a>(pair: &Pair<'a>) -> Option<Entry<'a>>
    ensures { result ≡ or_other pair.now.old pair.now.new }
{
    match pair.old {
        Some(old) => Some(old),
        None => pair.new,
    }
}

/// The entries of a held tree. No tree has none.
fn entries_in<'a, N: Namer, A: Allocator + Copy>(
    repo: &'a Repo<N, A>,
    tree: Option<Name>,
) -> TreeEntries<'a>
    requires { IsTreeIf repo.now.1 tree }
    ensures { result ≡ entries_if repo.now.1 tree }
{
    match tree {
        None => held_tree(b""),
        Some(tree) => entries_of(repo, &tree),
    }
}
