//! The trees of a commit: the blobs of their files go out, and the files' lines are gathered.

ghost use Rattle.std.specs.Prelude.{◌≡◌, ◌≢◌, ◌++◌, [], ◌∷◌, IsTrue, List, OnOk};
ghost use Rattle.gx_model.specs.declared.objects.Kind.TheVariants as kinds;
ghost use Rattle.gx_model.specs.declared.objects.Mode.TheVariants as modes;
ghost use Rattle.gx_model.specs.Export.{contents, items_text, with_blobs};
ghost use Rattle.gx_model.specs.Faults.{NeedsNoMemory};
ghost use Rattle.gx_model.specs.Histories.Values.{Value, files_of};
ghost use Rattle.gx_model.specs.Records.HistoryOf.{placed};
ghost use Rattle.gx_model.specs.Records.Sound as sound;
ghost use Rattle.gx_model.specs.Texts.Paths.{is_component, is_short};
ghost use Rattle.gx_model.specs.Texts.{Bytes};
ghost use Rattle.gx_rev.specs.Objects.{IsHeldAs, commit_at};
ghost use Rattle.gx_tree.specs.HeldTrees.{IsHeldEntry};
ghost use Rattle.gx_tree.specs.Lists.{below};
ghost use Rattle.gx_tree.specs.Nodes.{Kept, kept_map};
ghost use Rattle.gx_tree.specs.Writes.{kept_leaf};
ghost use Rattle.gx_export.specs.FileTexts.{Gathers, IsEntryBelow, entry_file};
ghost use Rattle.gx_export.specs.Marks.{AddsBlobs, HasWritten, IsBlobAt};
ghost use Rattle.gx_export.specs.Parts.{GathersTree, HasTreeBelow, IsUnderWay, Keeps, WhileUnderWay};
ghost use Rattle.gx_export.specs.Texts.{file_items};

use crate::ExportFault;
use crate::commands::write_blob;
use crate::file_lines::Opened;
use crate::lines::Lines;
use crate::written::Written;
use gx_object::{Entry, Mode, Name, Namer};
use gx_repo::Repo;
use gx_rev::{body_at, entries_of, place_of, view_of};
use gx_text::{MOST_BYTES, Sink, TreePath};
use gx_tree::child;
use std::alloc::Allocator;

/// Writes the blobs of a held commit's files that weren't written yet, and gathers the files' lines.
pub(crate) fn add_files<'a, N: Namer, A: Allocator + Copy, W: Sink>(
    alloc: A,
    repo: &'a Repo<N, A>,
    written: &mut Written<'_, W, A>,
    lines: &mut Lines<'a, A>,
    commit: &Name,
) -> Result<(), ExportFault>
    requires held { IsHeldAs kinds.Commit repo.now.1 commit.now }
    requires written { IsUnderWay N.name_of repo.now written.old lines.old }
    ensures adds { WhileUnderWay N.name_of repo.now written.old lines.old (λ ws. AddsBlobs
        repo.now.1 ws (contents (files_of (commit_at repo.now.1 commit.now))) written.old
        written.new result) }
    ensures text { let files = files_of (commit_at repo.now.1 commit.now) in
        WhileUnderWay N.name_of repo.now written.old lines.old (λ ws. OnOk result
        (lines.new.text.items ≡ items_text (file_items (with_blobs ws (contents files)) files))) }
    ensures kept { Keeps N.name_of repo.now written.old lines.old lines.new
        (λ ws. with_blobs ws (contents (files_of (commit_at repo.now.1 commit.now)))) result }
{
    repo.sound();
    let view = view_of(repo, commit);
    let root = TreePath::root(alloc);
    lines.begin();
    add_tree(alloc, repo, written, lines, &root, &view.tree(), MOST_BYTES)
}

/// Writes the blobs of a held tree's files that weren't written yet, and gathers the lines of the files, whose paths stand
/// below `front` and have at most `room` bytes there. Those of a tree that stood there in the commit before are taken over.
#[cycle(gather)]
fn add_tree<'a, N: Namer, A: Allocator + Copy, W: Sink>(
    alloc: A,
    repo: &'a Repo<N, A>,
    written: &mut Written<'_, W, A>,
    lines: &mut Lines<'a, A>,
    front: &TreePath<A>,
    tree: &Name,
    room: usize,
) -> Result<(), ExportFault>
    requires held { HasTreeBelow N.name_of repo.now room front.now tree.now }
    requires written { IsUnderWay N.name_of repo.now written.old lines.old }
    ensures { GathersTree N.name_of repo.now front.now tree.now written.old written.new
        lines.old lines.new result }
{
    if lines.take_over(front.joined(), tree)? {
        return Ok(());
    }
    let start = lines.text.len();
    let mut opened = lines.open(front.joined())?;
    add_entries(alloc, repo, written, lines, &mut opened, front, tree, room)?;
    lines.close(&opened, front.joined(), tree, start);
    Ok(())
}

/// Does so for all entries of a tree.
#[cycle(gather)]
fn add_entries<'a, N: Namer, A: Allocator + Copy, W: Sink>(
    alloc: A,
    repo: &'a Repo<N, A>,
    written: &mut Written<'_, W, A>,
    lines: &mut Lines<'a, A>,
    opened: &mut Opened,
    front: &TreePath<A>,
    tree: &Name,
    room: usize,
) -> Result<(), ExportFault>
    requires held { HasTreeBelow N.name_of repo.now room front.now tree.now }
    requires written { IsUnderWay N.name_of repo.now written.old lines.old }
    ensures { GathersTree N.name_of repo.now front.now tree.now written.old written.new
        lines.old lines.new result }
{
    for entry in entries_of(repo, tree) {
        add_entry(alloc, repo, written, lines, opened, front, &entry, room)?;
    }
    Ok(())
}

/// Does so for an entry of a tree, whose path stands below `front`.
#[cycle(gather)]
fn add_entry<'a, N: Namer, A: Allocator + Copy, W: Sink>(
    alloc: A,
    repo: &'a Repo<N, A>,
    written: &mut Written<'_, W, A>,
    lines: &mut Lines<'a, A>,
    opened: &mut Opened,
    front: &TreePath<A>,
    entry: &Entry<'a>,
    room: usize,
) -> Result<(), ExportFault>
    requires held { (k : Kept)
        × IsEntryBelow (N.name_of repo.now.0) repo.now.1 room front.now (entry.now.component.now, k)
        × (kept_leaf (N.name_of repo.now.0) k ≡ (entry.now.mode, entry.now.name.bytes)) }
    requires written { IsUnderWay N.name_of repo.now written.old lines.old }
    ensures { (k : Kept)
        → IsHeldEntry (N.name_of repo.now.0) repo.now.1.records 4095 (entry.now.component.now, k)
        → kept_leaf (N.name_of repo.now.0) k ≡ (entry.now.mode, entry.now.name.bytes)
        → WhileUnderWay N.name_of repo.now written.old lines.old (λ ws. Gathers (N.name_of
        repo.now.0) repo.now.1 ws (below front.now (placed entry.now.component.now (kept_map k)))
        written.old written.new lines.old lines.new result) }
{
    if entry.mode != Mode::Dir {
        return add_line(alloc, repo, written, lines, opened, front, entry);
    }
    let path = child(alloc, front, entry.component)?;
    let used = entry.component.len();
    if used >= room {
        unreachable!();
    }
    add_tree(
        alloc,
        repo,
        written,
        lines,
        &path,
        &entry.name,
        room - used - 1,
    )
}

/// Gathers the line of a file in an entered directory at `front`: the one that it had in the commit before, where it stays.
/// Else its blob is written first, where it wasn't written yet.
fn add_line<'a, N: Namer, A: Allocator + Copy, W: Sink>(
    alloc: A,
    repo: &'a Repo<N, A>,
    written: &mut Written<'_, W, A>,
    lines: &mut Lines<'a, A>,
    opened: &mut Opened,
    front: &TreePath<A>,
    entry: &Entry<'a>,
) -> Result<(), ExportFault>
    requires file { entry.now.mode ≢ modes.Dir }
    requires component { IsTrue (is_component entry.now.component.now) }
    requires short { IsTrue (is_short (front.now ++ entry.now.component.now ∷ [])) }
    requires held { sound.IsHeldAs repo.now.1.records entry.now.mode entry.now.name.bytes }
    requires written { IsUnderWay N.name_of repo.now written.old lines.old }
    ensures { WhileUnderWay N.name_of repo.now written.old lines.old (λ ws. Gathers (N.name_of
        repo.now.0) repo.now.1 ws (entry_file front.now entry.now) written.old written.new
        lines.old lines.new result) }
{
    if lines.take_line(opened, front.joined(), entry)? {
        return Ok(());
    }
    let path = child(alloc, front, entry.component)?;
    let start = lines.text.len();
    add_file(repo, written, lines, &path, entry.mode, &entry.name)?;
    lines.keep(opened, front.joined(), entry, start)?;
    Ok(())
}

/// Writes a file's blob, where it wasn't written yet, and gathers the file's line.
pub(crate) fn add_file<N: Namer, A: Allocator + Copy, W: Sink>(
    repo: &Repo<N, A>,
    written: &mut Written<'_, W, A>,
    lines: &mut Lines<'_, A>,
    path: &TreePath<A>,
    mode: Mode,
    name: &Name,
) -> Result<(), ExportFault>
    requires file { mode ≢ modes.Dir }
    requires held { sound.IsHeldAs repo.now.1.records mode name.now.bytes }
    requires written { IsUnderWay N.name_of repo.now written.old lines.old }
    ensures { WhileUnderWay N.name_of repo.now written.old lines.old (λ ws. Gathers (N.name_of
        repo.now.0) repo.now.1 ws ((path.now, (mode, name.now.bytes)) ∷ []) written.old written.new
        lines.old lines.new result) }
{
    repo.sound();
    if mode == Mode::Gitlink {
        lines.add_gitlink(name, path)?;
        return Ok(());
    }
    let place = place_of(repo, name);
    write_blob_once(repo, written, place)?;
    lines.add_file(mode, written.marks[place], path)?;
    Ok(())
}

/// Writes the blob at a place, where it wasn't written yet.
fn write_blob_once<N: Namer, A: Allocator + Copy, W: Sink>(
    repo: &Repo<N, A>,
    written: &mut Written<'_, W, A>,
    place: usize,
) -> Result<(), ExportFault>
    requires blob { (bytes : Bytes) × IsBlobAt repo.now.1 place bytes }
    requires written { (ws : List Value) × HasWritten repo.now.1 ws written.old }
    ensures adds { (bytes : Bytes) (ws : List Value)
        → IsBlobAt repo.now.1 place bytes
        → HasWritten repo.now.1 ws written.old
        → AddsBlobs repo.now.1 ws (bytes ∷ []) written.old written.new result }
    ensures memory { NeedsNoMemory ExportFault.OutOfMemory result }
{
    repo.sound();
    if written.marks[place] > 0 {
        return Ok(());
    }
    let body = body_at(repo, place);
    write_blob(&mut written.output, written.count + 1, body)?;
    written.mark(place);
    Ok(())
}
