//! One commit by what differs from its first parent, after the blobs that weren't written yet.

ghost use Rattle.std.specs.Prelude.{◌<◌, ◌++◌, List, length, OnOk};
ghost use Rattle.gx_model.specs.declared.objects.Kind.TheVariants as kinds;
ghost use Rattle.gx_model.specs.Changes.{named_in, own_files, with_changes};
ghost use Rattle.gx_model.specs.Export.{contents, items_text, with_blobs};
ghost use Rattle.gx_model.specs.Faults.{NeedsNoMemory};
ghost use Rattle.gx_model.specs.Histories.Files.{FileMap};
ghost use Rattle.gx_model.specs.Histories.Marks.{IsAt};
ghost use Rattle.gx_model.specs.Histories.Values.{Commit, Value};
ghost use Rattle.gx_model.specs.Texts.Paths.{Path};
ghost use Rattle.gx_model.specs.Texts.{Bytes};
ghost use Rattle.gx_rev.specs.Objects.{IsHeldAs, commit_at};
ghost use Rattle.gx_export.specs.ChangedParts.{AddsChanges, AreLinesOf, differing_lines, lines_on, one_on};
ghost use Rattle.gx_export.specs.Marks.{Adds};
ghost use Rattle.gx_export.specs.Outputs.{Writes};
ghost use Rattle.gx_export.specs.Parts.{AddsItems, IsUnderWay, IsUnderWayBehind, Keeps, WhileUnderWay, commits_called};
ghost use Rattle.gx_export.specs.Texts.{items_of, parents_by, root_items};

use crate::ExportFault;
use crate::changes::Changes;
use crate::commands::{write_commit_head, write_parent};
use crate::commit::{parent_word, write_root};
use crate::comparing::add_changes;
use crate::naming::commit_ish;
use crate::output::Output;
use crate::written::Written;
use gx_object::{CommitView, Name, Namer};
use gx_repo::Repo;
use gx_rev::{name_at, view_of};
use gx_text::Sink;
use std::alloc::Allocator;

/// Writes the commit at a place to a branch, its blobs first. `changes` gathers the lines of what differs.
pub(crate) fn write_changed_commit<N: Namer, A: Allocator + Copy, W: Sink>(
    alloc: A,
    repo: &Repo<N, A>,
    written: &mut Written<'_, W, A>,
    changes: &mut Changes<'_, A>,
    branch: &[u8],
    place: usize,
) -> Result<(), ExportFault>
    requires commit { (made : Commit) × IsAt repo.now.1 place made }
    requires written { IsUnderWay N.name_of repo.now written.old changes.old.files }
    ensures adds { (made : Commit)
        → IsAt repo.now.1 place made
        → WhileUnderWay N.name_of repo.now written.old changes.old.files (λ ws. Adds repo.now.1
        (with_changes ws made) (items_of (one_on (N.name_of repo.now.0) branch.now ws made))
        written.old written.new result) }
    ensures kept { (made : Commit)
        → IsAt repo.now.1 place made
        → Keeps N.name_of repo.now written.old changes.old.files changes.new.files (λ ws.
        with_changes ws made) result }
{
    repo.sound();
    let commit = name_at(repo, place);
    write_unmarked(alloc, repo, written, changes, branch, &commit)?;
    written.mark(place);
    Ok(())
}

/// Writes a held commit to a branch, its blobs first. It has no mark yet.
fn write_unmarked<N: Namer, A: Allocator + Copy, W: Sink>(
    alloc: A,
    repo: &Repo<N, A>,
    written: &mut Written<'_, W, A>,
    changes: &mut Changes<'_, A>,
    branch: &[u8],
    commit: &Name,
) -> Result<(), ExportFault>
    requires held { IsHeldAs kinds.Commit repo.now.1 commit.now }
    requires written { IsUnderWay N.name_of repo.now written.old changes.old.files }
    ensures adds { let made = commit_at repo.now.1 commit.now in WhileUnderWay N.name_of
        repo.now written.old changes.old.files (λ ws. Adds repo.now.1 (with_blobs ws (contents
        (own_files made))) (items_of (one_on (N.name_of repo.now.0) branch.now ws made)) written.old
        written.new result) }
    ensures kept { Keeps N.name_of repo.now written.old changes.old.files changes.new.files
        (λ ws. with_blobs ws (contents (own_files (commit_at repo.now.1 commit.now)))) result }
    ensures room { OnOk result (written.new.count < written.new.output.bytes) }
{
    repo.sound();
    add_changes(alloc, repo, written, changes, commit)?;
    let view = view_of(repo, commit);
    write_behind_blobs(repo, written, changes, branch, &view)
}

/// Writes a commit whose blobs were written and whose changes were gathered.
fn write_behind_blobs<N: Namer, A: Allocator + Copy, W: Sink>(
    repo: &Repo<N, A>,
    written: &mut Written<'_, W, A>,
    changes: &Changes<'_, A>,
    branch: &[u8],
    commit: &CommitView<'_>,
) -> Result<(), ExportFault>
    requires { IsUnderWayBehind repo.now.1 commit.now.parents written.old }
    ensures adds { AddsChanges repo.now.1 changes.now (λ ws gone own. root_items branch.now
        (length commit.now.parents) ++ lines_on branch.now (named_in (N.name_of repo.now.0) ws) ws
        commit.now.text (commits_called repo.now.1 commit.now.parents) gone own) written.old
        written.new result }
    ensures memory { NeedsNoMemory ExportFault.OutOfMemory result }
{
    write_root(&mut written.output, branch, commit)?;
    write_lines(repo, written, changes, branch, commit)
}

/// Writes the lines of a commit whose changes were gathered.
fn write_lines<N: Namer, A: Allocator + Copy, W: Sink>(
    repo: &Repo<N, A>,
    written: &mut Written<'_, W, A>,
    changes: &Changes<'_, A>,
    branch: &[u8],
    commit: &CommitView<'_>,
) -> Result<(), ExportFault>
    requires { IsUnderWayBehind repo.now.1 commit.now.parents written.old }
    ensures adds { AddsChanges repo.now.1 changes.now (λ ws gone own. lines_on branch.now
        (named_in (N.name_of repo.now.0) ws) ws commit.now.text
        (commits_called repo.now.1 commit.now.parents) gone own) written.old written.new result }
    ensures memory { NeedsNoMemory ExportFault.OutOfMemory result }
{
    write_commit_head(&mut written.output, branch, written.count + 1, commit)?;
    write_named_parents(repo, written, commit)?;
    write_differing(&mut written.output, changes)
}

/// Writes the lines of a commit's parents.
fn write_named_parents<N: Namer, A: Allocator + Copy, W: Sink>(
    repo: &Repo<N, A>,
    written: &mut Written<'_, W, A>,
    commit: &CommitView<'_>,
) -> Result<(), ExportFault>
    requires { IsUnderWayBehind repo.now.1 commit.now.parents written.old }
    ensures adds { AddsItems repo.now.1 (λ ws. parents_by (named_in (N.name_of repo.now.0) ws)
        (commits_called repo.now.1 commit.now.parents)) written.old written.new result }
    ensures memory { NeedsNoMemory ExportFault.OutOfMemory result }
{
    repo.sound();
    for number in 0..commit.parent_count() {
        if let Some(parent) = commit.parent(number) {
            let named = commit_ish(repo, written, &parent);
            write_parent(&mut written.output, parent_word(number), named)?;
        }
    }
    Ok(())
}

/// Writes the lines of what is gone and of what differs, and an empty line.
fn write_differing<A: Allocator + Copy, W: Sink>(
    output: &mut Output<'_, W>,
    changes: &Changes<'_, A>,
) -> Result<(), ExportFault>
    ensures text { (ws : List Value) (gone : List Path) (own : FileMap Bytes)
        → AreLinesOf ws gone own changes.now
        → Writes output.old output.new (items_text (differing_lines ws gone own)) result }
    ensures memory { NeedsNoMemory ExportFault.OutOfMemory result }
{
    let gone = changes.gone.as_slice();
    let files = changes.files.text.as_slice();
    output.write_all(&[gone, files, b"\n"])
}
