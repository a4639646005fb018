//! One commit, after the blobs of its files that weren't written yet.

ghost use Rattle.std.specs.Prelude.{◌≡◌, ◌≢◌, ◌<◌, ◌++◌, List, length, OnOk, codes};
ghost use Rattle.gx_model.specs.declared.objects.Kind.TheVariants as kinds;
ghost use Rattle.gx_model.specs.Export.{carrier, contents, items_text, one_commit, with_blobs, with_commit};
ghost use Rattle.gx_model.specs.Faults.{NeedsNoMemory};
ghost use Rattle.gx_model.specs.Histories.Files.{FileMap};
ghost use Rattle.gx_model.specs.Histories.Marks.{IsAt};
ghost use Rattle.gx_model.specs.Histories.Values.{Commit, Value, files_of};
ghost use Rattle.gx_model.specs.Texts.{Bytes};
ghost use Rattle.gx_rev.specs.Objects.{IsHeldAs, commit_at};
ghost use Rattle.gx_export.specs.Marks.{Adds};
ghost use Rattle.gx_export.specs.Outputs.{Writes};
ghost use Rattle.gx_export.specs.Parts.{AddsItems, AddsLines, IsUnderWay, IsUnderWayBehind, Keeps, WhileUnderWay, commits_called};
ghost use Rattle.gx_export.specs.Texts.{change_lines, commit_lines, file_items, items_of, parent_items, root_items};

use crate::ExportFault;
use crate::commands::{write_commit_head, write_parent, write_reset};
use crate::lines::Lines;
use crate::naming::CommitIsh;
use crate::output::Output;
use crate::trees::add_files;
use crate::written::{Written, mark_of};
use gx_object::{CommitView, Name, Namer};
use gx_repo::Repo;
use gx_rev::{name_at, view_of};
use gx_text::Sink;
use std::alloc::Allocator;

/// Writes the commit at a place, its blobs first. `lines` gathers the lines of its files.
pub(crate) fn write_commit<'a, N: Namer, A: Allocator + Copy, W: Sink>(
    alloc: A,
    repo: &'a Repo<N, A>,
    written: &mut Written<'_, W, A>,
    lines: &mut Lines<'a, A>,
    place: usize,
) -> Result<(), ExportFault>
    requires commit { (made : Commit) × IsAt repo.now.1 place made }
    requires written { IsUnderWay N.name_of repo.now written.old lines.old }
    ensures adds { (made : Commit)
        → IsAt repo.now.1 place made
        → WhileUnderWay N.name_of repo.now written.old lines.old (λ ws. Adds repo.now.1 (with_commit
        ws made) (items_of (one_commit ws made)) written.old written.new result) }
    ensures kept { (made : Commit)
        → IsAt repo.now.1 place made
        → Keeps N.name_of repo.now written.old lines.old lines.new (λ ws. with_commit ws made)
        result }
{
    repo.sound();
    let commit = name_at(repo, place);
    write_unmarked(alloc, repo, written, lines, &commit)?;
    written.mark(place);
    Ok(())
}

/// Writes a held commit, its blobs first. It has no mark yet.
fn write_unmarked<'a, N: Namer, A: Allocator + Copy, W: Sink>(
    alloc: A,
    repo: &'a Repo<N, A>,
    written: &mut Written<'_, W, A>,
    lines: &mut Lines<'a, A>,
    commit: &Name,
) -> Result<(), ExportFault>
    requires held { IsHeldAs kinds.Commit repo.now.1 commit.now }
    requires written { IsUnderWay N.name_of repo.now written.old lines.old }
    ensures adds { let made = commit_at repo.now.1 commit.now in WhileUnderWay N.name_of
        repo.now written.old lines.old (λ ws. Adds repo.now.1 (with_blobs ws (contents (files_of
        made))) (items_of (one_commit ws made)) written.old written.new result) }
    ensures kept { Keeps N.name_of repo.now written.old lines.old lines.new
        (λ ws. with_blobs ws (contents (files_of (commit_at repo.now.1 commit.now)))) result }
    ensures room { OnOk result (written.new.count < written.new.output.bytes) }
{
    repo.sound();
    add_files(alloc, repo, written, lines, commit)?;
    let view = view_of(repo, commit);
    write_behind_blobs(repo, written, &view, &lines.text)
}

/// Writes a commit whose blobs were written and whose files have these lines.
fn write_behind_blobs<N: Namer, A: Allocator + Copy, W: Sink>(
    repo: &Repo<N, A>,
    written: &mut Written<'_, W, A>,
    commit: &CommitView<'_>,
    lines: &[u8],
) -> Result<(), ExportFault>
    requires { IsUnderWayBehind repo.now.1 commit.now.parents written.old }
    ensures adds { AddsLines repo.now.1 lines.now (λ ws files. root_items carrier (length
        commit.now.parents) ++ commit_lines ws commit.now.text (commits_called repo.now.1
        commit.now.parents) files) written.old written.new result }
    ensures memory { NeedsNoMemory ExportFault.OutOfMemory result }
{
    write_root(&mut written.output, b"refs/gx/export", commit)?;
    write_lines(repo, written, commit, lines)
}

/// Writes the reset of a branch before a commit without parents.
pub fn write_root<W: Sink>(
    output: &mut Output<'_, W>,
    branch: &[u8],
    commit: &CommitView<'_>,
) -> Result<(), ExportFault>
    ensures text { Writes output.old output.new
        (items_text (root_items branch.now (length commit.now.parents))) result }
    ensures memory { NeedsNoMemory ExportFault.OutOfMemory result }
{
    if commit.parent_count() == 0 {
        return write_reset(output, branch);
    }
    Ok(())
}

/// Writes the lines of a commit whose files have these lines.
fn write_lines<N: Namer, A: Allocator + Copy, W: Sink>(
    repo: &Repo<N, A>,
    written: &mut Written<'_, W, A>,
    commit: &CommitView<'_>,
    lines: &[u8],
) -> Result<(), ExportFault>
    requires { IsUnderWayBehind repo.now.1 commit.now.parents written.old }
    ensures adds { AddsLines repo.now.1 lines.now (λ ws files. commit_lines ws commit.now.text
        (commits_called repo.now.1 commit.now.parents) files) written.old written.new result }
    ensures memory { NeedsNoMemory ExportFault.OutOfMemory result }
{
    write_commit_head(
        &mut written.output,
        b"refs/gx/export",
        written.count + 1,
        commit,
    )?;
    write_parents(repo, written, commit)?;
    write_files(&mut written.output, lines)
}

/// Writes the lines of a commit's parents.
fn write_parents<N: Namer, A: Allocator + Copy, W: Sink>(
    repo: &Repo<N, A>,
    written: &mut Written<'_, W, A>,
    commit: &CommitView<'_>,
) -> Result<(), ExportFault>
    requires { IsUnderWayBehind repo.now.1 commit.now.parents written.old }
    ensures adds { AddsItems repo.now.1 (λ ws. parent_items ws (commits_called repo.now.1
        commit.now.parents)) written.old written.new result }
    ensures memory { NeedsNoMemory ExportFault.OutOfMemory result }
{
    repo.sound();
    for number in 0..commit.parent_count() {
        if let Some(parent) = commit.parent(number) {
            let mark = mark_of(repo, written, &parent);
            write_parent(
                &mut written.output,
                parent_word(number),
                CommitIsh::Marked(mark),
            )?;
        }
    }
    Ok(())
}

/// The word of the line of the parent with this number, from 0.
pub fn parent_word(number: usize) -> &'static [u8]
    ensures first { number ≡ 0 → result.now ≡ codes "from" }
    ensures other { number ≢ 0 → result.now ≡ codes "merge" }
{
    if number == 0 { b"from" } else { b"merge" }
}

/// Writes `deleteall`, the lines of all files, and an empty line.
fn write_files<W: Sink>(output: &mut Output<'_, W>, lines: &[u8]) -> Result<(), ExportFault>
    ensures text { (ws : List Value) (files : FileMap Bytes)
        → lines.now ≡ items_text (file_items ws files)
        → Writes output.old output.new (items_text (change_lines ws files)) result }
    ensures memory { NeedsNoMemory ExportFault.OutOfMemory result }
{
    output.write_all(&[b"deleteall\n".as_slice(), lines, b"\n"])
}
