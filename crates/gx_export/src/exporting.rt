//! Exports of whole repositories. Source: git-fast-export(1).

ghost use Rattle.std.specs.Prelude.{◌≡◌, [], List};
ghost use Rattle.gx_model.specs.Export.{all_written, commit_commands, items_text, reached_commits};
ghost use Rattle.gx_model.specs.Faults.{NeedsNoMemory};
ghost use Rattle.gx_model.specs.Histories.Values.{Value};
ghost use Rattle.gx_model.specs.Records.HistoryOf.{history_of};
ghost use Rattle.gx_export.specs.Exports.{Exports, SendsExport, front_items, rest_items};
ghost use Rattle.gx_export.specs.Marks.{Adds, HasWritten};
ghost use Rattle.gx_export.specs.Outputs.{Writes};
ghost use Rattle.gx_export.specs.Parts.{AddsItems, IsToBegin};
ghost use Rattle.gx_export.specs.Texts.{items_of, last_items};

use crate::ExportFault;
use crate::commands::write_reset;
use crate::commit::write_commit;
use crate::lines::Lines;
use crate::output::Output;
use crate::refs::write_refs;
use crate::sayable::check_sayable;
use crate::written::Written;
use gx_object::Namer;
use gx_repo::Repo;
use gx_rev::reached_from_refs;
use gx_text::Sink;
use std::alloc::Allocator;

/// Writes a repository as a stream, as it is made: the commits that refs reach in the order of their records, each with
/// all of its files and after those of their bytes that weren't written yet, and then the refs.
///
/// Unsupported where a commit that refs reach has a header but that of an encoding, as a signature, which no stream can say:
/// nothing goes to the sink.
/// WriteFailed where the sink fails, or has taken 2^63 - 1 bytes of a longer text. What went to the sink stays there, and
/// is a front of the text. So a text that went out whole is no longer than what an import reads.
///
/// Cost: the text's length, the number of records, for each commit the number of its directories and of those of the commit
/// before, and the entries of the trees that didn't stand at their paths in it, for each of these whose file is new or
/// another its path's length and a look-up, and for each commit, parent and ref up to four look-ups. Memory: nine bytes for
/// each record, and two commits' file lines with their entries and the paths of their directories.
/// Source: git-fast-export(1), `--full-tree`.
pub fn export<N: Namer, A: Allocator + Copy, W: Sink>(
    alloc: A,
    repo: &Repo<N, A>,
    sink: &mut W,
) -> Result<(), ExportFault>
    ensures { Exports repo.now.1 (W.taken sink.old) (W.taken sink.new) result }
{
    let reached = reached_from_refs(alloc, repo)?;
    check_sayable(repo, &reached)?;
    let marks = vec![in alloc; 0; repo.store().len()]?;
    let mut written = Written::new(sink, marks);
    let result = write_text(alloc, repo, &mut written, &reached);
    let _ = written.into_sink();
    result
}

/// Writes the whole text, of which nothing was written yet.
fn write_text<N: Namer, A: Allocator + Copy, W: Sink>(
    alloc: A,
    repo: &Repo<N, A>,
    written: &mut Written<'_, W, A>,
    reached: &[bool],
) -> Result<(), ExportFault>
    requires begins { IsToBegin repo.now.1 reached.now written.old }
    requires bytes { written.old.output.bytes ≡ 0 }
    ensures name { written.new.output.name ≡ written.old.output.name }
    ensures text { SendsExport repo.now.1 written.old.output.taken written.new.output.taken result }
{
    write_front(alloc, repo, written, reached)?;
    write_rest(repo, written)
}

/// Writes the text up to the last commit.
fn write_front<N: Namer, A: Allocator + Copy, W: Sink>(
    alloc: A,
    repo: &Repo<N, A>,
    written: &mut Written<'_, W, A>,
    reached: &[bool],
) -> Result<(), ExportFault>
    requires { IsToBegin repo.now.1 reached.now written.old }
    ensures { let h = history_of repo.now.1 in Adds repo.now.1 (all_written (reached_commits h))
        (front_items h) written.old written.new result }
{
    written.output.write(b"feature done\n")?;
    write_commits(alloc, repo, written, reached)
}

/// Writes the commits that are reached.
fn write_commits<N: Namer, A: Allocator + Copy, W: Sink>(
    alloc: A,
    repo: &Repo<N, A>,
    written: &mut Written<'_, W, A>,
    reached: &[bool],
) -> Result<(), ExportFault>
    requires { IsToBegin repo.now.1 reached.now written.old }
    ensures { let commits = reached_commits (history_of repo.now.1) in Adds repo.now.1
        (all_written commits) (items_of (commit_commands [] commits)) written.old
        written.new result }
{
    let mut lines = Lines::new(alloc);
    for place in 0..reached.len() {
        if reached[place] {
            write_commit(alloc, repo, written, &mut lines, place)?;
        }
    }
    Ok(())
}

/// Writes the text behind the commits.
fn write_rest<N: Namer, A: Allocator + Copy, W: Sink>(
    repo: &Repo<N, A>,
    written: &mut Written<'_, W, A>,
) -> Result<(), ExportFault>
    requires written { (ws : List Value) × HasWritten repo.now.1 ws written.old }
    ensures adds { AddsItems repo.now.1 (rest_items (history_of repo.now.1)) written.old
        written.new result }
    ensures memory { NeedsNoMemory ExportFault.OutOfMemory result }
{
    write_last(&mut written.output, written.count)?;
    write_refs(repo, written)?;
    written.output.write(b"done\n")
}

/// Writes the reset behind the commits, where so many marks were given.
fn write_last<W: Sink>(output: &mut Output<'_, W>, marks: u64) -> Result<(), ExportFault>
    ensures text { Writes output.old output.new (items_text (last_items marks)) result }
    ensures memory { NeedsNoMemory ExportFault.OutOfMemory result }
{
    if marks > 0 {
        return write_reset(output, b"refs/gx/export");
    }
    Ok(())
}
