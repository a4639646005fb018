//! The text of an export of changes, part by part.

ghost use Rattle.std.specs.Prelude.{◌++◌, [], IfSome, List};
ghost use Rattle.gx_model.specs.Changes.{all_changes, carrier_reset, commits_with_changes, named_in};
ghost use Rattle.gx_model.specs.Export.{items_text, ref_by};
ghost use Rattle.gx_model.specs.Faults.{NeedsNoMemory};
ghost use Rattle.gx_model.specs.Histories.{Records};
ghost use Rattle.gx_object.specs.declared.name.Name.{Name};
ghost use Rattle.gx_tips.specs.declared.tips.Tip.{Tip};
ghost use Rattle.gx_branches.specs.Branches.{FindsBranches};
ghost use Rattle.gx_export.specs.ChangedParts.{closing, opening};
ghost use Rattle.gx_export.specs.Outputs.{Writes};
ghost use Rattle.gx_export.specs.Texts.{items_of};
ghost use Rattle.gx_print.specs.Logs.{AreCommits};
ghost use Rattle.gx_sending.specs.Faults.{IsOnTheWay, stopped};
ghost use Rattle.gx_sending.specs.Marks.{Adds, HasWritten};
ghost use Rattle.gx_tips.specs.Spans.{AreNewestFirst};
ghost use Rattle.gx_tips.specs.Tips.{AreTips, targets};
ghost use Rattle.gx_changes.specs.Commits.{AddsItems};
ghost use Rattle.gx_changes.specs.Texts.{DeliversAll, behind_items, commits_sent};

use crate::commit::write_commit;
use crate::refs::write_refs;
use gx_branches::Branches;
use gx_export::{ExportFault, Output, write_reset};
use gx_object::Name;
use gx_objects::Objects;
use gx_sending::{SendFault, Written};
use gx_text::Sink;
use gx_tips::Tip;
use std::alloc::Allocator;

/// Writes commits, the last of them first, and refs. What is in the room before and after stands for nothing.
pub(crate) fn write_sent<O: Objects, A: Allocator + Copy, W: Sink>(
    alloc: A,
    objects: &O,
    room: &mut Vec<u8, A>,
    sink: &mut W,
    refs: &[Tip<'_>],
    commits: &[Name],
    closed: bool,
) -> Result<(), SendFault>
    requires refs { IfSome (O.told objects.now) (AreTips (O.stands objects.now) refs.now) }
    requires commits { IfSome (O.told objects.now) (AreNewestFirst commits.now) }
    ensures text { IfSome (O.told objects.now) (λ r. DeliversAll (O.name_of objects.now) closed
        (commits_sent r commits.now) (targets r refs.now) (W.taken sink.old) (W.taken sink.new)
        (stopped result)) }
    ensures fault { IsOnTheWay (O.told objects.now) result }
{
    let branches = Branches::new(alloc, objects, room, refs, commits)?;
    let mut written = Written::new(alloc, sink);
    let result = write_text(
        alloc,
        objects,
        room,
        &mut written,
        &branches,
        refs,
        commits,
        closed,
    );
    let _ = written.into_sink();
    result
}

/// Writes the whole text, of which nothing was written yet.
fn write_text<O: Objects, A: Allocator + Copy, W: Sink>(
    alloc: A,
    objects: &O,
    room: &mut Vec<u8, A>,
    written: &mut Written<'_, W, A>,
    branches: &Branches<'_, A>,
    refs: &[Tip<'_>],
    commits: &[Name],
    closed: bool,
) -> Result<(), SendFault>
    requires refs { IfSome (O.told objects.now) (AreTips (O.stands objects.now) refs.now) }
    requires commits { IfSome (O.told objects.now) (λ r. AreCommits r commits.now) }
    requires branches { IfSome (O.told objects.now)
        (λ r. FindsBranches refs.now commits.now r branches.now) }
    requires written { (r : Records) → HasWritten r [] written.old }
    ensures adds { IfSome (O.told objects.now) (λ r. Adds (all_changes (commits_sent r commits.now))
        (opening closed ++ (items_of (commits_with_changes (O.name_of objects.now)
        (targets r refs.now) [] (commits_sent r commits.now))
        ++ behind_items (O.name_of objects.now) closed (commits_sent r commits.now)
        (targets r refs.now) (all_changes (commits_sent r commits.now))))
        written.old written.new result r) }
    ensures fault { IsOnTheWay (O.told objects.now) result }
{
    write_opening(&mut written.output, closed)?;
    write_commits(alloc, objects, room, written, branches, commits)?;
    write_behind(objects, room, written, branches, refs, closed)
}

/// Writes the line that tells that `done` comes, where it does.
fn write_opening<W: Sink>(output: &mut Output<'_, W>, closed: bool) -> Result<(), ExportFault>
    ensures text { Writes output.old output.new (items_text (opening closed)) result }
    ensures memory { NeedsNoMemory ExportFault.OutOfMemory result }
{
    if closed {
        return output.write(b"feature done\n");
    }
    Ok(())
}

/// Writes commits, the last of them first.
fn write_commits<O: Objects, A: Allocator + Copy, W: Sink>(
    alloc: A,
    objects: &O,
    room: &mut Vec<u8, A>,
    written: &mut Written<'_, W, A>,
    branches: &Branches<'_, A>,
    commits: &[Name],
) -> Result<(), SendFault>
    requires commits { IfSome (O.told objects.now) (λ r. AreCommits r commits.now) }
    requires written { IfSome (O.told objects.now) (λ r. HasWritten r [] written.old) }
    ensures adds { IfSome (O.told objects.now) (λ r. (refs : List Tip)
        → FindsBranches refs commits.now r branches.now
        → Adds (all_changes (commits_sent r commits.now)) (items_of (commits_with_changes
        (O.name_of objects.now) (targets r refs) [] (commits_sent r commits.now)))
        written.old written.new result r) }
    ensures fault { IsOnTheWay (O.told objects.now) result }
{
    let mut left = commits.len();
    while left > 0 {
        left -= 1;
        let branch = branches.of(left);
        write_commit(alloc, objects, room, written, branch, &commits[left])?;
    }
    Ok(())
}

/// Writes the text behind the commits.
fn write_behind<O: Objects, A: Allocator + Copy, W: Sink>(
    objects: &O,
    room: &mut Vec<u8, A>,
    written: &mut Written<'_, W, A>,
    branches: &Branches<'_, A>,
    refs: &[Tip<'_>],
    closed: bool,
) -> Result<(), SendFault>
    requires refs { IfSome (O.told objects.now) (AreTips (O.stands objects.now) refs.now) }
    ensures adds { IfSome (O.told objects.now) (λ r. (commits : List Name)
        → FindsBranches refs.now commits r branches.now
        → AddsItems (λ r ws. behind_items (O.name_of objects.now) closed (commits_sent r commits)
        (targets r refs.now) ws) written.old written.new result r) }
    ensures fault { IsOnTheWay (O.told objects.now) result }
{
    write_carrier(&mut written.output, branches)?;
    write_refs(objects, room, written, refs)?;
    write_closing(&mut written.output, closed)?;
    Ok(())
}

/// Writes the reset of the export's own branch, where a commit went out on it.
fn write_carrier<A: Allocator + Copy, W: Sink>(
    output: &mut Output<'_, W>,
    branches: &Branches<'_, A>,
) -> Result<(), ExportFault>
    ensures text { (r : Records) (refs : List Tip) (commits : List Name)
        → FindsBranches refs commits r branches.now
        → Writes output.old output.new (items_text (items_of (carrier_reset (targets r refs)
        (commits_sent r commits)))) result }
    ensures memory { NeedsNoMemory ExportFault.OutOfMemory result }
{
    if branches.reach_all() {
        return Ok(());
    }
    write_reset(output, b"refs/gx/export")
}

/// Writes the line that closes a stream, where it is to be closed.
fn write_closing<W: Sink>(output: &mut Output<'_, W>, closed: bool) -> Result<(), ExportFault>
    ensures text { Writes output.old output.new (items_text (closing closed)) result }
    ensures memory { NeedsNoMemory ExportFault.OutOfMemory result }
{
    if closed {
        return output.write(b"done\n");
    }
    Ok(())
}
