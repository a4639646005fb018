//! The refs at the end of an export: resets to commits, and tags.

ghost use Rattle.std.specs.Prelude.{List, map};
ghost use Rattle.gx_model.specs.Export.{command_items, ref_command};
ghost use Rattle.gx_model.specs.Faults.{NeedsNoMemory};
ghost use Rattle.gx_model.specs.Histories.Values.{Value};
ghost use Rattle.gx_model.specs.Records.HistoryOf.{history_of, target_in};
ghost use Rattle.gx_model.specs.Records.Sound.{IsTarget};
ghost use Rattle.gx_rev.specs.Objects.{value_at};
ghost use Rattle.gx_export.specs.Marks.{HasWritten};
ghost use Rattle.gx_export.specs.Parts.{AddsItems};
ghost use Rattle.gx_export.specs.Texts.{items_of};

use crate::ExportFault;
use crate::commands::{write_reset_to, write_tag};
use crate::naming::CommitIsh;
use crate::written::{Written, mark_of};
use gx_object::{Name, Namer};
use gx_repo::Repo;
use gx_rev::tag_of;
use gx_text::Sink;
use std::alloc::Allocator;

/// Writes all refs.
pub(crate) fn write_refs<N: Namer, A: Allocator + Copy, W: Sink>(
    repo: &Repo<N, A>,
    written: &mut Written<'_, W, A>,
) -> Result<(), ExportFault>
    requires written { (ws : List Value) × HasWritten repo.now.1 ws written.old }
    ensures adds { AddsItems repo.now.1 (λ ws. items_of (map (ref_command ws) (history_of
        repo.now.1).refs)) written.old written.new result }
    ensures memory { NeedsNoMemory ExportFault.OutOfMemory result }
{
    for (name, object) in repo.refs() {
        write_ref(repo, written, name, &object)?;
    }
    Ok(())
}

/// Writes a ref: a reset where it holds a commit, and a tag where it holds a tag.
fn write_ref<N: Namer, A: Allocator + Copy, W: Sink>(
    repo: &Repo<N, A>,
    written: &mut Written<'_, W, A>,
    name: &[u8],
    object: &Name,
) -> Result<(), ExportFault>
    requires target { IsTarget repo.now.1.records name.now object.now.bytes }
    requires written { (ws : List Value) × HasWritten repo.now.1 ws written.old }
    ensures adds { AddsItems repo.now.1 (λ ws. command_items (ref_command ws (
      name.now,
      target_in (value_at repo.now.1 object.now),
    ))) written.old written.new result }
    ensures memory { NeedsNoMemory ExportFault.OutOfMemory result }
{
    repo.sound();
    match tag_of(repo, object) {
        None => {
            let mark = mark_of(repo, written, object);
            write_reset_to(&mut written.output, name, CommitIsh::Marked(mark))
        }
        Some(tag) => {
            let mark = mark_of(repo, written, &tag.object());
            write_tag(&mut written.output, &tag, CommitIsh::Marked(mark))
        }
    }
}
