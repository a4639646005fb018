//! The refs at the end of an export: resets to commits, and tags.

ghost use Rattle.std.specs.Prelude.{IfSome, map};
ghost use Rattle.gx_model.specs.Changes.{named_in};
ghost use Rattle.gx_model.specs.Export.{command_items, ref_by};
ghost use Rattle.gx_model.specs.Records.HistoryOf.{target_in};
ghost use Rattle.gx_rev.specs.Objects.{value_at};
ghost use Rattle.gx_export.specs.Texts.{items_of};
ghost use Rattle.gx_sending.specs.Faults.{IsOnTheWay};
ghost use Rattle.gx_changes.specs.Commits.{AddsItems};
ghost use Rattle.gx_tips.specs.Tips.{AreTips, IsTip, targets};

use gx_export::{write_reset_to, write_tag};
use gx_object::{Kind, decode_tag};
use gx_objects::Objects;
use gx_questions::body;
use gx_sending::{SendFault, Written};
use gx_text::Sink;
use gx_tips::Tip;
use std::alloc::Allocator;

/// Writes refs. What is in the room before and after stands for nothing.
pub(crate) fn write_refs<O: Objects, A: Allocator + Copy, W: Sink>(
    objects: &O,
    room: &mut Vec<u8, A>,
    written: &mut Written<'_, W, A>,
    refs: &[Tip<'_>],
) -> Result<(), SendFault>
    requires refs { IfSome (O.told objects.now) (AreTips (O.stands objects.now) refs.now) }
    ensures adds { IfSome (O.told objects.now) (AddsItems (λ r ws. items_of (map (ref_by
        (named_in (O.name_of objects.now) ws)) (targets r refs.now))) written.old
        written.new result) }
    ensures fault { IsOnTheWay (O.told objects.now) result }
{
    for tip in refs {
        write_ref(objects, room, written, tip)?;
    }
    Ok(())
}

/// Writes a ref: a reset where it holds a commit, and a tag where it holds a tag.
fn write_ref<O: Objects, A: Allocator + Copy, W: Sink>(
    objects: &O,
    room: &mut Vec<u8, A>,
    written: &mut Written<'_, W, A>,
    tip: &Tip<'_>,
) -> Result<(), SendFault>
    requires tip { IfSome (O.told objects.now) (λ r. IsTip (O.stands objects.now) r tip.now) }
    ensures adds { IfSome (O.told objects.now) (AddsItems (λ r ws. command_items (ref_by
        (named_in (O.name_of objects.now) ws)
        (tip.now.name.now, target_in (value_at r tip.now.object))))
        written.old written.new result) }
    ensures fault { IsOnTheWay (O.told objects.now) result }
{
    objects.sound_if_told();
    let commit = written.commit_ish(&tip.commit);
    if tip.object == tip.commit {
        write_reset_to(&mut written.output, tip.name, commit)?;
        return Ok(());
    }
    let object = body(objects, &tip.object, room)?;
    let Kind::Tag = object.kind else {
        return Err(SendFault::Damaged);
    };
    let Ok(tag) = decode_tag(object.body) else {
        return Err(SendFault::Damaged);
    };
    write_tag(&mut written.output, &tag, commit)?;
    Ok(())
}
