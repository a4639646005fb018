//! The next commit of a walk: the newest that is wanted and that none of the unwanted reaches.

ghost use Rattle.std.specs.Prelude.{◌≡◌, IfOk, IfSome};
ghost use Rattle.gx_objects.specs.Answers.{OnlyUntold, Tells};
ghost use Rattle.gx_ranges.specs.Fronts.{AreTips};
ghost use Rattle.gx_ranges.specs.Walks.{FindsNext, TakesLast};

use crate::fronts::is_reached;
use gx_object::Name;
use gx_objects::{LookFault, Objects};
use std::alloc::Allocator;
use std::collections::BTreeMap;

/// Takes out the newest commit that none of the unwanted reaches. What they reach is dropped.
pub(crate) fn next<O: Objects, A: Allocator + Copy>(
    objects: &O,
    wanted: &mut BTreeMap<u64, Name, A>,
    unwanted: &mut BTreeMap<u64, Name, A>,
    room: &mut Vec<u8, A>,
) -> Result<Option<(u64, Name)>, LookFault>
    requires wanted { IfSome (O.told objects.now)
        (AreTips (O.stands objects.now) wanted.old.entries) }
    requires unwanted { IfSome (O.told objects.now)
        (AreTips (O.stands objects.now) unwanted.old.entries) }
    ensures next { Tells (O.told objects.now) (FindsNext (O.stands objects.now) wanted.old.entries
        unwanted.old.entries wanted.new.entries unwanted.new.entries) result }
    ensures last { IfOk result (TakesLast wanted.old.entries wanted.new.entries) }
    ensures fault { OnlyUntold (O.told objects.now) result }
{
    objects.sound_if_told();
    while let Some((place, commit)) = wanted.pop_last() {
        if !is_reached(objects, unwanted, place, room)? {
            return Ok(Some((place, commit)));
        }
    }
    Ok(None)
}
