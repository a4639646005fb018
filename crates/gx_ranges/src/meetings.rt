//! What both of two commits reach: a walk goes down from the one, and the other comes along, until they meet.

ghost use Rattle.std.specs.Prelude.{◌&&◌, IfSome};
ghost use Rattle.gx_model.specs.declared.objects.Kind.TheVariants as kinds;
ghost use Rattle.gx_objects.specs.Answers.{OnlyUntold, Tells};
ghost use Rattle.gx_ranges.specs.Fronts.{Adds, AreTips, lead_to};
ghost use Rattle.gx_ranges.specs.Walks.{reach_both};
ghost use Rattle.gx_rev.specs.Objects.{IsHeldAs, commit_at};

use crate::fronts::{add, add_parents, is_reached};
use gx_object::Name;
use gx_objects::{LookFault, Objects};
use std::alloc::Allocator;
use std::collections::BTreeMap;

/// Adds commits that together reach what both of two held commits reach.
///
/// Cost: the bodies of the commits that only one of them reaches. Takes memory for the places that are still to be visited.
/// Source: git-merge-base(1).
pub(crate) fn add_common<O: Objects, A: Allocator + Copy>(
    alloc: A,
    objects: &O,
    left: &Name,
    right: &Name,
    common: &mut BTreeMap<u64, Name, A>,
    room: &mut Vec<u8, A>,
) -> Result<(), LookFault>
    requires tips { IfSome (O.told objects.now)
        (AreTips (O.stands objects.now) common.old.entries) }
    requires left { IfSome (O.told objects.now) (λ r. IsHeldAs kinds.Commit r left.now) }
    requires right { IfSome (O.told objects.now) (λ r. IsHeldAs kinds.Commit r right.now) }
    ensures adds { Tells (O.told objects.now) (λ r _. Adds (O.stands objects.now)
        (reach_both (commit_at r left.now) (commit_at r right.now))
        common.old.entries common.new.entries r) result }
    ensures fault { OnlyUntold (O.told objects.now) result }
{
    objects.sound_if_told();
    let mut lefts = BTreeMap::new(alloc);
    add(objects, &mut lefts, left)?;
    let mut rights = BTreeMap::new(alloc);
    add(objects, &mut rights, right)?;
    add_meetings(objects, &mut lefts, &mut rights, common, room)
}

/// Adds the commits at which the walks from these meet.
fn add_meetings<O: Objects, A: Allocator + Copy>(
    objects: &O,
    lefts: &mut BTreeMap<u64, Name, A>,
    rights: &mut BTreeMap<u64, Name, A>,
    common: &mut BTreeMap<u64, Name, A>,
    room: &mut Vec<u8, A>,
) -> Result<(), LookFault>
    requires tips { IfSome (O.told objects.now)
        (AreTips (O.stands objects.now) common.old.entries) }
    requires lefts { IfSome (O.told objects.now)
        (AreTips (O.stands objects.now) lefts.old.entries) }
    requires rights { IfSome (O.told objects.now)
        (AreTips (O.stands objects.now) rights.old.entries) }
    ensures adds { Tells (O.told objects.now) (λ r _. Adds (O.stands objects.now)
        (λ c. lead_to r lefts.old.entries c && lead_to r rights.old.entries c)
        common.old.entries common.new.entries r) result }
    ensures fault { OnlyUntold (O.told objects.now) result }
{
    objects.sound_if_told();
    while !rights.is_empty() {
        let Some((place, commit)) = lefts.pop_last() else {
            return Ok(());
        };
        if !is_reached(objects, rights, place, room)? {
            add_parents(objects, lefts, place, &commit, room)?;
            continue;
        }
        rights.remove(&place);
        common.insert(place, commit)?;
    }
    Ok(())
}
