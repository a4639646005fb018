//! The commits that a walk begins with, by their places.

ghost use Rattle.std.specs.Prelude.{IfSome, map};
ghost use Rattle.gx_objects.specs.Answers.{OnlyUntold, Tells};
ghost use Rattle.gx_print.specs.Logs.{AreCommits};
ghost use Rattle.gx_ranges.specs.Fronts.{AreTips};
ghost use Rattle.gx_rev.specs.Objects.{commit_at};
ghost use Rattle.gx_merge_base.specs.Bases.{some_reach};
ghost use Rattle.gx_merge_base.specs.Fronts.{IsFront, lead_behind};

use gx_object::Name;
use gx_objects::{LookFault, Objects};
use gx_ranges::{add_parents, place_of};
use std::alloc::Allocator;
use std::collections::BTreeMap;

/// Held commits.
///
/// Cost: a look-up of the place of each.
pub(crate) fn front_of<O: Objects, A: Allocator + Copy>(
    alloc: A,
    objects: &O,
    commits: &[Name],
) -> Result<BTreeMap<u64, Name, A>, LookFault>
    requires held { IfSome (O.told objects.now) (λ r. AreCommits r commits.now) }
    ensures front { Tells (O.told objects.now) (λ r front. IsFront (O.stands objects.now)
        (some_reach (map (commit_at r) commits.now)) r front.entries) result }
    ensures fault { OnlyUntold (O.told objects.now) result }
{
    objects.sound_if_told();
    let mut front = BTreeMap::new(alloc);
    for commit in commits {
        let place = place_of(objects, commit)?;
        front.insert(place, *commit)?;
    }
    Ok(front)
}

/// The parents of the commits of a front.
///
/// Cost: the body of each commit, and a look-up of the place of each parent.
pub(crate) fn parents_behind<O: Objects, A: Allocator + Copy>(
    alloc: A,
    objects: &O,
    front: &BTreeMap<u64, Name, A>,
    room: &mut Vec<u8, A>,
) -> Result<BTreeMap<u64, Name, A>, LookFault>
    requires tips { IfSome (O.told objects.now) (AreTips (O.stands objects.now) front.now.entries) }
    ensures behind { Tells (O.told objects.now) (λ r behind. IsFront (O.stands objects.now)
        (lead_behind r front.now.entries) r behind.entries) result }
    ensures fault { OnlyUntold (O.told objects.now) result }
{
    objects.sound_if_told();
    let mut behind = BTreeMap::new(alloc);
    for (place, commit) in front.iter() {
        add_parents(objects, &mut behind, *place, commit, room)?;
    }
    Ok(behind)
}
