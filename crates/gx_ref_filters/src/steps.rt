//! From which places a walk leads down to a place: the steps to parents are noted from the newest commit down, and then gone
//! through from the last of them up.

ghost use Rattle.std.specs.Prelude.{IfOk, IfSome, OnOk};
ghost use Rattle.gx_objects.specs.Answers.{OnlyUntold, Tells};
ghost use Rattle.gx_ranges.specs.Fronts.{AreBelow, AreTips, IsLastBehind, IsTip};
ghost use Rattle.gx_ref_filters.specs.Steps.{AreLeading, AreSteps, HoldsRefs, TakesSteps};
ghost use Rattle.gx_tips.specs.Tips.{AreTips as AreRefs};

use gx_object::Name;
use gx_objects::{LookFault, Objects};
use gx_ranges::add_parents;
use gx_tips::Tip;
use std::alloc::{AllocError, Allocator};
use std::collections::{BTreeMap, BTreeSet};

/// The commits of refs, by their places.
pub(crate) fn front_of<O: Objects, A: Allocator + Copy>(
    alloc: A,
    objects: &O,
    refs: &[Tip<'_>],
) -> Result<BTreeMap<u64, Name, A>, LookFault>
    requires refs { IfSome (O.told objects.now) (AreRefs (O.stands objects.now) refs.now) }
    ensures front { Tells (O.told objects.now)
        (λ r front. HoldsRefs (O.stands objects.now) refs.now r front.entries) result }
    ensures fault { OnlyUntold (O.told objects.now) result }
{
    objects.sound_if_told();
    let mut front = BTreeMap::new(alloc);
    for tip in refs {
        front.insert(tip.place, tip.commit)?;
    }
    Ok(front)
}

/// The steps from commits that stand behind a place down to their parents, from the newest commit on, until none stands behind it.
///
/// Cost: the bodies of the commits that stand behind the place and are reached, and a look-up for each of their parents. Memory:
/// a pair of places for each parent.
pub(crate) fn steps_to<O: Objects, A: Allocator + Copy>(
    alloc: A,
    objects: &O,
    front: &mut BTreeMap<u64, Name, A>,
    place: u64,
    room: &mut Vec<u8, A>,
) -> Result<Vec<(u64, u64), A>, LookFault>
    requires tips { IfSome (O.told objects.now) (AreTips (O.stands objects.now) front.old.entries) }
    ensures steps { Tells (O.told objects.now) (λ r steps.
        AreSteps (O.stands objects.now) place front.old.entries r steps.items) result }
    ensures fault { OnlyUntold (O.told objects.now) result }
{
    objects.sound_if_told();
    let mut steps = Vec::new(alloc);
    while let Some((last, commit)) = pop_behind(front, place) {
        step_down(alloc, objects, front, last, &commit, &mut steps, room)?;
    }
    Ok(steps)
}

/// Goes from the commit at a place, which isn't among the others any more, to its parents.
fn step_down<O: Objects, A: Allocator + Copy>(
    alloc: A,
    objects: &O,
    front: &mut BTreeMap<u64, Name, A>,
    last: u64,
    commit: &Name,
    steps: &mut Vec<(u64, u64), A>,
    room: &mut Vec<u8, A>,
) -> Result<(), LookFault>
    requires tips { IfSome (O.told objects.now) (AreTips (O.stands objects.now) front.old.entries) }
    requires tip { IfSome (O.told objects.now)
        (λ r. IsTip (O.stands objects.now) r (last, commit.now)) }
    ensures below { OnOk result
        (AreBelow last front.old.entries → AreBelow last front.new.entries) }
    ensures steps { Tells (O.told objects.now) (λ r _. TakesSteps (O.stands objects.now)
        (last, commit.now) front.old.entries front.new.entries steps.old.items steps.new.items r)
        result }
    ensures fault { OnlyUntold (O.told objects.now) result }
{
    objects.sound_if_told();
    let mut parents = BTreeMap::new(alloc);
    add_parents(objects, &mut parents, last, commit, room)?;
    while let Some((there, parent)) = parents.pop_last() {
        steps.push((last, there))?;
        front.insert(there, parent)?;
    }
    Ok(())
}

/// Takes out the last commit, where it stands behind a place.
fn pop_behind<A: Allocator + Copy>(
    front: &mut BTreeMap<u64, Name, A>,
    place: u64,
) -> Option<(u64, Name)>
    ensures { IsLastBehind place front.old.entries front.new.entries result }
{
    let (last, _) = front.last_key_value()?;
    if *last <= place {
        return None;
    }
    front.pop_last()
}

/// The places from which steps lead to a place, that place among them. Cost and memory: the steps.
pub(crate) fn leading_to<A: Allocator + Copy>(
    alloc: A,
    steps: Vec<(u64, u64), A>,
    place: u64,
) -> Result<BTreeSet<u64, A>, AllocError>
    ensures { IfOk result (AreLeading place steps.items) }
{
    let mut left = steps;
    let mut places = BTreeSet::new(alloc);
    places.insert(place)?;
    while let Some((above, below)) = left.pop() {
        if places.contains(&below) {
            places.insert(above)?;
        }
    }
    Ok(places)
}
