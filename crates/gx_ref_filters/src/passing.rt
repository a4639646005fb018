//! The refs that pass one test. Source: git-for-each-ref(1).

ghost use Rattle.std.specs.Prelude.{◌≡◌, IfOk, IfSome};
ghost use Rattle.std.specs.BTreeSet.{contains};
ghost use Rattle.std.specs.List.{filter};
ghost use Rattle.std.specs.Ordering.{nat_cmp};
ghost use Rattle.gx_model.specs.declared.objects.Kind.TheVariants as kinds;
ghost use Rattle.gx_model.specs.Replay.{peeled_at};
ghost use Rattle.gx_model.specs.Revisions.Ranges.{reaches};
ghost use Rattle.gx_objects.specs.Answers.{OnlyUntold, Tells};
ghost use Rattle.gx_ref_filters.specs.Filters.{AreKept, agrees, is_or_names, points_at};
ghost use Rattle.gx_rev.specs.Objects.{IsHeld, IsHeldAs, commit_at, value_at};
ghost use Rattle.gx_tips.specs.Tips.{AreTips};

use crate::steps::{front_of, leading_to, steps_to};
use gx_object::Name;
use gx_objects::{LookFault, Objects};
use gx_ranges::place_of;
use gx_tips::{Tip, places_of, reached_places};
use std::alloc::{AllocError, Allocator};
use std::collections::{BTreeMap, BTreeSet};

/// Those refs whose object, or the commit that this peels to, is a held object. Takes no memory but for the refs.
pub(crate) fn pointing_at<'t, O: Objects, A: Allocator + Copy>(
    alloc: A,
    objects: &O,
    refs: &[Tip<'t>],
    object: &Name,
) -> Result<Vec<Tip<'t>, A>, LookFault>
    requires refs { IfSome (O.told objects.now) (AreTips (O.stands objects.now) refs.now) }
    requires object { IfSome (O.told objects.now) (λ r. IsHeld r object.now) }
    ensures kept { Tells (O.told objects.now) (λ r found. AreKept (O.stands objects.now)
        (λ ref. points_at (O.name_of objects.now) (value_at r object.now) ref.1)
        refs.now r found.items) result }
    ensures fault { OnlyUntold (O.told objects.now) result }
{
    objects.sound_if_told();
    Ok(naming(alloc, refs, object)?)
}

/// Those refs whose object or commit has a name.
fn naming<'t, A: Allocator + Copy>(
    alloc: A,
    refs: &[Tip<'t>],
    object: &Name,
) -> Result<Vec<Tip<'t>, A>, AllocError>
    ensures found { IfOk result (λ found.
        found.items ≡ filter (is_or_names object.now) refs.now) }
{
    let mut found = Vec::new(alloc);
    for tip in refs {
        if is_or_names(object, tip) {
            found.push(*tip)?;
        }
    }
    Ok(found)
}

/// Whether a ref's object or its commit has a name.
fn is_or_names(object: &Name, tip: &Tip<'_>) -> bool
    ensures { result ≡ is_or_names object.now tip.now }
{
    tip.object == *object || tip.commit == *object
}

/// Those refs whose commits a held commit reaches, or the others.
///
/// Cost: the bodies of the commits that it reaches and that stand behind the oldest of the refs' commits, and a look-up for each of
/// their parents.
pub(crate) fn reached_from<'t, O: Objects, A: Allocator + Copy>(
    alloc: A,
    objects: &O,
    room: &mut Vec<u8, A>,
    refs: &[Tip<'t>],
    commit: &Name,
    so: bool,
) -> Result<Vec<Tip<'t>, A>, LookFault>
    requires refs { IfSome (O.told objects.now) (AreTips (O.stands objects.now) refs.now) }
    requires commit { IfSome (O.told objects.now) (λ r. IsHeldAs kinds.Commit r commit.now) }
    ensures kept { Tells (O.told objects.now) (λ r found. AreKept (O.stands objects.now)
        (λ ref. agrees so (reaches (commit_at r commit.now) (peeled_at ref.1)))
        refs.now r found.items) result }
    ensures fault { OnlyUntold (O.told objects.now) result }
{
    objects.sound_if_told();
    let mut front = BTreeMap::new(alloc);
    let place = place_of(objects, commit)?;
    front.insert(place, *commit)?;
    let places = reached_places(alloc, objects, room, &mut front, places_of(alloc, refs)?)?;
    Ok(standing(alloc, refs, &places, so)?)
}

/// Those refs whose commits reach a held commit, or the others.
///
/// Cost: the bodies of the commits that the refs reach and that stand behind the commit, and a look-up for each of their parents.
/// Memory: a pair of places for each parent.
pub(crate) fn reaching<'t, O: Objects, A: Allocator + Copy>(
    alloc: A,
    objects: &O,
    room: &mut Vec<u8, A>,
    refs: &[Tip<'t>],
    commit: &Name,
    so: bool,
) -> Result<Vec<Tip<'t>, A>, LookFault>
    requires refs { IfSome (O.told objects.now) (AreTips (O.stands objects.now) refs.now) }
    requires commit { IfSome (O.told objects.now) (λ r. IsHeldAs kinds.Commit r commit.now) }
    ensures kept { Tells (O.told objects.now) (λ r found. AreKept (O.stands objects.now)
        (λ ref. agrees so (reaches (peeled_at ref.1) (commit_at r commit.now)))
        refs.now r found.items) result }
    ensures fault { OnlyUntold (O.told objects.now) result }
{
    objects.sound_if_told();
    let place = place_of(objects, commit)?;
    let mut front = front_of(alloc, objects, refs)?;
    let steps = steps_to(alloc, objects, &mut front, place, room)?;
    let places = leading_to(alloc, steps, place)?;
    Ok(standing(alloc, refs, &places, so)?)
}

/// Those refs whose commits stand at one of these places, or the others.
fn standing<'t, A: Allocator + Copy>(
    alloc: A,
    refs: &[Tip<'t>],
    places: &BTreeSet<u64, A>,
    so: bool,
) -> Result<Vec<Tip<'t>, A>, AllocError>
    ensures found { IfOk result (λ found. found.items
        ≡ filter (λ tip. agrees so (contains nat_cmp places.now tip.place)) refs.now) }
{
    let mut found = Vec::new(alloc);
    for tip in refs {
        if agrees(so, places.contains(&tip.place)) {
            found.push(*tip)?;
        }
    }
    Ok(found)
}

/// A test as it is, or turned round.
fn agrees(so: bool, test: bool) -> bool
    ensures { result ≡ agrees so test }
{
    if so { test } else { !test }
}
