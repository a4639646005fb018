//! The commits that a walk has before it, by their places. A parent stands before its commit: what doesn't is no repository's.

ghost use Rattle.std.specs.Prelude.{◌≡◌, suc, IfOk, IfSome, OnOk, Some};
ghost use Rattle.gx_model.specs.declared.objects.Kind.TheVariants as kinds;
ghost use Rattle.gx_model.specs.Objects.{IsCommitText};
ghost use Rattle.gx_model.specs.Records.{parts_of_commit};
ghost use Rattle.gx_model.specs.Revisions.Ranges.{reaches, some_reaches};
ghost use Rattle.gx_objects.specs.Answers.{OnlyUntold, StandsThere, Tells};
ghost use Rattle.gx_ranges.specs.Fronts.{Adds, AreBelow, AreTips, GoesDown, IsLastBehind, IsTip, LeadsToPlace, StandsBefore};
ghost use Rattle.gx_questions.specs.Objects.{IsCommitAt};
ghost use Rattle.gx_ranges.specs.Listings.{HasNameOf};
ghost use Rattle.gx_rev.specs.Objects.{IsHeldAs, commit_at, parents_at};

use gx_object::{CommitView, Kind, Name, decode_commit};
use gx_objects::{LookFault, Objects};
use std::alloc::Allocator;
use std::collections::BTreeMap;

/// Adds a held commit.
///
/// Cost: a look-up of its place.
pub(crate) fn add<O: Objects, A: Allocator + Copy>(
    objects: &O,
    front: &mut BTreeMap<u64, Name, A>,
    commit: &Name,
) -> Result<(), LookFault>
    requires tips { IfSome (O.told objects.now) (AreTips (O.stands objects.now) front.old.entries) }
    requires held { IfSome (O.told objects.now) (λ r. IsHeldAs kinds.Commit r commit.now) }
    ensures adds { Tells (O.told objects.now) (λ r _. Adds (O.stands objects.now)
        (reaches (commit_at r commit.now)) front.old.entries front.new.entries r) result }
    ensures fault { OnlyUntold (O.told objects.now) result }
{
    objects.sound_if_told();
    let place = place_of(objects, commit)?;
    front.insert(place, *commit)?;
    Ok(())
}

/// Adds the parents of the commit at a place.
///
/// OutOfMemory: a growth is refused. ReadFailed: a read failed. Damaged: this is no repository.
/// Cost: the commit's body, and a look-up of the place of each parent. What is in the room before and after stands for nothing.
/// Source: gitglossary(7), "parent".
pub fn add_parents<O: Objects, A: Allocator + Copy>(
    objects: &O,
    front: &mut BTreeMap<u64, Name, A>,
    place: u64,
    commit: &Name,
    room: &mut Vec<u8, A>,
) -> Result<(), LookFault>
    requires tips { IfSome (O.told objects.now) (AreTips (O.stands objects.now) front.old.entries) }
    requires tip { IfSome (O.told objects.now)
        (λ r. IsTip (O.stands objects.now) r (place, commit.now)) }
    ensures below { OnOk result
        (AreBelow place front.old.entries → AreBelow place front.new.entries) }
    ensures adds { Tells (O.told objects.now) (λ r _. Adds (O.stands objects.now)
        (some_reaches (parents_at r commit.now)) front.old.entries front.new.entries r) result }
    ensures fault { OnlyUntold (O.told objects.now) result }
{
    objects.sound_if_told();
    let (_, view) = commit_at(objects, place, commit, room)?;
    add_parents_of(objects, front, place, commit, &view)
}

/// Adds the parents that the parts of the commit at a place name.
///
/// Cost: a look-up of the place of each.
pub(crate) fn add_parents_of<O: Objects, A: Allocator + Copy>(
    objects: &O,
    front: &mut BTreeMap<u64, Name, A>,
    place: u64,
    commit: &Name,
    view: &CommitView<'_>,
) -> Result<(), LookFault>
    requires tips { IfSome (O.told objects.now) (AreTips (O.stands objects.now) front.old.entries) }
    requires tip { IfSome (O.told objects.now)
        (λ r. IsTip (O.stands objects.now) r (place, commit.now)) }
    requires parts { IfSome (O.told objects.now) (λ r.
        view.now ≡ parts_of_commit (O.name_of objects.now) (commit_at r commit.now)) }
    ensures below { OnOk result
        (AreBelow place front.old.entries → AreBelow place front.new.entries) }
    ensures adds { Tells (O.told objects.now) (λ r _. Adds (O.stands objects.now)
        (some_reaches (parents_at r commit.now)) front.old.entries front.new.entries r) result }
    ensures fault { OnlyUntold (O.told objects.now) result }
{
    objects.sound_if_told();
    for number in 0..view.parent_count() {
        if let Some(parent) = view.parent(number) {
            add_below(objects, front, place, &parent)?;
        }
    }
    Ok(())
}

/// Adds a parent of the commit at a place.
fn add_below<O: Objects, A: Allocator + Copy>(
    objects: &O,
    front: &mut BTreeMap<u64, Name, A>,
    limit: u64,
    commit: &Name,
) -> Result<(), LookFault>
    requires tips { IfSome (O.told objects.now) (AreTips (O.stands objects.now) front.old.entries) }
    requires held { IfSome (O.told objects.now) (λ r. IsHeldAs kinds.Commit r commit.now) }
    requires before { IfSome (O.told objects.now)
        (StandsBefore (O.stands objects.now) limit commit.now) }
    ensures below { OnOk result
        (AreBelow limit front.old.entries → AreBelow limit front.new.entries) }
    ensures adds { Tells (O.told objects.now) (λ r _. Adds (O.stands objects.now)
        (reaches (commit_at r commit.now)) front.old.entries front.new.entries r) result }
    ensures fault { OnlyUntold (O.told objects.now) result }
{
    objects.sound_if_told();
    let place = place_of(objects, commit)?;
    if place >= limit {
        return Err(LookFault::Damaged);
    }
    front.insert(place, *commit)?;
    Ok(())
}

/// The place of a held commit.
///
/// ReadFailed: a read failed. Damaged: this is no repository. Cost: a look-up. Takes no memory.
/// Source: gitglossary(7), "object name".
pub fn place_of<O: Objects>(objects: &O, commit: &Name) -> Result<u64, LookFault>
    requires held { IfSome (O.told objects.now) (λ r. IsHeldAs kinds.Commit r commit.now) }
    ensures place { Tells (O.told objects.now) (λ r place.
        StandsThere (O.stands objects.now) commit.now.bytes r (Some place)) result }
    ensures fault { OnlyUntold (O.told objects.now) result }
{
    objects.sound_if_told();
    match objects.place(commit)? {
        Some(place) => Ok(place),
        None => Err(LookFault::Damaged),
    }
}

/// The body and the parts of the commit at a place.
///
/// Cost: that of `Objects::object_at`.
pub(crate) fn commit_at<'a, O: Objects, A: Allocator + Copy>(
    objects: &'a O,
    place: u64,
    commit: &Name,
    room: &'a mut Vec<u8, A>,
) -> Result<(&'a [u8], CommitView<'a>), LookFault>
    requires tip { IfSome (O.told objects.now)
        (λ r. IsTip (O.stands objects.now) r (place, commit.now)) }
    ensures commit { Tells (O.told objects.now)
        (IsCommitAt (O.name_of objects.now) commit.now) result }
    ensures named { IfOk result (HasNameOf (O.name_of objects.now) commit.now) }
    ensures text { IfOk result (λ found. IsCommitText found.1 found.0.now) }
    ensures fault { OnlyUntold (O.told objects.now) result }
{
    objects.sound_if_told();
    let object = objects.object_at(place, commit, room)?;
    let Kind::Commit = object.kind else {
        return Err(LookFault::Damaged);
    };
    match decode_commit(object.body) {
        Ok(view) => Ok((object.body, view)),
        Err(_) => Err(LookFault::Damaged),
    }
}

/// Whether some of these commits reaches the commit at a place. Unless it is among them they go down to it for that: those that
/// stand behind the place become their parents.
///
/// OutOfMemory: a growth is refused. ReadFailed: a read failed. Damaged: this is no repository.
/// Cost: the bodies of the commits that stand behind the place and are reached, and a look-up for each of their parents. What is
/// in the room before and after stands for nothing.
/// Source: gitglossary(7), "reachable".
pub fn is_reached<O: Objects, A: Allocator + Copy>(
    objects: &O,
    front: &mut BTreeMap<u64, Name, A>,
    place: u64,
    room: &mut Vec<u8, A>,
) -> Result<bool, LookFault>
    requires tips { IfSome (O.told objects.now) (AreTips (O.stands objects.now) front.old.entries) }
    ensures down { Tells (O.told objects.now) (λ r _. GoesDown (O.stands objects.now) place
        front.old.entries front.new.entries r) result }
    ensures answer { Tells (O.told objects.now)
        (LeadsToPlace (O.stands objects.now) place front.old.entries) result }
    ensures fault { OnlyUntold (O.told objects.now) result }
{
    objects.sound_if_told();
    if front.contains_key(&place) {
        return Ok(true);
    }
    go_down(objects, front, place, room)?;
    Ok(front.contains_key(&place))
}

/// Goes on from the commits that stand behind a place to their parents, until none does.
fn go_down<O: Objects, A: Allocator + Copy>(
    objects: &O,
    front: &mut BTreeMap<u64, Name, A>,
    place: u64,
    room: &mut Vec<u8, A>,
) -> Result<(), LookFault>
    requires tips { IfSome (O.told objects.now) (AreTips (O.stands objects.now) front.old.entries) }
    ensures down { Tells (O.told objects.now) (λ r _. GoesDown (O.stands objects.now) place
        front.old.entries front.new.entries r) result }
    ensures below { OnOk result (AreBelow (suc place) front.new.entries) }
    ensures fault { OnlyUntold (O.told objects.now) result }
{
    objects.sound_if_told();
    while let Some((last, commit)) = pop_behind(front, place) {
        add_parents(objects, front, last, &commit, room)?;
    }
    Ok(())
}

/// Takes out the last commit, where it stands behind a place.
fn pop_behind<A: Allocator + Copy>(
    front: &mut BTreeMap<u64, Name, A>,
    place: u64,
) -> Option<(u64, Name)>
    ensures { IsLastBehind place front.old.entries front.new.entries result }
{
    let (last, _) = front.last_key_value()?;
    if *last <= place {
        return None;
    }
    front.pop_last()
}
