//! What range words include and exclude: which refs a range sets, and which commits it lists.

ghost use Rattle.std.specs.Prelude.{◌≡◌, IfOk, IfSome, IsTrue, map};
ghost use Rattle.std.specs.BTreeSet.{contains};
ghost use Rattle.std.specs.List.{AllByRecursion, filter};
ghost use Rattle.std.specs.Ordering.{nat_cmp};
ghost use Rattle.gx_objects.specs.Answers.{OnlyUntold, Tells};
ghost use Rattle.gx_ranges.specs.Fronts.{Adds, AreTips, lead_to};
ghost use Rattle.gx_rev.specs.Views.{shown_range};
ghost use Rattle.gx_tips.specs.Spans.{AreHeld, AreListed, AreSetRefs, FindsReached, FindsSpans};
ghost use Rattle.gx_tips.specs.Tips.{AreAllRefs};

use crate::Tip;
use gx_object::Name;
use gx_objects::{LookFault, Objects};
use gx_ranges::{RangeFault, add_words, is_reached, listed};
use gx_rev::Range;
use std::alloc::{AllocError, Allocator};
use std::collections::{BTreeMap, BTreeSet};

/// The commits from which a walk starts, by their places: those that words include, and those that they exclude.
#[derive(Drop)]
pub struct Spans<A: Allocator> {
    wanted: BTreeMap<u64, Name, A>,
    unwanted: BTreeMap<u64, Name, A>,
}

impl<A: Allocator + Copy> Spans<A> {
    /// Those of range words.
    ///
    /// The first word that is refused is answered with its number and the fault of its revisions, or NoParent of `r^-n`.
    /// OutOfMemory: a growth is refused. ReadFailed: a read failed. Damaged: this is no repository.
    /// Cost: what the revisions cost; for `a...b` besides the bodies of the commits that only one of them reaches. What is in
    /// the room before and after stands for nothing.
    /// Source: gitrevisions(7), "Specifying Ranges".
    pub fn of_words<O: Objects>(
        alloc: A,
        objects: &O,
        room: &mut Vec<u8, A>,
        words: &[Range<A>],
    ) -> Result<Spans<A>, RangeFault>
        ensures { FindsSpans (O.name_of objects.now) (O.stands objects.now) (O.told objects.now)
            (map shown_range words.now) result }
    {
        let mut wanted = BTreeMap::new(alloc);
        let mut unwanted = BTreeMap::new(alloc);
        add_words(alloc, objects, room, words, &mut wanted, &mut unwanted)?;
        Ok(Spans { wanted, unwanted })
    }

    /// Those of all refs whose commits some word includes or excludes.
    ///
    /// OutOfMemory: a growth is refused. ReadFailed: a read failed. Damaged: this is no repository.
    /// Cost: the bodies of the commits that the words reach and that stand behind the oldest of the refs' commits, and a look-up
    /// for each of their parents. Memory: the refs that are found, their places, and those that are still to be visited.
    /// Source: git-fast-export(1), and gitglossary(7), "reachable".
    pub fn reached<'t, O: Objects>(
        &self,
        alloc: A,
        objects: &O,
        room: &mut Vec<u8, A>,
        refs: &[Tip<'t>],
    ) -> Result<Vec<Tip<'t>, A>, LookFault>
        requires spans { IfSome (O.told objects.now) (AreHeld (O.stands objects.now) self.now) }
        requires refs { IfSome (O.told objects.now)
            (λ r. AreAllRefs (O.stands objects.now) r refs.now) }
        ensures found { Tells (O.told objects.now) (λ r found.
            AreSetRefs (O.stands objects.now) self.now r found.items) result }
        ensures fault { OnlyUntold (O.told objects.now) result }
    {
        objects.sound_if_told();
        let mut front = BTreeMap::new(alloc);
        add_all(objects, &mut front, &self.wanted)?;
        add_all(objects, &mut front, &self.unwanted)?;
        let places = reached_places(alloc, objects, room, &mut front, places_of(alloc, refs)?)?;
        Ok(standing_at(alloc, refs, &places)?)
    }

    /// The names of the commits that some word includes and none excludes, the newest put first.
    ///
    /// OutOfMemory: a growth is refused. ReadFailed: a read failed. Damaged: this is no repository.
    /// Cost: that of `gx_ranges::listed`. Source: git-rev-list(1).
    pub fn listed<O: Objects>(
        self,
        alloc: A,
        objects: &O,
        room: &mut Vec<u8, A>,
    ) -> Result<Vec<Name, A>, LookFault>
        requires spans { IfSome (O.told objects.now) (AreHeld (O.stands objects.now) self) }
        ensures names { Tells (O.told objects.now) (λ r names.
            AreListed (O.stands objects.now) self r names.items) result }
        ensures fault { OnlyUntold (O.told objects.now) result }
    {
        objects.sound_if_told();
        let Spans { wanted, unwanted } = self;
        listed(alloc, objects, wanted, unwanted, room)
    }
}

/// Adds the commits of one front to another.
fn add_all<O: Objects, A: Allocator + Copy>(
    objects: &O,
    front: &mut BTreeMap<u64, Name, A>,
    others: &BTreeMap<u64, Name, A>,
) -> Result<(), LookFault>
    requires tips { IfSome (O.told objects.now) (AreTips (O.stands objects.now) front.old.entries) }
    requires others { IfSome (O.told objects.now)
        (AreTips (O.stands objects.now) others.now.entries) }
    ensures adds { Tells (O.told objects.now) (λ r _. Adds (O.stands objects.now)
        (lead_to r others.now.entries) front.old.entries front.new.entries r) result }
    ensures fault { OnlyUntold (O.told objects.now) result }
{
    objects.sound_if_told();
    for (place, commit) in others.iter() {
        front.insert(*place, *commit)?;
    }
    Ok(())
}

/// The places at which the commits of refs stand.
///
/// OutOfMemory: a growth is refused. Cost and memory: the refs. Source: git-show-ref(1).
pub fn places_of<A: Allocator + Copy>(
    alloc: A,
    refs: &[Tip<'_>],
) -> Result<BTreeSet<u64, A>, AllocError>
    ensures each { IfOk result (λ places. AllByRecursion
        (λ tip. IsTrue (contains nat_cmp places tip.place)) refs.now) }
{
    let mut places = BTreeSet::new(alloc);
    for tip in refs {
        places.insert(tip.place)?;
    }
    Ok(places)
}

/// Those of some places at which a commit stands that a front reaches.
///
/// OutOfMemory: a growth is refused. ReadFailed: a read failed. Damaged: this is no repository.
/// Cost: the bodies of the commits that the front reaches and that stand behind the first of the places, and a look-up for each of
/// their parents. Memory: the places, and those that are still to be visited. What is in the room before and after stands for
/// nothing.
/// Source: gitglossary(7), "reachable".
pub fn reached_places<O: Objects, A: Allocator + Copy>(
    alloc: A,
    objects: &O,
    room: &mut Vec<u8, A>,
    front: &mut BTreeMap<u64, Name, A>,
    places: BTreeSet<u64, A>,
) -> Result<BTreeSet<u64, A>, LookFault>
    requires tips { IfSome (O.told objects.now) (AreTips (O.stands objects.now) front.old.entries) }
    ensures places { Tells (O.told objects.now) (λ r reached. FindsReached (O.stands objects.now)
        front.old.entries places r reached) result }
    ensures fault { OnlyUntold (O.told objects.now) result }
{
    let mut left = places;
    let mut reached = BTreeSet::new(alloc);
    while let Some(place) = left.pop_last() {
        if is_reached(objects, front, place, room)? {
            reached.insert(place)?;
        }
    }
    Ok(reached)
}

/// The refs whose commits stand at some of these places.
fn standing_at<'t, A: Allocator + Copy>(
    alloc: A,
    refs: &[Tip<'t>],
    places: &BTreeSet<u64, A>,
) -> Result<Vec<Tip<'t>, A>, AllocError>
    ensures found { IfOk result (λ found.
        found.items ≡ filter (λ tip. contains nat_cmp places.now tip.place) refs.now) }
{
    let mut found = Vec::new(alloc);
    for tip in refs {
        if places.contains(&tip.place) {
            found.push(*tip)?;
        }
    }
    Ok(found)
}
