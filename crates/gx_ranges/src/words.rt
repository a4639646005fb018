//! The commits from which a walk starts: those that words include with all that they reach, and those that they exclude.

ghost use Rattle.std.specs.Prelude.{◌≡◌, ℕ, [], IfSome, List, map};
ghost use Rattle.gx_model.specs.Revisions as words;
ghost use Rattle.gx_object.specs.declared.name.Name.{Name};
ghost use Rattle.gx_ranges.specs.Fronts.{AreTips};
ghost use Rattle.gx_ranges.specs.Words.{AddsWord, AddsWords};
ghost use Rattle.gx_rev.specs.Views.{shown_range};

use crate::RangeFault;
use crate::fault::refused;
use crate::fronts::{add, add_parents, place_of};
use crate::meetings::add_common;
use gx_object::Name;
use gx_objects::Objects;
use gx_questions::{AskFault, commit, parent_of};
use gx_rev::{Range, Revision};
use std::alloc::Allocator;
use std::collections::BTreeMap;

/// Adds what words include and what they exclude to two fronts, in which nothing is yet.
///
/// The first word that is refused is answered with its number and the fault of its revisions, or NoParent of `r^-n`.
/// OutOfMemory: a growth is refused. ReadFailed: a read failed. Damaged: this is no repository.
/// Cost: what the revisions cost; for `a...b` besides the bodies of the commits that only one of them reaches. What is in the
/// room before and after stands for nothing.
/// Source: gitrevisions(7), "Specifying Ranges".
pub fn add_words<O: Objects, A: Allocator + Copy>(
    alloc: A,
    objects: &O,
    room: &mut Vec<u8, A>,
    words: &[Range<A>],
    wanted: &mut BTreeMap<u64, Name, A>,
    unwanted: &mut BTreeMap<u64, Name, A>,
) -> Result<(), RangeFault>
    requires wanted { wanted.old.entries ≡ [] }
    requires unwanted { unwanted.old.entries ≡ [] }
    ensures { AddsWords (O.name_of objects.now) (O.stands objects.now) (O.told objects.now)
        (map shown_range words.now) wanted.new.entries unwanted.new.entries result }
{
    for (place, word) in words.iter().enumerate() {
        match add_word(alloc, objects, room, word, wanted, unwanted) {
            Ok(()) => {}
            Err(kind) => return Err(refused(place + 1, kind)),
        }
    }
    Ok(())
}

/// Adds what a word includes and what it excludes.
fn add_word<O: Objects, A: Allocator + Copy>(
    alloc: A,
    objects: &O,
    room: &mut Vec<u8, A>,
    word: &Range<A>,
    wanted: &mut BTreeMap<u64, Name, A>,
    unwanted: &mut BTreeMap<u64, Name, A>,
) -> Result<(), AskFault>
    requires wanted { IfSome (O.told objects.now)
        (AreTips (O.stands objects.now) wanted.old.entries) }
    requires unwanted { IfSome (O.told objects.now)
        (AreTips (O.stands objects.now) unwanted.old.entries) }
    ensures { AddsWord (O.name_of objects.now) (O.stands objects.now) (O.told objects.now)
        (shown_range word.now) (wanted.old.entries, unwanted.old.entries)
        (wanted.new.entries, unwanted.new.entries) result }
{
    match word {
        Range::WithAncestors(revision) => add_revision(objects, room, revision, wanted),
        Range::WithoutAncestors(revision) => add_revision(objects, room, revision, unwanted),
        Range::Between(left, right) => { add_between(objects, room, left, right, wanted, unwanted) }
        Range::Apart(left, right) => {
            add_apart(alloc, objects, room, left, right, wanted, unwanted)
        }
        Range::AllParents(revision) => add_all_parents(objects, room, revision, wanted),
        Range::Alone(revision) => add_alone(objects, room, revision, wanted, unwanted),
        Range::WithoutOne(revision, number) => {
            add_without_one(objects, room, revision, *number, wanted, unwanted)
        }
    }
}

/// Adds the commit of `r`, and that of `^r`.
fn add_revision<O: Objects, A: Allocator + Copy>(
    objects: &O,
    room: &mut Vec<u8, A>,
    revision: &Revision<A>,
    front: &mut BTreeMap<u64, Name, A>,
) -> Result<(), AskFault>
    requires tips { IfSome (O.told objects.now) (AreTips (O.stands objects.now) front.old.entries) }
    ensures included { (rest : List (ℕ × Name))
        → IfSome (O.told objects.now) (AreTips (O.stands objects.now) rest)
        → AddsWord (O.name_of objects.now) (O.stands objects.now) (O.told objects.now)
        (words.WithAncestors revision.now) (front.old.entries, rest)
        (front.new.entries, rest) result }
    ensures excluded { (rest : List (ℕ × Name))
        → IfSome (O.told objects.now) (AreTips (O.stands objects.now) rest)
        → AddsWord (O.name_of objects.now) (O.stands objects.now) (O.told objects.now)
        (words.WithoutAncestors revision.now) (rest, front.old.entries)
        (rest, front.new.entries) result }
{
    let commit = commit(objects, room, revision)?;
    add(objects, front, &commit)?;
    Ok(())
}

/// Adds the commits of `a..b`.
fn add_between<O: Objects, A: Allocator + Copy>(
    objects: &O,
    room: &mut Vec<u8, A>,
    left: &Revision<A>,
    right: &Revision<A>,
    wanted: &mut BTreeMap<u64, Name, A>,
    unwanted: &mut BTreeMap<u64, Name, A>,
) -> Result<(), AskFault>
    requires wanted { IfSome (O.told objects.now)
        (AreTips (O.stands objects.now) wanted.old.entries) }
    requires unwanted { IfSome (O.told objects.now)
        (AreTips (O.stands objects.now) unwanted.old.entries) }
    ensures { AddsWord (O.name_of objects.now) (O.stands objects.now) (O.told objects.now)
        (words.Between left.now right.now) (wanted.old.entries, unwanted.old.entries)
        (wanted.new.entries, unwanted.new.entries) result }
{
    let left = commit(objects, room, left)?;
    let right = commit(objects, room, right)?;
    add(objects, wanted, &right)?;
    add(objects, unwanted, &left)?;
    Ok(())
}

/// Adds the commits of `a...b`, and those at which they meet.
fn add_apart<O: Objects, A: Allocator + Copy>(
    alloc: A,
    objects: &O,
    room: &mut Vec<u8, A>,
    left: &Revision<A>,
    right: &Revision<A>,
    wanted: &mut BTreeMap<u64, Name, A>,
    unwanted: &mut BTreeMap<u64, Name, A>,
) -> Result<(), AskFault>
    requires wanted { IfSome (O.told objects.now)
        (AreTips (O.stands objects.now) wanted.old.entries) }
    requires unwanted { IfSome (O.told objects.now)
        (AreTips (O.stands objects.now) unwanted.old.entries) }
    ensures { AddsWord (O.name_of objects.now) (O.stands objects.now) (O.told objects.now)
        (words.Apart left.now right.now) (wanted.old.entries, unwanted.old.entries)
        (wanted.new.entries, unwanted.new.entries) result }
{
    let left = commit(objects, room, left)?;
    let right = commit(objects, room, right)?;
    add_common(alloc, objects, &left, &right, unwanted, room)?;
    add(objects, wanted, &left)?;
    add(objects, wanted, &right)?;
    Ok(())
}

/// Adds the parents of `r^@`.
fn add_all_parents<O: Objects, A: Allocator + Copy>(
    objects: &O,
    room: &mut Vec<u8, A>,
    revision: &Revision<A>,
    wanted: &mut BTreeMap<u64, Name, A>,
) -> Result<(), AskFault>
    requires tips { IfSome (O.told objects.now)
        (AreTips (O.stands objects.now) wanted.old.entries) }
    ensures { (rest : List (ℕ × Name))
        → IfSome (O.told objects.now) (AreTips (O.stands objects.now) rest)
        → AddsWord (O.name_of objects.now) (O.stands objects.now) (O.told objects.now)
        (words.AllParents revision.now) (wanted.old.entries, rest)
        (wanted.new.entries, rest) result }
{
    let commit = commit(objects, room, revision)?;
    let place = place_of(objects, &commit)?;
    add_parents(objects, wanted, place, &commit, room)?;
    Ok(())
}

/// Adds the commit of `r^!`, and its parents.
fn add_alone<O: Objects, A: Allocator + Copy>(
    objects: &O,
    room: &mut Vec<u8, A>,
    revision: &Revision<A>,
    wanted: &mut BTreeMap<u64, Name, A>,
    unwanted: &mut BTreeMap<u64, Name, A>,
) -> Result<(), AskFault>
    requires wanted { IfSome (O.told objects.now)
        (AreTips (O.stands objects.now) wanted.old.entries) }
    requires unwanted { IfSome (O.told objects.now)
        (AreTips (O.stands objects.now) unwanted.old.entries) }
    ensures { AddsWord (O.name_of objects.now) (O.stands objects.now) (O.told objects.now)
        (words.Alone revision.now) (wanted.old.entries, unwanted.old.entries)
        (wanted.new.entries, unwanted.new.entries) result }
{
    let commit = commit(objects, room, revision)?;
    let place = place_of(objects, &commit)?;
    add(objects, wanted, &commit)?;
    add_parents(objects, unwanted, place, &commit, room)?;
    Ok(())
}

/// Adds the commit of `r^-n`, and that parent.
fn add_without_one<O: Objects, A: Allocator + Copy>(
    objects: &O,
    room: &mut Vec<u8, A>,
    revision: &Revision<A>,
    number: u64,
    wanted: &mut BTreeMap<u64, Name, A>,
    unwanted: &mut BTreeMap<u64, Name, A>,
) -> Result<(), AskFault>
    requires wanted { IfSome (O.told objects.now)
        (AreTips (O.stands objects.now) wanted.old.entries) }
    requires unwanted { IfSome (O.told objects.now)
        (AreTips (O.stands objects.now) unwanted.old.entries) }
    ensures { AddsWord (O.name_of objects.now) (O.stands objects.now) (O.told objects.now)
        (words.WithoutOne revision.now number) (wanted.old.entries, unwanted.old.entries)
        (wanted.new.entries, unwanted.new.entries) result }
{
    let commit = commit(objects, room, revision)?;
    let parent = parent_of(objects, room, &commit, number)?;
    add(objects, wanted, &commit)?;
    add(objects, unwanted, &parent)?;
    Ok(())
}
