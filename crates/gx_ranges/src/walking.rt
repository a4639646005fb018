//! Which commits range words list, by a walk that goes on as it is asked.

ghost use Rattle.std.specs.Prelude.{◌≡◌, ◌-◌, ◌&&◌, IfOk, IfSome, map};
ghost use Rattle.std.specs.Option.{option_map};
ghost use Rattle.gx_model.specs.Objects.{IsCommitText};
ghost use Rattle.gx_objects.specs.Answers.{OnlyUntold, Tells};
ghost use Rattle.gx_questions.specs.Answers.{IfTold, IsOfTold, RefusesUntold};
ghost use Rattle.gx_ranges.specs.Answers.{AnswersLog};
ghost use Rattle.gx_ranges.specs.Fronts.{Adds, AreTips};
ghost use Rattle.gx_ranges.specs.Listings.{AreAllNames, AreReached, AreTipsOf, BeginsList, ListsNext, GoesOn, HasNameOf, is_done};
ghost use Rattle.gx_rev.specs.Reached.{is_wanted};
ghost use Rattle.gx_rev.specs.Views.{shown_range};

use crate::RangeFault;
use crate::fronts::{add_parents_of, commit_at};
use crate::refs::add_refs;
use crate::telling::next;
use crate::words::add_words;
use gx_object::{CommitView, Name};
use gx_objects::{LookFault, Objects};
use gx_questions::AskFault;
use gx_rev::Range;
use std::alloc::Allocator;
use std::collections::BTreeMap;

/// A walk from the newest place down: the commits that are still to be listed.
///
/// Memory: the places that are still to be visited.
#[derive(Drop)]
pub struct CommitWalk<A: Allocator> {
    wanted: BTreeMap<u64, Name, A>,
    unwanted: BTreeMap<u64, Name, A>,
    left: Option<u64>,
}

impl<A: Allocator + Copy> CommitWalk<A> {
    /// A walk over the commits that some word includes and none excludes, so many at most. Where that is asked for, what refs
    /// reach is included, too.
    ///
    /// The faults are those of `walk`. Cost: what the revisions cost; with refs a line, an object and a look-up for each. What
    /// is in the room before and after stands for nothing.
    /// Source: gitrevisions(7), "Specifying Ranges", and git-rev-list(1), `--all` and `--max-count`.
    pub fn begin<O: Objects>(
        alloc: A,
        objects: &O,
        words: &[Range<A>],
        refs: bool,
        most: Option<u64>,
        room: &mut Vec<u8, A>,
    ) -> Result<CommitWalk<A>, RangeFault>
        ensures { BeginsList (O.name_of objects.now) (O.stands objects.now) (O.told objects.now)
            (map shown_range words.now) refs most result }
    {
        objects.sound_if_told();
        let mut wanted = BTreeMap::new(alloc);
        let mut unwanted = BTreeMap::new(alloc);
        add_words(alloc, objects, room, words, &mut wanted, &mut unwanted)?;
        add_asked(alloc, objects, refs, &mut wanted, room)?;
        Ok(CommitWalk {
            wanted,
            unwanted,
            left: most,
        })
    }

    /// The newest commit that is still to be listed, with its body and its parts. It isn't listed again.
    ///
    /// OutOfMemory: a growth is refused. ReadFailed: a read failed. Damaged: this is no repository.
    /// Cost: its body, and a look-up for each of its parents; and the bodies of those that are excluded and stand behind it.
    /// Source: git-rev-list(1).
    pub fn next<'a, O: Objects>(
        &mut self,
        objects: &'a O,
        room: &'a mut Vec<u8, A>,
    ) -> Result<Option<(Name, (&'a [u8], CommitView<'a>))>, LookFault>
        requires tips { IfTold (O.told objects.now) (AreTipsOf (O.stands objects.now)) self.old }
        ensures next { Tells (O.told objects.now)
            (ListsNext (O.name_of objects.now) (O.stands objects.now) self.old self.new) result }
        ensures ahead { IfOk result (GoesOn self.old self.new) }
        ensures named { IfOk result
            (λ found. IfSome found (λ c. HasNameOf (O.name_of objects.now) c.0 c.1)) }
        ensures text { IfOk result (λ found. IfSome found (λ c. IsCommitText c.1.1 c.1.0.now)) }
        ensures fault { OnlyUntold (O.told objects.now) result }
    {
        objects.sound_if_told();
        if is_done(self.left) {
            return Ok(None);
        }
        let Some((place, commit)) = next(objects, &mut self.wanted, &mut self.unwanted, room)?
        else {
            return Ok(None);
        };
        self.left = one_less(self.left);
        let found = commit_at(objects, place, &commit, room)?;
        add_parents_of(objects, &mut self.wanted, place, &commit, &found.1)?;
        Ok(Some((commit, found)))
    }
}

/// Whether no more may come.
fn is_done(left: Option<u64>) -> bool
    ensures { result ≡ is_done left }
{
    match left {
        Some(left) => left == 0,
        None => false,
    }
}

/// How many may come after one.
fn one_less(left: Option<u64>) -> Option<u64>
    ensures { result ≡ option_map (λ n. n - 1) left }
{
    match left {
        Some(left) => Some(left.saturating_sub(1)),
        None => None,
    }
}

/// The names of the commits that some word includes and none excludes, the newest put first, so many at most. Where that is
/// asked for, what refs reach is included, too.
///
/// The first word that is refused is answered with its number and the fault of its revisions, or NoParent of `r^-n`.
/// OutOfMemory: a growth is refused. ReadFailed: a read failed. Damaged: this is no repository.
/// Cost: what the revisions cost; with refs a line, an object and a look-up for each; the bodies of the commits that are
/// told, and of those that are excluded and stand behind the last of these; a look-up for each of their parents. For `a...b`
/// besides those of the commits that only one of them reaches. Memory: the names, the places that are still to be visited, and
/// the room for one object.
/// Source: gitrevisions(7), "Specifying Ranges", and git-rev-list(1), `--all` and `--max-count`.
pub fn walk<O: Objects, A: Allocator + Copy>(
    alloc: A,
    objects: &O,
    words: &[Range<A>],
    refs: bool,
    most: Option<u64>,
) -> Result<Vec<Name, A>, RangeFault>
    ensures { AnswersLog (O.name_of objects.now) (O.told objects.now) (map shown_range words.now)
        refs most result }
{
    let mut room = Vec::new(alloc);
    let mut walk = CommitWalk::begin(alloc, objects, words, refs, most, &mut room)?;
    let names = all_names(alloc, objects, &mut walk, &mut room)?;
    Ok(names)
}

/// The names of the commits that the one front reaches and the other doesn't, the newest put first.
///
/// OutOfMemory: a growth is refused. ReadFailed: a read failed. Damaged: this is no repository.
/// Cost: the bodies of the commits that are listed, and of those that the other front reaches and that stand behind the last of
/// these; a look-up for each of their parents. Memory: the names, and the places that are still to be visited.
/// Source: git-rev-list(1).
pub fn listed<O: Objects, A: Allocator + Copy>(
    alloc: A,
    objects: &O,
    wanted: BTreeMap<u64, Name, A>,
    unwanted: BTreeMap<u64, Name, A>,
    room: &mut Vec<u8, A>,
) -> Result<Vec<Name, A>, LookFault>
    requires wanted { IfSome (O.told objects.now) (AreTips (O.stands objects.now) wanted.entries) }
    requires unwanted { IfSome (O.told objects.now)
        (AreTips (O.stands objects.now) unwanted.entries) }
    ensures names { Tells (O.told objects.now) (λ r names.
        AreReached wanted.entries unwanted.entries r names.items) result }
    ensures fault { OnlyUntold (O.told objects.now) result }
{
    let mut walk = CommitWalk {
        wanted,
        unwanted,
        left: None,
    };
    all_names(alloc, objects, &mut walk, room)
}

/// The names of all commits that a walk still lists.
fn all_names<O: Objects, A: Allocator + Copy>(
    alloc: A,
    objects: &O,
    walk: &mut CommitWalk<A>,
    room: &mut Vec<u8, A>,
) -> Result<Vec<Name, A>, LookFault>
    requires tips { IfTold (O.told objects.now) (AreTipsOf (O.stands objects.now)) walk.old }
    ensures names { Tells (O.told objects.now) (λ r names.
        AreAllNames (O.stands objects.now) walk.old r names.items) result }
    ensures fault { OnlyUntold (O.told objects.now) result }
{
    let mut names = Vec::new(alloc);
    while let Some((name, _commit)) = walk.next(objects, room)? {
        names.push(name)?;
    }
    Ok(names)
}

/// Adds the commits of all refs, where that is asked for.
fn add_asked<O: Objects, A: Allocator + Copy>(
    alloc: A,
    objects: &O,
    refs: bool,
    front: &mut BTreeMap<u64, Name, A>,
    room: &mut Vec<u8, A>,
) -> Result<(), AskFault>
    requires tips { IfSome (O.told objects.now) (AreTips (O.stands objects.now) front.old.entries) }
    ensures adds { IsOfTold (O.told objects.now) (λ r _. Adds (O.stands objects.now)
        (λ c. refs && is_wanted r c) front.old.entries front.new.entries r) result }
    ensures fault { RefusesUntold (O.told objects.now) result }
{
    if !refs {
        return Ok(());
    }
    add_refs(alloc, objects, front, room)
}
