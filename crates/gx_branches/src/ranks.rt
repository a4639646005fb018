//! For each of some commits the number of the first tip that reaches it. Tips hand their numbers down to what they reach, from
//! the newest place on; a commit keeps the least.

ghost use Rattle.std.specs.Prelude.{◌≡◌, ℕ, suc, ◌<◌, IfSome, OnOk};
ghost use Rattle.gx_model.specs.Revisions.Ranges.{reaches, some_reaches};
ghost use Rattle.gx_objects.specs.Answers.{OnlyUntold, Tells};
ghost use Rattle.gx_branches.specs.Ranks.{AreRanked, AreRanks, HandsDown, HoldTips, Lowers, TakesBehind, all_unranked, rank_there};
ghost use Rattle.gx_ranges.specs.Fronts.{AreBelow, IsTip};
ghost use Rattle.gx_rev.specs.Objects.{commit_at, parents_at};
ghost use Rattle.gx_tips.specs.Spans.{AreNewestFirst};
ghost use Rattle.gx_tips.specs.Tips.{AreTips};

use gx_object::Name;
use gx_objects::{LookFault, Objects};
use gx_ranges::{add_parents, place_of};
use gx_tips::Tip;
use std::alloc::Allocator;
use std::collections::BTreeMap;

/// Commits by their places, each with the least number that was handed to it.
pub(crate) type Ranked<A> = BTreeMap<u64, (Name, usize), A>;

/// The commits of tips, each with the number of the first tip that holds it.
pub(crate) fn front_of<O: Objects, A: Allocator + Copy>(
    alloc: A,
    objects: &O,
    tips: &[Tip<'_>],
) -> Result<Ranked<A>, LookFault>
    requires tips { IfSome (O.told objects.now) (AreTips (O.stands objects.now) tips.now) }
    ensures front { Tells (O.told objects.now)
        (λ r front. HoldTips (O.stands objects.now) tips.now r front.entries) result }
    ensures fault { OnlyUntold (O.told objects.now) result }
{
    objects.sound_if_told();
    let mut front = BTreeMap::new(alloc);
    for (rank, tip) in tips.iter().enumerate() {
        lower(objects, &mut front, tip.place, &tip.commit, rank)?;
    }
    Ok(front)
}

/// For each of some commits, the newest put first, the least number with which a front reaches it, or this count where it
/// doesn't.
///
/// Cost: the bodies of the commits that the front reaches and that stand behind the last one; for each of their parents, and for
/// each of the commits, a look-up.
pub(crate) fn ranks_of<O: Objects, A: Allocator + Copy>(
    alloc: A,
    objects: &O,
    front: &mut Ranked<A>,
    commits: &[Name],
    count: usize,
    room: &mut Vec<u8, A>,
) -> Result<Vec<usize, A>, LookFault>
    requires ranked { IfSome (O.told objects.now)
        (AreRanked (O.stands objects.now) front.old.entries) }
    requires commits { IfSome (O.told objects.now) (AreNewestFirst commits.now) }
    ensures ranks { Tells (O.told objects.now)
        (λ r ranks. AreRanks front.old.entries count commits.now r ranks.items) result }
    ensures fault { OnlyUntold (O.told objects.now) result }
{
    objects.sound_if_told();
    let mut ranks = Vec::new(alloc);
    for commit in commits {
        let place = place_of(objects, commit)?;
        go_down(alloc, objects, front, place, room)?;
        ranks.push(rank_at(front, place, count))?;
    }
    Ok(ranks)
}

/// Goes on from the commits that stand behind a place to their parents, until none does.
fn go_down<O: Objects, A: Allocator + Copy>(
    alloc: A,
    objects: &O,
    front: &mut Ranked<A>,
    place: u64,
    room: &mut Vec<u8, A>,
) -> Result<(), LookFault>
    requires ranked { IfSome (O.told objects.now)
        (AreRanked (O.stands objects.now) front.old.entries) }
    ensures down { Tells (O.told objects.now) (λ r _. HandsDown (O.stands objects.now) place
        front.old.entries front.new.entries r) result }
    ensures below { OnOk result (AreBelow (suc place) (all_unranked front.new.entries)) }
    ensures fault { OnlyUntold (O.told objects.now) result }
{
    objects.sound_if_told();
    while let Some((last, (commit, rank))) = pop_behind(front, place) {
        lower_parents(alloc, objects, front, last, &commit, rank, room)?;
    }
    Ok(())
}

/// Takes out the last commit, where it stands behind a place.
fn pop_behind<A: Allocator + Copy>(
    front: &mut Ranked<A>,
    place: u64,
) -> Option<(u64, (Name, usize))>
    ensures { TakesBehind place front.old.entries front.new.entries result }
{
    let (last, _) = front.last_key_value()?;
    if *last <= place {
        return None;
    }
    front.pop_last()
}

/// Hands a number to the parents of the commit at a place.
fn lower_parents<O: Objects, A: Allocator + Copy>(
    alloc: A,
    objects: &O,
    front: &mut Ranked<A>,
    place: u64,
    commit: &Name,
    rank: usize,
    room: &mut Vec<u8, A>,
) -> Result<(), LookFault>
    requires ranked { IfSome (O.told objects.now)
        (AreRanked (O.stands objects.now) front.old.entries) }
    requires tip { IfSome (O.told objects.now)
        (λ r. IsTip (O.stands objects.now) r (place, commit.now)) }
    ensures below { OnOk result (AreBelow place (all_unranked front.old.entries)
        → AreBelow place (all_unranked front.new.entries)) }
    ensures lowers { Tells (O.told objects.now) (λ r _. Lowers (O.stands objects.now)
        (some_reaches (parents_at r commit.now)) rank
        front.old.entries front.new.entries r) result }
    ensures fault { OnlyUntold (O.told objects.now) result }
{
    objects.sound_if_told();
    let mut parents = BTreeMap::new(alloc);
    add_parents(objects, &mut parents, place, commit, room)?;
    while let Some((there, parent)) = parents.pop_last() {
        lower(objects, front, there, &parent, rank)?;
    }
    Ok(())
}

/// Hands a number to the commit at a place, which keeps the lower one.
fn lower<O: Objects, A: Allocator + Copy>(
    objects: &O,
    front: &mut Ranked<A>,
    place: u64,
    commit: &Name,
    rank: usize,
) -> Result<(), LookFault>
    requires ranked { IfSome (O.told objects.now)
        (AreRanked (O.stands objects.now) front.old.entries) }
    requires tip { IfSome (O.told objects.now)
        (λ r. IsTip (O.stands objects.now) r (place, commit.now)) }
    ensures below { OnOk result ((limit : ℕ) → place < limit
        → AreBelow limit (all_unranked front.old.entries)
        → AreBelow limit (all_unranked front.new.entries)) }
    ensures lowers { Tells (O.told objects.now) (λ r _. Lowers (O.stands objects.now)
        (reaches (commit_at r commit.now)) rank front.old.entries front.new.entries r) result }
    ensures fault { OnlyUntold (O.told objects.now) result }
{
    objects.sound_if_told();
    let least = rank_at(front, place, rank).min(rank);
    front.insert(place, (*commit, least))?;
    Ok(())
}

/// The number that the commit at a place has, or another where none stands there.
fn rank_at<A: Allocator + Copy>(front: &Ranked<A>, place: u64, other: usize) -> usize
    ensures { result ≡ rank_there front.now.entries place other }
{
    match front.get(&place) {
        Some((_, rank)) => *rank,
        None => other,
    }
}
