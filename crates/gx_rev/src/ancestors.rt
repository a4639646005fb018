//! Ancestors, by places: a commit's parents stand before it. Source: gitglossary(7), "reachable", and git-merge-base(1).

ghost use Rattle.std.specs.Prelude.{◌≡◌, IfOk, IsTrue, OnOk, true};
ghost use Rattle.std.specs.List.{AllByRecursion};
ghost use Rattle.gx_model.specs.declared.objects.Kind.TheVariants as kinds;
ghost use Rattle.gx_model.specs.Records.Sound.{Holds};
ghost use Rattle.gx_model.specs.Revisions.Ranges.{reaches};
ghost use Rattle.gx_rev.specs.Objects.{IsHeldAs, commit_at};
ghost use Rattle.gx_rev.specs.Parents.{AreParentPlaces, HoldsParents, IsCommitPlace};
ghost use Rattle.gx_rev.specs.Ancestors.{AddsParentsAt, IsCommitBefore, TellsReached, TellsReachedSoon};

use crate::Parents;
use crate::objects::view_of;
use crate::reached::{name_at, place_of};
use gx_object::{Name, Namer};
use gx_repo::Repo;
use std::alloc::{AllocError, Allocator};
use std::collections::BTreeSet;

/// A walk that visits at most so many commits decodes each itself, also in a small repository.
const FEW: usize = 64;

/// For so many records it may visit one commit more.
const RECORDS: usize = 1024;

/// Whether the first of two held commits is the second or one of its ancestors. The commits that long walks visit are decoded
/// once for all calls with the same `parents`.
///
/// Cost: a look-up, where it is the first parent of the second. Otherwise, for each commit behind the first one that the
/// second reaches, its body and a look-up for each of its parents; once a walk is long, where these aren't known. Memory: the
/// places that are still to be visited, none in the first case; and for long walks that of `Parents::learn`.
pub fn is_ancestor<N: Namer, A: Allocator + Copy>(
    alloc: A,
    repo: &Repo<N, A>,
    parents: &mut Parents<A>,
    old: &Name,
    new: &Name,
) -> Result<bool, AllocError>
    requires old { Holds repo.now.1.records kinds.Commit old.now.bytes }
    requires new { Holds repo.now.1.records kinds.Commit new.now.bytes }
    requires holds { HoldsParents repo.now.1 parents.old }
    ensures holds { HoldsParents repo.now.1 parents.new }
    ensures answer { IfOk result (λ answer. answer
        ≡ reaches (commit_at repo.now.1 new.now) (commit_at repo.now.1 old.now)) }
{
    repo.sound();
    // a branch that moved by one commit needs no walk
    if is_first_parent(repo, old, new) {
        return Ok(true);
    }
    let last = place_of(repo, old);
    let first = place_of(repo, new);
    let mut places = BTreeSet::new(alloc);
    places.insert(first)?;
    is_reached(repo, parents, &mut places, last)
}

/// Whether the first of two commits is the first parent of the second.
fn is_first_parent<N: Namer, A: Allocator + Copy>(repo: &Repo<N, A>, old: &Name, new: &Name) -> bool
    requires { IsHeldAs kinds.Commit repo.now.1 new.now }
    ensures { IsTrue result → true
        ≡ reaches (commit_at repo.now.1 new.now) (commit_at repo.now.1 old.now) }
{
    repo.sound();
    let view = view_of(repo, new);
    match view.parent(0) {
        Some(parent) => parent == *old,
        None => false,
    }
}

/// Whether the commit at the last place is reached from one of these.
fn is_reached<N: Namer, A: Allocator + Copy>(
    repo: &Repo<N, A>,
    parents: &mut Parents<A>,
    places: &mut BTreeSet<usize, A>,
    last: usize,
) -> Result<bool, AllocError>
    requires commits { AllByRecursion (IsCommitPlace repo.now.1) places.now.keys }
    requires holds { HoldsParents repo.now.1 parents.old }
    ensures holds { HoldsParents repo.now.1 parents.new }
    ensures told { TellsReached repo.now.1 places.old.keys last result }
{
    match is_reached_soon(repo, places, last)? {
        Some(is_reached) => Ok(is_reached),
        None => is_reached_later(repo, parents, places, last),
    }
}

/// The same, where few commits have to be visited for it. They are visited from the newest one on, down to the last place.
fn is_reached_soon<N: Namer, A: Allocator + Copy>(
    repo: &Repo<N, A>,
    places: &mut BTreeSet<usize, A>,
    last: usize,
) -> Result<Option<bool>, AllocError>
    requires commits { AllByRecursion (IsCommitPlace repo.now.1) places.old.keys }
    ensures commits { OnOk result (AllByRecursion (IsCommitPlace repo.now.1) places.new.keys) }
    ensures told { TellsReachedSoon repo.now.1 places.old.keys places.new.keys last result }
{
    repo.sound();
    for _visit in 0..(repo.store().len() / RECORDS).max(FEW) {
        let Some(place) = places.pop_last() else {
            return Ok(Some(false));
        };
        if place <= last {
            return Ok(Some(place == last));
        }
        insert_parents(repo, places, place)?;
    }
    Ok(None)
}

/// The same, where each commit that is visited may be known already.
fn is_reached_later<N: Namer, A: Allocator + Copy>(
    repo: &Repo<N, A>,
    parents: &mut Parents<A>,
    places: &mut BTreeSet<usize, A>,
    last: usize,
) -> Result<bool, AllocError>
    requires commits { AllByRecursion (IsCommitPlace repo.now.1) places.now.keys }
    requires holds { HoldsParents repo.now.1 parents.old }
    ensures holds { HoldsParents repo.now.1 parents.new }
    ensures told { TellsReached repo.now.1 places.old.keys last result }
{
    repo.sound();
    while let Some(place) = places.pop_last() {
        if place <= last {
            return Ok(place == last);
        }
        parents.learn(repo, place)?;
        insert_places(repo, places, place, parents.of(repo, place))?;
    }
    Ok(false)
}

/// Adds these places of the parents of the commit at a place.
pub(crate) fn insert_places<N: Namer, A: Allocator + Copy>(
    repo: &Repo<N, A>,
    places: &mut BTreeSet<usize, A>,
    place: usize,
    parents: &[usize],
) -> Result<(), AllocError>
    requires commit { IsCommitPlace repo.now.1 place }
    requires parents { AreParentPlaces repo.now.1 place parents.now }
    requires before { AllByRecursion (IsCommitBefore repo.now.1 place) places.now.keys }
    ensures before { OnOk result
        (AllByRecursion (IsCommitBefore repo.now.1 place) places.new.keys) }
    ensures parents { OnOk result (AddsParentsAt repo.now.1 place places.old.keys places.new.keys) }
{
    repo.sound();
    for parent in parents {
        places.insert(*parent)?;
    }
    Ok(())
}

/// Adds the places of the parents of the commit at a place, which stand before it.
fn insert_parents<N: Namer, A: Allocator + Copy>(
    repo: &Repo<N, A>,
    places: &mut BTreeSet<usize, A>,
    place: usize,
) -> Result<(), AllocError>
    requires commit { IsCommitPlace repo.now.1 place }
    requires before { AllByRecursion (IsCommitBefore repo.now.1 place) places.now.keys }
    ensures before { OnOk result
        (AllByRecursion (IsCommitBefore repo.now.1 place) places.new.keys) }
    ensures parents { OnOk result (AddsParentsAt repo.now.1 place places.old.keys places.new.keys) }
{
    repo.sound();
    let commit = name_at(repo, place);
    let view = view_of(repo, &commit);
    for number in 0..view.parent_count() {
        if let Some(parent) = view.parent(number) {
            places.insert(place_of(repo, &parent))?;
        }
    }
    Ok(())
}
