//! What both of two commits reach: two walks go down from them, the newest place first, until they meet.

ghost use Rattle.std.specs.Prelude.{◌≡◌, IfOk, OnOk, length};
ghost use Rattle.std.specs.List.{AllByRecursion};
ghost use Rattle.gx_model.specs.declared.objects.Kind.TheVariants as kinds;
ghost use Rattle.gx_model.specs.Laws.RepositoryLaws.{values_of};
ghost use Rattle.gx_rev.specs.Ancestors.{AddsParentsAt, IsCommitBefore};
ghost use Rattle.gx_rev.specs.Meetings.{GoesDown, HasMeeting, MarksMeetings, reach_both};
ghost use Rattle.gx_rev.specs.Objects.{IsHeldAs, commit_at};
ghost use Rattle.gx_rev.specs.Parents.{HoldsParents, IsCommitPlace};
ghost use Rattle.gx_rev.specs.Tips.{AddsTips};

use crate::Parents;
use crate::ancestors::insert_places;
use crate::reached::place_of;
use gx_object::{Name, Namer};
use gx_repo::Repo;
use std::alloc::{AllocError, Allocator};
use std::collections::BTreeSet;

/// Marks commits that together reach what both of two held commits reach.
///
/// Cost: for each commit that only one of them reaches, what `Parents::learn` costs, and the logarithm of the number of
/// places that are still to be visited; also for what is older than all these marks, where both reach it on more than one
/// way. Takes memory for these places.
pub(crate) fn mark_common<N: Namer, A: Allocator + Copy>(
    alloc: A,
    repo: &Repo<N, A>,
    parents: &mut Parents<A>,
    left: &Name,
    right: &Name,
    marks: &mut [bool],
) -> Result<(), AllocError>
    requires left { IsHeldAs kinds.Commit repo.now.1 left.now }
    requires right { IsHeldAs kinds.Commit repo.now.1 right.now }
    requires long { length marks.old ≡ length (values_of repo.now.1) }
    requires holds { HoldsParents repo.now.1 parents.old }
    ensures holds { HoldsParents repo.now.1 parents.new }
    ensures marks { OnOk result (AddsTips repo.now.1
        (reach_both (commit_at repo.now.1 left.now) (commit_at repo.now.1 right.now))
        marks.old marks.new) }
{
    repo.sound();
    let left = place_of(repo, left);
    let right = place_of(repo, right);
    let mut lefts = BTreeSet::new(alloc);
    lefts.insert(left)?;
    let mut rights = BTreeSet::new(alloc);
    rights.insert(right)?;
    mark_meetings(repo, parents, &mut lefts, &mut rights, marks)
}

/// Marks where the walks from these places meet.
fn mark_meetings<N: Namer, A: Allocator + Copy>(
    repo: &Repo<N, A>,
    parents: &mut Parents<A>,
    lefts: &mut BTreeSet<usize, A>,
    rights: &mut BTreeSet<usize, A>,
    marks: &mut [bool],
) -> Result<(), AllocError>
    requires meeting { HasMeeting repo.now.1 marks.old lefts.old.keys rights.old.keys }
    requires holds { HoldsParents repo.now.1 parents.old }
    ensures holds { HoldsParents repo.now.1 parents.new }
    ensures marks { OnOk result
        (MarksMeetings repo.now.1 lefts.old.keys rights.old.keys marks.old marks.new) }
{
    repo.sound();
    loop {
        let goes_on = go_down(repo, parents, lefts, rights, marks)?;
        if !goes_on {
            return Ok(());
        }
    }
}

/// Visits the newest place of both walks: marks it where they meet, and otherwise goes on to its parents. False where one
/// of them has come to its end.
fn go_down<N: Namer, A: Allocator + Copy>(
    repo: &Repo<N, A>,
    parents: &mut Parents<A>,
    lefts: &mut BTreeSet<usize, A>,
    rights: &mut BTreeSet<usize, A>,
    marks: &mut [bool],
) -> Result<bool, AllocError>
    requires meeting { HasMeeting repo.now.1 marks.old lefts.old.keys rights.old.keys }
    requires holds { HoldsParents repo.now.1 parents.old }
    ensures holds { HoldsParents repo.now.1 parents.new }
    ensures down { IfOk result (GoesDown repo.now.1 lefts.old.keys rights.old.keys marks.old
        lefts.new.keys rights.new.keys marks.new) }
{
    repo.sound();
    let Some(left) = lefts.pop_last() else {
        return Ok(false);
    };
    let Some(right) = rights.pop_last() else {
        return Ok(false);
    };
    if left == right {
        marks[left] = true;
        return Ok(true);
    }
    if left > right {
        rights.insert(right)?;
        visit(repo, parents, lefts, left)?;
        return Ok(true);
    }
    lefts.insert(left)?;
    visit(repo, parents, rights, right)?;
    Ok(true)
}

/// Goes on from a place, which stands behind all that are still to be visited, to the parents of its commit.
fn visit<N: Namer, A: Allocator + Copy>(
    repo: &Repo<N, A>,
    parents: &mut Parents<A>,
    places: &mut BTreeSet<usize, A>,
    place: usize,
) -> Result<(), AllocError>
    requires commit { IsCommitPlace repo.now.1 place }
    requires before { AllByRecursion (IsCommitBefore repo.now.1 place) places.now.keys }
    requires holds { HoldsParents repo.now.1 parents.old }
    ensures holds { HoldsParents repo.now.1 parents.new }
    ensures before { OnOk result
        (AllByRecursion (IsCommitBefore repo.now.1 place) places.new.keys) }
    ensures parents { OnOk result (AddsParentsAt repo.now.1 place places.old.keys places.new.keys) }
{
    parents.learn(repo, place)?;
    insert_places(repo, places, place, parents.of(repo, place))
}
