//! What commits reach: themselves and their ancestors. The commits that a walk starts from are marked by their places, as
//! tips, and one pass from the newest record on spreads the marks: a commit's parents stand before it.

ghost use Rattle.std.specs.Prelude.{◌≡◌, ◌<◌, IfOk, OnOk, Some, length};
ghost use Rattle.std.specs.List.{AllByRecursion, slice_get};
ghost use Rattle.gx_model.specs.declared.objects.Kind.TheVariants as kinds;
ghost use Rattle.gx_model.specs.Revisions.Ranges.{no_commit, reaches, some_reaches};
ghost use Rattle.gx_model.specs.Laws.RepositoryLaws.{values_of};
ghost use Rattle.gx_rev.specs.Objects.{IsHeld, IsHeldAs, commit_at, parents_at, value_at};
ghost use Rattle.gx_rev.specs.Parents.{HoldsParents, IsCommitPlace, MarksPlaces};
ghost use Rattle.gx_rev.specs.Tips.{AddsTips, AreTips, HasTips, Spreads};
ghost use Rattle.gx_model.specs.Histories.Marks.{Marks};
ghost use Rattle.gx_model.specs.Laws.HistoryLaws.{IsParent};

use crate::Parents;
use crate::objects::view_of;
use gx_object::{Name, Namer};
use gx_repo::Repo;
use std::alloc::{AllocError, Allocator};

/// No marks.
pub(crate) fn unmarked<N: Namer, A: Allocator + Copy>(
    alloc: A,
    repo: &Repo<N, A>,
) -> Result<Vec<bool, A>, AllocError>
    ensures { IfOk result (λ marks. AreTips repo.now.1 no_commit marks.items) }
{
    let count = repo.store().len();
    let marks = vec![in alloc; false; count]?;
    Ok(marks)
}

/// Marks what the tips reach, and nothing else.
///
/// Cost: the number of records, and for each commit that is reached its body and a look-up for each of its parents.
pub(crate) fn spread<N: Namer, A: Allocator + Copy>(repo: &Repo<N, A>, marks: &mut [bool])
    requires { HasTips repo.now.1 marks.old }
    ensures { Spreads repo.now.1 marks.old marks.new }
{
    repo.sound();
    let mut left = marks.len();
    while left > 0 {
        left -= 1;
        if marks[left] {
            mark_parents(repo, marks, &name_at(repo, left));
        }
    }
}

/// Does what `spread` does, where each commit is decoded once for all walks with the same `parents`.
///
/// Cost: the number of records, and what `Parents::learn` costs for each commit that is reached.
pub(crate) fn spread_by<N: Namer, A: Allocator + Copy>(
    repo: &Repo<N, A>,
    parents: &mut Parents<A>,
    marks: &mut [bool],
) -> Result<(), AllocError>
    requires tips { HasTips repo.now.1 marks.old }
    requires holds { HoldsParents repo.now.1 parents.old }
    ensures holds { HoldsParents repo.now.1 parents.new }
    ensures spread { OnOk result (Spreads repo.now.1 marks.old marks.new) }
{
    repo.sound();
    let mut left = marks.len();
    while left > 0 {
        left -= 1;
        if marks[left] {
            parents.learn(repo, left)?;
            mark_at(repo, marks, parents.of(repo, left));
        }
    }
    Ok(())
}

/// Marks the commits at these places.
fn mark_at<N: Namer, A: Allocator + Copy>(repo: &Repo<N, A>, marks: &mut [bool], places: &[usize])
    requires long { length marks.old ≡ length (values_of repo.now.1) }
    requires commits { AllByRecursion (IsCommitPlace repo.now.1) places.now }
    ensures { MarksPlaces repo.now.1 places.now marks.old marks.new }
{
    repo.sound();
    for place in places {
        marks[*place] = true;
    }
}

/// Marks the parents of a held commit.
pub(crate) fn mark_parents<N: Namer, A: Allocator + Copy>(
    repo: &Repo<N, A>,
    marks: &mut [bool],
    commit: &Name,
)
    requires held { IsHeldAs kinds.Commit repo.now.1 commit.now }
    requires long { length marks.old ≡ length (values_of repo.now.1) }
    ensures marked { Marks repo.now.1 (λ parent. IsParent parent (parents_at repo.now.1 commit.now))
        marks.old marks.new }
    ensures tips { AddsTips repo.now.1 (some_reaches (parents_at repo.now.1 commit.now))
        marks.old marks.new }
{
    repo.sound();
    let view = view_of(repo, commit);
    for number in 0..view.parent_count() {
        if let Some(parent) = view.parent(number) {
            mark(repo, marks, &parent);
        }
    }
}

/// Marks a held commit.
pub(crate) fn mark<N: Namer, A: Allocator + Copy>(
    repo: &Repo<N, A>,
    marks: &mut [bool],
    commit: &Name,
)
    requires held { IsHeldAs kinds.Commit repo.now.1 commit.now }
    requires long { length marks.old ≡ length (values_of repo.now.1) }
    ensures marked { Marks repo.now.1 (λ marked. marked ≡ commit_at repo.now.1 commit.now)
        marks.old marks.new }
    ensures tips { AddsTips repo.now.1 (reaches (commit_at repo.now.1 commit.now))
        marks.old marks.new }
{
    repo.sound();
    let place = place_of(repo, commit);
    marks[place] = true;
}

/// The place of a held object among the records.
///
/// Cost: a look-up. Takes no memory.
pub fn place_of<N: Namer, A: Allocator + Copy>(repo: &Repo<N, A>, name: &Name) -> usize
    requires { IsHeld repo.now.1 name.now }
    ensures { slice_get (values_of repo.now.1) result ≡ Some (value_at repo.now.1 name.now) }
{
    let Some(place) = repo.store().place(name) else {
        unreachable!();
    };
    place
}

/// The name of the object at a place among the records.
///
/// Takes no memory.
pub fn name_at<N: Namer, A: Allocator + Copy>(repo: &Repo<N, A>, place: usize) -> Name
    requires { place < length (values_of repo.now.1) }
    ensures value { slice_get (values_of repo.now.1) place ≡ Some (value_at repo.now.1 result) }
    ensures held { IsHeld repo.now.1 result }
{
    let Some((name, _, _)) = repo.store().record(place) else {
        unreachable!();
    };
    name
}
