//! The first parents of a commit, where many of them are asked for: `r~1`, `r~2` and so on share one walk.

ghost use Rattle.std.specs.Prelude.{◌≡◌, ◌<◌, IfOk, IsTrue, OnOk, Some, length};
ghost use Rattle.std.specs.List.{slice_get};
ghost use Rattle.gx_model.specs.declared.objects.Kind.TheVariants as kinds;
ghost use Rattle.gx_model.specs.Faults.{Gives};
ghost use Rattle.gx_model.specs.Revisions.Denotation.{nth_ancestor};
ghost use Rattle.gx_rev.specs.FirstParents.{AreFirstParents};
ghost use Rattle.gx_rev.specs.Objects.{IsHeldAs, commit_at};
ghost use Rattle.gx_rev.specs.RevFaults.{fault_of};
ghost use Rattle.gx_model.specs.Histories.{Records};

use crate::RevFault;
use crate::objects::parent_of;
use gx_object::{Name, Namer};
use gx_repo::Repo;
use std::alloc::{AllocError, Allocator};

/// A commit and its first parents, one behind the other, as far as they were asked for.
#[derive(Drop)]
pub struct FirstParents<A: Allocator> {
    names: Vec<Name, A>,
}

impl<A: Allocator + Copy> FirstParents<A> {
    /// Of no commit yet. Takes no memory.
    pub fn new(alloc: A) -> FirstParents<A>
        ensures { (repository : Records) → AreFirstParents repository result }
    {
        FirstParents {
            names: Vec::new(alloc),
        }
    }

    /// The commit that is so many first parents up from a held one.
    ///
    /// Cost: constant where the last walk began at the same commit and went as far; otherwise an object's body and a look-up
    /// for each commit that it goes further, or of a walk of its own. Takes memory for their names.
    pub(crate) fn ancestor<N: Namer>(
        &mut self,
        repo: &Repo<N, A>,
        commit: &Name,
        number: u64,
    ) -> Result<Name, RevFault>
        requires held { IsHeldAs kinds.Commit repo.now.1 commit.now }
        requires walk { AreFirstParents repo.now.1 self.old }
        ensures walk { AreFirstParents repo.now.1 self.new }
        ensures ancestor { Gives fault_of (commit_at repo.now.1) result
            (nth_ancestor number (commit_at repo.now.1 commit.now)) }
        ensures held { IfOk result (IsHeldAs kinds.Commit repo.now.1) }
    {
        self.begin_at(repo, commit)?;
        self.go_on(repo, commit, number)
    }

    /// Begins at a commit, unless this began there.
    fn begin_at<N: Namer>(&mut self, repo: &Repo<N, A>, commit: &Name) -> Result<(), AllocError>
        requires held { IsHeldAs kinds.Commit repo.now.1 commit.now }
        requires walk { AreFirstParents repo.now.1 self.old }
        ensures walk { AreFirstParents repo.now.1 self.new }
        ensures first { OnOk result (slice_get self.new.names.items 0 ≡ Some commit.now) }
    {
        if begins_with(&self.names, commit) {
            return Ok(());
        }
        self.names.clear();
        self.names.push(*commit)?;
        Ok(())
    }

    /// Goes on up to the commit that is so many first parents up from the first one.
    fn go_on<N: Namer>(
        &mut self,
        repo: &Repo<N, A>,
        commit: &Name,
        number: u64,
    ) -> Result<Name, RevFault>
        requires walk { AreFirstParents repo.now.1 self.old }
        requires first { slice_get self.old.names.items 0 ≡ Some commit.now }
        ensures walk { AreFirstParents repo.now.1 self.new }
        ensures ancestor { Gives fault_of (commit_at repo.now.1) result
            (nth_ancestor number (commit_at repo.now.1 commit.now)) }
        ensures held { IfOk result (IsHeldAs kinds.Commit repo.now.1) }
    {
        while self.names.len() as u64 <= number {
            let last = self.names[self.names.len() - 1];
            let parent = parent_of(repo, &last, 1)?;
            self.names.push(parent)?;
        }
        Ok(self.names[number as usize])
    }
}

/// Whether a list of names begins with this one.
fn begins_with(names: &[Name], name: &Name) -> bool
    ensures { IsTrue result → slice_get names.now 0 ≡ Some name.now }
{
    match names.first() {
        Some(first) => first == name,
        None => false,
    }
}
