//! Where the files of a commit may be at hand.

ghost use Rattle.std.specs.Prelude.{◌≡◌, None, Some, IfSome, OnOk, ◌≢◌};
ghost use Rattle.std.specs.Option.{option_map};
ghost use Rattle.gx_object.specs.declared.name.Name.{Name};
ghost use Rattle.gx_import.specs.AtHand.{branch_of};

use gx_object::Name;
use gx_tree::PathTree;
use std::alloc::{AllocError, Allocator};
use std::collections::BTreeMap;

/// The files of at most so many commits are at hand.
const MOST: usize = 256;

/// Commits whose files are at hand, each with the branch that has them. There are at most 256 of them.
///
/// This is a hint: whoever takes it looks whether the branch stands at the commit and has the files.
#[derive(Drop)]
pub(crate) struct AtHand<A: Allocator> {
    branches: BTreeMap<Name, Vec<u8, A>, A>,
    /// The commit that was taken out last to make room.
    last: Name,
}

impl<A: Allocator + Copy> AtHand<A> {
    /// No commits. Takes no memory.
    pub(crate) fn new(alloc: A) -> AtHand<A>
        ensures { (commit : Name) → branch_of result commit ≡ None }
    {
        AtHand {
            branches: BTreeMap::new(alloc),
            last: Name { bytes: [0; 20] },
        }
    }

    /// The branch of a commit. Cost: the logarithm of the number of branches. Takes no memory.
    pub(crate) fn branch(&self, commit: &Name) -> Option<&[u8]>
        ensures { option_map (λ branch. branch.now) result ≡ branch_of self.now commit.now }
    {
        match self.branches.get(commit) {
            Some(branch) => Some(branch.as_slice()),
            None => None,
        }
    }

    /// Enters the branch of a commit. Cost: the name, and the logarithm of the number of branches.
    pub(crate) fn enter(&mut self, alloc: A, commit: Name, branch: &[u8]) -> Result<(), AllocError>
        ensures { OnOk result (branch_of self.new commit ≡ Some branch.now) }
    {
        let branch = Vec::from_slice(alloc, branch)?;
        self.branches.insert(commit, branch)?;
        Ok(())
    }

    /// The files of a commit, unless a branch has them at hand already: they are not kept twice.
    ///
    /// Cost: the logarithm of the number of branches. Takes no memory.
    pub(crate) fn unless_held(&self, commit: &Name, files: PathTree<A>) -> Option<PathTree<A>>
        ensures { IfSome result (λ kept. kept ≡ files) }
    {
        match self.branch(commit) {
            Some(_) => None,
            None => Some(files),
        }
    }

    /// Takes out a commit with its branch, where there are as many as may be: the next one by name behind the last that was
    /// taken out, and the first behind all. So names take turns, and no commit stays because of its name.
    ///
    /// Cost: the logarithm of the number of branches. Takes no memory.
    pub(crate) fn pop_if_full(&mut self) -> Option<(Name, Vec<u8, A>)>
        ensures branch { IfSome result (λ row. branch_of self.old row.0 ≡ Some row.1.items) }
        ensures gone { IfSome result (λ row. branch_of self.new row.0 ≡ None) }
    {
        if self.branches.len() < MOST {
            return None;
        }
        let commit = match self.branches.range(self.last..).next() {
            Some((commit, _)) => *commit,
            None => *self.branches.first_key_value()?.0,
        };
        let branch = self.branches.remove(&commit)?;
        self.last = commit;
        Some((commit, branch))
    }

    /// Forgets that a branch has the files of a commit. Cost: the logarithm of the number of branches.
    pub(crate) fn forget(&mut self, commit: &Name, branch: &[u8])
        ensures { branch_of self.new commit.now ≢ Some branch.now }
    {
        if self.branch(commit) == Some(branch) {
            self.branches.remove(commit);
        }
    }
}
