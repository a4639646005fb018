//! What an import has made so far, besides the objects.

ghost use Rattle.std.specs.Prelude.{◌≡◌, OnOk};
ghost use Rattle.std.specs.FinMap.Entries.{put};
ghost use Rattle.gx_model.specs.Texts.{byte_cmp};
ghost use Rattle.gx_import.specs.AtHand.{IsEntered};
ghost use Rattle.gx_import.specs.Rows.{AreRows};
ghost use Rattle.gx_import.specs.Standing.{AreEmpty, IsTaken, is_published, tip_at};

use crate::at_hand::AtHand;
use crate::branches::{Tip, take_files};
use crate::marks::Marks;
use crate::table::Table;
use gx_object::Name;
use gx_tree::{LoadedTrees, PathTree};
use std::alloc::{AllocError, Allocator};

/// The marks, branches and tags of an import, and whether a branch may lose commits.
#[derive(Drop)]
pub(crate) struct Tables<A: Allocator> {
    pub(crate) alloc: A,
    pub(crate) marks: Marks<A>,
    pub(crate) branches: Table<Tip<A>, A>,
    /// The commits whose files are at hand, with their branches.
    pub(crate) at_hand: AtHand<A>,
    /// The tags by their refs.
    pub(crate) tags: Table<Name, A>,
    pub(crate) is_forced: bool,
    /// The trees that were read for commits at which no branch had files at hand.
    pub(crate) loaded: LoadedTrees<A>,
}

impl<A: Allocator + Copy> Tables<A> {
    /// Nothing yet, and whether branches may lose commits. Takes no memory.
    pub(crate) fn new(alloc: A, is_forced: bool) -> Tables<A>
        ensures empty { AreEmpty result }
        ensures forced { result.is_forced ≡ is_forced }
    {
        Tables {
            alloc,
            marks: Marks::new(alloc),
            branches: Table::new(alloc),
            at_hand: AtHand::new(alloc),
            tags: Table::new(alloc),
            is_forced,
            loaded: LoadedTrees::new(alloc),
        }
    }

    /// Sets where a branch stands: at a commit or at none, with the commit's files where they are to be at hand. A branch that
    /// was published stays so. The files that it has at hand are found by its commit, and those that it had no more.
    ///
    /// Cost: the name, and the logarithm of the number of branches.
    pub(crate) fn set_tip(
        &mut self,
        branch: Vec<u8, A>,
        commit: Option<Name>,
        files: Option<PathTree<A>>,
    ) -> Result<(), AllocError>
        ensures others { self.new
            ≡ record self.old { branches = self.new.branches; at_hand = self.new.at_hand } }
        ensures branches { OnOk result (self.new.branches
            ≡ put byte_cmp branch.items (tip_at commit files self.old.branches branch.items)
            self.old.branches) }
        ensures entered { OnOk result (IsEntered self.new.at_hand branch.items commit files) }
    {
        let was_published = self.forget_tip(branch.as_slice());
        let tip = Tip {
            commit,
            files,
            was_published,
        };
        self.enter_tip(branch.as_slice(), &tip)?;
        self.branches.set(branch, tip)
    }

    /// Makes room for the files of one more commit: where those of as many as may be are at hand, a branch lets its own go.
    /// It stays at its commit, whose trees are loaded again when its files are asked for.
    ///
    /// Cost: the logarithm of the number of branches. Takes no memory.
    pub(crate) fn make_room(&mut self)
        ensures others { self.new
            ≡ record self.old { branches = self.new.branches; at_hand = self.new.at_hand } }
        ensures taken { AreRows IsTaken self.old.branches self.new.branches }
    {
        let Some((commit, branch)) = self.at_hand.pop_if_full() else {
            return;
        };
        take_files(&mut self.branches, branch.as_slice(), &commit);
    }

    /// Forgets the commit at which a branch has files at hand, and answers whether the branch was published with a commit.
    fn forget_tip(&mut self, branch: &[u8]) -> bool
        ensures others { self.new ≡ record self.old { at_hand = self.new.at_hand } }
        ensures published { result ≡ is_published self.old.branches branch.now }
    {
        let Some(tip) = self.branches.get(branch) else {
            return false;
        };
        if let Some(commit) = tip.commit {
            self.at_hand.forget(&commit, branch);
        }
        tip.was_published
    }

    /// Enters the commit of a branch, where its files are at hand.
    fn enter_tip(&mut self, branch: &[u8], tip: &Tip<A>) -> Result<(), AllocError>
        ensures others { self.new ≡ record self.old { at_hand = self.new.at_hand } }
        ensures entered { OnOk result
            (IsEntered self.new.at_hand branch.now tip.now.commit tip.now.files) }
    {
        match tip.commit {
            Some(commit) if tip.files.is_some() => self.at_hand.enter(self.alloc, commit, branch),
            _ => Ok(()),
        }
    }
}
