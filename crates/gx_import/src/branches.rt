//! The branches of an import: their commits, and the files of these. Source: git-fast-import(1), "commit" and "reset".

ghost use Rattle.std.specs.Prelude.{◌≡◌, ◌<◌, ◌^◌, length, map, IfSome};
ghost use Rattle.std.specs.List.{filter};
ghost use Rattle.gx_import.specs.Rows.{AreRows};
ghost use Rattle.gx_import.specs.Standing.{AreAtSomeBranch, HasFiles, IsTaken, WereFiles, is_published, published_tip};

use crate::at_hand::AtHand;
use crate::table::Table;
use gx_object::Name;
use gx_tree::PathTree;
use std::alloc::Allocator;
use std::collections::BTreeMap;

/// Where a branch stands: its commit, or none, and the commit's files where they are at hand.
#[derive(Drop)]
pub(crate) struct Tip<A: Allocator> {
    pub(crate) commit: Option<Name>,
    pub(crate) files: Option<PathTree<A>>,
    /// Whether it was published with a commit.
    pub(crate) was_published: bool,
}

impl<A: Allocator + Copy> Tip<A> {
    /// Takes the files of this commit, where the branch stands there and they are at hand.
    fn take_files(&mut self, commit: &Name) -> Option<PathTree<A>>
        ensures taken { IsTaken self.old self.new }
        ensures files { IfSome result (HasFiles self.old commit.now) }
    {
        if self.commit == Some(*commit) {
            self.files.take()
        } else {
            None
        }
    }

    /// The files of this commit, where the branch stands there and they are at hand.
    fn files_at(&self, commit: &Name) -> Option<&PathTree<A>>
        ensures { IfSome result (λ files. HasFiles self.now commit.now files.now) }
    {
        match &self.files {
            Some(files) if self.commit == Some(*commit) => Some(files),
            _ => None,
        }
    }
}

/// Takes the files of a commit from the branch of this name. The branch stays at its commit.
///
/// Cost: the logarithm of the number of branches. Takes no memory.
pub(crate) fn take_files<A: Allocator + Copy>(
    branches: &mut Table<Tip<A>, A>,
    name: &[u8],
    commit: &Name,
) -> Option<PathTree<A>>
    ensures taken { AreRows IsTaken branches.old branches.new }
    ensures files { IfSome result (WereFiles branches.old name.now commit.now) }
{
    let tip = branches.rows.get_mut(name)?;
    tip.take_files(commit)
}

/// The files of a commit, from the branch that is said to have them at hand, where it stands there and has them.
///
/// Cost: the logarithm of the number of branches. Takes no memory.
pub(crate) fn files_at<'a, A: Allocator + Copy>(
    branches: &'a Table<Tip<A>, A>,
    at_hand: &AtHand<A>,
    commit: &Name,
) -> Option<&'a PathTree<A>>
    ensures { IfSome result (λ files. AreAtSomeBranch branches.now commit.now files.now) }
{
    let branch = at_hand.branch(commit)?;
    let tip = branches.get(branch)?;
    tip.files_at(commit)
}

/// Whether a branch was published with a commit. Cost: the logarithm of the number of branches. Takes no memory.
pub(crate) fn is_published<A: Allocator + Copy>(branches: &Table<Tip<A>, A>, name: &[u8]) -> bool
    ensures { result ≡ is_published branches.now name.now }
{
    match branches.get(name) {
        Some(tip) => tip.was_published,
        None => false,
    }
}

/// Tells the branches with a commit that they were published. Cost: the number of branches. Takes no memory.
pub(crate) fn set_published<A: Allocator + Copy>(branches: &mut Table<Tip<A>, A>)
    ensures { branches.new ≡ map (λ row. (row.0, published_tip row.1)) branches.old }
{
    set_each(&mut branches.rows);
}

/// The same of the map of a table, whatever the keys.
fn set_each<K: Ord + Drop, A: Allocator + Copy>(tips: &mut BTreeMap<K, Tip<A>, A>)
    ensures { tips.new.entries
        ≡ map (λ entry. (entry.0, published_tip entry.1)) tips.old.entries }
{
    tips.retain(|_, tip| {
        tip.was_published = tip.was_published || tip.commit.is_some();
        true
    });
}

/// How many branches were published with a commit. Cost: the number of branches. Takes no memory.
pub(crate) fn count_published<A: Allocator + Copy>(branches: &Table<Tip<A>, A>) -> usize
    ensures count { result ≡ length (filter (λ row. row.1.was_published) branches.now) }
    ensures small { result < 2 ^ 63 }
{
    let mut count = 0;
    for (_, tip) in branches.iter() {
        if tip.was_published {
            count += 1;
        }
    }
    count
}
