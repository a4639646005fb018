//! Directories that are made of held trees already.
ghost use Rattle.std.specs.Prelude.{◌≡◌, IfOk};
ghost use Rattle.gx_tree.specs.Loaded.{AreLoadedAnywhere, EntersLoaded, KeepsLoaded, directory_at};

use crate::directory::Directory;
use gx_object::Name;
use std::alloc::{AllocError, Allocator};
use std::collections::BTreeMap;

/// So many entries are kept besides those of two trees as large as the largest.
const SPARE: usize = 65_536;

/// Directories by the names of their trees, so that a tree that stands at many paths, or in many commits, is read once.
/// They are let go where they have too many entries, and read again when they are asked for.
#[derive(Drop)]
pub struct LoadedTrees<A: Allocator> {
    directories: BTreeMap<Name, Directory<A>, A>,
    /// The entries of these directories, and those that were there when the last load began.
    entries: usize,
    before: usize,
    /// The most entries that one load entered.
    largest: usize,
}

impl<A: Allocator + Copy> LoadedTrees<A> {
    /// No directories. Takes no memory.
    pub fn new(alloc: A) -> LoadedTrees<A>
        ensures { AreLoadedAnywhere result }
    {
        LoadedTrees {
            directories: BTreeMap::new(alloc),
            entries: 0,
            before: 0,
            largest: 0,
        }
    }

    /// The directory of a tree's name, shared. Cost: the logarithm of the number of directories.
    pub(crate) fn of_tree(&self, name: &Name) -> Result<Option<Directory<A>>, AllocError>
        ensures { IfOk result (λ directory. directory ≡ directory_at self.now name.now) }
    {
        match self.directories.get(name) {
            Some(directory) => Ok(Some(directory.shared()?)),
            None => Ok(None),
        }
    }

    /// Enters the directory of a tree's name, and answers it shared. Cost: the logarithm of the number of directories.
    pub(crate) fn enter(
        &mut self,
        name: &Name,
        directory: Directory<A>,
    ) -> Result<Directory<A>, AllocError>
        ensures directory { IfOk result (λ shared. shared ≡ directory) }
        ensures entered { EntersLoaded name.now directory self.old self.new }
    {
        let shared = directory.shared()?;
        let entries = directory.entries.len();
        self.directories.insert(*name, directory)?;
        self.entries = self.entries.saturating_add(entries);
        self.largest = self.largest.max(self.entries.saturating_sub(self.before));
        Ok(shared)
    }

    /// Makes room for a load: lets all directories go where they have more entries than two trees as large as the largest,
    /// and 65,536. What is read again for that has at most as many entries as what was read since.
    pub(crate) fn make_room(&mut self)
        ensures { KeepsLoaded self.old self.new }
    {
        self.before = self.entries;
        if self.entries <= self.largest.saturating_mul(2).saturating_add(SPARE) {
            return;
        }
        self.let_go();
    }

    fn let_go(&mut self)
        ensures { AreLoadedAnywhere self.new }
    {
        self.directories.clear();
        self.entries = 0;
        self.before = 0;
    }
}
