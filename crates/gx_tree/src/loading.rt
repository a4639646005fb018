//! Making a directory from the records of its trees.
ghost use Rattle.std.specs.Prelude.{IfOk};
ghost use Rattle.gx_tree.specs.HeldTrees.{IsItemOf, NamesKeptWithin, NamesTreeWithin};
ghost use Rattle.gx_tree.specs.Homes.{HoldsIn, IsItemAtHome};
ghost use Rattle.gx_tree.specs.Loaded.{AreLoaded, IsLoaded};
ghost use Rattle.gx_tree.specs.Views.{Remembers};

use crate::directory::{Directory, Entry, Item};
use crate::loaded::LoadedTrees;
use gx_object::{Mode, Name, Namer, held_tree};
use gx_store::Store;
use std::alloc::{AllocError, Allocator};

impl<A: Allocator + Copy> Directory<A> {
    /// The directory of a held tree, whose paths have at most `room` bytes. It is entered among those that are loaded, and
    /// is the one that stands there already if its tree was met before.
    #[cycle(load)]
    pub(crate) fn load<N: Namer>(
        alloc: A,
        store: &Store<N, A>,
        name: &Name,
        room: usize,
        loaded: &mut LoadedTrees<A>,
    ) -> Result<Directory<A>, AllocError>
        requires held { NamesTreeWithin (N.name_of store.now.0) store.now.1 room name.now }
        requires loaded { HoldsIn N.name_of store.now AreLoaded loaded.old }
        ensures directory { IfOk result
            (IsLoaded (N.name_of store.now.0) store.now.1 name.now.bytes) }
        ensures loaded { HoldsIn N.name_of store.now AreLoaded loaded.new }
    {
        if let Some(known) = loaded.of_tree(name)? {
            return Ok(known);
        }
        let Some((_, body)) = store.get(name) else {
            unreachable!();
        };
        let mut entries = Vec::new(alloc);
        for entry in held_tree(body) {
            let item = Item::load(alloc, store, &entry, room, loaded)?;
            entries.push(Entry::new(alloc, entry.component, item)?)?;
        }
        let directory = Directory::of(alloc, entries, Some(*name))?;
        loaded.enter(name, directory)
    }
}

impl<A: Allocator + Copy> Item<A> {
    // What an entry of a held tree stands for.
    #[cycle(load)]
    fn load<N: Namer>(
        alloc: A,
        store: &Store<N, A>,
        entry: &gx_object::Entry<'_>,
        room: usize,
        loaded: &mut LoadedTrees<A>,
    ) -> Result<Item<A>, AllocError>
        requires held { NamesKeptWithin (N.name_of store.now.0) store.now.1 room entry.now }
        requires loaded { HoldsIn N.name_of store.now AreLoaded loaded.old }
        ensures home { IfOk result (HoldsIn N.name_of store.now IsItemAtHome) }
        ensures remembers { IfOk result Remembers }
        ensures kept { IfOk result (IsItemOf (N.name_of store.now.0) store.now.1 entry.now) }
        ensures loaded { HoldsIn N.name_of store.now AreLoaded loaded.new }
    {
        if entry.mode != Mode::Dir {
            return Ok(Item::File(entry.mode, entry.name));
        }
        let used = entry.component.len();
        if used >= room {
            unreachable!();
        }
        let below = Directory::load(alloc, store, &entry.name, room - used - 1, loaded)?;
        Ok(Item::Folder(below))
    }
}
