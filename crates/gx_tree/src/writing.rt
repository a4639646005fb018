//! Writing a directory's trees: those below it first, in the order of its entries, and then its own. What is written
//! comes back with the names remembered, and has the old entries where no directory among them gets a name.
ghost use Rattle.std.specs.Prelude.{◌≡◌, ◌++◌, [], IfOk, IsTrue, OnOk, Some, map};
ghost use Rattle.gx_model.specs.Records.Growth.{tree_records};
ghost use Rattle.gx_model.specs.Objects.{entry_text, tree_text};
ghost use Rattle.gx_object.specs.Parts.{bytes_if};
ghost use Rattle.gx_tree.specs.Edits.{level_in};
ghost use Rattle.gx_tree.specs.Homes.{EntriesKeepHome, HoldsIn, AreAtHome, IsItemAtHome};
ghost use Rattle.gx_tree.specs.Named.{IsAtHome, is_named, own_name};
ghost use Rattle.gx_tree.specs.Nodes.{IsLevel, files};
ghost use Rattle.gx_tree.specs.Views.{shown_item, own_entry, shown_entries, shown_entry, RememberAll, Remembers};
ghost use Rattle.gx_tree.specs.Writes.{Extends, IsTreeName, StoresAll, kept_records, level_records};
ghost use Rattle.gx_tree.specs.Written.{AreWritten, AreWrittenIn, IsItemWritten, IsWritten, PushesItem, RemembersMore, Writes, record_above, records_below};

use crate::directory::{Directory, Entry, Item};
use crate::fault::TreeFault;
use gx_object::{Kind, Mode, Name, Namer, append_entry};
use gx_store::Store;
use std::alloc::{AllocError, Allocator};
use std::rc::Rc;

impl<A: Allocator + Copy> Directory<A> {
    /// Puts the trees at and below the directory, and answers it with their names. Below a name that is remembered nothing is
    /// put, since that is held. Each body is made in the one buffer straight from the entries, once those
    /// below are put.
    #[cycle(write)]
    pub(crate) fn written<N: Namer>(
        &self,
        alloc: A,
        store: &mut Store<N, A>,
        body: &mut Vec<u8, A>,
    ) -> Result<Directory<A>, TreeFault>
        requires home { HoldsIn N.name_of store.now IsAtHome self.now }
        ensures extends { Extends store.old store.new }
        ensures puts { StoresAll N.name_of tree_records self.now.files store.old store.new result }
        ensures made { IfOk result (Writes N.name_of IsWritten store.old store.new self.now.files) }
    {
        if self.is_named() {
            return Ok(self.shared()?);
        }
        let entries = written_entries(alloc, &self.entries, store, body)?;
        let name = put_tree(entries.as_slice(), store, body)?;
        Ok(Directory {
            entries,
            remembered: Some(name),
            reach: self.reach,
        })
    }

    /// The name of its tree, which it remembers.
    pub(crate) fn tree_name(&self) -> &Name
        requires { IsTrue (is_named self.now.names) }
        ensures { own_name self.now.names ≡ Some result.now.bytes }
    {
        match &self.remembered {
            Some(name) => name,
            None => unreachable!(),
        }
    }

    /// The name of its tree, where it is remembered.
    pub(crate) fn own_name(&self) -> Option<Name>
        ensures { bytes_if result ≡ own_name self.now.names }
    {
        self.remembered
    }

    // Whether it remembers the name of its tree.
    fn is_named(&self) -> bool
        ensures { IsTrue result → IsTrue (is_named self.now.names) }
    {
        self.remembered.is_some()
    }
}

// Whether each directory among the entries remembers a name.
fn remember_all<A: Allocator + Copy>(entries: &[Entry<A>]) -> bool
    ensures { IsTrue result → RememberAll entries.now }
{
    for entry in entries {
        if !entry.item.remembers() {
            return false;
        }
    }
    true
}

// Puts the trees below these entries, and answers the entries with the names: the old ones, where none gets a name.
#[cycle(write)]
fn written_entries<A: Allocator + Copy, N: Namer>(
    alloc: A,
    entries: &Rc<Vec<Entry<A>, A>, A>,
    store: &mut Store<N, A>,
    body: &mut Vec<u8, A>,
) -> Result<Rc<Vec<Entry<A>, A>, A>, TreeFault>
    requires level { IsLevel (level_in entries.now) }
    requires home { HoldsIn N.name_of store.now AreAtHome entries.now.value.items }
    ensures extends { Extends store.old store.new }
    ensures puts { StoresAll N.name_of level_records (level_in entries.now)
        store.old store.new result }
    ensures made { IfOk result (Writes N.name_of AreWrittenIn store.old store.new entries.now) }
{
    let shares = remember_all(entries.as_slice());
    if shares {
        return Ok(entries.clone()?);
    }
    let mut named = Vec::with_capacity(alloc, entries.len())?;
    write_entries(alloc, entries.as_slice(), &mut named, store, body)?;
    let Ok(named) = Rc::new(alloc, named) else {
        return Err(TreeFault::OutOfMemory);
    };
    Ok(named)
}

// Puts the trees below these entries, and makes `named`, which is empty, the entries with the names.
#[cycle(write)]
fn write_entries<A: Allocator + Copy, N: Namer>(
    alloc: A,
    entries: &[Entry<A>],
    named: &mut Vec<Entry<A>, A>,
    store: &mut Store<N, A>,
    body: &mut Vec<u8, A>,
) -> Result<(), TreeFault>
    requires level { IsLevel (shown_entries entries.now) }
    requires home { HoldsIn N.name_of store.now AreAtHome entries.now }
    requires empty { named.old.items ≡ [] }
    ensures extends { Extends store.old store.new }
    ensures puts { StoresAll N.name_of records_below entries.now store.old store.new result }
    ensures made { OnOk result
        (Writes N.name_of AreWritten store.old store.new entries.now named.new.items) }
{
    for entry in entries {
        let item = entry.item.written(alloc, store, body)?;
        entry.push_with(item, named)?;
    }
    Ok(())
}

// Puts the tree of these entries, made in the buffer by the names that they remember, and answers its name.
pub(crate) fn put_tree<A: Allocator + Copy, N: Namer>(
    entries: &[Entry<A>],
    store: &mut Store<N, A>,
    body: &mut Vec<u8, A>,
) -> Result<Name, TreeFault>
    requires level { IsLevel (shown_entries entries.now) }
    requires home { HoldsIn N.name_of store.now AreAtHome entries.now }
    requires remember { RememberAll entries.now }
    ensures extends { Extends store.old store.new }
    ensures name { IfOk result
        (IsTreeName (N.name_of store.old.0) (files (shown_entries entries.now))) }
    ensures puts { StoresAll N.name_of record_above entries.now store.old store.new result }
{
    encode_entries(body, entries)?;
    Ok(store.put(Kind::Tree, body.as_slice())?)
}

// Makes the buffer the body of the tree of entries that remember their names.
fn encode_entries<A: Allocator + Copy>(
    body: &mut Vec<u8, A>,
    entries: &[Entry<A>],
) -> Result<(), AllocError>
    requires { RememberAll entries.now }
    ensures { OnOk result (body.new.items ≡ tree_text (map own_entry entries.now)) }
{
    body.clear();
    for entry in entries {
        entry.append_to(body)?;
    }
    Ok(())
}

impl<A: Allocator + Copy> Entry<A> {
    // Pushes the entry with this in place of its item.
    fn push_with(&self, item: Item<A>, named: &mut Vec<Entry<A>, A>) -> Result<(), AllocError>
        ensures seen { OnOk result (PushesItem (shown_entry self.now).0 item named.old named.new) }
        ensures home { OnOk result (EntriesKeepHome IsItemAtHome item named.old.items named.new) }
        ensures remember { OnOk result (RemembersMore item named.old named.new) }
    {
        let component = self.component.shared()?;
        named.push(Entry { component, item })?;
        Ok(())
    }

    // Appends its text, by the name that it remembers.
    fn append_to(&self, body: &mut Vec<u8, A>) -> Result<(), AllocError>
        requires { Remembers self.now.item }
        ensures { OnOk result (body.new.items ≡ body.old.items ++ entry_text (own_entry self.now)) }
    {
        match &self.item {
            Item::File(mode, name) => append_entry(body, *mode, self.component(), name),
            Item::Folder(below) => {
                append_entry(body, Mode::Dir, self.component(), below.tree_name())
            }
        }
    }
}

impl<A: Allocator + Copy> Item<A> {
    // Whether it is a file, or a directory that remembers a name.
    fn remembers(&self) -> bool
        ensures { IsTrue result → Remembers self.now }
    {
        match self {
            Item::File(_, _) => true,
            Item::Folder(below) => below.is_named(),
        }
    }

    // Puts the trees of a directory, and answers it with their names.
    #[cycle(write)]
    fn written<N: Namer>(
        &self,
        alloc: A,
        store: &mut Store<N, A>,
        body: &mut Vec<u8, A>,
    ) -> Result<Item<A>, TreeFault>
        requires home { HoldsIn N.name_of store.now IsItemAtHome self.now }
        ensures extends { Extends store.old store.new }
        ensures puts { StoresAll N.name_of kept_records (shown_item self.now)
            store.old store.new result }
        ensures made { IfOk result (Writes N.name_of IsItemWritten store.old store.new self.now) }
    {
        match self {
            Item::File(mode, name) => Ok(Item::File(*mode, *name)),
            Item::Folder(below) => {
                let below = below.written(alloc, store, body)?;
                Ok(Item::Folder(below))
            }
        }
    }
}
