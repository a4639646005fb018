//! Directories: their entries in the order of Git's trees, each a file or a directory below. Entries never change while
//! more than one directory has them, so trees share them.
ghost use Rattle.std.specs.Prelude.{◌≡◌, ◌<◌, ◌≤◌, [], IsTrue, ◌↔◌, IfOk, OnErr, OnOk, drop, length, ◌++◌};
ghost use Rattle.std.specs.Option.{option_map};
ghost use Rattle.gx_model.specs.Histories.Files.{sub_map};
ghost use Rattle.gx_tree.specs.Edits.{InsertsItem};
ghost use Rattle.gx_tree.specs.Homes.{Keeps, IfThere, Borrowed, AreAtHome, EntriesKeepHome, IsItemAtHome, IsLentAtHome};
ghost use Rattle.gx_tree.specs.Named.{IsAtHome, no_files};
ghost use Rattle.gx_tree.specs.Nodes.{IsInner, IsKeptAt, IsLevel, is_folder, map_if, mark};
ghost use Rattle.gx_tree.specs.Rooms.{counted, kept_reach};
ghost use Rattle.gx_tree.specs.Views.{RemembersBelow, shown_item, shown_lent, option_files, shown_entry, shown_entries, tree_of};
ghost use Rattle.gx_tree.specs.Standings.{standing_of, standing_at};
ghost use Rattle.gx_tree.specs.Steps.{files_of};

use crate::component::Component;
use crate::path_tree::Found;
use crate::reach::reach_of;
use crate::search::{find, place_of};
use gx_object::{Mode, Name};
use gx_text::TreePath;
use std::alloc::{AllocError, Allocator};
use std::marker::Model;
use std::rc::Rc;

/// The files below a directory, by its entries, and its tree's name, where that is remembered. Its reach is the bytes of the
/// longest of their paths, or the greatest number where there are more.
#[cycle(tree)]
#[derive(Drop)]
pub(crate) struct Directory<A: Allocator> {
    pub(crate) entries: Rc<Vec<Entry<A>, A>, A>,
    pub(crate) remembered: Option<Name>,
    pub(crate) reach: usize,
}

/// What stands at one component.
#[cycle(tree)]
#[derive(Drop)]
pub(crate) struct Entry<A: Allocator> {
    pub(crate) component: Component<A>,
    pub(crate) item: Item<A>,
}

#[cycle(tree)]
#[derive(Drop)]
pub(crate) enum Item<A: Allocator> {
    File(Mode, Name),
    Folder(Directory<A>),
}

impl<A: Allocator> Model for Directory<A> {
    ghost use Rattle.gx_tree.specs.Named.{NamedTree};

    ghost Value = { NamedTree };

    ghost use Rattle.gx_tree.specs.Nodes.{components};
    ghost use Rattle.gx_tree.specs.Views.{IsDirectory, tree_of};

    ghost view = { λ a. tree_of a.remembered a.entries.value.items };

    ghost invariant = { λ a. IsDirectory a.remembered a.reach a.entries.value.items };

    ghost size = { λ tree. components tree.files };

    ghost use Rattle.gx_tree.specs.Falls.{falls};

    ghost size_decreases = { λ a h. falls A.Allocator a.entries.value.items h.0 };
}

impl<A: Allocator + Copy> Directory<A> {
    /// That of no files, with room for one entry.
    pub(crate) fn new(alloc: A) -> Result<Directory<A>, AllocError>
        ensures { IfOk result (λ directory. directory ≡ no_files) }
    {
        Directory::of(alloc, Vec::with_capacity(alloc, 1)?, None)
    }

    /// That of these entries, with the name of its tree, where that is known.
    pub(crate) fn of(
        alloc: A,
        entries: Vec<Entry<A>, A>,
        remembered: Option<Name>,
    ) -> Result<Directory<A>, AllocError>
        requires level { IsLevel (shown_entries entries.items) }
        requires remembers { RemembersBelow remembered entries.items }
        ensures { IfOk result (λ directory. directory ≡ tree_of remembered entries.items) }
    {
        let reach = reach_of(entries.as_slice());
        let entries = Rc::new(alloc, entries)?;
        Ok(Directory {
            entries,
            remembered,
            reach,
        })
    }

    /// The same once more: both have the entries.
    pub(crate) fn shared(&self) -> Result<Directory<A>, AllocError>
        ensures { IfOk result (λ directory. directory ≡ self.now) }
    {
        Ok(Directory {
            entries: self.entries.clone()?,
            remembered: self.remembered,
            reach: self.reach,
        })
    }

    pub(crate) fn is_empty(&self) -> bool
        ensures { IsTrue result ↔ (self.now.files ≡ []) }
    {
        self.entries.is_empty()
    }

    /// The files stand in order.
    pub(crate) fn order(&self)
        ensures { IsInner self.now.files }
    {
        let _ = &self.entries;
    }

    /// What stands at the rest of the path, from the component at `depth` on.
    pub(crate) fn entry(&self, path: &TreePath<A>, depth: usize) -> Option<Found>
        requires { depth ≤ length path.now }
        ensures { option_map standing_of result ≡ standing_at self.now.files (drop depth path.now) }
    {
        if depth == path.len() {
            return Some(Found::Directory);
        }
        match find(self.entries.as_slice(), path.component(depth)) {
            None => None,
            Some(Item::File(mode, name)) => {
                if depth + 1 == path.len() {
                    Some(Found::File(*mode, *name))
                } else {
                    None
                }
            }
            Some(Item::Folder(below)) => below.entry(path, depth + 1),
        }
    }

    /// What stands at the rest of the path, which is not the root.
    pub(crate) fn item_at<'a>(&'a self, path: &TreePath<A>, depth: usize) -> Option<&'a Item<A>>
        requires { depth < length path.now }
        ensures files { sub_map self.entry.now.files (drop depth path.now)
            ≡ map_if (shown_lent result) }
        ensures kept { IsKeptAt (shown_lent result) }
        ensures home { Keeps IsAtHome IsLentAtHome self.entry.now result }
    {
        let length = path.len();
        let item = find(self.entries.as_slice(), path.component(depth));
        if depth + 1 == length {
            return item;
        }
        match folder_in(item) {
            Some(below) => below.item_at(path, depth + 1),
            None => None,
        }
    }
}

impl<A: Allocator + Copy> Item<A> {
    /// The same once more: a directory is shared.
    pub(crate) fn shared(&self) -> Result<Item<A>, AllocError>
        ensures kept { IfOk result (λ i. shown_item i ≡ shown_item self.now) }
        ensures home { IfOk result (Keeps IsItemAtHome IsItemAtHome self.now) }
    {
        match self {
            Item::File(mode, name) => Ok(Item::File(*mode, *name)),
            Item::Folder(below) => Ok(Item::Folder(below.shared()?)),
        }
    }

    pub(crate) fn is_folder(&self) -> bool
        ensures { result ≡ is_folder (shown_item self.now) }
    {
        match self {
            Item::File(_, _) => false,
            Item::Folder(_) => true,
        }
    }
}

impl<A: Allocator + Copy> Entry<A> {
    /// An entry of a component's bytes.
    pub(crate) fn new(alloc: A, component: &[u8], item: Item<A>) -> Result<Entry<A>, AllocError>
        ensures seen { IfOk result (λ e. shown_entry e ≡ (component.now, shown_item item)) }
        ensures item { IfOk result (λ e. e.item ≡ item) }
    {
        let component = Component::new(alloc, component)?;
        Ok(Entry { component, item })
    }

    fn shared(&self) -> Result<Entry<A>, AllocError>
        ensures seen { IfOk result (λ e. shown_entry e ≡ shown_entry self.now) }
        ensures home { IfOk result (λ e. Keeps IsItemAtHome IsItemAtHome self.now.item e.item) }
    {
        let component = self.component.shared()?;
        let item = self.item.shared()?;
        Ok(Entry { component, item })
    }

    pub(crate) fn component(&self) -> &[u8]
        ensures { result.now ≡ (shown_entry self.now).0 }
    {
        self.component.as_slice()
    }

    /// What follows the component in the text by which entries are ordered.
    pub(crate) fn mark(&self) -> &'static [u8]
        ensures { result.now ≡ mark (shown_item self.now.item) }
    {
        match self.item {
            Item::File(_, _) => b"",
            Item::Folder(_) => b"/",
        }
    }
}

/// The directory that an item is, if it is one.
pub(crate) fn folder_in<'a, A: Allocator + Copy>(
    item: Option<&'a Item<A>>,
) -> Option<&'a Directory<A>>
    ensures files { files_of (shown_lent item.entry) ≡ option_files result }
    ensures home { Keeps IsLentAtHome (IfThere (Borrowed IsAtHome)) item.entry result }
{
    match item {
        Some(Item::Folder(below)) => Some(below),
        _ => None,
    }
}

/// The same entries, with room for one more.
pub(crate) fn shared_entries<A: Allocator + Copy>(
    alloc: A,
    entries: &[Entry<A>],
) -> Result<Vec<Entry<A>, A>, AllocError>
    ensures seen { IfOk result (λ v. shown_entries v.items ≡ shown_entries entries.now) }
    ensures home { IfOk result (λ v. Keeps AreAtHome AreAtHome entries.now v.items) }
{
    let mut shared = Vec::with_capacity(alloc, entries.len() + 1)?;
    share_into(&mut shared, entries)?;
    Ok(shared)
}

// Puts the entries behind those that are shared already.
fn share_into<A: Allocator + Copy>(
    shared: &mut Vec<Entry<A>, A>,
    entries: &[Entry<A>],
) -> Result<(), AllocError>
    ensures entries { OnOk result
        (shown_entries shared.new.items ≡ shown_entries shared.old.items
        ++ shown_entries entries.now) }
    ensures home { OnOk result (EntriesKeepHome AreAtHome shared.old.items entries.now shared.new) }
{
    for entry in entries {
        shared.push(entry.shared()?)?;
    }
    Ok(())
}

/// Inserts an entry of a component where it stands in the order, and answers its reach.
pub(crate) fn insert_entry<A: Allocator + Copy>(
    alloc: A,
    entries: &mut Vec<Entry<A>, A>,
    component: &[u8],
    item: Item<A>,
) -> Result<usize, AllocError>
    requires { IsLevel (shown_entries entries.now.items) }
    ensures reach { IfOk result (λ n. n ≡ counted (kept_reach (component.now, shown_item item))) }
    ensures entries { OnOk result (InsertsItem component.now item entries.old entries.new) }
    ensures unchanged { OnErr result (entries.new.items ≡ entries.old.items) }
    ensures home { OnOk result (EntriesKeepHome IsItemAtHome item entries.old.items entries.new) }
{
    let new = Entry::new(alloc, component, item)?;
    let reach = new.reach();
    let place = place_of(entries, component, new.mark());
    entries.insert(place, new)?;
    Ok(reach)
}
