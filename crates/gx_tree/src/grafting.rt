//! Putting an item into a directory: the directories on its path change, and no other. Where no other tree has their entries,
//! these change in place; else new ones share them first.
ghost use Rattle.std.specs.Prelude.{◌≡◌, ◌<◌, ◌+◌, [], IfOk, OnErr, OnOk, IsTrue, None, drop, get_or, length, Some};
ghost use Rattle.gx_model.specs.Texts.Paths.{is_component};
ghost use Rattle.gx_tree.specs.Edits.{Grafts, GraftsFiles, GraftsItem, ReplacesItem, files_below, level_in};
ghost use Rattle.gx_tree.specs.Homes.{BelowKeepHome, EntriesKeepHome, GraftKeepsHome, IsItemAtHome, ItemKeepsHome, Keeps};
ghost use Rattle.gx_tree.specs.Named.{IsAtHome, no_files};
ghost use Rattle.gx_tree.specs.Nodes.{IsKept, IsLevel, files, is_folder, mark};
ghost use Rattle.gx_tree.specs.Rooms.{IsReach};
ghost use Rattle.gx_tree.specs.Searches.{IsEntryAt};
ghost use Rattle.gx_tree.specs.Views.{shown_entries, shown_item};

use crate::directory::{Directory, Entry, Item, insert_entry, shared_entries};
use crate::placing::put;
use crate::reach::reach_after;
use crate::search::place_by;
use gx_text::TreePath;
use std::alloc::{AllocError, Allocator};
use std::rc::Rc;

impl<A: Allocator + Copy> Directory<A> {
    /// Puts an item at the rest of the path, in place of what stands there, above it or below it.
    #[cycle(graft)]
    pub(crate) fn graft(
        &mut self,
        alloc: A,
        path: &TreePath<A>,
        depth: usize,
        item: &Item<A>,
    ) -> Result<(), AllocError>
        requires within { depth < length path.now }
        requires kept { IsKept (shown_item item.now) }
        ensures files { OnOk result
            (Grafts (drop depth path.now) (shown_item item.now) self.old self.new) }
        ensures unchanged { OnErr result (self.new ≡ self.old) }
        ensures home { OnOk result (GraftKeepsHome item.now self.old self.new) }
    {
        let reach = graft_in(&mut self.entries, self.reach, alloc, path, depth, item)?;
        self.remembered = None;
        self.reach = reach;
        Ok(())
    }

    /// The directory of an item at the rest of the path alone.
    #[cycle(graft)]
    pub(crate) fn of_item(
        alloc: A,
        path: &TreePath<A>,
        depth: usize,
        item: &Item<A>,
    ) -> Result<Directory<A>, AllocError>
        requires within { depth < length path.now }
        requires kept { IsKept (shown_item item.now) }
        ensures files { IfOk result (Grafts (drop depth path.now) (shown_item item.now) no_files) }
        ensures home { IfOk result (Keeps IsItemAtHome IsAtHome item.now) }
    {
        let mut directory = Directory::new(alloc)?;
        directory.graft(alloc, path, depth, item)?;
        Ok(directory)
    }
}

// Puts an item among entries that may be shared, or below one of them, and answers their reach.
#[cycle(graft)]
fn graft_in<A: Allocator + Copy>(
    entries: &mut Rc<Vec<Entry<A>, A>, A>,
    reach: usize,
    alloc: A,
    path: &TreePath<A>,
    depth: usize,
    item: &Item<A>,
) -> Result<usize, AllocError>
    requires within { depth < length path.now }
    requires kept { IsKept (shown_item item.now) }
    requires level { IsLevel (level_in entries.now) }
    requires reach { IsReach reach (files_below entries.now) }
    ensures level { OnOk result (IsLevel (level_in entries.new)) }
    ensures files { OnOk result
        (GraftsFiles (drop depth path.now) item.now entries.old.value.items entries.new.value) }
    ensures reach { IfOk result (λ n. IsReach n (files_below entries.new)) }
    ensures unchanged { OnErr result (entries.new.value.items ≡ entries.old.value.items) }
    ensures home { OnOk result (BelowKeepHome item.now entries.old entries.new) }
{
    match Rc::get_mut(entries) {
        Some(owned) => graft_among(owned, reach, alloc, path, depth, item),
        None => {
            let mut copy = shared_entries(alloc, entries.as_slice())?;
            let reach = graft_among(&mut copy, reach, alloc, path, depth, item)?;
            *entries = Rc::new(alloc, copy)?;
            Ok(reach)
        }
    }
}

/// Puts an item among the entries, or below one of them, and answers their reach.
#[cycle(graft)]
pub(crate) fn graft_among<A: Allocator + Copy>(
    entries: &mut Vec<Entry<A>, A>,
    reach: usize,
    alloc: A,
    path: &TreePath<A>,
    depth: usize,
    item: &Item<A>,
) -> Result<usize, AllocError>
    requires within { depth < length path.now }
    requires kept { IsKept (shown_item item.now) }
    requires level { IsLevel (shown_entries entries.now.items) }
    requires reach { IsReach reach (files (shown_entries entries.now.items)) }
    ensures level { OnOk result (IsLevel (shown_entries entries.new.items)) }
    ensures files { OnOk result
        (GraftsFiles (drop depth path.now) item.now entries.old.items entries.new) }
    ensures reach { IfOk result (λ n. IsReach n (files (shown_entries entries.new.items))) }
    ensures unchanged { OnErr result (entries.new.items ≡ entries.old.items) }
    ensures home { OnOk result
        (EntriesKeepHome IsItemAtHome item.now entries.old.items entries.new) }
{
    let length = path.len();
    let component = path.component(depth);
    match place_by(entries, component, depth + 1 < length) {
        Some(place) => graft_at(entries, place, reach, alloc, path, depth, item),
        None => {
            let new = new_item(alloc, path, depth, item)?;
            let far = insert_entry(alloc, entries, component, new)?;
            Ok(reach.max(far))
        }
    }
}

// The same where something stands at the component, at a place among the entries.
#[cycle(graft)]
fn graft_at<A: Allocator + Copy>(
    entries: &mut Vec<Entry<A>, A>,
    place: usize,
    reach: usize,
    alloc: A,
    path: &TreePath<A>,
    depth: usize,
    item: &Item<A>,
) -> Result<usize, AllocError>
    requires within { depth < length path.now }
    requires kept { IsKept (shown_item item.now) }
    requires level { IsLevel (shown_entries entries.now.items) }
    requires reach { IsReach reach (files (shown_entries entries.now.items)) }
    requires place { IsEntryAt (get_or path.now depth []) entries.now.items place }
    ensures level { OnOk result (IsLevel (shown_entries entries.new.items)) }
    ensures files { OnOk result
        (GraftsFiles (drop depth path.now) item.now entries.old.items entries.new) }
    ensures reach { IfOk result (λ n. IsReach n (files (shown_entries entries.new.items))) }
    ensures unchanged { OnErr result (entries.new.items ≡ entries.old.items) }
    ensures home { OnOk result
        (EntriesKeepHome IsItemAtHome item.now entries.old.items entries.new) }
{
    let length = path.len();
    if depth + 1 < length && entries[place].item.is_folder() {
        let before = entries[place].reach();
        entries[place].item.graft(alloc, path, depth + 1, item)?;
        let after = entries[place].reach();
        return Ok(reach_after(entries, reach, before, after));
    }
    let new = new_item(alloc, path, depth, item)?;
    replace_at(entries, place, reach, alloc, path.component(depth), new)
}

impl<A: Allocator + Copy> Item<A> {
    // Puts an item below this directory, at the rest of the path.
    #[cycle(graft)]
    fn graft(
        &mut self,
        alloc: A,
        path: &TreePath<A>,
        depth: usize,
        item: &Item<A>,
    ) -> Result<(), AllocError>
        requires within { depth < length path.now }
        requires folder { IsTrue (is_folder (shown_item self.now)) }
        requires kept { IsKept (shown_item item.now) }
        ensures kept { OnOk result
            (GraftsItem (drop depth path.now) item.now (Some (shown_item self.old)) self.new) }
        ensures mark { OnOk result (mark (shown_item self.new) ≡ mark (shown_item self.old)) }
        ensures unchanged { OnErr result (self.new ≡ self.old) }
        ensures home { OnOk result (ItemKeepsHome item.now self.old self.new) }
    {
        match self {
            Item::Folder(below) => below.graft(alloc, path, depth, item),
            Item::File(_, _) => unreachable!(),
        }
    }
}

/// What stands at the component at `depth` where no directory did, after an item was put at the path.
#[cycle(graft)]
pub(crate) fn new_item<A: Allocator + Copy>(
    alloc: A,
    path: &TreePath<A>,
    depth: usize,
    item: &Item<A>,
) -> Result<Item<A>, AllocError>
    requires within { depth < length path.now }
    requires kept { IsKept (shown_item item.now) }
    ensures kept { IfOk result (GraftsItem (drop (depth + 1) path.now) item.now None) }
    ensures home { IfOk result (Keeps IsItemAtHome IsItemAtHome item.now) }
{
    let length = path.len();
    if depth + 1 == length {
        return item.shared();
    }
    Ok(Item::Folder(Directory::of_item(alloc, path, depth + 1, item)?))
}

// Puts an item in place of the one at a component, which stands at a place among the entries, and answers their reach.
fn replace_at<A: Allocator + Copy>(
    entries: &mut Vec<Entry<A>, A>,
    place: usize,
    reach: usize,
    alloc: A,
    component: &[u8],
    item: Item<A>,
) -> Result<usize, AllocError>
    requires component { IsTrue (is_component component.now) }
    requires kept { IsKept (shown_item item) }
    requires level { IsLevel (shown_entries entries.now.items) }
    requires reach { IsReach reach (files (shown_entries entries.now.items)) }
    requires place { IsEntryAt component.now entries.now.items place }
    ensures entries { OnOk result (ReplacesItem component.now item entries.old.items entries.new) }
    ensures reach { IfOk result (λ n. IsReach n (files (shown_entries entries.new.items))) }
    ensures unchanged { OnErr result (entries.new.items ≡ entries.old.items) }
    ensures home { OnOk result (EntriesKeepHome IsItemAtHome item entries.old.items entries.new) }
{
    let before = entries[place].reach();
    if entries[place].item.is_folder() == item.is_folder() {
        entries[place].item = item;
        let after = entries[place].reach();
        return Ok(reach_after(entries, reach, before, after));
    }
    let new = Entry::new(alloc, component, item)?;
    entries.reserve(1)?;
    Ok(put(entries, reach, new))
}
