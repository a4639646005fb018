//! Removing from one directory what stands at or below a path, while an item is put into another directory: both or neither.
//! The item is put once all memory for the removal is there, since a removal could not be undone without any.
ghost use Rattle.std.specs.Prelude.{◌≡◌, ◌<◌, ◌≤◌, [], IfOk, OnErr, OnOk, Ok, None, Some, drop, false, get_or, length, true};
ghost use Rattle.gx_model.specs.Histories.Edits.{removed};
ghost use Rattle.gx_tree.specs.Edits.{IsLeftOf, RemovesFiles, RemovesIn, files_below, level_in};
ghost use Rattle.gx_tree.specs.Homes.{GraftKeepsHome, Keeps, AreAtHome, IsItemAtHome};
ghost use Rattle.gx_tree.specs.Landings.{CanLand, Lands};
ghost use Rattle.gx_tree.specs.Named.{KeepsHome};
ghost use Rattle.gx_tree.specs.Nodes.{IsLevel, files, mark};
ghost use Rattle.gx_tree.specs.Rooms.{IsReach};
ghost use Rattle.gx_tree.specs.Searches.{IsEntryAt};
ghost use Rattle.gx_tree.specs.Views.{shown_entries, shown_item};

use crate::directory::{Directory, Entry, Item, shared_entries};
use crate::reach::reach_after;
use crate::search::place_by;
use gx_text::TreePath;
use std::alloc::{AllocError, Allocator};
use std::rc::Rc;

/// An item, and the path in a directory at which it is to stand, from the component at `depth` on.
#[derive(Drop)]
pub(crate) struct Landing<'a, A: Allocator> {
    pub(crate) item: &'a Item<A>,
    pub(crate) path: &'a TreePath<A>,
    pub(crate) depth: usize,
}

impl<A: Allocator + Copy> Directory<A> {
    /// Removes what stands at or below the rest of the path, and puts an item into the target.
    #[cycle(give)]
    pub(crate) fn give(
        &mut self,
        alloc: A,
        path: &TreePath<A>,
        depth: usize,
        target: &mut Directory<A>,
        landing: &Landing<'_, A>,
    ) -> Result<(), AllocError>
        requires within { depth < length path.now }
        requires lands { CanLand landing.now }
        ensures files { OnOk result
            (self.new.files ≡ removed self.old.files (drop depth path.now)) }
        ensures lands { OnOk result (Lands landing.now target.old target.new) }
        ensures unchanged { OnErr result (self.new ≡ self.old) }
        ensures stays { OnErr result (target.new ≡ target.old) }
        ensures home { KeepsHome self.old self.new }
        ensures target_home { OnOk result
            (GraftKeepsHome landing.now.item.now target.old target.new) }
    {
        let reach = give_in(
            &mut self.entries,
            self.reach,
            alloc,
            path,
            depth,
            target,
            landing,
        )?;
        self.remembered = None;
        self.reach = reach;
        Ok(())
    }

    // Puts an item into this directory.
    fn land(&mut self, alloc: A, landing: &Landing<'_, A>) -> Result<(), AllocError>
        requires lands { CanLand landing.now }
        ensures lands { OnOk result (Lands landing.now self.old self.new) }
        ensures stays { OnErr result (self.new ≡ self.old) }
        ensures home { OnOk result (GraftKeepsHome landing.now.item.now self.old self.new) }
    {
        self.graft(alloc, landing.path, landing.depth, landing.item)
    }
}

// The same of entries that may be shared, and answers their reach.
#[cycle(give)]
fn give_in<A: Allocator + Copy>(
    entries: &mut Rc<Vec<Entry<A>, A>, A>,
    reach: usize,
    alloc: A,
    path: &TreePath<A>,
    depth: usize,
    target: &mut Directory<A>,
    landing: &Landing<'_, A>,
) -> Result<usize, AllocError>
    requires within { depth < length path.now }
    requires lands { CanLand landing.now }
    requires level { IsLevel (level_in entries.now) }
    requires reach { IsReach reach (files_below entries.now) }
    ensures level { OnOk result (IsLevel (level_in entries.new)) }
    ensures files { OnOk result (RemovesIn (drop depth path.now) entries.old entries.new) }
    ensures lands { OnOk result (Lands landing.now target.old target.new) }
    ensures reach { IfOk result (λ n. IsReach n (files_below entries.new)) }
    ensures unchanged { OnErr result (entries.new.value.items ≡ entries.old.value.items) }
    ensures stays { OnErr result (target.new ≡ target.old) }
    ensures home { Keeps AreAtHome AreAtHome entries.old.value.items entries.new.value.items }
    ensures target_home { OnOk result (GraftKeepsHome landing.now.item.now target.old target.new) }
{
    match Rc::get_mut(entries) {
        Some(owned) => give_among(owned, reach, alloc, path, depth, target, landing),
        None => {
            let copy = shared_entries(alloc, entries.as_slice())?;
            let mut copy = Rc::new(alloc, copy)?;
            let Some(owned) = Rc::get_mut(&mut copy) else {
                return Err(AllocError);
            };
            let reach = give_among(owned, reach, alloc, path, depth, target, landing)?;
            *entries = copy;
            Ok(reach)
        }
    }
}

// The same of entries.
#[cycle(give)]
fn give_among<A: Allocator + Copy>(
    entries: &mut Vec<Entry<A>, A>,
    reach: usize,
    alloc: A,
    path: &TreePath<A>,
    depth: usize,
    target: &mut Directory<A>,
    landing: &Landing<'_, A>,
) -> Result<usize, AllocError>
    requires within { depth < length path.now }
    requires lands { CanLand landing.now }
    requires level { IsLevel (shown_entries entries.now.items) }
    requires reach { IsReach reach (files (shown_entries entries.now.items)) }
    ensures level { OnOk result (IsLevel (shown_entries entries.new.items)) }
    ensures files { OnOk result (RemovesFiles (drop depth path.now) entries.old.items entries.new) }
    ensures lands { OnOk result (Lands landing.now target.old target.new) }
    ensures reach { IfOk result (λ n. IsReach n (files (shown_entries entries.new.items))) }
    ensures unchanged { OnErr result (entries.new.items ≡ entries.old.items) }
    ensures stays { OnErr result (target.new ≡ target.old) }
    ensures home { Keeps AreAtHome AreAtHome entries.old.items entries.new.items }
    ensures target_home { OnOk result (GraftKeepsHome landing.now.item.now target.old target.new) }
{
    let length = path.len();
    match place_by(entries, path.component(depth), depth + 1 < length) {
        Some(place) => give_at(entries, place, reach, alloc, path, depth, target, landing),
        None => {
            target.land(alloc, landing)?;
            Ok(reach)
        }
    }
}

// The same where something stands at the component, at a place among the entries.
#[cycle(give)]
fn give_at<A: Allocator + Copy>(
    entries: &mut Vec<Entry<A>, A>,
    place: usize,
    reach: usize,
    alloc: A,
    path: &TreePath<A>,
    depth: usize,
    target: &mut Directory<A>,
    landing: &Landing<'_, A>,
) -> Result<usize, AllocError>
    requires within { depth < length path.now }
    requires lands { CanLand landing.now }
    requires level { IsLevel (shown_entries entries.now.items) }
    requires reach { IsReach reach (files (shown_entries entries.now.items)) }
    requires place { IsEntryAt (get_or path.now depth []) entries.now.items place }
    ensures level { OnOk result (IsLevel (shown_entries entries.new.items)) }
    ensures files { OnOk result (RemovesFiles (drop depth path.now) entries.old.items entries.new) }
    ensures lands { OnOk result (Lands landing.now target.old target.new) }
    ensures reach { IfOk result (λ n. IsReach n (files (shown_entries entries.new.items))) }
    ensures unchanged { OnErr result (entries.new.items ≡ entries.old.items) }
    ensures stays { OnErr result (target.new ≡ target.old) }
    ensures home { Keeps AreAtHome AreAtHome entries.old.items entries.new.items }
    ensures target_home { OnOk result (GraftKeepsHome landing.now.item.now target.old target.new) }
{
    let _ = path.len();
    let before = entries[place].reach();
    let is_left = entries[place]
        .item
        .give(alloc, path, depth + 1, target, landing)?;
    if is_left {
        let after = entries[place].reach();
        return Ok(reach_after(entries, reach, before, after));
    }
    entries.remove(place);
    Ok(reach_after(entries, reach, before, 0))
}

impl<A: Allocator + Copy> Item<A> {
    /// Removes what stands in this item at the rest of the path, puts another into the target, and answers whether anything is
    /// left of this one. The whole, at the path's end or where no file is left, is for the caller to take.
    #[cycle(give)]
    pub(crate) fn give(
        &mut self,
        alloc: A,
        path: &TreePath<A>,
        depth: usize,
        target: &mut Directory<A>,
        landing: &Landing<'_, A>,
    ) -> Result<bool, AllocError>
        requires within { depth ≤ length path.now }
        requires lands { CanLand landing.now }
        ensures gone { result ≡ Ok false → IsLeftOf (drop depth path.now) self.old None }
        ensures left { result ≡ Ok true → IsLeftOf (drop depth path.now) self.old (Some self.new) }
        ensures mark { result ≡ Ok true → mark (shown_item self.new) ≡ mark (shown_item self.old) }
        ensures lands { OnOk result (Lands landing.now target.old target.new) }
        ensures unchanged { OnErr result (self.new ≡ self.old) }
        ensures stays { OnErr result (target.new ≡ target.old) }
        ensures home { Keeps IsItemAtHome IsItemAtHome self.old self.new }
        ensures target_home { OnOk result
            (GraftKeepsHome landing.now.item.now target.old target.new) }
    {
        if depth == path.len() {
            target.land(alloc, landing)?;
            return Ok(false);
        }
        match self {
            Item::File(_, _) => {
                target.land(alloc, landing)?;
                Ok(true)
            }
            Item::Folder(below) => {
                below.give(alloc, path, depth, target, landing)?;
                Ok(!below.is_empty())
            }
        }
    }
}
