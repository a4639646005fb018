//! Removing from a directory what stands at or below a path: the directories on the path change, and no other. Where no other
//! tree has their entries, these change in place; else new ones share them first.
ghost use Rattle.std.specs.Prelude.{◌≡◌, ◌<◌, ◌≤◌, [], IfOk, OnErr, OnOk, Ok, None, Some, drop, false, get_or, length, true};
ghost use Rattle.gx_model.specs.Histories.Edits.{removed};
ghost use Rattle.gx_tree.specs.Edits.{IsLeftOf, RemovesFiles, RemovesIn, RemovesPath, files_below, level_in};
ghost use Rattle.gx_tree.specs.Homes.{Keeps, AreAtHome, IsItemAtHome};
ghost use Rattle.gx_tree.specs.Named.{KeepsHome};
ghost use Rattle.gx_tree.specs.Nodes.{IsLevel, files, mark};
ghost use Rattle.gx_tree.specs.Rooms.{HasRoom, IsReach};
ghost use Rattle.gx_tree.specs.Searches.{IsEntryAt};
ghost use Rattle.gx_tree.specs.Views.{shown_entries, shown_item};

use crate::directory::{Directory, Entry, Item, shared_entries};
use crate::reach::reach_after;
use crate::search::place_by;
use gx_text::TreePath;
use std::alloc::{AllocError, Allocator};
use std::rc::Rc;

impl<A: Allocator + Copy> Directory<A> {
    /// Removes what stands at or below the rest of the path, with the directories below this one that are left with no file.
    #[cycle(remove)]
    pub(crate) fn remove(
        &mut self,
        alloc: A,
        path: &TreePath<A>,
        depth: usize,
    ) -> Result<(), AllocError>
        requires { depth < length path.now }
        ensures files { OnOk result
            (self.new.files ≡ removed self.old.files (drop depth path.now)) }
        ensures unchanged { OnErr result (self.new ≡ self.old) }
        ensures home { KeepsHome self.old self.new }
    {
        let reach = remove_in(&mut self.entries, self.reach, alloc, path, depth)?;
        self.remembered = None;
        self.reach = reach;
        Ok(())
    }
}

// Removes it from entries that may be shared, and answers their reach.
#[cycle(remove)]
fn remove_in<A: Allocator + Copy>(
    entries: &mut Rc<Vec<Entry<A>, A>, A>,
    reach: usize,
    alloc: A,
    path: &TreePath<A>,
    depth: usize,
) -> Result<usize, AllocError>
    requires within { depth < length path.now }
    requires level { IsLevel (level_in entries.now) }
    requires reach { IsReach reach (files_below entries.now) }
    ensures level { OnOk result (IsLevel (level_in entries.new)) }
    ensures files { OnOk result (RemovesIn (drop depth path.now) entries.old entries.new) }
    ensures reach { IfOk result (λ n. IsReach n (files_below entries.new)) }
    ensures unchanged { OnErr result (entries.new.value.items ≡ entries.old.value.items) }
    ensures home { Keeps AreAtHome AreAtHome entries.old.value.items entries.new.value.items }
{
    match Rc::get_mut(entries) {
        Some(owned) => remove_among(owned, reach, alloc, path, depth),
        None => {
            let mut copy = shared_entries(alloc, entries.as_slice())?;
            let reach = remove_among(&mut copy, reach, alloc, path, depth)?;
            *entries = Rc::new(alloc, copy)?;
            Ok(reach)
        }
    }
}

// Removes it from the entries, and answers their reach.
#[cycle(remove)]
fn remove_among<A: Allocator + Copy>(
    entries: &mut Vec<Entry<A>, A>,
    reach: usize,
    alloc: A,
    path: &TreePath<A>,
    depth: usize,
) -> Result<usize, AllocError>
    requires within { depth < length path.now }
    requires level { IsLevel (shown_entries entries.now.items) }
    requires reach { IsReach reach (files (shown_entries entries.now.items)) }
    ensures level { OnOk result (IsLevel (shown_entries entries.new.items)) }
    ensures files { OnOk result (RemovesFiles (drop depth path.now) entries.old.items entries.new) }
    ensures reach { IfOk result (λ n. IsReach n (files (shown_entries entries.new.items))) }
    ensures unchanged { OnErr result (entries.new.items ≡ entries.old.items) }
    ensures home { Keeps AreAtHome AreAtHome entries.old.items entries.new.items }
{
    let length = path.len();
    match place_by(entries, path.component(depth), depth + 1 < length) {
        Some(place) => remove_at(entries, place, reach, alloc, path, depth),
        None => Ok(reach),
    }
}

/// The same where something stands at the component, at a place among the entries. The room behind them is left.
#[cycle(remove)]
pub(crate) fn remove_at<A: Allocator + Copy>(
    entries: &mut Vec<Entry<A>, A>,
    place: usize,
    reach: usize,
    alloc: A,
    path: &TreePath<A>,
    depth: usize,
) -> Result<usize, AllocError>
    requires within { depth < length path.now }
    requires level { IsLevel (shown_entries entries.now.items) }
    requires reach { IsReach reach (files (shown_entries entries.now.items)) }
    requires place { IsEntryAt (get_or path.now depth []) entries.now.items place }
    ensures level { OnOk result (IsLevel (shown_entries entries.new.items)) }
    ensures files { OnOk result (RemovesFiles (drop depth path.now) entries.old.items entries.new) }
    ensures entries { OnOk result
        (RemovesPath (drop depth path.now) entries.old.items entries.new) }
    ensures room { HasRoom entries.old → HasRoom entries.new }
    ensures reach { IfOk result (λ n. IsReach n (files (shown_entries entries.new.items))) }
    ensures unchanged { OnErr result (entries.new.items ≡ entries.old.items) }
    ensures home { Keeps AreAtHome AreAtHome entries.old.items entries.new.items }
{
    let _ = path.len();
    let before = entries[place].reach();
    if entries[place].item.remove(alloc, path, depth + 1)? {
        let after = entries[place].reach();
        return Ok(reach_after(entries, reach, before, after));
    }
    entries.remove(place);
    Ok(reach_after(entries, reach, before, 0))
}

impl<A: Allocator + Copy> Item<A> {
    // Removes what stands in this item at the rest of the path, and answers whether anything is left. The whole, at the path's
    // end or where no file is left, is for the caller to take.
    #[cycle(remove)]
    fn remove(&mut self, alloc: A, path: &TreePath<A>, depth: usize) -> Result<bool, AllocError>
        requires { depth ≤ length path.now }
        ensures gone { result ≡ Ok false → IsLeftOf (drop depth path.now) self.old None }
        ensures left { result ≡ Ok true → IsLeftOf (drop depth path.now) self.old (Some self.new) }
        ensures mark { result ≡ Ok true → mark (shown_item self.new) ≡ mark (shown_item self.old) }
        ensures unchanged { OnErr result (self.new ≡ self.old) }
        ensures home { Keeps IsItemAtHome IsItemAtHome self.old self.new }
    {
        if depth == path.len() {
            return Ok(false);
        }
        match self {
            Item::File(_, _) => Ok(true),
            Item::Folder(below) => {
                below.remove(alloc, path, depth)?;
                Ok(!below.is_empty())
            }
        }
    }
}
