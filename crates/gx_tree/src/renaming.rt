//! Taking out what stands at one path, and putting an item at another, where neither path begins with the other. The
//! directories on both change, and no other. Where no other tree has their entries, these change in place; else new ones share
//! them first.
ghost use Rattle.std.specs.Prelude.{◌≡◌, ◌<◌, ◌≤◌, ◌+◌, [], IfOk, OnErr, OnOk, IsTrue, drop, false, get_or, length};
ghost use Rattle.gx_tree.specs.Edits.{AreApart, Carries, CarriesBelow, CarriesAt, are_apart, files_below, level_in};
ghost use Rattle.gx_tree.specs.Homes.{BelowKeepHome, EntriesKeepHome, GraftKeepsHome, IsItemAtHome, ItemKeepsHome};
ghost use Rattle.gx_tree.specs.Nodes.{IsKept, IsLevel, files, is_folder, mark};
ghost use Rattle.gx_tree.specs.Rooms.{IsReach};
ghost use Rattle.gx_tree.specs.Searches.{IsEntryAt};
ghost use Rattle.gx_tree.specs.Views.{shown_entries, shown_item};

use crate::directory::{Directory, Entry, Item, shared_entries};
use crate::grafting::graft_among;
use crate::parting::rename_apart;
use crate::reach::reach_after;
use crate::search::place_by;
use gx_text::TreePath;
use std::alloc::{AllocError, Allocator};
use std::rc::Rc;

/// Whether neither of the rests of two paths begins with the other.
pub(crate) fn are_apart<A: Allocator + Copy>(
    from: &TreePath<A>,
    to: &TreePath<A>,
    depth: usize,
) -> bool
    requires from { depth ≤ length from.now }
    requires to { depth ≤ length to.now }
    ensures { result ≡ are_apart (drop depth from.now) (drop depth to.now) }
{
    if depth == from.len() || depth == to.len() {
        return false;
    }
    from.component(depth) != to.component(depth) || are_apart(from, to, depth + 1)
}

impl<A: Allocator + Copy> Directory<A> {
    /// Takes out what stands at or below the rest of the one path, and puts an item at the rest of the other.
    #[cycle(rename)]
    pub(crate) fn rename(
        &mut self,
        alloc: A,
        from: &TreePath<A>,
        to: &TreePath<A>,
        depth: usize,
        item: &Item<A>,
    ) -> Result<(), AllocError>
        requires from { depth < length from.now }
        requires to { depth < length to.now }
        requires apart { AreApart depth from.now to.now }
        requires kept { IsKept (shown_item item.now) }
        ensures files { OnOk result (Carries depth from.now to.now item.now self.old self.new) }
        ensures unchanged { OnErr result (self.new ≡ self.old) }
        ensures home { OnOk result (GraftKeepsHome item.now self.old self.new) }
    {
        let reach = rename_in(&mut self.entries, self.reach, alloc, from, to, depth, item)?;
        self.remembered = None;
        self.reach = reach;
        Ok(())
    }
}

// The same among entries that may be shared, and answers their reach.
#[cycle(rename)]
fn rename_in<A: Allocator + Copy>(
    entries: &mut Rc<Vec<Entry<A>, A>, A>,
    reach: usize,
    alloc: A,
    from: &TreePath<A>,
    to: &TreePath<A>,
    depth: usize,
    item: &Item<A>,
) -> Result<usize, AllocError>
    requires from { depth < length from.now }
    requires to { depth < length to.now }
    requires apart { AreApart depth from.now to.now }
    requires kept { IsKept (shown_item item.now) }
    requires level { IsLevel (level_in entries.now) }
    requires reach { IsReach reach (files_below entries.now) }
    ensures level { OnOk result (IsLevel (level_in entries.new)) }
    ensures files { OnOk result
        (CarriesAt depth from.now to.now item.now entries.old.value entries.new.value) }
    ensures reach { IfOk result (λ n. IsReach n (files_below entries.new)) }
    ensures unchanged { OnErr result (entries.new.value.items ≡ entries.old.value.items) }
    ensures home { OnOk result (BelowKeepHome item.now entries.old entries.new) }
{
    match Rc::get_mut(entries) {
        Some(owned) => rename_among(owned, reach, alloc, from, to, depth, item),
        None => {
            let mut copy = shared_entries(alloc, entries.as_slice())?;
            let reach = rename_among(&mut copy, reach, alloc, from, to, depth, item)?;
            *entries = Rc::new(alloc, copy)?;
            Ok(reach)
        }
    }
}

// The same among the entries, or below one of them.
#[cycle(rename)]
fn rename_among<A: Allocator + Copy>(
    entries: &mut Vec<Entry<A>, A>,
    reach: usize,
    alloc: A,
    from: &TreePath<A>,
    to: &TreePath<A>,
    depth: usize,
    item: &Item<A>,
) -> Result<usize, AllocError>
    requires from { depth < length from.now }
    requires to { depth < length to.now }
    requires apart { AreApart depth from.now to.now }
    requires kept { IsKept (shown_item item.now) }
    requires level { IsLevel (shown_entries entries.now.items) }
    requires reach { IsReach reach (files (shown_entries entries.now.items)) }
    ensures level { OnOk result (IsLevel (shown_entries entries.new.items)) }
    ensures files { OnOk result (CarriesAt depth from.now to.now item.now entries.old entries.new) }
    ensures reach { IfOk result (λ n. IsReach n (files (shown_entries entries.new.items))) }
    ensures unchanged { OnErr result (entries.new.items ≡ entries.old.items) }
    ensures home { OnOk result
        (EntriesKeepHome IsItemAtHome item.now entries.old.items entries.new) }
{
    let length = from.len();
    let component = from.component(depth);
    match place_by(entries, component, depth + 1 < length) {
        None => graft_among(entries, reach, alloc, to, depth, item),
        Some(place) => {
            if component == to.component(depth) {
                return rename_at(entries, place, reach, alloc, from, to, depth, item);
            }
            rename_apart(entries, place, reach, alloc, from, to, depth, item)
        }
    }
}

// The same below what stands at a place among the entries, where that is a directory. Else nothing stands at the first path.
#[cycle(rename)]
fn rename_at<A: Allocator + Copy>(
    entries: &mut Vec<Entry<A>, A>,
    place: usize,
    reach: usize,
    alloc: A,
    from: &TreePath<A>,
    to: &TreePath<A>,
    depth: usize,
    item: &Item<A>,
) -> Result<usize, AllocError>
    requires from { depth + 1 < length from.now }
    requires to { depth + 1 < length to.now }
    requires apart { AreApart depth from.now to.now }
    requires kept { IsKept (shown_item item.now) }
    requires level { IsLevel (shown_entries entries.now.items) }
    requires reach { IsReach reach (files (shown_entries entries.now.items)) }
    requires same { get_or from.now depth [] ≡ get_or to.now depth [] }
    requires place { IsEntryAt (get_or from.now depth []) entries.now.items place }
    ensures level { OnOk result (IsLevel (shown_entries entries.new.items)) }
    ensures files { OnOk result (CarriesAt depth from.now to.now item.now entries.old entries.new) }
    ensures reach { IfOk result (λ n. IsReach n (files (shown_entries entries.new.items))) }
    ensures unchanged { OnErr result (entries.new.items ≡ entries.old.items) }
    ensures home { OnOk result
        (EntriesKeepHome IsItemAtHome item.now entries.old.items entries.new) }
{
    if !entries[place].item.is_folder() {
        return graft_among(entries, reach, alloc, to, depth, item);
    }
    let _ = to.len();
    let before = entries[place].reach();
    entries[place]
        .item
        .rename(alloc, from, to, depth + 1, item)?;
    let after = entries[place].reach();
    Ok(reach_after(entries, reach, before, after))
}

impl<A: Allocator + Copy> Item<A> {
    // The same below this directory, of the rests of the paths.
    #[cycle(rename)]
    fn rename(
        &mut self,
        alloc: A,
        from: &TreePath<A>,
        to: &TreePath<A>,
        depth: usize,
        item: &Item<A>,
    ) -> Result<(), AllocError>
        requires from { depth < length from.now }
        requires to { depth < length to.now }
        requires apart { AreApart depth from.now to.now }
        requires folder { IsTrue (is_folder (shown_item self.now)) }
        requires kept { IsKept (shown_item item.now) }
        ensures kept { OnOk result (CarriesBelow depth from.now to.now item.now self.old self.new) }
        ensures mark { OnOk result (mark (shown_item self.new) ≡ mark (shown_item self.old)) }
        ensures unchanged { OnErr result (self.new ≡ self.old) }
        ensures home { OnOk result (ItemKeepsHome item.now self.old self.new) }
    {
        match self {
            Item::Folder(below) => below.rename(alloc, from, to, depth, item),
            Item::File(_, _) => unreachable!(),
        }
    }
}
