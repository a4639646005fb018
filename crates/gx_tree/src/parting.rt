//! Taking out what stands at one path, and putting an item at another, among the entries of the directory at which the paths
//! part. Nothing changes before the memory for all of it is there.
ghost use Rattle.std.specs.Prelude.{◌≡◌, ◌<◌, ◌+◌, [], IfOk, IfSome, IsNone, OnErr, OnOk, false, get_or, length, true};
ghost use Rattle.gx_model.specs.Texts.{same_bytes};
ghost use Rattle.gx_tree.specs.Edits.{CarriesAt, StandsAnew};
ghost use Rattle.gx_tree.specs.Homes.{EntriesKeepHome, IsItemAtHome};
ghost use Rattle.gx_tree.specs.Nodes.{IsKept, IsLevel, files};
ghost use Rattle.gx_tree.specs.Rooms.{IsReach};
ghost use Rattle.gx_tree.specs.Searches.{IsEntryAt, IsFolderAt};
ghost use Rattle.gx_tree.specs.Views.{shown_entries, shown_item};

use crate::directory::{Entry, Item};
use crate::grafting::{graft_among, new_item};
use crate::moving::Landing;
use crate::placing::{put, take_out};
use crate::reach::reach_after;
use crate::removing::remove_at;
use crate::search::place_by;
use gx_object::{Mode, Name};
use gx_text::TreePath;
use std::alloc::{AllocError, Allocator};
use std::mem;

/// Takes out what stands at or below the rest of the one path, whose first component is that of the entry at a place, and puts
/// an item at the rest of the other, which begins with another component. Answers the entries' reach.
pub(crate) fn rename_apart<A: Allocator + Copy>(
    entries: &mut Vec<Entry<A>, A>,
    place: usize,
    reach: usize,
    alloc: A,
    from: &TreePath<A>,
    to: &TreePath<A>,
    depth: usize,
    item: &Item<A>,
) -> Result<usize, AllocError>
    requires from { depth < length from.now }
    requires to { depth < length to.now }
    requires apart { same_bytes (get_or from.now depth []) (get_or to.now depth []) ≡ false }
    requires kept { IsKept (shown_item item.now) }
    requires level { IsLevel (shown_entries entries.now.items) }
    requires reach { IsReach reach (files (shown_entries entries.now.items)) }
    requires place { IsEntryAt (get_or from.now depth []) entries.now.items place }
    ensures level { OnOk result (IsLevel (shown_entries entries.new.items)) }
    ensures files { OnOk result (CarriesAt depth from.now to.now item.now entries.old entries.new) }
    ensures reach { IfOk result (λ n. IsReach n (files (shown_entries entries.new.items))) }
    ensures unchanged { OnErr result (entries.new.items ≡ entries.old.items) }
    ensures home { OnOk result
        (EntriesKeepHome IsItemAtHome item.now entries.old.items entries.new) }
{
    let length = from.len();
    let _ = to.len();
    if depth + 1 == length {
        let reach = graft_among(entries, reach, alloc, to, depth, item)?;
        return Ok(take_out(entries, reach, from.component(depth)));
    }
    match folder_on(entries, to, depth) {
        Some(target) => {
            rename_between(entries, place, target, reach, alloc, from, to, depth, item)
        }
        None => rename_above(entries, place, reach, alloc, from, to, depth, item),
    }
}

// The place of the directory at the path's component at `depth`, if the path goes on in one.
fn folder_on<A: Allocator + Copy>(
    entries: &[Entry<A>],
    path: &TreePath<A>,
    depth: usize,
) -> Option<usize>
    requires within { depth < length path.now }
    requires level { IsLevel (shown_entries entries.now) }
    ensures within { IfSome result (λ place. depth + 1 < length path.now) }
    ensures found { IfSome result
        (λ place. IsFolderAt (get_or path.now depth []) entries.now place) }
    ensures missing { IsNone result → StandsAnew depth path.now entries.now }
{
    let length = path.len();
    if depth + 1 == length {
        return None;
    }
    let place = place_by(entries, path.component(depth), true)?;
    if !entries[place].item.is_folder() {
        return None;
    }
    Some(place)
}

// The same where the paths go on in two directories, each at a place among the entries.
fn rename_between<A: Allocator + Copy>(
    entries: &mut Vec<Entry<A>, A>,
    place: usize,
    target: usize,
    reach: usize,
    alloc: A,
    from: &TreePath<A>,
    to: &TreePath<A>,
    depth: usize,
    item: &Item<A>,
) -> Result<usize, AllocError>
    requires from { depth + 1 < length from.now }
    requires to { depth + 1 < length to.now }
    requires apart { same_bytes (get_or from.now depth []) (get_or to.now depth []) ≡ false }
    requires kept { IsKept (shown_item item.now) }
    requires level { IsLevel (shown_entries entries.now.items) }
    requires reach { IsReach reach (files (shown_entries entries.now.items)) }
    requires place { IsEntryAt (get_or from.now depth []) entries.now.items place }
    requires target { IsFolderAt (get_or to.now depth []) entries.now.items target }
    ensures level { OnOk result (IsLevel (shown_entries entries.new.items)) }
    ensures files { OnOk result (CarriesAt depth from.now to.now item.now entries.old entries.new) }
    ensures reach { IfOk result (λ n. IsReach n (files (shown_entries entries.new.items))) }
    ensures unchanged { OnErr result (entries.new.items ≡ entries.old.items) }
    ensures home { OnOk result
        (EntriesKeepHome IsItemAtHome item.now entries.old.items entries.new) }
{
    let _ = (from.len(), to.len());
    let before = entries[place].reach().max(entries[target].reach());
    let hole = Item::File(Mode::File, Name { bytes: [0; 20] });
    let Item::Folder(mut below) = mem::replace(&mut entries[target].item, hole) else {
        unreachable!();
    };
    let landing = Landing {
        item,
        path: to,
        depth: depth + 1,
    };
    let given = entries[place]
        .item
        .give(alloc, from, depth + 1, &mut below, &landing);
    entries[target].item = Item::Folder(below);
    let is_left = given?;
    let after = entries[target].reach();
    if is_left {
        let after = after.max(entries[place].reach());
        return Ok(reach_after(entries, reach, before, after));
    }
    entries.remove(place);
    Ok(reach_after(entries, reach, before, after))
}

// The same where the second path ends here, or doesn't go on in a directory. What is to stand at its component is made first,
// with room for it, so that nothing is refused once the first path's is taken out.
fn rename_above<A: Allocator + Copy>(
    entries: &mut Vec<Entry<A>, A>,
    place: usize,
    reach: usize,
    alloc: A,
    from: &TreePath<A>,
    to: &TreePath<A>,
    depth: usize,
    item: &Item<A>,
) -> Result<usize, AllocError>
    requires from { depth + 1 < length from.now }
    requires to { depth < length to.now }
    requires apart { same_bytes (get_or from.now depth []) (get_or to.now depth []) ≡ false }
    requires anew { StandsAnew depth to.now entries.now.items }
    requires kept { IsKept (shown_item item.now) }
    requires level { IsLevel (shown_entries entries.now.items) }
    requires reach { IsReach reach (files (shown_entries entries.now.items)) }
    requires place { IsEntryAt (get_or from.now depth []) entries.now.items place }
    ensures level { OnOk result (IsLevel (shown_entries entries.new.items)) }
    ensures files { OnOk result (CarriesAt depth from.now to.now item.now entries.old entries.new) }
    ensures reach { IfOk result (λ n. IsReach n (files (shown_entries entries.new.items))) }
    ensures unchanged { OnErr result (entries.new.items ≡ entries.old.items) }
    ensures home { OnOk result
        (EntriesKeepHome IsItemAtHome item.now entries.old.items entries.new) }
{
    let _ = from.len();
    let made = new_item(alloc, to, depth, item)?;
    let new = Entry::new(alloc, to.component(depth), made)?;
    entries.reserve(1)?;
    let reach = remove_at(entries, place, reach, alloc, from, depth)?;
    Ok(put(entries, reach, new))
}
