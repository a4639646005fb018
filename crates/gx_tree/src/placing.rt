//! Putting an entry in place of what stands at its component, and taking one out. Neither needs memory.
ghost use Rattle.std.specs.Prelude.{◌≡◌, [], ◌∷◌, IsTrue};
ghost use Rattle.gx_model.specs.Texts.Paths.{is_component};
ghost use Rattle.gx_tree.specs.Edits.{RemovesFiles, ReplacesItem};
ghost use Rattle.gx_tree.specs.Homes.{AreAtHome, EntriesKeepHome, IsItemAtHome, Keeps};
ghost use Rattle.gx_tree.specs.Nodes.{IsKept, IsLevel, files, others};
ghost use Rattle.gx_tree.specs.Rooms.{HasRoom, IsReach};
ghost use Rattle.gx_tree.specs.Views.{shown_entries, shown_entry, shown_item};

use crate::directory::Entry;
use crate::reach::reach_after;
use crate::search::{place_at, place_of};
use std::alloc::Allocator;

/// Puts an entry, for which there is room, in place of what stands at its component. Answers the entries' reach.
pub(crate) fn put<A: Allocator + Copy>(
    entries: &mut Vec<Entry<A>, A>,
    reach: usize,
    new: Entry<A>,
) -> usize
    requires room { HasRoom entries.now }
    requires component { IsTrue (is_component (shown_entry new).0) }
    requires kept { IsKept (shown_item new.item) }
    requires level { IsLevel (shown_entries entries.now.items) }
    requires reach { IsReach reach (files (shown_entries entries.now.items)) }
    ensures entries { ReplacesItem (shown_entry new).0 new.item entries.old.items entries.new }
    ensures reach { IsReach result (files (shown_entries entries.new.items)) }
    ensures home { EntriesKeepHome IsItemAtHome new.item entries.old.items entries.new }
{
    let reach = take_out(entries, reach, new.component());
    let far = new.reach();
    let place = place_of(entries, new.component(), new.mark());
    let Ok(()) = entries.insert(place, new) else {
        unreachable!();
    };
    reach.max(far)
}

/// Takes out what stands at a component, and answers the reach of what is left. The room is left.
pub(crate) fn take_out<A: Allocator + Copy>(
    entries: &mut Vec<Entry<A>, A>,
    reach: usize,
    component: &[u8],
) -> usize
    requires component { IsTrue (is_component component.now) }
    requires level { IsLevel (shown_entries entries.now.items) }
    requires reach { IsReach reach (files (shown_entries entries.now.items)) }
    ensures level { IsLevel (shown_entries entries.new.items) }
    ensures files { RemovesFiles (component.now ∷ []) entries.old.items entries.new }
    ensures others { shown_entries entries.new.items
        ≡ others component.now (shown_entries entries.old.items) }
    ensures room { HasRoom entries.old → HasRoom entries.new }
    ensures reach { IsReach result (files (shown_entries entries.new.items)) }
    ensures home { Keeps AreAtHome AreAtHome entries.old.items entries.new.items }
{
    match place_at(entries, component) {
        Some(place) => {
            let before = entries[place].reach();
            entries.remove(place);
            reach_after(entries, reach, before, 0)
        }
        None => reach,
    }
}
