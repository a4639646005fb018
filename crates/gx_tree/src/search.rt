//! Finding a component among a directory's entries, by halves.
ghost use Rattle.std.specs.Prelude.{◌≡◌, ◌≤◌, ◌++◌, length, IfSome, IsNone, None};
ghost use Rattle.gx_tree.specs.Homes.{Keeps, AreAtHome, IsLentAtHome};
ghost use Rattle.gx_tree.specs.Nodes.{IsLevel, kept_at, precedes};
ghost use Rattle.gx_tree.specs.Searches.{Finds, IsEntryAt, IsPlaceOf};
ghost use Rattle.gx_tree.specs.Views.{shown_lent, shown_entry, shown_entries};

use crate::directory::{Entry, Item};
use gx_object::compare_marked;
use std::alloc::Allocator;

/// What stands at a component.
pub(crate) fn find<'a, A: Allocator + Copy>(
    entries: &'a [Entry<A>],
    component: &[u8],
) -> Option<&'a Item<A>>
    requires { IsLevel (shown_entries entries.now) }
    ensures kept { kept_at component.now (shown_entries entries.now) ≡ shown_lent result }
    ensures home { Keeps AreAtHome IsLentAtHome entries.now result }
{
    match place_at(entries, component) {
        Some(place) => Some(&entries[place].item),
        None => None,
    }
}

/// The place of an entry of a component, if this follows it in the order.
pub(crate) fn place_marked<A: Allocator + Copy>(
    entries: &[Entry<A>],
    component: &[u8],
    mark: &[u8],
) -> Option<usize>
    requires { IsLevel (shown_entries entries.now) }
    ensures found { IfSome result (λ place. IsEntryAt component.now entries.now place) }
    ensures missing { IsNone result
        → Finds component.now mark.now (shown_entries entries.now) None }
{
    let place = place_of(entries, component, mark);
    if place == 0 {
        return None;
    }
    if entries[place - 1].component() == component {
        return Some(place - 1);
    }
    None
}

/// The place of what stands at a component, as a file or as a directory.
pub(crate) fn place_at<A: Allocator + Copy>(entries: &[Entry<A>], component: &[u8]) -> Option<usize>
    requires { IsLevel (shown_entries entries.now) }
    ensures found { IfSome result (λ place. IsEntryAt component.now entries.now place) }
    ensures missing { IsNone result → kept_at component.now (shown_entries entries.now) ≡ None }
{
    match place_marked(entries, component, b"") {
        Some(place) => Some(place),
        None => place_marked(entries, component, b"/"),
    }
}

/// The place of what stands at a component, which is looked for first as a directory or as a file.
pub(crate) fn place_by<A: Allocator + Copy>(
    entries: &[Entry<A>],
    component: &[u8],
    is_folder: bool,
) -> Option<usize>
    requires { IsLevel (shown_entries entries.now) }
    ensures found { IfSome result (λ place. IsEntryAt component.now entries.now place) }
    ensures missing { IsNone result → kept_at component.now (shown_entries entries.now) ≡ None }
{
    if is_folder {
        if let Some(place) = place_marked(entries, component, b"/") {
            return Some(place);
        }
    }
    place_at(entries, component)
}

/// How many entries don't come after a component with what follows it in the order.
pub(crate) fn place_of<A: Allocator + Copy>(
    entries: &[Entry<A>],
    component: &[u8],
    mark: &[u8],
) -> usize
    requires { IsLevel (shown_entries entries.now) }
    ensures within { result ≤ length entries.now }
    ensures place { IsPlaceOf (component.now ++ mark.now) entries.now result }
{
    entries.partition_point(|entry| !entry.is_after(component, mark))
}

impl<A: Allocator + Copy> Entry<A> {
    // Whether it comes after a component with what follows it in the order.
    fn is_after(&self, component: &[u8], mark: &[u8]) -> bool
        ensures { result ≡ precedes (component.now ++ mark.now) (shown_entry self.now) }
    {
        compare_marked(component, mark, self.component(), self.mark()).is_lt()
    }
}
