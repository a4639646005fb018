//! How far the files of a directory reach: the bytes of the longest of their paths. Each directory keeps that number, so that
//! whether a directory fits somewhere is asked of it, and not of each path below.
ghost use Rattle.std.specs.Prelude.{◌≡◌, ◌<◌, ◌≤◌};
ghost use Rattle.gx_tree.specs.Nodes.{IsLevel, files};
ghost use Rattle.gx_tree.specs.Rooms.{Changes, IsReach, counted, kept_reach, longest};
ghost use Rattle.gx_tree.specs.Views.{shown_entry, shown_entries};

use crate::directory::{Directory, Entry, Item};
use std::alloc::Allocator;

impl<A: Allocator + Copy> Directory<A> {
    pub(crate) fn reach(&self) -> usize
        ensures { IsReach result self.now.files }
    {
        self.reach
    }
}

impl<A: Allocator + Copy> Entry<A> {
    /// The bytes of the longest path of its file, or of the files below it, and the greatest number where there are more.
    pub(crate) fn reach(&self) -> usize
        ensures { result ≡ counted (kept_reach (shown_entry self.now)) }
    {
        let used = self.component().len();
        match &self.item {
            Item::File(_, _) => used,
            Item::Folder(below) => below.reach().saturating_add(used + 1),
        }
    }
}

/// The reach of the files below these entries.
pub(crate) fn reach_of<A: Allocator + Copy>(entries: &[Entry<A>]) -> usize
    requires { IsLevel (shown_entries entries.now) }
    ensures { IsReach result (files (shown_entries entries.now)) }
{
    let mut longest: usize = 0;
    for entry in entries {
        longest = longest.max(entry.reach());
    }
    longest
}

/// The reach of the files below these entries, which was `reach` before one entry's became `after` in place of `before`; 0 is
/// that of an entry that isn't there. The entries are gone through only where that one reached as far as any, and then no
/// further than to one that still does.
pub(crate) fn reach_after<A: Allocator + Copy>(
    entries: &[Entry<A>],
    reach: usize,
    before: usize,
    after: usize,
) -> usize
    requires level { IsLevel (shown_entries entries.now) }
    requires changes { Changes reach before after (files (shown_entries entries.now)) }
    ensures { IsReach result (files (shown_entries entries.now)) }
{
    if before <= after {
        return reach.max(after);
    }
    if before < reach {
        return reach;
    }
    reach_within(entries, reach)
}

// The reach of the files below these entries, which is at most `most`.
fn reach_within<A: Allocator + Copy>(entries: &[Entry<A>], most: usize) -> usize
    requires level { IsLevel (shown_entries entries.now) }
    requires most { counted (longest (files (shown_entries entries.now))) ≤ most }
    ensures { IsReach result (files (shown_entries entries.now)) }
{
    let mut longest: usize = 0;
    for entry in entries {
        longest = longest.max(entry.reach());
        if longest == most {
            return longest;
        }
    }
    longest
}
