//! Putting an item at a path that may be the root, and taking out first what stands at another path.
ghost use Rattle.std.specs.Prelude.{◌≡◌, ◌<◌, None, OnErr, OnOk, false, length};
ghost use Rattle.gx_tree.specs.Copies.{graft_fault};
ghost use Rattle.gx_tree.specs.Edits.{Carries, Grafts, are_apart};
ghost use Rattle.gx_tree.specs.Homes.{GraftKeepsHome};
ghost use Rattle.gx_tree.specs.Nodes.{IsKept};
ghost use Rattle.gx_tree.specs.Views.{shown_item};

use crate::directory::{Directory, Item};
use crate::renaming::are_apart;
use gx_text::TreePath;
use std::alloc::{AllocError, Allocator};

impl<A: Allocator + Copy> Directory<A> {
    /// Puts an item at a path that may be the root, in place of what stands there, above it or below it.
    pub(crate) fn place(
        &mut self,
        alloc: A,
        path: &TreePath<A>,
        item: Item<A>,
    ) -> Result<(), AllocError>
        requires kept { IsKept (shown_item item) }
        requires fits { graft_fault (shown_item item) path.now ≡ None }
        ensures files { OnOk result (Grafts path.now (shown_item item) self.old self.new) }
        ensures unchanged { OnErr result (self.new ≡ self.old) }
        ensures home { OnOk result (GraftKeepsHome item self.old self.new) }
    {
        if path.len() > 0 {
            return self.graft(alloc, path, 0, &item);
        }
        match item {
            Item::Folder(below) => {
                *self = below;
                Ok(())
            }
            Item::File(_, _) => unreachable!(),
        }
    }

    /// Takes out what stands at one path, and puts an item at another. Where one path begins with the other, all that stands
    /// at or below the shorter goes, so that there is nothing to take out first.
    pub(crate) fn carry(
        &mut self,
        alloc: A,
        from: &TreePath<A>,
        to: &TreePath<A>,
        item: Item<A>,
    ) -> Result<(), AllocError>
        requires kept { IsKept (shown_item item) }
        requires fits { graft_fault (shown_item item) to.now ≡ None }
        ensures files { OnOk result (Carries 0 from.now to.now item self.old self.new) }
        ensures unchanged { OnErr result (self.new ≡ self.old) }
        ensures home { OnOk result (GraftKeepsHome item self.old self.new) }
    {
        if are_apart(from, to, 0) {
            return self.rename(alloc, from, to, 0, &item);
        }
        if to.len() <= from.len() {
            return self.place(alloc, to, item);
        }
        self.carry_below(alloc, from, to, &item)
    }

    // The same where the second path goes on from the first: the item is all that is left below this one.
    fn carry_below(
        &mut self,
        alloc: A,
        from: &TreePath<A>,
        to: &TreePath<A>,
        item: &Item<A>,
    ) -> Result<(), AllocError>
        requires aligned { are_apart from.now to.now ≡ false }
        requires below { length from.now < length to.now }
        requires kept { IsKept (shown_item item.now) }
        ensures files { OnOk result (Carries 0 from.now to.now item.now self.old self.new) }
        ensures unchanged { OnErr result (self.new ≡ self.old) }
        ensures home { OnOk result (GraftKeepsHome item.now self.old self.new) }
    {
        let _ = to.len();
        self.order();
        let below = Directory::of_item(alloc, to, from.len(), item)?;
        if from.len() == 0 {
            *self = below;
            return Ok(());
        }
        self.graft(alloc, from, 0, &Item::Folder(below))
    }
}
