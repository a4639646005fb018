//! What a copy or a rename takes from one path to another.
ghost use Rattle.std.specs.Prelude.{◌≡◌, ◌≤◌, IfErr, IfOk, IsTrue, None};
ghost use Rattle.std.specs.List.{list_all};
ghost use Rattle.std.specs.Option.{option_map};
ghost use Rattle.gx_model.specs.Histories.Files.{sub_map};
ghost use Rattle.gx_text.specs.TreePaths.{is_path};
ghost use Rattle.gx_tree.specs.Copies.{IsCopyFault, IsHeldAt, graft_fault, shown_held, shown_held_if};
ghost use Rattle.gx_tree.specs.Faults.{fault_of};
ghost use Rattle.gx_tree.specs.Homes.{IfThere, Keeps, IsHeldAtHome, IsItemAtHome};
ghost use Rattle.gx_tree.specs.Lists.{are_short, below};
ghost use Rattle.gx_tree.specs.Named.{IsAtHome};
ghost use Rattle.gx_tree.specs.Nodes.{IsKept, IsKeptAt, folder, map_if};
ghost use Rattle.gx_tree.specs.Rooms.{is_within};
ghost use Rattle.gx_tree.specs.Views.{shown_item};

use crate::directory::{Directory, Item};
use crate::fault::TreeFault;
use gx_object::{Mode, Name};
use gx_text::{MOST_BYTES, TreePath};
use std::alloc::{AllocError, Allocator};

/// What stands at a path: a file, or a directory with files.
#[derive(Drop)]
pub(crate) enum Held<'a, A: Allocator> {
    File(Mode, Name),
    Folder(&'a Directory<A>),
}

impl<'a, A: Allocator + Copy> Held<'a, A> {
    /// Why it may not stand at the path: a file isn't the root, and no path gets too long.
    pub(crate) fn refusal(&self, path: &TreePath<A>) -> Option<TreeFault>
        requires { IsKept (shown_held self.now) }
        ensures fault { option_map fault_of result ≡ graft_fault (shown_held self.now) path.now }
        ensures path { IsTrue (is_path path.now) }
    {
        let length = path.len();
        match self {
            Held::File(_, _) if length == 0 => Some(TreeFault::RootNotTree),
            Held::Folder(below) if !below.fits_below(path) => Some(TreeFault::PathTooLong),
            _ => None,
        }
    }

    /// It as an item, where a directory is shared.
    pub(crate) fn item(&self) -> Result<Item<A>, AllocError>
        ensures kept { IfOk result (λ i. shown_item i ≡ shown_held self.now) }
        ensures home { IfOk result (Keeps IsHeldAtHome IsItemAtHome self.now) }
    {
        match self {
            Held::File(mode, name) => Ok(Item::File(*mode, *name)),
            Held::Folder(below) => Ok(Item::Folder(below.shared()?)),
        }
    }
}

impl<A: Allocator + Copy> Directory<A> {
    /// What stands at a path, if it may be put at another.
    pub(crate) fn held_for(
        &self,
        source: &TreePath<A>,
        destination: &TreePath<A>,
    ) -> Result<Held<'_, A>, TreeFault>
        ensures held { IfOk result (λ held. IsHeldAt self.now.files source.now (shown_held held)) }
        ensures fits { IfOk result (λ held. graft_fault (shown_held held) destination.now ≡ None) }
        ensures refused { IfErr result (IsCopyFault self.now.files source.now destination.now) }
        ensures path { IfOk result (λ _. IsTrue (is_path destination.now)) }
        ensures home { IfOk result (Keeps IsAtHome IsHeldAtHome self.now) }
    {
        let Some(held) = self.held_at(source) else {
            return Err(TreeFault::NoSuchPath);
        };
        match held.refusal(destination) {
            Some(fault) => Err(fault),
            None => Ok(held),
        }
    }

    // What stands at a path. At the root that is this directory, if it has files.
    fn held_at(&self, path: &TreePath<A>) -> Option<Held<'_, A>>
        ensures held { sub_map self.now.files path.now ≡ map_if (shown_held_if result) }
        ensures kept { IsKeptAt (shown_held_if result) }
        ensures home { Keeps IsAtHome (IfThere IsHeldAtHome) self.now result }
    {
        if path.len() == 0 {
            if self.is_empty() {
                return None;
            }
            self.order();
            return Some(Held::Folder(self));
        }
        match self.item_at(path, 0)? {
            Item::File(mode, name) => Some(Held::File(*mode, *name)),
            Item::Folder(below) => Some(Held::Folder(below)),
        }
    }

    // Whether the paths of the files are short below a path.
    fn fits_below(&self, path: &TreePath<A>) -> bool
        requires { IsKept (folder self.now.files) }
        ensures { result ≡ are_short (below path.now self.now.files) }
    {
        if path.len() == 0 {
            return self.fits(MOST_BYTES);
        }
        let used = path.joined().len();
        used < MOST_BYTES && self.fits(MOST_BYTES - used - 1)
    }

    // Whether the paths of the files have at most `room` bytes, which are at most those of the longest path.
    fn fits(&self, room: usize) -> bool
        requires { room ≤ 4095 }
        ensures { result ≡ list_all (is_within room) self.now.files }
    {
        self.reach() <= room
    }
}
