//! What stands at a path below a held tree, by the records of trees on the way.

ghost use Rattle.std.specs.Prelude.{◌≡◌, IfSome};
ghost use Rattle.std.specs.Option.{option_map};
ghost use Rattle.gx_model.specs.declared.objects.Kind.TheVariants as kinds;
ghost use Rattle.gx_model.specs.Objects.{is_dir};
ghost use Rattle.gx_model.specs.Records.Walks.{entry_at, walked};
ghost use Rattle.gx_rev.specs.Objects.{IsHeldAs, entries_at};
ghost use Rattle.gx_rev.specs.Places.{IsHeldPlace, IsOfEntry, shown_place};

use crate::objects::entries_of;
use gx_object::{Mode, Name, Namer, TreeEntries};
use gx_repo::Repo;
use gx_text::TreePath;
use std::alloc::Allocator;

/// The mode and the name of what stands at a path below a held tree: a tree's for a directory.
pub(crate) fn walk_down<N: Namer, A: Allocator + Copy>(
    repo: &Repo<N, A>,
    tree: &Name,
    path: &TreePath<A>,
) -> Option<(Mode, Name)>
    requires { IsHeldAs kinds.Tree repo.now.1 tree.now }
    ensures place { option_map shown_place result
        ≡ walked repo.now.1.records tree.now.bytes path.now }
    ensures held { IfSome result (IsHeldPlace repo.now.1) }
{
    let mut mode = Mode::Dir;
    let mut name = *tree;
    for place in 0..path.len() {
        if !is_dir(mode) {
            return None;
        }
        (mode, name) = entry_of(repo, &name, path.component(place))?;
    }
    Some((mode, name))
}

fn is_dir(mode: Mode) -> bool
    ensures { result ≡ is_dir mode }
{
    matches!(mode, Mode::Dir)
}

/// The mode and the name of a held tree's entry with this component.
fn entry_of<N: Namer, A: Allocator + Copy>(
    repo: &Repo<N, A>,
    tree: &Name,
    component: &[u8],
) -> Option<(Mode, Name)>
    requires { IsHeldAs kinds.Tree repo.now.1 tree.now }
    ensures entry { IsOfEntry (entry_at (entries_at repo.now.1 tree.now) component.now) result }
    ensures held { IfSome result (IsHeldPlace repo.now.1) }
{
    repo.sound();
    find_entry(entries_of(repo, tree), component)
}

/// The mode and the name of the entry with this component.
fn find_entry(entries: TreeEntries<'_>, component: &[u8]) -> Option<(Mode, Name)>
    ensures { IsOfEntry (entry_at entries.entry component.now) result }
{
    for entry in entries {
        if component == entry.component {
            return Some((entry.mode, entry.name));
        }
    }
    None
}
