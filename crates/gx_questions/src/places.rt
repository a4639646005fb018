//! What stands at a path below a held tree, tree by tree.

ghost use Rattle.std.specs.Prelude.{◌≡◌, IfOk, IfSome, OnErr};
ghost use Rattle.std.specs.Option.{option_map};
ghost use Rattle.gx_model.specs.declared.objects.Kind.TheVariants as kinds;
ghost use Rattle.gx_model.specs.Objects.{is_dir};
ghost use Rattle.gx_model.specs.Records.Walks.{entry_at, walked};
ghost use Rattle.gx_rev.specs.Objects.{IsHeldAs, entries_at};
ghost use Rattle.gx_rev.specs.Places.{IsHeldPlace, IsOfEntry, shown_place};
ghost use Rattle.gx_questions.specs.Answers.{IfTold, IsOfTold, NeedsNothing, RefusesUntold};
ghost use Rattle.gx_questions.specs.Entries.{IsEntryIn, IsNoTree};

use crate::AskFault;
use crate::objects::body;
use gx_object::{BadObject, Kind, Mode, Name, TreeReader};
use gx_objects::Objects;
use gx_text::TreePath;
use std::alloc::Allocator;

/// The mode and the name of what stands at a path below a held tree: a tree's for a directory.
pub(crate) fn walk_down<O: Objects, A: Allocator + Copy, B: Allocator + Copy>(
    objects: &O,
    room: &mut Vec<u8, A>,
    tree: &Name,
    path: &TreePath<B>,
) -> Result<Option<(Mode, Name)>, AskFault>
    requires held { IfTold (O.told objects.now) (IsHeldAs kinds.Tree) tree.now }
    ensures place { IsOfTold (O.told objects.now) (λ r found.
        option_map shown_place found ≡ walked r.records tree.now.bytes path.now) result }
    ensures held { IsOfTold (O.told objects.now)
        (λ r found. IfSome found (IsHeldPlace r)) result }
    ensures fault { RefusesUntold (O.told objects.now) result }
    ensures sure { NeedsNothing (O.sure objects.now) result }
{
    let mut mode = Mode::Dir;
    let mut name = *tree;
    for place in 0..path.len() {
        if !is_dir(mode) {
            return Ok(None);
        }
        let Some(found) = entry_of(objects, room, &name, path.component(place))? else {
            return Ok(None);
        };
        (mode, name) = found;
    }
    Ok(Some((mode, name)))
}

fn is_dir(mode: Mode) -> bool
    ensures { result ≡ is_dir mode }
{
    matches!(mode, Mode::Dir)
}

/// The mode and the name of a held tree's entry with this component. The tree is read up to it.
fn entry_of<O: Objects, A: Allocator + Copy>(
    objects: &O,
    room: &mut Vec<u8, A>,
    tree: &Name,
    component: &[u8],
) -> Result<Option<(Mode, Name)>, AskFault>
    requires held { IfTold (O.told objects.now) (IsHeldAs kinds.Tree) tree.now }
    ensures entry { IsOfTold (O.told objects.now)
        (λ r. IsOfEntry (entry_at (entries_at r tree.now) component.now)) result }
    ensures held { IsOfTold (O.told objects.now)
        (λ r found. IfSome found (IsHeldPlace r)) result }
    ensures fault { RefusesUntold (O.told objects.now) result }
    ensures sure { NeedsNothing (O.sure objects.now) result }
{
    objects.sound_if_told();
    let object = body(objects, tree, room)?;
    match object.kind {
        Kind::Tree => Ok(find_entry(object.body, component)?),
        Kind::Blob | Kind::Commit | Kind::Tag => Err(AskFault::Damaged),
    }
}

/// The mode and the name of the entry with this component in a tree's body, which is read up to it.
fn find_entry(body: &[u8], component: &[u8]) -> Result<Option<(Mode, Name)>, BadObject>
    ensures found { IfOk result (IsEntryIn body.now component.now) }
    ensures fault { OnErr result (IsNoTree body.now) }
{
    let mut reader = TreeReader::new(body);
    while let Some((entry, _)) = reader.read()? {
        if component == entry.component {
            return Ok(Some((entry.mode, entry.name)));
        }
    }
    Ok(None)
}
