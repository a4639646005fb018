//! The text that a patch has of a file. Source: git-diff(1); git-submodule(1), "Subproject commit".

ghost use Rattle.std.specs.Prelude.{◌≡◌, ◌++◌, IfSome, OnOk, Some};
ghost use Rattle.gx_model.specs.Objects.{hex};
ghost use Rattle.gx_model.specs.Records.HistoryOf.{named_values};
ghost use Rattle.gx_questions.specs.Answers.{IsOfTold, RefusesUntold};
ghost use Rattle.gx_differences.specs.Listed.{HasLeaf, shown_leaf};
ghost use Rattle.gx_patch.specs.Patches.{is_submodule, side_text, submodule_text};

use gx_differences::FileLeaf;
use gx_object::{Kind, Mode, Name};
use gx_objects::Objects;
use gx_questions::{AskFault, body};
use std::alloc::{AllocError, Allocator};

/// The text of a file that is held: its bytes, those of a link, or the line of a submodule; none of no file. It is lent from where
/// it stands or from the room, and what was in the room is lost.
///
/// OutOfMemory: the room can't grow. ReadFailed: a read failed. Damaged: this is no repository's.
/// Cost and memory: those of `gx_questions::body`.
pub(crate) fn text_of<'a, O: Objects, A: Allocator + Copy>(
    objects: &'a O,
    room: &'a mut Vec<u8, A>,
    leaf: &Option<FileLeaf>,
) -> Result<&'a [u8], AskFault>
    requires held { IfSome (O.told objects.now) (HasLeaf (shown_leaf leaf.now)) }
    ensures text { IsOfTold (O.told objects.now) (λ r text. text.now
        ≡ side_text (named_values r.records) (shown_leaf leaf.now)) result }
    ensures fault { RefusesUntold (O.told objects.now) result }
{
    match leaf {
        None => Ok(b""),
        Some(leaf) => leaf_text(objects, room, leaf),
    }
}

/// The text of a file that is there.
fn leaf_text<'a, O: Objects, A: Allocator + Copy>(
    objects: &'a O,
    room: &'a mut Vec<u8, A>,
    leaf: &FileLeaf,
) -> Result<&'a [u8], AskFault>
    requires held { IfSome (O.told objects.now) (HasLeaf (Some (leaf.now.mode, leaf.now.name.bytes))) }
    ensures text { IsOfTold (O.told objects.now) (λ r text. text.now
        ≡ side_text (named_values r.records) (Some (leaf.now.mode, leaf.now.name.bytes))) result }
    ensures fault { RefusesUntold (O.told objects.now) result }
{
    objects.sound_if_told();
    if is_submodule(leaf.mode) {
        room.clear();
        put_submodule(room, &leaf.name)?;
        return Ok(room.as_slice());
    }
    let object = body(objects, &leaf.name, room)?;
    match object.kind {
        Kind::Blob => Ok(object.body),
        Kind::Tree | Kind::Commit | Kind::Tag => Err(AskFault::Damaged),
    }
}

fn is_submodule(mode: Mode) -> bool
    ensures { result ≡ is_submodule mode }
{
    matches!(mode, Mode::Gitlink)
}

/// Appends the line of a submodule.
fn put_submodule<A: Allocator + Copy>(text: &mut Vec<u8, A>, name: &Name) -> Result<(), AllocError>
    ensures { OnOk result (text.new.items ≡ text.old.items ++ submodule_text (hex name.now.bytes)) }
{
    text.extend_from_slice(b"Subproject commit ")?;
    text.extend_from_slice(name.hex().as_slice())?;
    text.push(b'\n')?;
    Ok(())
}
