//! What suffixes of a revision give.

ghost use Rattle.std.specs.Prelude.{Ok, map};
ghost use Rattle.gx_model.specs.Revisions as model;
ghost use Rattle.gx_model.specs.Revisions.Denotation.{all_suffixed, peel, suffixed};
ghost use Rattle.gx_rev.specs.Objects.{IsHeld, only, value_at};
ghost use Rattle.gx_rev.specs.Views.{shown_suffix};
ghost use Rattle.gx_questions.specs.Answers.{Answers, IfTold, IsOfTold, NeedsNothing};

use crate::AskFault;
use crate::objects::{ancestor_of, body, commit_of, kind_of, parent_of, tree_of};
use gx_object::{Kind, Name, decode_tag};
use gx_objects::Objects;
use gx_rev::{RevFault, Suffix};
use std::alloc::Allocator;

/// What suffixes give of a held object, from left to right.
pub(crate) fn eval_all<O: Objects, A: Allocator + Copy>(
    objects: &O,
    room: &mut Vec<u8, A>,
    name: &Name,
    suffixes: &[Suffix],
) -> Result<Name, AskFault>
    requires held { IfTold (O.told objects.now) IsHeld name.now }
    ensures value { Answers (O.told objects.now) value_at
        (λ r. all_suffixed (value_at r name.now) (map shown_suffix suffixes.now)) result }
    ensures held { IsOfTold (O.told objects.now) IsHeld result }
    ensures sure { NeedsNothing (O.sure objects.now) result }
{
    let mut object = *name;
    for suffix in suffixes {
        object = eval_suffix(objects, room, &object, *suffix)?;
    }
    Ok(object)
}

/// What a suffix gives of a held object.
fn eval_suffix<O: Objects, A: Allocator + Copy>(
    objects: &O,
    room: &mut Vec<u8, A>,
    name: &Name,
    suffix: Suffix,
) -> Result<Name, AskFault>
    requires held { IfTold (O.told objects.now) IsHeld name.now }
    ensures value { Answers (O.told objects.now) value_at
        (λ r. suffixed (value_at r name.now) (shown_suffix suffix)) result }
    ensures held { IsOfTold (O.told objects.now) IsHeld result }
    ensures sure { NeedsNothing (O.sure objects.now) result }
{
    objects.sound_if_told();
    match suffix {
        Suffix::Parent(number) => parent(objects, room, name, number),
        Suffix::Ancestor(number) => ancestor(objects, room, name, number),
        Suffix::Peeled => peeled(objects, room, name),
        Suffix::Itself => Ok(*name),
        // a tag names a commit, and nothing else peels to one or to a blob
        Suffix::Commit => commit_of(objects, room, name),
        Suffix::Blob => of_kind(objects, room, name, Kind::Blob),
        Suffix::Tree => tree_of(objects, room, name),
        Suffix::Tag => of_kind(objects, room, name, Kind::Tag),
    }
}

fn parent<O: Objects, A: Allocator + Copy>(
    objects: &O,
    room: &mut Vec<u8, A>,
    name: &Name,
    number: u64,
) -> Result<Name, AskFault>
    requires held { IfTold (O.told objects.now) IsHeld name.now }
    ensures value { Answers (O.told objects.now) value_at
        (λ r. suffixed (value_at r name.now) (model.parent number)) result }
    ensures held { IsOfTold (O.told objects.now) IsHeld result }
    ensures sure { NeedsNothing (O.sure objects.now) result }
{
    objects.sound_if_told();
    let commit = commit_of(objects, room, name)?;
    parent_of(objects, room, &commit, number)
}

fn ancestor<O: Objects, A: Allocator + Copy>(
    objects: &O,
    room: &mut Vec<u8, A>,
    name: &Name,
    number: u64,
) -> Result<Name, AskFault>
    requires held { IfTold (O.told objects.now) IsHeld name.now }
    ensures value { Answers (O.told objects.now) value_at
        (λ r. suffixed (value_at r name.now) (model.ancestor number)) result }
    ensures held { IsOfTold (O.told objects.now) IsHeld result }
    ensures sure { NeedsNothing (O.sure objects.now) result }
{
    objects.sound_if_told();
    let commit = commit_of(objects, room, name)?;
    ancestor_of(objects, room, &commit, number)
}

/// The object with tags peeled.
fn peeled<O: Objects, A: Allocator + Copy>(
    objects: &O,
    room: &mut Vec<u8, A>,
    name: &Name,
) -> Result<Name, AskFault>
    requires held { IfTold (O.told objects.now) IsHeld name.now }
    ensures value { Answers (O.told objects.now) value_at
        (λ r. Ok (peel (value_at r name.now))) result }
    ensures held { IsOfTold (O.told objects.now) IsHeld result }
    ensures sure { NeedsNothing (O.sure objects.now) result }
{
    objects.sound_if_told();
    let object = body(objects, name, room)?;
    match object.kind {
        Kind::Tag => Ok(decode_tag(object.body)?.object()),
        Kind::Blob | Kind::Tree | Kind::Commit => Ok(*name),
    }
}

/// An object of this kind, and no other.
fn of_kind<O: Objects, A: Allocator + Copy>(
    objects: &O,
    room: &mut Vec<u8, A>,
    name: &Name,
    kind: Kind,
) -> Result<Name, AskFault>
    requires held { IfTold (O.told objects.now) IsHeld name.now }
    ensures value { Answers (O.told objects.now) value_at
        (λ r. only (O.name_of objects.now) kind (value_at r name.now)) result }
    ensures held { IsOfTold (O.told objects.now) IsHeld result }
    ensures sure { NeedsNothing (O.sure objects.now) result }
{
    if kind_of(objects, room, name)? == kind {
        Ok(*name)
    } else {
        Err(AskFault::Revision(RevFault::WrongKind))
    }
}
