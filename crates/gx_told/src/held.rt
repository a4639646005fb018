//! Bodies of held objects whose kinds are told. Source: gitglossary(7), "object name".

ghost use Rattle.std.specs.Prelude.{◌≡◌, IfOk};
ghost use Rattle.gx_model.specs.Records.{body_of};
ghost use Rattle.gx_questions.specs.Answers.{IfTold, IsOfTold, RefusesUntold};
ghost use Rattle.gx_rev.specs.Answers.{IsNamed};
ghost use Rattle.gx_rev.specs.Objects.{value_at};
ghost use Rattle.gx_rev.specs.declared.shown.Shown.TheVariants.{Object};

use gx_object::{Kind, Name};
use gx_objects::Objects;
use gx_questions::{AskFault, body};
use std::alloc::Allocator;

/// The body of a held object of this kind, lent from where it stands or from the room.
///
/// The faults, the cost and the memory are those of `gx_questions::body`; it is `Damaged`, too, where the object is of another
/// kind, as where the entry of a file names a tree.
pub(crate) fn body_as<'a, O: Objects, A: Allocator + Copy>(
    objects: &'a O,
    room: &'a mut Vec<u8, A>,
    kind: Kind,
    name: &Name,
) -> Result<&'a [u8], AskFault>
    requires { IfTold (O.told objects.now) (IsNamed (O.name_of objects.now))
        (Object kind name.now) }
    ensures body { IsOfTold (O.told objects.now) (λ r body.
        body.now ≡ body_of (O.name_of objects.now) (value_at r name.now)) result }
    ensures named { IfOk result (λ body. O.name_of objects.now kind body.now ≡ name.now.bytes) }
    ensures fault { RefusesUntold (O.told objects.now) result }
{
    let object = body(objects, name, room)?;
    if object.kind == kind {
        Ok(object.body)
    } else {
        Err(AskFault::Damaged)
    }
}
