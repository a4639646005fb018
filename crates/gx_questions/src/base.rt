//! What the base of a revision gives: an object's name in full, a ref, or the digits that a name begins with.

ghost use Rattle.gx_model.specs.Records.HistoryOf.{history_of};
ghost use Rattle.gx_model.specs.Revisions.Denotation.{base_value, begun_by, the_one};
ghost use Rattle.gx_rev.specs.Objects.{IsHeld, value_at};
ghost use Rattle.gx_questions.specs.Answers.{Answers, IsOfTold, NeedsNothing};

use crate::AskFault;
use gx_object::Name;
use gx_objects::Objects;
use gx_rev::{RevFault, is_abbreviation};
use gx_store::Prefix;

/// The object that the base of a revision gives. No body is read.
///
/// UnknownRef, UnknownObject and Ambiguous are the base's. ReadFailed: a read failed. Damaged: this is no repository.
/// Cost: a look-up. Takes no memory. Source: gitrevisions(7), "Specifying Revisions".
pub fn eval_base<O: Objects>(objects: &O, base: &[u8]) -> Result<Name, AskFault>
    ensures value { Answers (O.told objects.now) value_at
        (λ r. base_value (O.name_of objects.now) (history_of r) base.now) result }
    ensures held { IsOfTold (O.told objects.now) IsHeld result }
    ensures sure { NeedsNothing (O.sure objects.now) result }
{
    objects.sound_if_told();
    if let Some(name) = Name::read(base) {
        return match objects.place(&name)? {
            Some(_) => Ok(name),
            None => Err(AskFault::Revision(RevFault::UnknownObject)),
        };
    }
    if let Some(name) = objects.object_of_ref(base)? {
        return Ok(name);
    }
    if is_abbreviation(base) {
        find_digits(objects, base)
    } else {
        Err(AskFault::Revision(RevFault::UnknownRef))
    }
}

/// The one object whose name begins with these digits.
fn find_digits<O: Objects>(objects: &O, digits: &[u8]) -> Result<Name, AskFault>
    ensures value { Answers (O.told objects.now) value_at (λ r. the_one (O.name_of objects.now)
        (begun_by (O.name_of objects.now) (history_of r) digits.now)) result }
    ensures held { IsOfTold (O.told objects.now) IsHeld result }
    ensures sure { NeedsNothing (O.sure objects.now) result }
{
    objects.sound_if_told();
    match objects.by_digits(digits)? {
        Prefix::Unique(name) => Ok(name),
        Prefix::Absent => Err(AskFault::Revision(RevFault::UnknownRef)),
        Prefix::Ambiguous => Err(AskFault::Revision(RevFault::Ambiguous)),
    }
}
