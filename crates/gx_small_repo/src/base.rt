//! What the base of a revision gives.

ghost use Rattle.gx_objects.specs.Answers.{OnlyUntold, Tells};
ghost use Rattle.gx_small_repo.specs.Small.{GivesBase};

use gx_object::Name;
use gx_objects::{LookFault, Objects};
use gx_questions::{AskFault, eval_base};
use gx_rev::RevFault;

/// The object that the base of a revision gives, or why it gives none.
///
/// ReadFailed: a read failed. Damaged: this is no repository. Cost: that of `eval_base`. Source: gitrevisions(7), "Specifying
/// Revisions".
pub fn base_given<O: Objects>(objects: &O, base: &[u8]) -> Result<Result<Name, RevFault>, LookFault>
    ensures given { Tells (O.told objects.now) (GivesBase (O.name_of objects.now) base.now) result }
    ensures fault { OnlyUntold (O.told objects.now) result }
{
    objects.sound_if_told();
    match eval_base(objects, base) {
        Ok(name) => Ok(Ok(name)),
        Err(AskFault::Revision(fault)) => Ok(Err(fault)),
        Err(AskFault::OutOfMemory) => Err(LookFault::OutOfMemory),
        Err(AskFault::ReadFailed) => Err(LookFault::ReadFailed),
        Err(AskFault::Damaged) => Err(LookFault::Damaged),
    }
}
