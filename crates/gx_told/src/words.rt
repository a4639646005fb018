//! The tree that a word gives, and words that are refused. Source: gitrevisions(7).

ghost use Rattle.std.specs.Prelude.{◌≡◌};
ghost use Rattle.gx_model.specs.declared.objects.Kind.TheVariants as kinds;
ghost use Rattle.gx_model.specs.Records.HistoryOf.{history_of};
ghost use Rattle.gx_rev.specs.Objects.{IsHeldAs, files_at};
ghost use Rattle.gx_print.specs.Stored.{files_of_word};
ghost use Rattle.gx_questions.specs.Answers.{Answers, IsOfTold};
ghost use Rattle.gx_told.specs.Faults.{refused_at, refused_read};

use crate::ToldFault;
use gx_object::Name;
use gx_objects::Objects;
use gx_questions::{AskFault, tree};
use gx_rev::{RevFault, Revision, WalkFault};
use std::alloc::Allocator;

/// The name of the tree that a word gives as a revision. What is in the room is lost.
///
/// Cost: that of `gx_questions::tree`. Memory: the revision, and the room.
pub(crate) fn tree_of_word<O: Objects, A: Allocator + Copy>(
    alloc: A,
    objects: &O,
    room: &mut Vec<u8, A>,
    word: &[u8],
) -> Result<Name, AskFault>
    ensures files { Answers (O.told objects.now) files_at
        (λ r. files_of_word (O.name_of objects.now) (history_of r) word.now) result }
    ensures held { IsOfTold (O.told objects.now) (IsHeldAs kinds.Tree) result }
{
    let revision = Revision::read(alloc, word)?;
    tree(objects, room, &revision)
}

/// Why the word with this number isn't answered. Want of memory, a failed read and damage are of none.
pub(crate) fn refused(number: u64, fault: AskFault) -> ToldFault
    ensures { result ≡ refused_at number fault }
{
    match fault {
        AskFault::OutOfMemory => ToldFault::OutOfMemory,
        AskFault::ReadFailed => ToldFault::StoreReadFailed,
        AskFault::Damaged => ToldFault::Damaged,
        AskFault::Revision(kind) => ToldFault::Revision { number, kind },
    }
}

/// Why a word isn't read. Want of memory is of none.
pub(crate) fn unread(fault: WalkFault) -> ToldFault
    ensures { result ≡ refused_read fault }
{
    match fault.kind {
        RevFault::OutOfMemory => ToldFault::OutOfMemory,
        kind => ToldFault::Revision {
            number: fault.word as u64,
            kind,
        },
    }
}
