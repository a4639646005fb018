//! What is answered of an append.

use gx_additions::AdditionFault;
use gx_append::AppendFault;

/// That a segment is appended, or why it isn't.
#[derive(Clone, Copy, PartialEq, Eq)]
pub(crate) enum Told {
    Appended,
    Unwritten,
    Unsettled,
    ReadFailed,
    OutOfMemory,
}

/// What is answered, if anything is, how long the text is then, and whether it is as it is to be.
pub(crate) type Outcome = (Option<Told>, usize, bool);

/// What an answer tells.
pub(crate) fn answered(answer: Result<(), AdditionFault>) -> Told {
    match answer {
        Ok(()) => Told::Appended,
        Err(AdditionFault::Append(fault)) => fault_told(fault),
        Err(AdditionFault::ReadFailed) => Told::ReadFailed,
        Err(AdditionFault::OutOfMemory) => Told::OutOfMemory,
    }
}

fn fault_told(fault: AppendFault) -> Told {
    match fault {
        AppendFault::Unwritten(_) => Told::Unwritten,
        AppendFault::Unsettled(_) => Told::Unsettled,
    }
}
