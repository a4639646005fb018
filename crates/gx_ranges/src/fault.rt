//! Why commits aren't listed.

ghost use Rattle.std.specs.Prelude.{◌≡◌};
ghost use Rattle.gx_questions.specs.Answers.{of_look};
ghost use Rattle.gx_ranges.specs.Answers.{of_no_word, refused_at};

use gx_objects::LookFault;
use gx_questions::AskFault;

/// Why commits aren't listed.
#[derive(Clone, Copy, Debug, PartialEq, Eq, Drop)]
pub struct RangeFault {
    /// The number of the first word that is refused, from 1; 0 where none is.
    pub word: usize,
    pub kind: AskFault,
}

impl From<LookFault> for RangeFault {
    ghost from_gives = { λ from fault. fault ≡ of_no_word (of_look from) };

    fn from(fault: LookFault) -> RangeFault {
        RangeFault {
            word: 0,
            kind: AskFault::from(fault),
        }
    }
}

impl From<AskFault> for RangeFault {
    ghost from_gives = { λ from fault. fault ≡ of_no_word from };

    /// A fault of no word.
    fn from(kind: AskFault) -> RangeFault {
        RangeFault { word: 0, kind }
    }
}

/// The fault of a word. Want of memory, a failed read and damage are of none.
pub(crate) fn refused(word: usize, kind: AskFault) -> RangeFault
    ensures { result ≡ refused_at word kind }
{
    match kind {
        AskFault::Revision(_) => RangeFault { word, kind },
        _ => RangeFault { word: 0, kind },
    }
}
