//! Words, and those that are refused, as they are answered.

ghost use Rattle.std.specs.Prelude.{◌≡◌, map};
ghost use Rattle.gx_model.specs.Revisions.{range_of};
ghost use Rattle.gx_model.specs.Revisions.Ranges.{each_word};
ghost use Rattle.gx_rev.specs.Views.{shown_range};
ghost use Rattle.gx_text.specs.Lent.{lent_texts};
ghost use Rattle.gx_print.specs.Stored.{all_words};
ghost use Rattle.gx_cli.specs.Words.{GivesWords, refused_at};

use crate::CliFault;
use gx_print::read_ranges;
use gx_rev::{Range, RevFault};
use std::alloc::Allocator;

/// The range words of texts, or the first that is none.
pub(crate) fn ranges_of<A: Allocator + Copy>(
    alloc: A,
    words: &[&[u8]],
) -> Result<Vec<Range<A>, A>, CliFault>
    ensures { GivesWords (λ ranges. map shown_range ranges.items) result
        (all_words (each_word range_of (lent_texts words.now))) }
{
    match read_ranges(alloc, words) {
        Ok(ranges) => Ok(ranges),
        Err(fault) => Err(refused(fault.word as u64, fault.kind)),
    }
}

/// The refusal of the word with this number. Want of memory is of none.
pub(crate) fn refused(number: u64, kind: RevFault) -> CliFault
    ensures { result ≡ refused_at number kind }
{
    match kind {
        RevFault::OutOfMemory => CliFault::OutOfMemory,
        kind => CliFault::Revision { number, kind },
    }
}
