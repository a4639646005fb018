//! Marks, and what else names a commit.

ghost use Rattle.std.specs.Prelude.{IsOk, IsErrOf};
ghost use Rattle.gx_model.specs.Faults.{Gives, NeedsNoMemory};
ghost use Rattle.gx_model.specs.Streams.Lines.{mark_number, mark_of, commit_ish_of};
ghost use Rattle.gx_command.specs.CommandFaults.{fault_of};
ghost use Rattle.gx_command.specs.Views.{shown_commit_ish};
ghost use Rattle.gx_command.specs.declared.fault.CommandFault.TheVariants.{OutOfMemory};

use crate::commands::CommitIsh;
use crate::fault::CommandFault;
use crate::texts::is_null;
use gx_text::mark_number;
use std::alloc::Allocator;

/// The digits of a mark, which is a number from 1.
pub(crate) fn read_mark_number(digits: &[u8]) -> Result<u64, CommandFault>
    ensures mark { Gives fault_of (λ n. n) result (mark_number digits.now) }
    ensures memory { NeedsNoMemory CommandFault.OutOfMemory result }
{
    mark_number(digits).ok_or(CommandFault::BadNumber)
}

/// A colon and a mark's number.
#[tactic(auto, unfolding(gx_model::specs::Streams::Lines::mark_of))]
pub(crate) fn read_mark(text: &[u8]) -> Result<u64, CommandFault>
    ensures mark { Gives fault_of (λ n. n) result (mark_of text.now) }
    ensures memory { NeedsNoMemory CommandFault.OutOfMemory result }
{
    match text.split_first() {
        Some((b':', digits)) => read_mark_number(digits),
        _ => Err(CommandFault::BadLine),
    }
}

/// A mark behind a colon, or any other text but forty zeros.
#[tactic(auto, unfolding(gx_model::specs::Streams::Lines::commit_ish_of))]
pub(crate) fn read_commit_ish<A: Allocator + Copy>(
    alloc: A,
    text: &[u8],
) -> Result<CommitIsh<A>, CommandFault>
    ensures commit_ish { Gives fault_of shown_commit_ish result (commit_ish_of text.now) }
    ensures memory { IsErrOf result OutOfMemory → IsOk (commit_ish_of text.now) }
{
    if let Some((b':', digits)) = text.split_first() {
        return Ok(CommitIsh::Mark(read_mark_number(digits)?));
    }
    if is_null(text) {
        return Err(CommandFault::Unsupported);
    }
    Ok(CommitIsh::Text(Vec::from_slice(alloc, text)?))
}
