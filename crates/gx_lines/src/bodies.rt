//! The bytes of a body, behind which an LF stands. Source: this project's own format.
ghost use Rattle.gx_model.specs.Faults.{NeedsNoMemory};
ghost use Rattle.gx_model.specs.Stores.StoreReading.{stored_body};
ghost use Rattle.gx_lines.specs.Reads.{Reads};
ghost use Rattle.gx_text.specs.Lent.{lent_pair};

use crate::FileFault;

/// So many bytes, and what follows the LF behind them.
///
/// `Truncated`: the text ends before the LF. `BadRecord`: another byte stands in its place. Cost: constant. Source: this
/// project's own format.
pub fn read_body(length: u64, text: &[u8]) -> Result<(&[u8], &[u8]), FileFault>
    ensures body { Reads lent_pair result (stored_body length text.now) }
    ensures memory { NeedsNoMemory FileFault.OutOfMemory result }
{
    if length >= text.len() as u64 {
        return Err(FileFault::Truncated);
    }
    let (body, rest) = text.split_at(length as usize);
    match rest.strip_prefix(b"\n") {
        Some(rest) => Ok((body, rest)),
        None => Err(FileFault::BadRecord),
    }
}
