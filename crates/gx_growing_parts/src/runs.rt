//! The lines of live runs. Source: this project's own format.
ghost use Rattle.std.specs.Prelude.{◌≡◌};
ghost use Rattle.std.specs.Option.{option_map};
ghost use Rattle.gx_model.specs.Faults.{NeedsNoMemory};
ghost use Rattle.gx_lines.specs.Reads.{Reads};
ghost use Rattle.gx_growing.specs.GrowingReading.{next_run, run_in};
ghost use Rattle.gx_growing_parts.specs.Shown.{shown_next_run, shown_run};

use crate::digests::read_digest;
use gx_lines::{FileFault, read_line, read_number};
use gx_text::cut;

/// Where the rows of a live run begin, how many they are, and the digest of their pages' digests.
#[derive(Clone, Copy, Debug)]
pub struct Run {
    pub place: u64,
    pub count: u64,
    pub digest: [u8; 32],
}

/// The run in the first line, and what follows the line.
///
/// `Truncated`: no LF stands in the text. `BadRecord`: the line isn't as written. Cost: the line. Takes no memory. Source: this
/// project's own format.
pub fn read_run(text: &[u8]) -> Result<(Run, &[u8]), FileFault>
    ensures run { Reads shown_next_run result (next_run text.now) }
    ensures memory { NeedsNoMemory FileFault.OutOfMemory result }
{
    let (line, rest) = read_line(text)?;
    let Some(run) = run_line(line) else {
        return Err(FileFault::BadRecord);
    };
    Ok((run, rest))
}

/// A place, a count and a digest.
fn run_line(line: &[u8]) -> Option<Run>
    ensures { option_map shown_run result ≡ run_in line.now }
{
    let (place, rest) = cut(line, b' ')?;
    let place = read_number(place)?;
    let (count, digits) = cut(rest, b' ')?;
    let count = read_number(count)?;
    let digest = read_digest(digits)?;
    Some(Run {
        place,
        count,
        digest,
    })
}
