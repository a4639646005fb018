//! The lines of a source, which are words behind those of a command line.

ghost use Rattle.gx_cli.specs.Gathering.{GathersLines};

use crate::CliFault;
use gx_batch::{LineEnding, read_lines};
use gx_text::Source;
use std::alloc::Allocator;

/// The lines of a source, each without its LF or CR LF. What stands behind the last is a line, too, unless it is empty.
///
/// `ReadFailed`: the source failed. `OutOfMemory`: a growth was refused. Cost and memory: the lines.
pub fn lines_from<R: Source + Drop, A: Allocator + Copy>(
    alloc: A,
    source: R,
) -> Result<Vec<Vec<u8, A>, A>, CliFault>
    ensures { GathersLines (R.coming source) result }
{
    match read_lines(alloc, LineEnding::Lf, source) {
        Ok(lines) => Ok(lines),
        Err(fault) => Err(CliFault::from(fault)),
    }
}
