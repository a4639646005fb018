//! The front of a plain text: its first line, and the number of its records. Source: this project's own format.

ghost use Rattle.gx_plain.specs.Starts.{ReadsStart};

use crate::fill::read_front;
use gx_at::ReadAt;
use gx_lines::{read_count, read_magic};
use gx_model::Version;
use gx_objects::LookFault;
use std::alloc::Allocator;

/// How many bytes are read: both lines have fewer.
const LINES: usize = 64;

/// The version of a text, the number of its records, and where the first one stands.
#[derive(Clone, Copy)]
pub(crate) struct Start {
    pub(crate) version: Version,
    pub(crate) count: u64,
    pub(crate) place: u64,
}

/// Reads the front of a text. `Damaged` where it isn't as it has to be.
pub(crate) fn read_start<S: ReadAt, A: Allocator + Copy>(
    alloc: A,
    source: &S,
) -> Result<Start, LookFault>
    ensures { ReadsStart (S.text source.now) result }
{
    let mut room = Vec::new(alloc);
    read_front(source, 0, LINES, &mut room)?;
    let Ok((version, behind)) = read_magic(room.as_slice()) else {
        return Err(LookFault::Damaged);
    };
    let Ok((count, behind)) = read_count(b"objects", behind) else {
        return Err(LookFault::Damaged);
    };
    Ok(Start {
        version,
        count,
        place: (room.len() - behind.len()) as u64,
    })
}
