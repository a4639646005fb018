//! All that a source gives, in one text.

ghost use Rattle.gx_offered.specs.Sources.{GivesBytes};

use crate::OfferFault;
use gx_stream::{LIMIT, SourceState, pull_piece};
use gx_text::{PIECE, Source};
use std::alloc::Allocator;

/// All the bytes of a source.
///
/// `ReadFailed`: it failed, or gave more than 2^63 - 1 bytes. `OutOfMemory`: a growth was refused.
/// Cost: the bytes. Memory: those that came, and a piece of 64 KiB.
pub(crate) fn read_all<R: Source + Drop, A: Allocator + Copy>(
    alloc: A,
    source: R,
) -> Result<Vec<u8, A>, OfferFault>
    ensures { GivesBytes (R.coming source) result }
{
    let mut source = source;
    let mut piece = Vec::new(alloc);
    piece.resize(PIECE, 0)?;
    let mut text = Vec::new(alloc);
    let mut room = LIMIT;
    loop {
        let (state, count) = pull_piece(&mut source, &mut piece, &mut room);
        text.extend_from_slice(&piece[..count])?;
        match state {
            SourceState::Open => {}
            SourceState::Ended => return Ok(text),
            SourceState::Failed => return Err(OfferFault::ReadFailed),
        }
    }
}
