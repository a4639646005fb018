//! All of a source, in memory.

ghost use Rattle.std.specs.Prelude.{◌≡◌, ◌<◌, [], length};
ghost use Rattle.gx_cli.specs.Gathering.{Gathers, GathersInto};

use crate::CliFault;
use gx_text::{Failed, PIECE, Source};
use std::alloc::Allocator;

/// All that a source gives up to its end.
///
/// `ReadFailed`: the source failed. `OutOfMemory`: a growth was refused. Cost: the bytes. Memory: the bytes, and one piece.
pub(crate) fn gather<R: Source + Drop, A: Allocator + Copy>(
    alloc: A,
    source: R,
) -> Result<Vec<u8, A>, CliFault>
    ensures { Gathers (R.coming source) result }
{
    let mut source = source;
    let mut text = Vec::new(alloc);
    let mut piece = Vec::new(alloc);
    piece.resize(PIECE, 0)?;
    match pull_all(&mut source, &mut piece, &mut text) {
        Ok(()) => Ok(text),
        Err(fault) => Err(fault),
    }
}

/// Pulls all that a source gives through a buffer.
fn pull_all<R: Source, A: Allocator + Copy>(
    source: &mut R,
    piece: &mut [u8],
    text: &mut Vec<u8, A>,
) -> Result<(), CliFault>
    requires room { 0 < length piece.old }
    requires empty { text.old.items ≡ [] }
    ensures { GathersInto (R.coming source.old) text.new.items result }
{
    loop {
        match source.pull(piece) {
            Err(Failed) => return Err(CliFault::ReadFailed),
            Ok(0) => return Ok(()),
            Ok(count) => text.extend_from_slice(&piece[..count])?,
        }
    }
}
