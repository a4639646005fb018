//! Where a command of a stream begins, printed. Source: git-fast-import(1), and grep(1), "Output Line Prefix Control".

ghost use Rattle.std.specs.Prelude.{◌≡◌, [], OnOk};
ghost use Rattle.gx_cli.specs.Placing.{PlacesFrom, PutsPlace, place_line};

use crate::CliFault;
use crate::gathering::gather;
use crate::sending::put_text;
use gx_text::{Sink, Source};
use gx_where::{Place, place_of_command};
use itoa::Buffer;
use std::alloc::{AllocError, Allocator};

/// Prints where a command of a source's stream begins, by its number from 1: the number of its line, the byte at which it begins,
/// and what stands in that line, as `grep -bn` prints a line.
///
/// `ReadFailed`: the source failed. `Where`: it isn't told. `WriteFailed`: the sink didn't take all of the line.
/// `OutOfMemory`: a growth was refused. Memory: the stream's text, and what `place_of_command` takes. Cost: that of it.
pub(crate) fn print_place<R: Source + Drop, W: Sink, A: Allocator + Copy>(
    alloc: A,
    command: u64,
    source: R,
    sink: &mut W,
) -> Result<(), CliFault>
    ensures { PlacesFrom command (R.coming source) (W.taken sink.old) (W.taken sink.new) result }
{
    let text = gather(alloc, source)?;
    match place_of_command(alloc, &text, command) {
        Ok(place) => put_place(alloc, place, sink),
        Err(fault) => Err(CliFault::Where(fault)),
    }
}

/// Prints the line of a place. It is made before it goes out.
fn put_place<W: Sink, A: Allocator + Copy>(
    alloc: A,
    place: Place<'_>,
    sink: &mut W,
) -> Result<(), CliFault>
    ensures { PutsPlace place.entry (W.taken sink.old) (W.taken sink.new) result }
{
    let mut line = Vec::new(alloc);
    write_place(&mut line, place)?;
    put_text(sink, &line)
}

/// Writes the line of a place.
fn write_place<A: Allocator>(line: &mut Vec<u8, A>, place: Place<'_>) -> Result<(), AllocError>
    requires empty { line.old.items ≡ [] }
    ensures { OnOk result (line.new.items ≡ place_line place.entry) }
{
    let mut digits = Buffer::new();
    line.extend_from_slice(digits.format(place.line).as_bytes())?;
    line.push(b':')?;
    line.extend_from_slice(digits.format(place.byte).as_bytes())?;
    line.push(b':')?;
    line.extend_from_slice(place.first)?;
    line.push(b'\n')?;
    Ok(())
}
