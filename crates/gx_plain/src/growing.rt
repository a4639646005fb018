//! The growing text of a plain one. Source: this project's own format.

ghost use Rattle.std.specs.Prelude.{IfSome};
ghost use Rattle.gx_kept.specs.Sending.{SendsNamed};
ghost use Rattle.gx_plain.specs.Growing.{Grows};

use crate::plain::Plain;
use gx_at::ReadAt;
use gx_kept::{KeptFault, rewrite};
use gx_object::Namer;
use gx_text::Sink;
use std::alloc::Allocator;
use std::hash::RandomState;

/// Sends the growing text of the repository of a text of version 1 or 2, as one segment with one run. Each body goes out as it is read
/// again, and none that hasn't the name in front of it.
///
/// Damaged: this is no such text; why, `gx_file::read` tells, and nothing went out. ReadFailed: a read failed, or the text has 2^64
/// bytes or more. OutOfMemory: a growth was refused, or the growing text has 2^63 bytes or more. WriteFailed: the sink failed. What
/// went out by then is a front of the growing text.
/// Cost: two passes over the text, each of which hashes each body. Memory: that of `Plain::open`, and two rows for each object.
/// Source: this project's own format.
pub fn grow<S: ReadAt + Drop, N: Namer + Drop, A: Allocator + Copy, W: Sink>(
    alloc: A,
    namer: N,
    source: S,
    state: RandomState,
    sink: &mut W,
) -> Result<(), KeptFault>
    ensures text { IfSome (S.text source) (λ text. Grows (N.name_of namer) text
        (W.taken sink.old) (W.taken sink.new) result) }
    ensures named { SendsNamed (N.name_of namer) (W.taken sink.old) (W.taken sink.new) result }
{
    let plain = Plain::open(alloc, namer, source, state)?;
    rewrite(alloc, &plain, plain.listing(), sink)
}
