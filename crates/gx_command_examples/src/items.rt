//! The items of streams, in pieces and up to failures and refused growths.

ghost use Rattle.std.specs.Prelude.{◌<◌};

use crate::spelling::{Heap, Spelling};
use gx_stream::{Item, ItemReader, StreamFault};
use gx_text::{Bytes, Source};
use std::alloc::Allocator;

mod failing;
mod pulls;

const MIXED: &[u8] =
    b"# first\nblob\ndata 8\n#no\n#yes\n\ndata <<END\nENDING\n\nEND\n\n# last\nprogress a\ndata <<\n\n";

const MIXED_ITEMS: &[u8] = b"[blob]<#no\n#yes>[]<ENDING\n\n>[progress a]<>";

/// A stream's end, or the fault before it.
type End = Option<StreamFault>;

/// What is behind items, where they are those of this text, all of them or the first ones, and whether they are all: a line is in
/// brackets there, data in angles.
fn end_of<R: Source, A: Allocator + Copy>(
    reader: &mut ItemReader<R, A>,
    items: &[u8],
) -> Option<(End, bool)> {
    let mut spelling = Spelling::new(items);
    for _ in 0..100u8 {
        let end = match reader.next() {
            Ok(Some(Item::Line(line))) => {
                spelling.put(b"[", line, b"]");
                continue;
            }
            Ok(Some(Item::Data(bytes))) => {
                spelling.put(b"<", bytes, b">");
                continue;
            }
            Ok(None) => None,
            Err(fault) => Some(fault),
        };
        return if spelling.is_right {
            Some((end, spelling.rest.is_empty()))
        } else {
            None
        };
    }
    None
}

/// The same, where the end comes again, three times.
fn told<R: Source, A: Allocator + Copy>(
    reader: &mut ItemReader<R, A>,
    items: &[u8],
) -> Option<(End, bool)> {
    let told = end_of(reader, items)?;
    for _ in 0..3u8 {
        if end_of(reader, b"") != Some((told.0, true)) {
            return None;
        }
    }
    Some(told)
}

/// The same of a text in pieces of this size, behind which the source fails or ends.
fn told_of(heap: &Heap, text: &[u8], piece: usize, fails: bool, items: &[u8]) -> Option<(End, bool)>
    requires { 0 < piece }
{
    let mut reader = ItemReader::new(heap, Bytes::new(text, piece, fails));
    told(&mut reader, items)
}

#[test]
fn pieces_make_no_difference_and_ends_stay(rt: HostRuntime) {
    let heap = Heap::new(rt.alloc(), 0);
    let ended = Some((None, true));
    for piece in 1..65usize {
        assert!(rt;
            told_of(&heap, MIXED, piece, false, MIXED_ITEMS) == ended,
            "{piece}"
        );
    }
    assert!(rt; told_of(&heap, b"a\n", 1, false, b"[a]") == ended);
    let bad_number = Some((Some(StreamFault::BadNumber), true));
    assert!(rt; told_of(&heap, b"data x\na\n", 1, false, b"") == bad_number);
    let truncated = Some((Some(StreamFault::TruncatedData), true));
    assert!(rt; told_of(&heap, b"data 2\na", 1, false, b"") == truncated);
}
