//! The slot of a growing text that isn't picked.

use gx_at::TextAt;
use gx_look::Look;
use gx_object::Sha1Namer;
use gx_objects::{LookFault, Objects};
use gx_salvage::OtherSlot;
use std::alloc::Global;

/// The text with no object and no ref, as it is written.
const EMPTY: [u8; 262] = *b"gxstore 3\na\n\
00000000000000000262 00000000000000000244 \
adb75895df009d6af652e3e2686b8d561b10c7e4b0c7c84e20c13de012fb0597\n\
00000000000000000000 00000000000000000000 \
0000000000000000000000000000000000000000000000000000000000000000\n\
objects 0\nrows 0\n\nruns 0\nrefs 0\nend\n";

/// What opening a text answers where this byte picks its slot, as it is and by its other slot, however reads are cut.
fn opened(alloc: Global, byte: u8, piece: usize) -> Option<(bool, bool)> {
    let mut text = EMPTY;
    text[10] = byte;
    let source = TextAt { text: &text, piece };
    let other = OtherSlot::new(source)?;
    let picked = Look::open(alloc, Sha1Namer, source);
    let unpicked = Look::open(alloc, Sha1Namer, other);
    Some((has_no_ref(alloc, &picked), has_no_ref(alloc, &unpicked)))
}

/// Whether a look is open, and tells no ref.
fn has_no_ref<O: Objects>(alloc: Global, look: &Result<O, LookFault>) -> bool {
    let mut room = Vec::new(alloc);
    match look {
        Ok(look) => look.ref_lines(&mut room) == Ok(b"".as_slice()),
        Err(_) => false,
    }
}

#[test]
fn slot_that_is_not_picked_is_taken(rt: HostRuntime) {
    for piece in [1, 7, 11, 1_000] {
        assert!(rt; opened(rt.alloc(), b'a', piece) == Some((true, false)));
        assert!(rt; opened(rt.alloc(), b'b', piece) == Some((false, true)));
        assert!(rt; opened(rt.alloc(), b'\0', piece) == Some((false, true)));
    }
}

/// Whether a text of so many bytes has no other slot.
fn has_none(count: usize) -> bool {
    let text = EMPTY.as_slice();
    match text.get(..count) {
        Some(text) => OtherSlot::new(TextAt { text, piece: 1 }).is_none(),
        None => false,
    }
}

#[test]
fn text_that_ends_before_has_no_other_slot(rt: HostRuntime) {
    assert!(rt; has_none(0));
    assert!(rt; has_none(10));
    assert!(rt; !has_none(11));
}
