//! Texts that are damaged: what is shown has its name, and every call ends.

use crate::looks::{look_into, name_of};
use crate::texts::TWO;
use gx_object::{Namer, Sha1Namer};
use gx_objects::{LookFault, Objects};
use std::alloc::Global;

/// Puts bytes in place of those at a place.
fn put_at(text: &mut Vec<u8>, place: usize, bytes: &[u8]) {
    for (number, byte) in bytes.iter().enumerate() {
        if let Some(held) = text.get_mut(place.saturating_add(number)) {
            *held = *byte;
        }
    }
}

/// The two segments with these bytes at a place.
pub(crate) fn two_with(alloc: Global, place: usize, bytes: &[u8]) -> Option<Vec<u8>> {
    let mut text = Vec::from_slice(alloc, TWO).ok()?;
    put_at(&mut text, place, bytes);
    Some(text)
}

/// The two segments where the byte at a place is another.
pub(crate) fn two_with_another(alloc: Global, place: usize) -> Option<Vec<u8>> {
    two_with(alloc, place, &[*TWO.get(place)? ^ 1])
}

/// Whether a blob's name is found in a text, and what is shown has that name.
fn found_in(alloc: Global, text: &[u8], body: &[u8]) -> Result<bool, LookFault> {
    let look = look_into(alloc, text, 1_000)?;
    let mut room = Vec::new(alloc);
    let name = name_of(body);
    match look.object(&name, &mut room)? {
        Some(object) => Ok(Sha1Namer.name(object.kind, object.body) == name),
        None => Ok(false),
    }
}

/// Bytes in place of those at a place, and what is found of a blob then. The slot that isn't picked counts for nothing, and the other
/// one does.
const CHANGES: [(usize, &[u8], Result<bool, LookFault>); 5] = [
    (0, b"gxstore 3", Ok(true)),
    (8, b"2", Err(LookFault::Damaged)),
    (20, b"x", Ok(true)),
    (130, b"x", Err(LookFault::Damaged)),
    (284, b"x", Err(LookFault::Damaged)),
];

/// What is found of a blob in two segments with these bytes at a place.
fn found_with(alloc: Global, place: usize, bytes: &[u8]) -> Option<Result<bool, LookFault>> {
    let text = two_with(alloc, place, bytes)?;
    Some(found_in(alloc, text.as_slice(), b"one"))
}

#[test]
fn damaged_text_is_told(rt: HostRuntime) {
    for (place, bytes, answer) in CHANGES {
        assert!(rt;
            found_with(rt.alloc(), place, bytes) == Some(answer),
            "{place}"
        );
    }
}

/// Whether a blob that isn't in two segments is found where the byte at a place is another. What is in them is asked for, too.
fn finds_another(alloc: Global, place: usize) -> Option<bool> {
    let text = two_with_another(alloc, place)?;
    let text = text.as_slice();
    let _ = found_in(alloc, text, b"one");
    let _ = found_in(alloc, text, b"three");
    Some(found_in(alloc, text, b"four") == Ok(true))
}

#[test]
fn each_byte_may_be_another(rt: HostRuntime) {
    for place in 0..1_215 {
        assert!(rt; finds_another(rt.alloc(), place) == Some(false), "{place}");
    }
}

/// What is found of a blob in the front of two segments.
fn found_before(alloc: Global, end: usize) -> Option<Result<bool, LookFault>> {
    Some(found_in(alloc, TWO.get(..end)?, b"one"))
}

#[test]
fn text_that_is_cut_is_damaged(rt: HostRuntime) {
    for end in 0..1_215 {
        let found = found_before(rt.alloc(), end);
        assert!(rt; found == Some(Err(LookFault::Damaged)), "{end}");
    }
}
