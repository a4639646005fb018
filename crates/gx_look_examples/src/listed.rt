//! What is listed of growing texts.

use crate::damaged::two_with_another;
use crate::looks::{look_into, name_of};
use crate::texts::{SAME, TWO};
use gx_listed::{Listing, Standing};
use gx_object::Kind;
use gx_objects::LookFault;
use std::alloc::Global;
use std::hash::RandomState;

/// The blobs of two segments, and where their records stand.
const BLOBS: [(&[u8], u64); 5] = [
    (b"one", 236),
    (b"", 288),
    (b"two\nlines", 337),
    (b"three", 675),
    (b"long", 729),
];

/// Whether these blobs are listed in their order, and no other.
fn has_blobs(listing: &Listing<Global>) -> bool {
    for (number, (body, place)) in BLOBS.iter().enumerate() {
        let standing = Standing {
            place: *place,
            kind: Kind::Blob,
            length: body.len() as u64,
        };
        if listing.get(number) != Some((name_of(body), standing)) {
            return false;
        }
    }
    listing.len() == BLOBS.len()
}

/// What is listed of a text in pieces.
fn listed(
    alloc: Global,
    text: &[u8],
    piece: usize,
    state: RandomState,
) -> Result<Listing<Global>, LookFault> {
    let look = look_into(alloc, text, piece)?;
    look.listing(alloc, state)
}

/// Whether the blobs are listed of two segments in pieces.
fn are_listed(alloc: Global, piece: usize, state: RandomState) -> bool {
    match listed(alloc, TWO, piece, state) {
        Ok(listing) => has_blobs(&listing),
        Err(_) => false,
    }
}

#[test]
fn objects_are_listed_in_their_order(rt: HostRuntime) {
    let Ok(state) = RandomState::new(&rt) else {
        return assert!(rt; false);
    };
    for piece in [1, 1_000] {
        assert!(rt; are_listed(rt.alloc(), piece, state));
    }
}

/// Whether nothing is listed of a text, which is opened.
fn is_damaged(alloc: Global, text: &[u8], state: RandomState) -> bool {
    match look_into(alloc, text, 1_000) {
        Ok(look) => matches!(look.listing(alloc, state), Err(LookFault::Damaged)),
        Err(_) => false,
    }
}

/// Whether two segments are damaged where the byte at a place is another.
fn is_damaged_at(alloc: Global, place: usize, state: RandomState) -> bool {
    match two_with_another(alloc, place) {
        Some(text) => is_damaged(alloc, text.as_slice(), state),
        None => false,
    }
}

#[test]
fn nothing_is_listed_of_a_damaged_text(rt: HostRuntime) {
    let Ok(state) = RandomState::new(&rt) else {
        return assert!(rt; false);
    };
    // a record's kind and name, and a row's name and place
    for place in [236, 243, 402, 429] {
        assert!(rt; is_damaged_at(rt.alloc(), place, state));
    }
    assert!(rt; is_damaged(rt.alloc(), SAME, state));
}
