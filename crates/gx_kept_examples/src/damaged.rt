//! Stores that are damaged: what goes out as a whole has its names, and every call ends.

use crate::stores::{Dice, Grown, look_into, random_text};
use gx_at::TextAt;
use gx_kept::{KeptFault, collect};
use gx_listed::Listing;
use gx_look::Look;
use gx_object::{Name, Namer, Sha1Namer};
use gx_objects::Objects;
use gx_text::Growing;
use std::alloc::Global;
use std::hash::RandomState;

/// What comes of a text.
enum Came {
    /// What goes out has its names.
    Named,
    Damaged,
    Otherwise,
}

/// Collects a text, or tells why not.
fn collected(
    alloc: Global,
    text: &[u8],
    sink: &mut Growing<Global>,
    state: RandomState,
) -> Result<(), KeptFault> {
    let Some(look) = look_into(alloc, text) else {
        return Err(KeptFault::Damaged);
    };
    let Ok(listing) = look.listing(alloc, state) else {
        return Err(KeptFault::Damaged);
    };
    match collect(alloc, &look, &listing, &[], sink) {
        Ok(_) => Ok(()),
        Err(fault) => Err(fault),
    }
}

/// Whether an object has its name.
fn is_named(
    look: &Look<TextAt<'_>, Sha1Namer, Global>,
    name: &Name,
    room: &mut Vec<u8>,
) -> Option<bool> {
    let object = look.object(name, room).ok()??;
    Some(Sha1Namer.name(object.kind, object.body) == *name)
}

/// Whether each object that is listed has its name.
fn is_each_named(
    look: &Look<TextAt<'_>, Sha1Namer, Global>,
    listing: &Listing<Global>,
    room: &mut Vec<u8>,
) -> Option<bool> {
    for number in 0..listing.len() {
        let (name, _standing) = listing.get(number)?;
        if !is_named(look, &name, room)? {
            return Some(false);
        }
    }
    Some(true)
}

/// Whether all objects of a text have their names.
fn are_named(alloc: Global, text: &[u8], state: RandomState) -> Option<bool> {
    let look = look_into(alloc, text)?;
    let listing = look.listing(alloc, state).ok()?;
    let mut room = Vec::new(alloc);
    is_each_named(&look, &listing, &mut room)
}

/// What comes of a text that is collected.
fn came_of(alloc: Global, text: &[u8], state: RandomState) -> Came {
    let mut sink = Growing::new(alloc);
    let answer = collected(alloc, text, &mut sink, state);
    let left = sink.into_bytes();
    match answer {
        Ok(()) if are_named(alloc, left.as_slice(), state) == Some(true) => Came::Named,
        Err(KeptFault::Damaged) => Came::Damaged,
        _ => Came::Otherwise,
    }
}

/// Puts a byte at a place, if the text has one there.
fn put(text: &mut Vec<u8>, place: usize, byte: u8) {
    if let Some(held) = text.get_mut(place) {
        *held = byte;
    }
}

/// Whether some change of one byte is told as damage, and whether something goes out after another, where whatever goes out has its
/// names.
fn turned(alloc: Global, text: &mut Vec<u8>, state: RandomState) -> Option<(bool, bool)> {
    let mut told = false;
    let mut went = false;
    for place in 0..text.len() {
        let held = *text.get(place)?;
        put(text, place, held ^ 1);
        match came_of(alloc, text.as_slice(), state) {
            Came::Named => went = true,
            Came::Damaged => told = true,
            Came::Otherwise => return None,
        }
        put(text, place, held);
    }
    Some((told, went))
}

/// The same of a random store's text.
fn turned_of_random(alloc: Global, seed: u64, state: RandomState) -> Option<(bool, bool)> {
    let mut dice = Dice { state: seed };
    let mut grown = Grown::new(alloc, state);
    match random_text(alloc, &mut grown, &mut dice, 2, state) {
        Some(mut text) => turned(alloc, &mut text, state),
        None => None,
    }
}

#[test]
fn what_goes_out_of_a_damaged_store_has_its_names(rt: HostRuntime) {
    let Ok(state) = RandomState::new(&rt) else {
        return assert!(rt; false);
    };
    assert!(rt; turned_of_random(rt.alloc(), 5, state) == Some((true, true)));
}
