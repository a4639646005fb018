//! A whole text of refs and objects.

ghost use Rattle.gx_offered.specs.Offers.{GivesOffer, Offers};

use crate::item::read_item;
use crate::offered::item_within;
use crate::source::read_all;
use crate::{OfferFault, Offered};
use gx_object::Namer;
use gx_store::Text;
use gx_text::Source;
use std::alloc::Allocator;

/// The items of all that a source gives, in their order.
///
/// `ReadFailed`: the source failed, or gave more than 2^63 - 1 bytes, whatever stands before that. `Item`: the first item that isn't
/// read. `OutOfMemory`: a growth was refused.
/// Cost: one pass over the bytes, each body hashed once. Memory: the text, a piece of 64 KiB, and an item each, whose bytes are
/// shared with the text; whatever lengths the text states.
/// Source: git-cat-file(1), "BATCH OUTPUT", and git-for-each-ref(1).
pub fn read_offer<N: Namer, R: Source + Drop, A: Allocator + Copy>(
    alloc: A,
    namer: &N,
    source: R,
) -> Result<Vec<Offered<A>, A>, OfferFault>
    ensures { GivesOffer (N.name_of namer.now) (R.coming source) result }
{
    let bytes = read_all(alloc, source)?;
    let text = Text::new(alloc, bytes)?;
    offer_in(alloc, namer, &text)
}

/// The items of a text, in their order. Their bytes are shared with it.
///
/// `Item`: the first item that isn't read. `OutOfMemory`: a growth was refused, behind an item that was read.
/// Cost: one pass over the text, each body hashed once. Memory: an item each.
/// Source: git-cat-file(1), "BATCH OUTPUT", and git-for-each-ref(1).
pub fn offer_in<N: Namer, A: Allocator + Copy>(
    alloc: A,
    namer: &N,
    text: &Text<A>,
) -> Result<Vec<Offered<A>, A>, OfferFault>
    ensures { Offers (N.name_of namer.now) text.now result }
{
    let mut items = Vec::new(alloc);
    let mut rest = text.as_slice();
    while !rest.is_empty() {
        let (found, after) = match read_item(namer, rest) {
            Ok(read) => read,
            Err(fault) => return Err(OfferFault::Item(items.len() + 1, fault)),
        };
        items.push(item_within(alloc, text, found, after)?)?;
        rest = after;
    }
    Ok(items)
}
