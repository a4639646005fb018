//! The slot that leads to a segment.

ghost use Rattle.std.specs.Prelude.{◌≡◌, ◌+◌, ◌<◌, ◌^◌, ◌++◌, length, IfOk, IfSome, OnOk};
ghost use Rattle.gx_growing.specs.GrowingText.{long_number, slot_text};
ghost use Rattle.gx_growing_parts.specs.Shown.{shown_slot};
ghost use Rattle.gx_additions.specs.Parts.{slot_of};

use gx_growing_parts::{Slot, digest_digits, digest_of, zeros_before};
use itoa::Buffer;
use std::alloc::{AllocError, Allocator};

/// A segment, and the slot that leads to it.
#[derive(Drop)]
pub struct Addition<A: Allocator> {
    pub segment: Vec<u8, A>,
    pub slot: Vec<u8, A>,
}

/// A segment with the slot that leads to it behind a place. So many bytes stand before its tail.
pub(crate) fn with_slot<A: Allocator + Copy>(
    alloc: A,
    ends: u64,
    segment: Vec<u8, A>,
    front: usize,
) -> Result<Addition<A>, AllocError>
    ensures segment { IfOk result (λ made. made.segment.items ≡ segment.items) }
    ensures slot { IfOk result (λ made.
        made.slot.items ≡ slot_text (slot_of ends segment.items front)) }
    ensures short { IfOk result (λ made. ends + length made.segment.items < 2 ^ 63) }
{
    let Some(slot) = slot_behind(ends, segment.as_slice(), front) else {
        return Err(AllocError);
    };
    let slot = slot_bytes(alloc, &slot)?;
    Ok(Addition { segment, slot })
}

/// The slot that leads to a segment behind a place, if it ends below 2^63.
fn slot_behind(ends: u64, segment: &[u8], front: usize) -> Option<Slot>
    ensures slot { IfSome result (λ slot. shown_slot slot ≡ slot_of ends segment.now front) }
    ensures short { IfSome result (λ slot. ends + length segment.now < 2 ^ 63) }
{
    let tail = segment.get(front..)?;
    let begins = ends.checked_add(front as u64)?;
    let behind = begins.checked_add(tail.len() as u64)?;
    if behind >= 1 << 63 {
        return None;
    }
    Some(Slot {
        ends: behind,
        tail: begins,
        digest: digest_of(tail),
    })
}

/// The text of a slot.
fn slot_bytes<A: Allocator + Copy>(alloc: A, slot: &Slot) -> Result<Vec<u8, A>, AllocError>
    ensures { IfOk result (λ bytes. bytes.items ≡ slot_text (shown_slot slot.now)) }
{
    let mut bytes = Vec::new(alloc);
    put_long(&mut bytes, slot.ends)?;
    bytes.extend_from_slice(b" ")?;
    put_long(&mut bytes, slot.tail)?;
    bytes.extend_from_slice(b" ")?;
    bytes.extend_from_slice(digest_digits(&slot.digest).as_slice())?;
    Ok(bytes)
}

/// Puts a number of twenty digits behind some bytes.
fn put_long<A: Allocator>(bytes: &mut Vec<u8, A>, number: u64) -> Result<(), AllocError>
    ensures { OnOk result (bytes.new.items ≡ bytes.old.items ++ long_number number) }
{
    let mut digits = Buffer::new();
    let digits = digits.format(number).as_bytes();
    bytes.extend_from_slice(zeros_before(digits))?;
    bytes.extend_from_slice(digits)?;
    Ok(())
}
