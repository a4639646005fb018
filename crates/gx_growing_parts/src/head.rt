//! The head of a growing text: what it is, and where it ends. Source: this project's own format.
ghost use Rattle.std.specs.Prelude.{◌≡◌};
ghost use Rattle.std.specs.Option.{option_map};
ghost use Rattle.gx_model.specs.Faults.{NeedsNoMemory};
ghost use Rattle.gx_lines.specs.Reads.{Reads};
ghost use Rattle.gx_growing.specs.GrowingReading.{after_third, head_of, long_number_in, slot_in, slots_of};
ghost use Rattle.gx_growing.specs.GrowingText.{picked};
ghost use Rattle.gx_growing_parts.specs.Shown.{shown_head, shown_slot};

use crate::digests::read_digest;
use gx_lines::{FileFault, after_word, read_body, read_line};
use gx_text::{cut, decimal};

/// How many bytes stand in front of the first segment.
pub const HEAD: usize = 226;

/// Where a growing text ends, where its last tail begins, and the digest of that tail.
#[derive(Clone, Copy, Debug)]
pub struct Slot {
    pub ends: u64,
    pub tail: u64,
    pub digest: [u8; 32],
}

/// The slot that is picked, and what follows the head.
///
/// `Truncated`: the head isn't whole, or the slot says that the text ends where it has no bytes any more. `BadMagic`,
/// `BadVersion`: the first line isn't that of a growing text. `BadRecord`: the rest of the head isn't as written. What the slot
/// that isn't picked holds isn't looked at.
/// Cost: constant, and the first line. Takes no memory. Source: this project's own format.
pub fn read_head(text: &[u8]) -> Result<(Slot, &[u8]), FileFault>
    ensures head { Reads shown_head result (head_of text.now) }
    ensures memory { NeedsNoMemory FileFault.OutOfMemory result }
{
    let rest = read_third(text)?;
    let (slot, rest) = read_slots(rest)?;
    if slot.ends > text.len() as u64 {
        return Err(FileFault::Truncated);
    }
    Ok((slot, rest))
}

/// What follows the first line, which says that the text grows.
fn read_third(text: &[u8]) -> Result<&[u8], FileFault>
    ensures rest { Reads (λ rest. rest.now) result (after_third text.now) }
    ensures memory { NeedsNoMemory FileFault.OutOfMemory result }
{
    let (line, rest) = read_line(text)?;
    let Some(word) = after_word(b"gxstore", line) else {
        return Err(FileFault::BadMagic);
    };
    if word != b"3".as_slice() {
        return Err(FileFault::BadVersion);
    }
    Ok(rest)
}

/// The slot that is picked, and what follows the second one: an `a` picks the first, and any other byte the second.
fn read_slots(text: &[u8]) -> Result<(Slot, &[u8]), FileFault>
    ensures slots { Reads shown_head result (slots_of text.now) }
    ensures memory { NeedsNoMemory FileFault.OutOfMemory result }
{
    if text.len() < 216 {
        return Err(FileFault::Truncated);
    }
    let (pick, rest) = read_body(1, text)?;
    let (first, rest) = read_body(106, rest)?;
    let (second, rest) = read_body(106, rest)?;
    let Some(slot) = read_slot(picked(pick, first, second)) else {
        return Err(FileFault::BadRecord);
    };
    Ok((slot, rest))
}

/// The first of two slots, which an `a` picks, and otherwise the second.
fn picked<'a>(pick: &[u8], first: &'a [u8], second: &'a [u8]) -> &'a [u8]
    ensures { result.now ≡ picked pick.now first.now second.now }
{
    if pick == b"a".as_slice() {
        first
    } else {
        second
    }
}

/// What the text of a slot says. Cost: constant. Takes no memory. Source: this project's own format.
pub fn read_slot(text: &[u8]) -> Option<Slot>
    ensures { option_map shown_slot result ≡ slot_in text.now }
{
    let (ends, rest) = cut(text, b' ')?;
    let ends = long_number(ends)?;
    let (tail, digits) = cut(rest, b' ')?;
    let tail = long_number(tail)?;
    let digest = read_digest(digits)?;
    Some(Slot { ends, tail, digest })
}

/// A number of twenty digits.
fn long_number(text: &[u8]) -> Option<u64>
    ensures { result ≡ long_number_in text.now }
{
    if text.len() != 20 {
        return None;
    }
    decimal(text)
}
