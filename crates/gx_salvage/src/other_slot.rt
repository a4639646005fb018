//! A growing text by its slot that isn't picked.

ghost use Rattle.std.specs.Prelude.{◌≡◌, ◌≤◌, ◌∷◌, [], length, not, take, IfSome};
ghost use Rattle.gx_at.specs.Reads.{part};
ghost use Rattle.gx_model.specs.Texts.{Bytes};
ghost use Rattle.gx_growing.specs.GrowingText.{picks_first};
ghost use Rattle.gx_salvage.specs.OtherSlots.{IsOther, with_pick};

use gx_at::ReadAt;
use gx_text::Failed;
use std::marker::Model;

/// The byte of a growing text that picks a slot.
const PICK: u64 = 10;

/// A text of which the byte that picks a slot is another, and so the other slot is picked.
///
/// Where a segment was appended, that slot leads to the text before: its records are there, and its refs. Source: this
/// project's own format.
///
/// It is seen as the text that it shows.
#[derive(Drop)]
pub struct OtherSlot<S: ReadAt> {
    source: S,
    byte: u8,
}

impl<S: ReadAt> Model for OtherSlot<S> {
    ghost use Rattle.std.specs.Prelude.{Option, ⊤};
    ghost use Rattle.std.specs.Option.{option_map};
    ghost use Rattle.gx_model.specs.Texts.{Bytes};
    ghost use Rattle.gx_salvage.specs.OtherSlots.{with_pick};

    ghost Value = { Option Bytes };

    ghost view = { λ s. option_map (with_pick s.byte) (S.text s.source) };

    ghost invariant = { λ _. ⊤ };
}

impl<S: ReadAt> OtherSlot<S> {
    /// The text of a source with the other slot picked. None where a read fails, or the text has no such byte.
    ///
    /// Cost: one read. Takes no memory.
    pub fn new(source: S) -> Option<OtherSlot<S>>
    where
        S: Drop,
        ensures { IfSome result (λ other. IsOther (S.text source) other) }
    {
        let mut room = [0; 1];
        let Ok(count) = source.read_at(PICK, &mut room) else {
            return None;
        };
        if count == 0 {
            return None;
        }
        let byte = other_pick(room[0]);
        Some(OtherSlot { source, byte })
    }
}

/// A byte that picks the slot that this one doesn't.
fn other_pick(byte: u8) -> u8
    ensures { picks_first (result ∷ []) ≡ not (picks_first (byte ∷ [])) }
{
    if byte == b'a' { b'b' } else { b'a' }
}

/// Puts the byte that picks a slot among so many bytes of a text that stand at a place, if its own place is there.
fn put_pick(byte: u8, at: u64, count: usize, room: &mut [u8])
    requires within { count ≤ length room.old }
    ensures same_room { length room.new ≡ length room.old }
    ensures picks { (text : Bytes) → take count room.old ≡ part text at count →
        take count room.new ≡ part (with_pick byte text) at count }
{
    if at > PICK {
        return;
    }
    let place = (PICK - at) as usize;
    if place >= count {
        return;
    }
    room[place] = byte;
}

impl<S: ReadAt> ReadAt for OtherSlot<S> {
    ghost text = { λ text. text };

    fn read_at(&self, at: u64, room: &mut [u8]) -> Result<usize, Failed> {
        let count = self.source.read_at(at, room)?;
        put_pick(self.byte, at, count, room);
        Ok(count)
    }
}
