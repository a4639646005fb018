//! The slot that a growing text's head picks. Source: this project's own format.

ghost use Rattle.std.specs.Prelude.{◌≡◌, length, IfErr, IfOk};
ghost use Rattle.gx_growing.specs.GrowingText.{picks_first};
ghost use Rattle.gx_look.specs.Heads.{TellsSlot, PicksSlot, slot_part};

use crate::fill::fill;
use gx_at::ReadAt;
use gx_growing_parts::{HEAD, Slot, read_slot};
use gx_objects::LookFault;

/// The first line of a growing text.
const MAGIC: [u8; 10] = *b"gxstore 3\n";

/// The slot that is picked, and whether it is the first.
#[derive(Clone, Copy)]
pub(crate) struct Picked {
    pub(crate) is_first: bool,
    pub(crate) slot: Slot,
}

/// The slot that is picked. `Damaged` where the text hasn't the first line of a growing one, ends in the head, or that slot isn't
/// as written. The other slot isn't looked at, nor are the line feeds behind the slots and the byte that picks.
pub(crate) fn read_head<S: ReadAt>(source: &S) -> Result<Picked, LookFault>
    ensures { TellsSlot (S.text source.now) result }
{
    let mut head = [0; HEAD];
    fill(source, 0, &mut head)?;
    match slot_of_head(&head) {
        Some(picked) => Ok(picked),
        None => Err(LookFault::Damaged),
    }
}

/// The slot that a head picks.
fn slot_of_head(head: &[u8]) -> Option<Picked>
    requires { length head.now ≡ 226 }
    ensures { PicksSlot head.now result }
{
    if !head.starts_with(&MAGIC) {
        return None;
    }
    let is_first = picks_first(&head[10..11]);
    let slot = read_slot(slot_text(head, is_first))?;
    Some(Picked { is_first, slot })
}

/// The text of a head's first slot, or of its second.
fn slot_text(head: &[u8], is_first: bool) -> &[u8]
    requires { length head.now ≡ 226 }
    ensures { result.now ≡ slot_part head.now is_first }
{
    if is_first {
        &head[12..118]
    } else {
        &head[119..225]
    }
}

/// Whether this byte picks the first slot.
fn picks_first(pick: &[u8]) -> bool
    ensures { result ≡ picks_first pick.now }
{
    pick == b"a".as_slice()
}
