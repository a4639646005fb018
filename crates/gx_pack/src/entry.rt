//! The entries of packs. Source: gitformat-pack(5).

ghost use Rattle.std.specs.Prelude.{◌≡◌, ◌≤◌, length};
ghost use Rattle.gx_pack.specs.Packs.{entry_head, entry_text, type_of};
ghost use Rattle.gx_pack.specs.Writing.{Writes};

use crate::output::Output;
use crate::stored::write_stored;
use gx_model::Kind;
use gx_text::{Failed, Sink};

/// Writes the entry of an object of this kind and body.
#[tactic(auto, unfolding(crate::specs::Packs::entry_text))]
pub(crate) fn write_entry<W: Sink>(
    output: &mut Output<'_, W>,
    kind: Kind,
    body: &[u8],
) -> Result<(), Failed>
    ensures { Writes output.old output.new (entry_text (kind, body.now)) result }
{
    write_head(output, kind, body.len())?;
    write_stored(output, body)
}

/// Writes the type and the length of an entry, seven bits of the length a byte behind the first.
fn write_head<W: Sink>(output: &mut Output<'_, W>, kind: Kind, size: usize) -> Result<(), Failed>
    ensures { Writes output.old output.new (entry_head kind size) result }
{
    let mut byte = 16 * type_of(kind) + (size % 16) as u8;
    let mut left = size / 16;
    while left > 0 {
        output.write(&[128 + byte])?;
        byte = (left % 128) as u8;
        left /= 128;
    }
    output.write(&[byte])
}

/// The type of an entry of an object of this kind.
fn type_of(kind: Kind) -> u8
    ensures type_of { result ≡ type_of kind }
    ensures bound { result ≤ 4 }
{
    match kind {
        Kind::Commit => 1,
        Kind::Tree => 2,
        Kind::Blob => 3,
        Kind::Tag => 4,
    }
}
