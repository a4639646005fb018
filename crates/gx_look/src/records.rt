//! A record in a growing text: the line of its kind, length and name, and the body behind it. Source: this project's own
//! format.

ghost use Rattle.std.specs.Prelude.{◌≡◌, ◌<◌, ◌≤◌, ◌^◌, length, IfOk};
ghost use Rattle.std.specs.Map.{lookup};
ghost use Rattle.std.specs.Option.{option_map};
ghost use Rattle.gx_model.specs.declared.store_versions.Version.TheVariants.{Two};
ghost use Rattle.gx_model.specs.Texts.{same_bytes};
ghost use Rattle.gx_model.specs.Stores.StoreReading.{kind_words, record_line};
ghost use Rattle.gx_look.specs.Records.{HasName, IsRoomOf, ReadsHeading, TellsRecord, shown_heading};

use crate::fill::{read_on, refill};
use gx_at::ReadAt;
use gx_lines::read_number;
use gx_object::{Kind, Name, Namer};
use gx_objects::LookFault;
use gx_text::cut;
use std::alloc::Allocator;

/// How many bytes are read together: most records stand in so many.
const BLOCK: u64 = 4096;

/// A kind, and where its body stands in a room.
#[derive(Clone, Copy)]
pub(crate) struct Standing {
    pub(crate) kind: Kind,
    pub(crate) start: usize,
    pub(crate) end: usize,
}

/// What the line of a record says.
#[derive(Clone, Copy)]
pub(crate) struct Heading {
    pub(crate) kind: Kind,
    pub(crate) length: u64,
    pub(crate) name: Name,
}

/// The record of this name at a place: its body stands in the room. `Damaged` where there stands none, before an end.
pub(crate) fn read_record<S: ReadAt, N: Namer, A: Allocator + Copy>(
    source: &S,
    namer: &N,
    ends: u64,
    place: u64,
    name: &Name,
    room: &mut Vec<u8, A>,
) -> Result<Standing, LookFault>
    ensures within { IfOk result (IsRoomOf room.new.items) }
    ensures named { IfOk result (HasName (N.name_of namer.now) name.now.bytes room.new.items) }
    ensures record { TellsRecord (N.name_of namer.now) (S.text source.now) ends place
        name.now.bytes room.new.items result }
{
    let Some(left) = ends.checked_sub(place) else {
        return Err(LookFault::Damaged);
    };
    refill(source, place, left.min(BLOCK) as usize, room)?;
    let (heading, start) = read_heading(room.as_slice())?;
    if heading.name != *name {
        return Err(LookFault::Damaged);
    }
    if heading.length > left - start as u64 {
        return Err(LookFault::Damaged);
    }
    let end = start + heading.length as usize;
    if end > room.len() {
        read_on(source, place, end, room)?;
    }
    if namer.name(heading.kind, &room.as_slice()[start..end]) != *name {
        return Err(LookFault::Damaged);
    }
    Ok(Standing {
        kind: heading.kind,
        start,
        end,
    })
}

/// What the first line of a record says, and where its body begins.
pub(crate) fn read_heading(text: &[u8]) -> Result<(Heading, usize), LookFault>
    ensures within { IfOk result (λ p. p.1 ≤ length text.now) }
    ensures heading { ReadsHeading text.now result }
{
    let Some((line, rest)) = cut(text, b'\n') else {
        return Err(LookFault::Damaged);
    };
    let Some(heading) = heading_of(line) else {
        return Err(LookFault::Damaged);
    };
    Ok((heading, text.len() - rest.len()))
}

/// A kind, a length and a name.
fn heading_of(line: &[u8]) -> Option<Heading>
    ensures { option_map shown_heading result ≡ record_line Two line.now }
{
    let (word, field) = cut(line, b' ')?;
    let kind = kind_named(word)?;
    let (length, digits) = cut(field, b' ')?;
    let length = read_number(length)?;
    let name = Name::read_lower(digits)?;
    Some(Heading { kind, length, name })
}

/// The kind of this word.
fn kind_named(word: &[u8]) -> Option<Kind>
    ensures { result ≡ lookup (same_bytes word.now) kind_words }
{
    if word == b"blob".as_slice() {
        Some(Kind::Blob)
    } else if word == b"tree".as_slice() {
        Some(Kind::Tree)
    } else if word == b"commit".as_slice() {
        Some(Kind::Commit)
    } else if word == b"tag".as_slice() {
        Some(Kind::Tag)
    } else {
        None
    }
}
