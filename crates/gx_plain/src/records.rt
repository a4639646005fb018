//! A record in a plain text: its line, and the body behind it. Source: this project's own format.

ghost use Rattle.std.specs.Prelude.{IfOk};
ghost use Rattle.gx_plain.specs.Records.{HasName, IsRoomOf, ReadsParts, TellsRecord};

use crate::fill::{read_behind, read_front};
use crate::heading::heading_of;
use gx_at::ReadAt;
use gx_lines::{read_body, read_line};
use gx_model::Version;
use gx_object::{Kind, Name, Namer};
use gx_objects::LookFault;
use std::alloc::Allocator;

/// How many bytes are read together: most records stand in so many, and the line of each one.
const BLOCK: u64 = 4096;

/// A record that stands in a room: its kind, the name that its line states, and where its body stands.
#[derive(Clone, Copy)]
pub(crate) struct Found {
    pub(crate) kind: Kind,
    pub(crate) stated: Option<Name>,
    pub(crate) start: usize,
    pub(crate) end: usize,
}

/// Reads the record at a place into the room. `Damaged` where there stands none.
///
/// ReadFailed: a read failed, or the record ends behind 2^64 bytes. Cost: one read for a record of less than 4,096 bytes. Memory: the
/// room, of at most twice the record.
pub(crate) fn read_parts<S: ReadAt, A: Allocator + Copy>(
    source: &S,
    version: Version,
    at: u64,
    room: &mut Vec<u8, A>,
) -> Result<Found, LookFault>
    ensures within { IfOk result (IsRoomOf at room.new.items) }
    ensures parts { ReadsParts version (S.text source.now) at room.new.items result }
{
    let left = u64::MAX - at;
    if left <= BLOCK {
        return Err(LookFault::ReadFailed);
    }
    read_front(source, at, BLOCK as usize, room)?;
    let Ok((line, behind)) = read_line(room.as_slice()) else {
        return Err(LookFault::Damaged);
    };
    let Some(heading) = heading_of(version, line) else {
        return Err(LookFault::Damaged);
    };
    let start = room.len() - behind.len();
    if heading.length >= left - start as u64 - 1 {
        return Err(LookFault::ReadFailed);
    }
    let end = start + heading.length as usize;
    read_behind(source, at, end, room)?;
    let Ok((_body, _rest)) = read_body(heading.length, &room.as_slice()[start..]) else {
        return Err(LookFault::Damaged);
    };
    Ok(Found {
        kind: heading.kind,
        stated: heading.stated,
        start,
        end,
    })
}

/// Reads the record of a name at a place into the room, and hashes it. `Damaged` where there stands none.
pub(crate) fn read_named<S: ReadAt, N: Namer, A: Allocator + Copy>(
    source: &S,
    namer: &N,
    version: Version,
    at: u64,
    name: &Name,
    room: &mut Vec<u8, A>,
) -> Result<Found, LookFault>
    ensures within { IfOk result (IsRoomOf at room.new.items) }
    ensures named { IfOk result (HasName (N.name_of namer.now) name.now.bytes room.new.items) }
    ensures record { TellsRecord (N.name_of namer.now) version (S.text source.now) at
        name.now.bytes room.new.items result }
{
    let found = read_parts(source, version, at, room)?;
    if namer.name(found.kind, &room.as_slice()[found.start..found.end]) != *name {
        return Err(LookFault::Damaged);
    }
    Ok(found)
}
