//! All records of a plain text, listed as they are read from the front.

ghost use Rattle.std.specs.Prelude.{◌≡◌};
ghost use Rattle.gx_model.specs.Stores.StoreReading.{is_stated};
ghost use Rattle.gx_object.specs.Parts.{bytes_if};
ghost use Rattle.gx_plain.specs.Held.{AreHeld};
ghost use Rattle.gx_plain.specs.Listing.{AddsNext, ListsAllNext};

use crate::checking::checked_room;
use crate::records::read_parts;
use crate::start::Start;
use gx_at::ReadAt;
use gx_listed::{Listing, Standing};
use gx_model::Version;
use gx_object::{Name, Namer};
use gx_objects::LookFault;
use std::alloc::Allocator;
use std::hash::RandomState;

/// The objects of the records behind the front of a text, and where the last one ends. `Damaged` where one isn't as it has to be.
pub(crate) fn list_records<S: ReadAt, N: Namer, A: Allocator + Copy>(
    alloc: A,
    source: &S,
    namer: &N,
    start: &Start,
    state: RandomState,
) -> Result<(Listing<A>, u64), LookFault>
    ensures { ListsAllNext (N.name_of namer.now) (S.text source.now) start.now result }
{
    let mut listing = Listing::new(alloc, state);
    let mut rooms = Vec::new(alloc);
    let mut room = Vec::new(alloc);
    let mut place = start.place;
    for _ in 0..start.count {
        place = add_record(
            source,
            namer,
            start.version,
            place,
            &mut listing,
            &mut rooms,
            &mut room,
        )?;
    }
    Ok((listing, place))
}

/// Lists the object of the record at a place, with its room, and answers where the record ends. `Damaged` where there stands none, or
/// something is against it.
fn add_record<S: ReadAt, N: Namer, A: Allocator + Copy>(
    source: &S,
    namer: &N,
    version: Version,
    place: u64,
    listing: &mut Listing<A>,
    rooms: &mut Vec<usize, A>,
    room: &mut Vec<u8, A>,
) -> Result<u64, LookFault>
    requires held { AreHeld listing.old rooms.old.items }
    ensures { AddsNext (N.name_of namer.now) version (S.text source.now) place
        listing.old rooms.old.items listing.new rooms.new.items result }
{
    let found = read_parts(source, version, place, room)?;
    let body = &room.as_slice()[found.start..found.end];
    let name = namer.name(found.kind, body);
    if !is_stated(found.stated, &name) {
        return Err(LookFault::Damaged);
    }
    let Some(below) = checked_room(listing, rooms.as_slice(), found.kind, body) else {
        return Err(LookFault::Damaged);
    };
    let standing = Standing {
        place,
        kind: found.kind,
        length: body.len() as u64,
    };
    if !listing.push(name, standing)? {
        return Err(LookFault::Damaged);
    }
    rooms.push(below)?;
    Ok(place + found.end as u64 + 1)
}

/// Whether a name is the one that is stated, where one is.
fn is_stated(stated: Option<Name>, name: &Name) -> bool
    ensures { result ≡ is_stated (bytes_if stated) name.now.bytes }
{
    match stated {
        Some(stated) => stated == *name,
        None => true,
    }
}
