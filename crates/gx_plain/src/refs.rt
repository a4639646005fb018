//! The refs behind the records of a plain text. Source: this project's own format, and git-check-ref-format(1).

ghost use Rattle.std.specs.Prelude.{IfOk};
ghost use Rattle.gx_plain.specs.Refs.{HoldsLines, ReadsTail, TellsTag, TellsTarget, TestsTargets};

use crate::fill::read_front;
use crate::records::read_named;
use gx_at::ReadAt;
use gx_file::{is_after, read_ref};
use gx_lines::read_count;
use gx_listed::Listing;
use gx_look::are_refs;
use gx_model::Version;
use gx_object::{Kind, Name, Namer};
use gx_objects::LookFault;
use gx_repo::{RefChange, is_target};
use std::alloc::Allocator;

/// What stands behind the records of a text, and where the lines of its refs begin in it.
#[derive(Drop)]
pub(crate) struct Tail<A: Allocator> {
    pub(crate) text: Vec<u8, A>,
    pub(crate) refs: usize,
}

/// Reads what stands behind the records of a text, which end at a place and are listed. `Damaged` where it isn't as it has to be.
///
/// Cost: the refs; the object of each is looked up, and read again where it is a tag. Memory: at most twice what is left of the text,
/// and such a tag.
pub(crate) fn read_tail<S: ReadAt, N: Namer, A: Allocator + Copy>(
    alloc: A,
    source: &S,
    namer: &N,
    version: Version,
    listing: &Listing<A>,
    place: u64,
) -> Result<Tail<A>, LookFault>
    ensures lines { IfOk result HoldsLines }
    ensures tail { ReadsTail (N.name_of namer.now) version (S.text source.now)
        listing.now place result }
{
    let left = u64::MAX - place;
    let mut text = Vec::new(alloc);
    read_front(source, place, left as usize, &mut text)?;
    if text.len() as u64 == left {
        return Err(LookFault::ReadFailed);
    }
    let Ok((count, lines)) = read_count(b"refs", text.as_slice()) else {
        return Err(LookFault::Damaged);
    };
    if !are_refs(count, lines) {
        return Err(LookFault::Damaged);
    }
    let refs = text.len() - lines.len();
    test_targets(alloc, source, namer, version, listing, count, lines)?;
    Ok(Tail { text, refs })
}

/// Passes so many refs and the last line, where the refs stand in order, and each may hold its object. `Damaged` where they don't.
fn test_targets<S: ReadAt, N: Namer, A: Allocator + Copy>(
    alloc: A,
    source: &S,
    namer: &N,
    version: Version,
    listing: &Listing<A>,
    count: u64,
    lines: &[u8],
) -> Result<(), LookFault>
    ensures { TestsTargets (N.name_of namer.now) version (S.text source.now) listing.now
        count lines.now result }
{
    let mut room = Vec::new(alloc);
    let mut rest = lines;
    let mut last: Option<&[u8]> = None;
    for _ in 0..count {
        let Ok((change, behind)) = read_ref(rest) else {
            return Err(LookFault::Damaged);
        };
        if !may_hold(source, namer, version, listing, &change, &mut room)? {
            return Err(LookFault::Damaged);
        }
        if !is_after(last, change.name) {
            return Err(LookFault::Damaged);
        }
        last = Some(change.name);
        rest = behind;
    }
    if rest == b"end\n".as_slice() {
        Ok(())
    } else {
        Err(LookFault::Damaged)
    }
}

/// Whether a ref may hold its object: a commit, or a tag whose own name makes the ref's.
fn may_hold<S: ReadAt, N: Namer, A: Allocator + Copy>(
    source: &S,
    namer: &N,
    version: Version,
    listing: &Listing<A>,
    change: &RefChange<'_>,
    room: &mut Vec<u8, A>,
) -> Result<bool, LookFault>
    ensures { TellsTarget (N.name_of namer.now) version (S.text source.now) listing.now
        change.now result }
{
    let Some(number) = listing.number(&change.target) else {
        return Ok(false);
    };
    let Some((_name, standing)) = listing.get(number) else {
        return Ok(false);
    };
    match standing.kind {
        Kind::Blob | Kind::Tree => Ok(false),
        Kind::Commit => Ok(true),
        Kind::Tag => is_named_by(
            source,
            namer,
            version,
            standing.place,
            &change.target,
            change.name,
            room,
        ),
    }
}

/// Whether a ref's name is made by the own name of the tag of this name at a place. `Damaged` where there stands none.
fn is_named_by<S: ReadAt, N: Namer, A: Allocator + Copy>(
    source: &S,
    namer: &N,
    version: Version,
    place: u64,
    name: &Name,
    ref_name: &[u8],
    room: &mut Vec<u8, A>,
) -> Result<bool, LookFault>
    ensures { TellsTag (N.name_of namer.now) version (S.text source.now) place
        name.now.bytes ref_name.now result }
{
    let found = read_named(source, namer, version, place, name, room)?;
    let body = &room.as_slice()[found.start..found.end];
    Ok(is_target(ref_name, Kind::Tag, body))
}
