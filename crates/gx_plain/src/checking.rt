//! What is against a record, by what is known of those before it. Source: Pro Git, "Git Objects".

ghost use Rattle.gx_model.specs.declared.objects.Kind.TheVariants as kinds;
ghost use Rattle.gx_object.specs.Entries.{shown};
ghost use Rattle.gx_plain.specs.Held.{AreHeld, ChecksBody, FindsHeld, LooksAtEntry};

use gx_listed::Listing;
use gx_model::store_laws::bodies_are_read;
use gx_object::{BadObject, Entry, Kind, Mode, Name, TreeReader, decode_commit, decode_tag};
use std::alloc::Allocator;

/// The room of the longest path, of 4,095 bytes.
const MOST_ROOM: usize = 4096;

/// The room of what is below an object with nothing against its body: that is canonical, what it names is listed, and no path below
/// it is too long. `rooms` are those of what is listed.
///
/// Cost: the body's length, and a look-up for each link. Takes no memory.
pub(crate) fn checked_room<A: Allocator + Copy>(
    listing: &Listing<A>,
    rooms: &[usize],
    kind: Kind,
    body: &[u8],
) -> Option<usize>
    requires held { AreHeld listing.now rooms.now }
    ensures { ChecksBody listing.now rooms.now kind body.now result }
{
    match kind {
        Kind::Blob => Some(0),
        Kind::Tree => tree_room(listing, rooms, body),
        Kind::Commit => commit_room(listing, rooms, body),
        Kind::Tag => tag_room(listing, rooms, body),
    }
}

/// The room of what is below a tree.
fn tree_room<A: Allocator + Copy>(
    listing: &Listing<A>,
    rooms: &[usize],
    body: &[u8],
) -> Option<usize>
    requires held { AreHeld listing.now rooms.now }
    ensures { ChecksBody listing.now rooms.now kinds.Tree body.now result }
{
    bodies_are_read();
    let mut reader = TreeReader::new(body);
    let mut widest = 0;
    loop {
        match reader.read() {
            Ok(Some((entry, _text))) => {
                let room = entry_room(listing, rooms, &entry)?;
                widest = usize::max(widest, room);
            }
            Ok(None) => {
                if widest > MOST_ROOM {
                    return None;
                }
                return Some(widest);
            }
            Err(BadObject) => return None,
        }
    }
}

/// The room of what is at or below an entry. None where what it names isn't listed, or is a tree without entries.
fn entry_room<A: Allocator + Copy>(
    listing: &Listing<A>,
    rooms: &[usize],
    entry: &Entry<'_>,
) -> Option<usize>
    requires held { AreHeld listing.now rooms.now }
    ensures { LooksAtEntry listing.now rooms.now (shown entry.now) result }
{
    let own = 1 + entry.component.len();
    match entry.mode {
        Mode::Gitlink => Some(own),
        Mode::Dir => {
            let number = number_of(listing, Kind::Tree, &entry.name)?;
            let below = rooms[number];
            if below == 0 { None } else { Some(own + below) }
        }
        Mode::File | Mode::Exec | Mode::Link => {
            number_of(listing, Kind::Blob, &entry.name)?;
            Some(own)
        }
    }
}

/// A commit has no room; its tree and its parents are listed.
fn commit_room<A: Allocator + Copy>(
    listing: &Listing<A>,
    rooms: &[usize],
    body: &[u8],
) -> Option<usize>
    ensures { ChecksBody listing.now rooms.now kinds.Commit body.now result }
{
    bodies_are_read();
    let Ok(commit) = decode_commit(body) else {
        return None;
    };
    number_of(listing, Kind::Tree, &commit.tree())?;
    for place in 0..commit.parent_count() {
        let Some(parent) = commit.parent(place) else {
            unreachable!();
        };
        number_of(listing, Kind::Commit, &parent)?;
    }
    Some(0)
}

/// A tag has no room; its commit is listed.
fn tag_room<A: Allocator + Copy>(
    listing: &Listing<A>,
    rooms: &[usize],
    body: &[u8],
) -> Option<usize>
    ensures { ChecksBody listing.now rooms.now kinds.Tag body.now result }
{
    bodies_are_read();
    let Ok(tag) = decode_tag(body) else {
        return None;
    };
    number_of(listing, Kind::Commit, &tag.object())?;
    Some(0)
}

/// The number of the object of this kind and name.
fn number_of<A: Allocator + Copy>(listing: &Listing<A>, kind: Kind, name: &Name) -> Option<usize>
    ensures { FindsHeld listing.now kind name.now.bytes result }
{
    let number = listing.number(name)?;
    let one = listing.get(number)?;
    if one.1.kind == kind {
        Some(number)
    } else {
        None
    }
}
