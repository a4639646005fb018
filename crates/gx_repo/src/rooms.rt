//! How much room the paths below each held tree take, so that the limit of a path is checked by one look at each entry.
ghost use Rattle.std.specs.Prelude.{◌≡◌, ◌≢◌, ◌<◌, length, take, OnOk, OnErr};
ghost use Rattle.gx_model.specs.declared.objects.Kind.TheVariants as kinds;
ghost use Rattle.gx_model.specs.declared.objects.Mode.TheVariants as modes;
ghost use Rattle.gx_model.specs.Records.Sound.{IsHeldAs, IsLinked, IsTree};
ghost use Rattle.gx_repo.specs.Places.{IsPlace};
ghost use Rattle.gx_repo.specs.Rooms.{IsFront, IsRoomBehind, entered, room_at, room_below, rooms_of};
ghost use Rattle.gx_object.specs.Entries.{shown};
ghost use Rattle.gx_repo.specs.Repositories.{IsSoundStore};

use gx_object::{Entry, Kind, Mode, Name, Namer, decode_tree};
use gx_store::Store;
use std::alloc::{AllocError, Allocator};

/// Enters the rooms of the records behind those that have theirs.
///
/// Cost: an entry of a new tree is looked at once, with a look-up for each directory.
pub(crate) fn enter_rooms<N: Namer, A: Allocator + Copy>(
    store: &Store<N, A>,
    rooms: &mut Vec<usize, A>,
) -> Result<(), AllocError>
    requires sound { IsSoundStore N.name_of store.now }
    requires front { rooms.now.items ≡ take (length rooms.now.items) (rooms_of store.now.1) }
    ensures ok { OnOk result (rooms.new.items ≡ rooms_of store.now.1) }
    ensures err { OnErr result (take (length rooms.old.items) rooms.new.items ≡ rooms.old.items) }
{
    while let Some((_, kind, body)) = store.record(rooms.len()) {
        let room = room_of(store, rooms.as_slice(), kind, body);
        rooms.push(room)?;
    }
    Ok(())
}

/// Enters the room of the record that was added behind those that were held, where one was and all of these have theirs.
pub(crate) fn enter_room<N: Namer, A: Allocator + Copy>(
    store: &Store<N, A>,
    rooms: &mut Vec<usize, A>,
    held: usize,
    room: usize,
) -> Result<(), AllocError>
    requires front { IsFront rooms.old.items (take held store.now.1) }
    requires room { IsRoomBehind store.now.1 held room }
    ensures ok { OnOk result (IsFront rooms.new.items store.now.1) }
    ensures err { OnErr result (rooms.new.items ≡ rooms.old.items) }
    ensures grown { OnErr result (length store.now.1 ≢ held) }
{
    if store.len() == held {
        return Ok(());
    }
    if rooms.len() < held {
        return Ok(());
    }
    rooms.push(room)?;
    Ok(())
}

/// The room of what is below an object whose links stand among the first records, which have theirs.
fn room_of<N: Namer, A: Allocator + Copy>(
    store: &Store<N, A>,
    rooms: &[usize],
    kind: Kind,
    body: &[u8],
) -> usize
    requires sound { IsSoundStore N.name_of store.now }
    requires rooms { rooms.now ≡ rooms_of (entered rooms.now store.now.1) }
    requires linked { IsLinked (entered rooms.now store.now.1) kind body.now }
    ensures { result ≡ room_below (entered rooms.now store.now.1) kind body.now }
{
    match kind {
        Kind::Tree => room_of_tree(store, rooms, body),
        Kind::Blob | Kind::Commit | Kind::Tag => 0,
    }
}

/// The room of what is below a tree whose links stand among the first records.
fn room_of_tree<N: Namer, A: Allocator + Copy>(
    store: &Store<N, A>,
    rooms: &[usize],
    body: &[u8],
) -> usize
    requires sound { IsSoundStore N.name_of store.now }
    requires rooms { rooms.now ≡ rooms_of (entered rooms.now store.now.1) }
    requires linked { IsTree (entered rooms.now store.now.1) body.now }
    ensures { result ≡ room_below (entered rooms.now store.now.1) kinds.Tree body.now }
{
    let Ok(entries) = decode_tree(body) else {
        unreachable!();
    };
    let mut widest = 0;
    for entry in entries {
        widest = usize::max(widest, room_at(store, rooms, &entry));
    }
    widest
}

/// The room of what is at or below an entry whose link stands among the first records.
fn room_at<N: Namer, A: Allocator + Copy>(
    store: &Store<N, A>,
    rooms: &[usize],
    entry: &Entry<'_>,
) -> usize
    requires sound { IsSoundStore N.name_of store.now }
    requires rooms { rooms.now ≡ rooms_of (entered rooms.now store.now.1) }
    requires held { IsHeldAs (entered rooms.now store.now.1) entry.now.mode entry.now.name.bytes }
    ensures { result ≡ room_at (entered rooms.now store.now.1) (shown entry.now) }
{
    let own = 1 + entry.component.len();
    match entry.mode {
        Mode::Dir => own + rooms[directory_place(store, rooms, &entry.name)],
        Mode::File | Mode::Exec | Mode::Link | Mode::Gitlink => own,
    }
}

/// The place of a directory that stands among the first records.
fn directory_place<N: Namer, A: Allocator + Copy>(
    store: &Store<N, A>,
    rooms: &[usize],
    name: &Name,
) -> usize
    requires rooms { rooms.now ≡ rooms_of (entered rooms.now store.now.1) }
    requires held { IsHeldAs (entered rooms.now store.now.1) modes.Dir name.now.bytes }
    ensures within { result < length rooms.now }
    ensures place { IsPlace (entered rooms.now store.now.1) name.now.bytes result }
{
    match store.place(name) {
        Some(place) => place,
        None => unreachable!(),
    }
}
