//! What a record of which nothing is known has against it. Source: Pro Git, "Git Objects".
ghost use Rattle.std.specs.Prelude.{◌≡◌, slice_get, true, false, Some, None, IsTrue, IfOk, IfErr, OnOk, OnErr};
ghost use Rattle.gx_model.specs.declared.objects.Kind.TheVariants as kinds;
ghost use Rattle.gx_model.specs.Records.RecordFaults.{content_fault, is_entry_held, is_held, is_of_kind};
ghost use Rattle.gx_object.specs.Entries.{shown};
ghost use Rattle.gx_store.specs.Stores.{place_named};
ghost use Rattle.gx_repo.specs.declared.fault.AddFault.TheVariants.{Dangling, OutOfMemory};
ghost use Rattle.gx_repo.specs.Checking.{IsAgainst, MayRefuse, entry_room, fault_behind, wider};
ghost use Rattle.gx_repo.specs.Records.{IsLinkedTree};
ghost use Rattle.gx_repo.specs.Rooms.{IsFront, room_below, rooms_of};
ghost use Rattle.gx_repo.specs.Earlier.{IsThere};
ghost use Rattle.gx_repo.specs.Repositories.{IsSoundStore};

use crate::earlier::Hints;
use crate::fault::AddFault;
use crate::rooms::enter_rooms;
use gx_model::store_laws::bodies_are_read;
use gx_object::{
    BadObject, Entry, Kind, Mode, Name, Namer, TreeReader, decode_commit, decode_tag, decode_tree,
};
use gx_store::Store;
use std::alloc::Allocator;

/// The room of the longest path, of 4,095 bytes.
const MOST_ROOM: usize = 4096;

/// The room of what is below an object, or what its body has against it.
///
/// Cost: the body's length, and a look-up for each link, but for those of files that stand in the tree to which the hints
/// lead; each entry is looked at once, and once more where rooms of records are missing. Takes memory for these alone.
pub(crate) fn checked_room<N: Namer, A: Allocator + Copy>(
    store: &Store<N, A>,
    rooms: &mut Vec<usize, A>,
    hints: &Hints<A>,
    kind: Kind,
    body: &[u8],
) -> Result<usize, AddFault>
    requires sound { IsSoundStore N.name_of store.now }
    requires front { IsFront rooms.old.items store.now.1 }
    ensures front { IsFront rooms.new.items store.now.1 }
    ensures ok { IfOk result (λ _. content_fault store.now.1 kind body.now ≡ None) }
    ensures room { IfOk result (λ room. room ≡ room_below store.now.1 kind body.now) }
    ensures fault { IfErr result (MayRefuse store.now.1 kind body.now) }
{
    match kind {
        Kind::Blob => Ok(0),
        Kind::Tree => entered_room(store, rooms, hints, body),
        Kind::Commit => check_commit(store, body),
        Kind::Tag => check_tag(store, body),
    }
}

/// Does what `tree_room` does, once the rooms of all records are entered. Before these grow, the body and its links are
/// looked at. Where the growth is refused, rooms are left as they were.
fn entered_room<N: Namer, A: Allocator + Copy>(
    store: &Store<N, A>,
    rooms: &mut Vec<usize, A>,
    hints: &Hints<A>,
    body: &[u8],
) -> Result<usize, AddFault>
    requires sound { IsSoundStore N.name_of store.now }
    requires front { IsFront rooms.old.items store.now.1 }
    ensures front { IsFront rooms.new.items store.now.1 }
    ensures ok { IfOk result (λ _. content_fault store.now.1 kinds.Tree body.now ≡ None) }
    ensures room { IfOk result (λ room. room ≡ room_below store.now.1 kinds.Tree body.now) }
    ensures fault { IfErr result (MayRefuse store.now.1 kinds.Tree body.now) }
{
    if rooms.len() < store.len() {
        check_links(store, body)?;
        enter_all(store, rooms)?;
    }
    tree_room(store, rooms.as_slice(), hints, body)
}

/// Enters the rooms of all records. Where a growth is refused, rooms are left as they were.
fn enter_all<N: Namer, A: Allocator + Copy>(
    store: &Store<N, A>,
    rooms: &mut Vec<usize, A>,
) -> Result<(), AddFault>
    requires sound { IsSoundStore N.name_of store.now }
    requires front { IsFront rooms.old.items store.now.1 }
    ensures ok { OnOk result (rooms.new.items ≡ rooms_of store.now.1) }
    ensures err { OnErr result (rooms.new.items ≡ rooms.old.items) }
    ensures fault { IfErr result (λ fault. fault ≡ OutOfMemory) }
{
    let entered = rooms.len();
    let Ok(()) = enter_rooms(store, rooms) else {
        rooms.truncate(entered);
        return Err(AddFault::OutOfMemory);
    };
    Ok(())
}

/// What is against a tree's body or its links. Takes no memory.
fn check_links<N: Namer, A: Allocator + Copy>(
    store: &Store<N, A>,
    body: &[u8],
) -> Result<(), AddFault>
    ensures ok { OnOk result (IsLinkedTree store.now.1 kinds.Tree body.now) }
    ensures fault { IfErr result (IsAgainst store.now.1 kinds.Tree body.now) }
{
    bodies_are_read();
    let Ok(entries) = decode_tree(body) else {
        return Err(AddFault::BadObject);
    };
    for entry in entries {
        if !is_entry_held(store, &entry) {
            return Err(AddFault::Dangling);
        }
    }
    Ok(())
}

/// Whether what an entry names is held. A gitlink is no link.
fn is_entry_held<N: Namer, A: Allocator + Copy>(store: &Store<N, A>, entry: &Entry<'_>) -> bool
    ensures { result ≡ is_entry_held store.now.1 (shown entry.now).mode (shown entry.now).name }
{
    match entry.mode {
        Mode::Gitlink => true,
        Mode::Dir => is_held(store, Kind::Tree, &entry.name),
        Mode::File | Mode::Exec | Mode::Link => is_held(store, Kind::Blob, &entry.name),
    }
}

/// Whether an object of this kind and name is held.
fn is_held<N: Namer, A: Allocator + Copy>(store: &Store<N, A>, kind: Kind, name: &Name) -> bool
    ensures { result ≡ is_held store.now.1 kind name.now.bytes }
{
    place_of(store, kind, name).is_ok()
}

/// The room of what is below a tree. A link that isn't held is answered before what is below the tree.
fn tree_room<N: Namer, A: Allocator + Copy>(
    store: &Store<N, A>,
    rooms: &[usize],
    hints: &Hints<A>,
    body: &[u8],
) -> Result<usize, AddFault>
    requires sound { IsSoundStore N.name_of store.now }
    requires rooms { rooms.now ≡ rooms_of store.now.1 }
    ensures ok { IfOk result (λ _. content_fault store.now.1 kinds.Tree body.now ≡ None) }
    ensures room { IfOk result (λ room. room ≡ room_below store.now.1 kinds.Tree body.now) }
    ensures fault { IfErr result (IsAgainst store.now.1 kinds.Tree body.now) }
{
    bodies_are_read();
    let mut reader = TreeReader::new(body);
    let mut earlier = hints.earlier(store, body);
    let mut widest = Some(0);
    while let Some((entry, text)) = reader.read()? {
        let is_known = earlier.takes(&entry, text);
        let Ok(room) = entry_room(store, rooms, is_known, &entry) else {
            return Err(fault_behind(&mut reader));
        };
        widest = wider(widest, room);
    }
    let Some(room) = widest else {
        return Err(AddFault::BadObject);
    };
    if room > MOST_ROOM {
        return Err(AddFault::BadObject);
    }
    Ok(room)
}

/// What is against a tree of which a link isn't held: that, unless the rest of its body isn't canonical.
fn fault_behind(reader: &mut TreeReader<'_>) -> AddFault
    ensures { result ≡ fault_behind reader.old.entries }
{
    loop {
        match reader.read() {
            Ok(Some(_)) => {}
            Ok(None) => return AddFault::Dangling,
            Err(BadObject) => return AddFault::BadObject,
        }
    }
}

/// The greater of two rooms; none where one is missing.
fn wider(room: Option<usize>, other: Option<usize>) -> Option<usize>
    ensures { result ≡ wider room other }
{
    Some(usize::max(room?, other?))
}

/// The room of what is at or below an entry, or none where it names a tree without entries. A file that is known to be
/// held isn't looked up.
fn entry_room<N: Namer, A: Allocator + Copy>(
    store: &Store<N, A>,
    rooms: &[usize],
    is_known: bool,
    entry: &Entry<'_>,
) -> Result<Option<usize>, AddFault>
    requires sound { IsSoundStore N.name_of store.now }
    requires rooms { rooms.now ≡ rooms_of store.now.1 }
    requires known { IsTrue is_known → IsThere store.now.1 (shown entry.now) }
    ensures room { IfOk result (λ room. room ≡ entry_room store.now.1 (shown entry.now)) }
    ensures held { OnOk result (IsThere store.now.1 (shown entry.now)) }
    ensures fault { IfErr result (λ fault. fault ≡ Dangling) }
    ensures dangling { OnErr result
        (is_entry_held store.now.1 (shown entry.now).mode (shown entry.now).name ≡ false) }
{
    let own = 1 + entry.component.len();
    match entry.mode {
        Mode::Gitlink => Ok(Some(own)),
        Mode::Dir => {
            let place = place_of(store, Kind::Tree, &entry.name)?;
            let below = rooms[place];
            if below == 0 {
                Ok(None)
            } else {
                Ok(Some(own + below))
            }
        }
        Mode::File | Mode::Exec | Mode::Link => {
            if !is_known {
                place_of(store, Kind::Blob, &entry.name)?;
            }
            Ok(Some(own))
        }
    }
}

/// The place of the held object of this kind and name.
fn place_of<N: Namer, A: Allocator + Copy>(
    store: &Store<N, A>,
    kind: Kind,
    name: &Name,
) -> Result<usize, AddFault>
    ensures place { IfOk result (λ place. Some place ≡ place_named store.now.1 name.now.bytes) }
    ensures held { OnOk result (is_held store.now.1 kind name.now.bytes ≡ true) }
    ensures fault { IfErr result (λ fault. fault ≡ Dangling) }
    ensures dangling { OnErr result (is_held store.now.1 kind name.now.bytes ≡ false) }
{
    let Some(place) = store.place(name) else {
        return Err(AddFault::Dangling);
    };
    if is_of_kind(store, place, kind) {
        Ok(place)
    } else {
        Err(AddFault::Dangling)
    }
}

/// Whether the object at a place is of this kind.
fn is_of_kind<N: Namer, A: Allocator + Copy>(store: &Store<N, A>, place: usize, kind: Kind) -> bool
    ensures { result ≡ is_of_kind kind (slice_get store.now.1 place) }
{
    match store.record(place) {
        Some((_, held, _)) => held == kind,
        None => false,
    }
}

/// A commit has no room; its tree and its parents are held.
fn check_commit<N: Namer, A: Allocator + Copy>(
    store: &Store<N, A>,
    body: &[u8],
) -> Result<usize, AddFault>
    ensures ok { IfOk result (λ _. content_fault store.now.1 kinds.Commit body.now ≡ None) }
    ensures room { IfOk result (λ room. room ≡ 0) }
    ensures fault { IfErr result (IsAgainst store.now.1 kinds.Commit body.now) }
{
    bodies_are_read();
    let Ok(commit) = decode_commit(body) else {
        return Err(AddFault::BadObject);
    };
    place_of(store, Kind::Tree, &commit.tree())?;
    for place in 0..commit.parent_count() {
        let Some(parent) = commit.parent(place) else {
            unreachable!();
        };
        place_of(store, Kind::Commit, &parent)?;
    }
    Ok(0)
}

/// A tag has no room; its commit is held.
fn check_tag<N: Namer, A: Allocator + Copy>(
    store: &Store<N, A>,
    body: &[u8],
) -> Result<usize, AddFault>
    ensures ok { IfOk result (λ _. content_fault store.now.1 kinds.Tag body.now ≡ None) }
    ensures room { IfOk result (λ room. room ≡ 0) }
    ensures fault { IfErr result (IsAgainst store.now.1 kinds.Tag body.now) }
{
    bodies_are_read();
    let Ok(tag) = decode_tag(body) else {
        return Err(AddFault::BadObject);
    };
    place_of(store, Kind::Commit, &tag.object())?;
    Ok(0)
}
