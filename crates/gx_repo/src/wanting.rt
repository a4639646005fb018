//! What is told of a tree where memory is wanting: what is found without the rooms of all records.
ghost use Rattle.std.specs.Prelude.{◌≡◌, ◌↔◌, ◌&&◌, IsTrue, true, false};
ghost use Rattle.gx_model.specs.declared.objects.Kind.TheVariants as kinds;
ghost use Rattle.gx_model.specs.Histories.{record_for};
ghost use Rattle.gx_model.specs.Objects.{is_dir};
ghost use Rattle.gx_model.specs.Records.Growth.{record_named};
ghost use Rattle.gx_model.specs.Records.RecordFaults.{has_empty_directory, is_body, is_without_entries};
ghost use Rattle.gx_object.specs.Entries.{shown};
ghost use Rattle.gx_repo.specs.Checking.{MayRefuse};
ghost use Rattle.gx_repo.specs.Records.{IsLinkedTree, IsRecordHeld, MayRefuseRecord};
ghost use Rattle.gx_repo.specs.Repositories.{IsSoundStore};

use crate::fault::AddFault;
use gx_model::store_laws::bodies_are_read;
use gx_object::{Entry, Kind, Mode, Name, Namer, held_tree};
use gx_store::Store;
use std::alloc::Allocator;

/// The fault that is told where a record is refused for this one: where memory is wanting, what is found without it.
///
/// Cost: that of `fault_without_rooms`. Takes no memory.
pub(crate) fn fault_without_memory<N: Namer, A: Allocator + Copy>(
    store: &Store<N, A>,
    kind: Kind,
    body: &[u8],
    fault: AddFault,
) -> AddFault
    requires sound { IsSoundStore N.name_of store.now }
    requires fault { MayRefuse store.now.1 kind body.now fault }
    ensures { MayRefuseRecord store.now.1
        (record_for (N.name_of store.now.0) kind body.now) result }
{
    match fault {
        AddFault::OutOfMemory => fault_without_rooms(store, kind, body),
        AddFault::BadObject => AddFault::BadObject,
        AddFault::Dangling => AddFault::Dangling,
        AddFault::DuplicateObject => AddFault::DuplicateObject,
    }
}

/// What is against a canonical tree whose links are held, as far as it is found without the rooms of all records: that an
/// entry names a tree without entries, or that the tree is held already. `OutOfMemory` where it is neither.
///
/// Cost: a look-up for each directory among the entries, and naming the body. Takes no memory.
pub(crate) fn fault_without_rooms<N: Namer, A: Allocator + Copy>(
    store: &Store<N, A>,
    kind: Kind,
    body: &[u8],
) -> AddFault
    requires sound { IsSoundStore N.name_of store.now }
    requires linked { IsLinkedTree store.now.1 kind body.now }
    ensures { MayRefuseRecord store.now.1
        (record_for (N.name_of store.now.0) kind body.now) result }
{
    if has_empty_directory(store, body) {
        return AddFault::BadObject;
    }
    if is_held(store, kind, body) {
        return AddFault::DuplicateObject;
    }
    AddFault::OutOfMemory
}

/// Whether an entry of a tree names a tree without entries.
fn has_empty_directory<N: Namer, A: Allocator + Copy>(store: &Store<N, A>, body: &[u8]) -> bool
    requires { is_body kinds.Tree body.now ≡ true }
    ensures { result ≡ has_empty_directory store.now.1 body.now }
{
    bodies_are_read();
    for entry in held_tree(body) {
        if is_empty_directory(store, &entry) {
            return true;
        }
    }
    false
}

/// Whether an entry names a tree without entries.
fn is_empty_directory<N: Namer, A: Allocator + Copy>(store: &Store<N, A>, entry: &Entry<'_>) -> bool
    ensures { result ≡ (is_dir (shown entry.now).mode && is_without_entries
        (record_named store.now.1 (shown entry.now).name)) }
{
    match entry.mode {
        Mode::Dir => is_without_entries(store, &entry.name),
        Mode::File | Mode::Exec | Mode::Link | Mode::Gitlink => false,
    }
}

/// Whether an object of this name is held that has no bytes.
fn is_without_entries<N: Namer, A: Allocator + Copy>(store: &Store<N, A>, name: &Name) -> bool
    ensures { result ≡ is_without_entries (record_named store.now.1 name.now.bytes) }
{
    match store.get(name) {
        Some((_, body)) => body.is_empty(),
        None => false,
    }
}

/// Whether an object of this kind with this body is held.
fn is_held<N: Namer, A: Allocator + Copy>(store: &Store<N, A>, kind: Kind, body: &[u8]) -> bool
    ensures held { IsTrue result
        → IsRecordHeld store.now.1 (record_for (N.name_of store.now.0) kind body.now) }
    ensures new { result ≡ false
        → IsRecordHeld store.now.1 (record_for (N.name_of store.now.0) kind body.now) → ⊥ }
{
    match store.get(&store.name(kind, body)) {
        Some((held, bytes)) => is_same(held, bytes, kind, body),
        None => false,
    }
}

/// Whether two objects are one.
fn is_same(held: Kind, bytes: &[u8], kind: Kind, body: &[u8]) -> bool
    ensures { IsTrue result ↔ (held ≡ kind) × (bytes.now ≡ body.now) }
{
    held == kind && bytes == body
}
