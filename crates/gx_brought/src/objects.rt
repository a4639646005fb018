//! The objects that an import over a small repository brings the whole one.

ghost use Rattle.std.specs.Prelude.{◌≡◌, ◌++◌, drop, true, IfOk, IfSome, OnOk, Err, None, Some};
ghost use Rattle.gx_brought.specs.Brought.{IsLookedFor, has_stand_in};
ghost use Rattle.gx_brought.specs.declared.fault.BroughtFault.TheVariants as faults;
ghost use Rattle.gx_model.specs.Records.Growth.{put, put_all};
ghost use Rattle.gx_store.specs.Stores.{record_under};

use crate::BroughtFault;
use gx_object::{Kind, Name, Namer};
use gx_objects::Objects;
use gx_repo::Repo;
use gx_store::{Store, StoreFault};
use std::alloc::Allocator;
use std::hash::RandomState;

/// The objects of a small repository, from the one at a place on, that the whole one doesn't hold.
///
/// OutOfMemory: a growth was refused. ReadFailed: a read failed. Damaged: what is asked is no repository's. NotTaken: one of
/// these objects has another's name. NameHeld: the whole repository holds another object under a name of theirs.
/// Cost and memory: a look-up for each, and its body. Source: Pro Git, "Git Objects".
pub fn new_objects<O: Objects, N: Namer + Copy, M: Namer, A: Allocator + Copy>(
    alloc: A,
    namer: N,
    objects: &O,
    small: &Repo<M, A>,
    held: usize,
    state: RandomState,
) -> Result<Store<N, A>, BroughtFault>
    ensures namer { IfOk result (λ new. new.0 ≡ namer) }
    ensures records { IfSome (O.told objects.now) (λ whole. IfOk result (λ new.
        put_all whole.records (drop held small.now.1.records) ≡ Some (whole.records ++ new.1))) }
    ensures held { IfSome (O.told objects.now) (λ whole. result ≡ Err faults.NameHeld →
        put_all whole.records (drop held small.now.1.records) ≡ None) }
    ensures taken { result ≡ Err faults.NotTaken →
        has_stand_in (N.name_of namer) (drop held small.now.1.records) ≡ true }
    ensures told { result ≡ Err faults.Damaged → O.told objects.now ≡ None }
{
    let mut new = Store::new(alloc, namer, state);
    let mut room = Vec::new(alloc);
    let store = small.store();
    for place in held..store.len() {
        let Some((name, kind, body)) = store.record(place) else {
            unreachable!();
        };
        if !is_held(objects, &mut room, &name, kind, body)? {
            put(&mut new, &name, kind, body)?;
        }
    }
    Ok(new)
}

/// Whether an object is held under its name. `NameHeld`: the name is held for another kind or other bytes.
fn is_held<O: Objects, A: Allocator + Copy>(
    objects: &O,
    room: &mut Vec<u8, A>,
    name: &Name,
    kind: Kind,
    body: &[u8],
) -> Result<bool, BroughtFault>
    ensures found { IfSome (O.told objects.now)
        (λ whole. IsLookedFor (record_under name.now kind body.now) whole result) }
    ensures taken { result ≡ Err faults.NotTaken → ⊥ }
{
    match objects.object(name, room)? {
        None => Ok(false),
        Some(object) => {
            if object.kind == kind && object.body == body {
                Ok(true)
            } else {
                Err(BroughtFault::NameHeld)
            }
        }
    }
}

/// Puts an object under its name. `NotTaken`: it would get another name, or another object has it.
fn put<N: Namer, A: Allocator + Copy>(
    new: &mut Store<N, A>,
    name: &Name,
    kind: Kind,
    body: &[u8],
) -> Result<(), BroughtFault>
    ensures namer { new.new.0 ≡ new.old.0 }
    ensures put { OnOk result
        (put new.old.1 (record_under name.now kind body.now) ≡ Some new.new.1) }
    ensures taken { result ≡ Err faults.NotTaken → name.now.bytes
        ≡ N.name_of new.old.0 kind body.now
        → put new.old.1 (record_under name.now kind body.now) ≡ None }
    ensures held { result ≡ Err faults.NameHeld → ⊥ }
    ensures told { result ≡ Err faults.Damaged → ⊥ }
{
    match new.put(kind, body) {
        Ok(taken) => {
            if taken == *name {
                Ok(())
            } else {
                Err(BroughtFault::NotTaken)
            }
        }
        Err(StoreFault::NameHeld) => Err(BroughtFault::NotTaken),
        Err(StoreFault::OutOfMemory) => Err(BroughtFault::OutOfMemory),
    }
}
