//! The records of a repository, by their names and by their places.

ghost use Rattle.std.specs.Prelude.{◌≡◌, ◌↔◌, length, [], drop, map, slice_get, take, None, IsTrue};
ghost use Rattle.std.specs.Option.{option_map};
ghost use Rattle.gx_model.specs.Histories.{object_of};
ghost use Rattle.gx_model.specs.Records.Growth.{record_named};
ghost use Rattle.gx_model.specs.Records.Lookups.{records_begun_by};
ghost use Rattle.gx_store.specs.Stores.{AreHeld, IsFound, Puts, PutsObject, place_named, record_under, shown_object, shown_record};
ghost use Rattle.gx_store.specs.Bodies.{bytes_of};
ghost use Rattle.gx_store.specs.Marked.{first_mark, marked};
ghost use Rattle.gx_store.specs.Prefixes.{prefix_of};
ghost use Rattle.gx_store.specs.Objects.{shown_stored};

use crate::fronts::Fronts;
use crate::prefix::names_begun_by;
use crate::{Body, Prefix, StoreFault};
use gx_object::{Kind, Name, Namer};
use indexmap::IndexMap;
use std::alloc::Allocator;
use std::hash::RandomState;
use std::marker::Model;

/// An object as it is held under its name.
#[derive(Drop)]
pub(crate) struct Object<A: Allocator> {
    kind: Kind,
    body: Body<A>,
}

/// Objects under the names that a namer gives them, in the order in which they were put.
///
/// It is seen as the namer and the list of records, whose names differ.
#[derive(Drop)]
pub struct Store<N: Namer, A: Allocator> {
    namer: N,
    objects: IndexMap<Name, Object<A>, RandomState, A>,
    fronts: Fronts<A>,
    alloc: A,
}

impl<N: Namer, A: Allocator> Model for Store<N, A> {
    ghost use Rattle.std.specs.Prelude.{List, map};
    ghost use Rattle.gx_model.specs.Histories.{Record};

    ghost Value = { N × List Record };

    ghost use Rattle.gx_store.specs.Objects.{IsStore, shown_stored};
    ghost use Rattle.indexmap.specs.IndexMap.{keys};
    ghost use Rattle.gx_model.specs.Histories.{object_of};

    ghost view = { λ s. (s.namer, map shown_stored s.objects.entries) };

    ghost invariant = { λ s. IsStore (N.name_of s.namer) s.objects.entries
        s.fronts (keys s.objects) };
}

impl<N: Namer, A: Allocator + Copy> Store<N, A> {
    /// An empty store, whose hashes are keyed by this state. Takes no memory.
    pub fn new(alloc: A, namer: N, state: RandomState) -> Store<N, A>
        ensures { result ≡ (namer, []) }
    {
        Store {
            namer,
            objects: IndexMap::with_hasher(alloc, state),
            fronts: Fronts::new(alloc),
            alloc,
        }
    }

    /// How many objects it holds. The names of the records differ, and each is the namer's.
    pub fn len(&self) -> usize
        ensures count { result ≡ length self.now.1 }
        ensures held { AreHeld (N.name_of self.now.0) self.now.1 }
    {
        self.objects.len()
    }

    /// The name that an object of this kind and body has here, whether it is held or not.
    ///
    /// Cost: naming the body. Takes no memory.
    pub fn name(&self, kind: Kind, body: &[u8]) -> Name
        ensures { result.bytes ≡ N.name_of self.now.0 kind body.now }
    {
        self.namer.name(kind, body)
    }

    /// Puts an object last, and answers its name. One that is held already isn't put again.
    ///
    /// OutOfMemory comes only for an object that isn't held, NameHeld only and always where its name is held for
    /// another kind or other bytes; both leave the store as it was.
    /// Cost: the body's length, and, where a table grows, the number of records, which is constant on average.
    pub fn put(&mut self, kind: Kind, body: &[u8]) -> Result<Name, StoreFault>
        ensures namer { self.new.0 ≡ self.old.0 }
        ensures puts { PutsObject N.name_of self.old self.new kind body.now result }
    {
        let name = self.namer.name(kind, body);
        if self.is_held(&name, kind, body)? {
            return Ok(name);
        }
        let Ok(copy) = Vec::from_slice(self.alloc, body) else {
            return Err(StoreFault::OutOfMemory);
        };
        let body = Body::Own(copy);
        self.insert(name, Object { kind, body })
    }

    /// Does what `put` does, but keeps this body in place of a copy. It is dropped where the object is held already or
    /// isn't put.
    ///
    /// The errors are those of `put`. Cost: that of `put`, but for the copy.
    pub fn put_body(&mut self, kind: Kind, body: Body<A>) -> Result<Name, StoreFault>
        ensures namer { self.new.0 ≡ self.old.0 }
        ensures puts { PutsObject N.name_of self.old self.new kind (bytes_of body) result }
    {
        let name = self.namer.name(kind, body.as_slice());
        if self.is_held(&name, kind, body.as_slice())? {
            return Ok(name);
        }
        let object = Object { kind, body };
        self.insert(name, object)
    }

    /// The kind and the body of the object with this name. Cost: constant, as expected of hashes. Takes no memory.
    pub fn get(&self, name: &Name) -> Option<(Kind, &[u8])>
        ensures { option_map shown_object result
            ≡ option_map object_of (record_named self.now.1 name.now.bytes) }
    {
        let object = self.objects.get(name)?;
        Some((object.kind, object.body.as_slice()))
    }

    /// The place of the object with this name, as `record` counts it. Cost: constant, as expected of hashes. Takes no
    /// memory.
    pub fn place(&self, name: &Name) -> Option<usize>
        ensures { result ≡ place_named self.now.1 name.now.bytes }
    {
        self.objects.get_index_of(name)
    }

    /// The object at a place, counted from 0 in the order in which they were put. Cost: constant. Takes no memory.
    pub fn record(&self, place: usize) -> Option<(Name, Kind, &[u8])>
        ensures { option_map shown_record result ≡ slice_get self.now.1 place }
    {
        let (name, object) = self.objects.get_index(place)?;
        Some((*name, object.kind, object.body.as_slice()))
    }

    /// Keeps the first `len` objects alone, and all where there are no more.
    ///
    /// Cost: the number of objects that are dropped. Takes no memory.
    pub fn truncate(&mut self, len: usize)
        ensures { self.new ≡ (self.old.0, take len self.old.1) }
    {
        while self.objects.len() > len {
            if let Some((name, object)) = self.objects.pop() {
                self.fronts.pop(&name);
                drop(object);
            }
        }
    }

    /// Keeps the objects alone at whose places a mark stands, in their order.
    ///
    /// Cost: the number of objects, and what is dropped. No body is read, and no name is hashed. Takes no memory. Source:
    /// git-prune(1).
    pub fn retain(&mut self, marks: &[bool])
        ensures { self.new ≡ (self.old.0, marked marks.now self.old.1) }
    {
        let mut rest = marks;
        self.objects.retain(
            move |_name: &Name, object: &mut Object<A>| -> bool
                ensures mark { result ≡ first_mark rest.entry.now }
                ensures rest { rest.exit.now ≡ drop 1 rest.entry.now }
                ensures same { object.new ≡ object.old }
            {
                let Some((mark, behind)) = rest.split_first() else {
                    return false;
                };
                rest = behind;
                *mark
            },
        );
        self.fronts.refill(&self.objects);
    }

    /// The name that begins with these digits, of either case. An empty prefix begins every name, while more than 40
    /// digits, or any byte that is no digit, begin none.
    ///
    /// Cost: the chains that the digits reach and the records in them, up to the second that they begin. That is constant,
    /// as expected of names, for digits that tell the records apart; among names that were made to begin alike it is their
    /// number. Takes no memory. Source: gitrevisions(7), "sha1".
    pub fn by_prefix(&self, digits: &[u8]) -> Prefix
        ensures { result ≡ prefix_of (records_begun_by self.now.1 digits.now) }
    {
        match names_begun_by(digits) {
            Some(ends) => self.fronts.between(&self.objects, &ends),
            None => Prefix::Absent,
        }
    }

    /// Whether an object is held under its name. `NameHeld`: the name is held for another kind or other bytes.
    fn is_held(&self, name: &Name, kind: Kind, body: &[u8]) -> Result<bool, StoreFault>
        ensures { IsFound self.now.1 (record_under name.now kind body.now) result }
    {
        let Some(found) = self.objects.get(name) else {
            return Ok(false);
        };
        if is_object(found, kind, body) {
            Ok(true)
        } else {
            Err(StoreFault::NameHeld)
        }
    }

    /// Puts an object last whose name isn't held.
    fn insert(&mut self, name: Name, object: Object<A>) -> Result<Name, StoreFault>
        requires named { name.bytes ≡ N.name_of self.now.0 object.kind (bytes_of object.body) }
        requires free { record_named self.now.1 name.bytes ≡ None }
        ensures namer { self.new.0 ≡ self.old.0 }
        ensures puts { Puts self.old.1 self.new.1 (shown_stored (name, object)) result }
    {
        let Ok(()) = self.fronts.reserve(self.alloc, &self.objects) else {
            return Err(StoreFault::OutOfMemory);
        };
        let Ok(_) = self.objects.insert(name, object) else {
            return Err(StoreFault::OutOfMemory);
        };
        self.fronts.put(&name);
        Ok(name)
    }
}

/// Whether an object is of this kind and has this body.
fn is_object<A: Allocator + Copy>(object: &Object<A>, kind: Kind, body: &[u8]) -> bool
    ensures { IsTrue result ↔ (object.now.kind ≡ kind) × (bytes_of object.now.body ≡ body.now) }
{
    object.kind == kind && object.body.as_slice() == body
}
