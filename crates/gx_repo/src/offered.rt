//! A body that is offered to a store, which keeps it where it isn't held. Source: gitglossary(7), "object database".
ghost use Rattle.std.specs.Prelude.{◌≡◌};
ghost use Rattle.gx_repo.specs.Offered.{bytes_offered};
ghost use Rattle.gx_store.specs.Stores.{PutsObject};

use gx_object::{Kind, Name, Namer};
use gx_store::{Body, Store, StoreFault};
use std::alloc::Allocator;

/// A body that is to be kept, or bytes of which a copy is made where they are put.
#[derive(Drop)]
pub(crate) enum Offered<'a, A: Allocator> {
    Own(Body<A>),
    Lent(&'a [u8]),
}

impl<'a, A: Allocator + Copy> Offered<'a, A> {
    /// Its bytes. Takes no memory.
    pub(crate) fn as_slice(&self) -> &[u8]
        ensures { result.now ≡ bytes_offered self.now }
    {
        match self {
            Offered::Own(body) => body.as_slice(),
            Offered::Lent(bytes) => bytes,
        }
    }

    /// Puts an object with this body, as `Store::put` does. Nothing grows before its name is looked up.
    pub(crate) fn put_into<N: Namer>(
        self,
        store: &mut Store<N, A>,
        kind: Kind,
    ) -> Result<Name, StoreFault>
        ensures namer { store.new.0 ≡ store.old.0 }
        ensures puts { PutsObject N.name_of store.old store.new kind
            (bytes_offered self.entry) result }
    {
        match self {
            Offered::Own(body) => store.put_body(kind, body),
            Offered::Lent(bytes) => store.put(kind, bytes),
        }
    }
}
