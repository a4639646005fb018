//! Objects, listed one behind the other.

ghost use Rattle.std.specs.Prelude.{◌≡◌, ◌++◌, ◌∷◌, [], length, slice_get, IfOk, None, OnErr};
ghost use Rattle.gx_listed.specs.Listings.{Pushes, number_named};

use gx_object::{Kind, Name};
use indexmap::IndexMap;
use std::alloc::{AllocError, Allocator};
use std::hash::RandomState;
use std::marker::Model;

/// What is known of an object before its body is read: where it stands, its kind, and how long its body is.
#[derive(Clone, Copy, Debug, PartialEq, Eq, Drop)]
pub struct Standing {
    pub place: u64,
    pub kind: Kind,
    pub length: u64,
}

/// Objects in an order, which are found by their numbers and by their names.
///
/// It is seen as the list of their names with what is known of each.
#[derive(Drop)]
pub struct Listing<A: Allocator> {
    objects: IndexMap<Name, Standing, RandomState, A>,
}

impl<A: Allocator> Model for Listing<A> {
    ghost use Rattle.std.specs.Prelude.{List, ⊤};
    ghost use Rattle.gx_listed.specs.Listings.{Listed};

    ghost Value = { List Listed };

    ghost view = { λ s. s.objects.entries };

    ghost invariant = { λ _. ⊤ };
}

impl<A: Allocator + Copy> Listing<A> {
    /// No objects. Their hashes are keyed by this state. Takes no memory.
    pub fn new(alloc: A, state: RandomState) -> Listing<A>
        ensures { result ≡ [] }
    {
        Listing {
            objects: IndexMap::with_hasher(alloc, state),
        }
    }

    /// Lists an object last, and answers whether it is a new one. An object whose name is listed already isn't listed again.
    ///
    /// `AllocError`: a growth was refused; nothing was listed. Cost: constant, as expected of hashes. Memory: 44 bytes, and the place
    /// of its hash.
    pub fn push(&mut self, name: Name, standing: Standing) -> Result<bool, AllocError>
        ensures pushes { IfOk result (Pushes self.old self.new (name, standing)) }
        ensures unchanged { OnErr result (self.new ≡ self.old) }
    {
        if self.number(&name).is_some() {
            return Ok(false);
        }
        match self.objects.insert(name, standing) {
            Ok(_) => Ok(true),
            Err(_) => Err(AllocError),
        }
    }

    /// How many objects are listed. Takes no memory.
    pub fn len(&self) -> usize
        ensures { result ≡ length self.now }
    {
        self.objects.len()
    }

    /// The number of the object of a name, counted from 0. Cost: constant, as expected of hashes. Takes no memory.
    pub fn number(&self, name: &Name) -> Option<usize>
        ensures { result ≡ number_named self.now name.now.bytes }
    {
        self.objects.get_index_of(name)
    }

    /// The object of a number. Cost: constant. Takes no memory.
    pub fn get(&self, number: usize) -> Option<(Name, Standing)>
        ensures { result ≡ slice_get self.now number }
    {
        let (name, standing) = self.objects.get_index(number)?;
        Some((*name, *standing))
    }
}
