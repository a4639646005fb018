//! Given objects that wait until they are placed.

ghost use Rattle.std.specs.Prelude.{◌≡◌, IfOk, length, map, Some, None, set};
ghost use Rattle.std.specs.Option.{option_map};
ghost use Rattle.gx_placed.specs.Machine.{place_in, slot_at};
ghost use Rattle.gx_placed.specs.Places.{shown_given, shown_object};
ghost use Rattle.gx_placed.specs.Steps.{AreFirst, IsIndexed, shown_taken, slots, waiting_as, without};

use gx_object::Name;
use gx_offered::OfferedObject;
use std::alloc::{AllocError, Allocator};
use std::collections::BTreeMap;

/// The given objects, each at its place until it is taken, and the first place of each name.
#[derive(Drop)]
pub(crate) struct Waiting<A: Allocator> {
    objects: Vec<Option<OfferedObject<A>>, A>,
    places: BTreeMap<Name, usize, A>,
}

impl<A: Allocator + Copy> Waiting<A> {
    /// All that are given. Cost: their number, with its logarithm. Memory: some words each.
    pub(crate) fn new(alloc: A, given: Vec<OfferedObject<A>, A>) -> Result<Waiting<A>, AllocError>
        ensures slots { IfOk result (λ waiting. slots waiting ≡ map Some (shown_given given)) }
        ensures places { IfOk result (IsIndexed (shown_given given)) }
    {
        let places = places_of(alloc, &given)?;
        let mut objects = Vec::new(alloc);
        for object in given {
            objects.push(Some(object))?;
        }
        Ok(Waiting { objects, places })
    }

    /// How many were given. Takes no memory.
    pub(crate) fn len(&self) -> usize
        ensures { result ≡ length (slots self.now) }
    {
        self.objects.len()
    }

    /// Takes the object at a place, unless it was taken. Takes no memory.
    pub(crate) fn take_at(&mut self, place: usize) -> Option<OfferedObject<A>>
        ensures object { option_map shown_object result ≡ slot_at (slots self.old) place }
        ensures slots { slots self.new ≡ set (slots self.old) place None }
        ensures places { self.new.places ≡ self.old.places }
    {
        self.objects.get_mut(place)?.take()
    }

    /// Takes the first object of a name, with its place; or none where none has the name, or it was taken.
    ///
    /// Cost: the logarithm of the number of those that were given. Takes no memory.
    pub(crate) fn take_named(&mut self, name: &Name) -> Option<(usize, OfferedObject<A>)>
        ensures object { option_map shown_taken result ≡ waiting_as self.old name.now }
        ensures slots { slots self.new
            ≡ without (slots self.old) (option_map shown_taken result) }
        ensures places { self.new.places ≡ self.old.places }
    {
        let place = *self.places.get(name)?;
        let object = self.take_at(place)?;
        Some((place, object))
    }
}

/// The first place of each name.
fn places_of<A: Allocator + Copy>(
    alloc: A,
    given: &[OfferedObject<A>],
) -> Result<BTreeMap<Name, usize, A>, AllocError>
    ensures { IfOk result (AreFirst (map shown_object given.now)) }
{
    let mut places = BTreeMap::new(alloc);
    for place in (0..given.len()).rev() {
        places.insert(given[place].name, place)?;
    }
    Ok(places)
}
