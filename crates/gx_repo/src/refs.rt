//! Refs in the byte order of their names, one after the other. Source: gitglossary(7), "ref".
ghost use Rattle.std.specs.Iterator.{item_count};
ghost use Rattle.std.specs.Map.Iter.{TakesFirst};
ghost use Rattle.gx_repo.specs.Refs.{shown_lent_ref};

use gx_object::Name;
use std::alloc::Allocator;
use std::marker::Model;

/// A ref as it is held.
#[derive(Drop)]
pub(crate) struct Ref<A: Allocator> {
    pub(crate) name: Vec<u8, A>,
    pub(crate) object: Name,
}

/// Refs, each by its name and the name of its object, in the byte order of names.
/// It is seen as the list of the refs left. Takes no memory.
#[derive(Drop)]
pub struct Refs<'a, A: Allocator> {
    pub(crate) rest: &'a [Ref<A>],
}

impl<'a, A: Allocator> Model for Refs<'a, A> {
    ghost use Rattle.std.specs.Prelude.{List, ℕ, map};
    ghost use Rattle.gx_repo.specs.Refs.{AreInOrder, shown_ref};

    ghost Value = { List (List ℕ × List ℕ) };

    ghost view = { λ it. map shown_ref it.rest.now };

    ghost invariant = { λ it. AreInOrder it.rest.now };
}

impl<'a, A: Allocator + Copy> Iterator for Refs<'a, A> {
    type Item = (&'a [u8], Name);

    ghost next_gives = { TakesFirst shown_lent_ref };

    ghost remaining = { item_count (λ rest. rest) };

    fn next(&mut self) -> Option<(&'a [u8], Name)> {
        match self.rest.split_first() {
            Some((first, rest)) => {
                self.rest = rest;
                Some((first.name.as_slice(), first.object))
            }
            None => None,
        }
    }
}
