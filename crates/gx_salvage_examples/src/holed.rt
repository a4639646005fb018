//! A repository of which one object can't be read.

ghost use Rattle.std.specs.Prelude.{None};
ghost use Rattle.sha1.specs.Sha1.{sha1};
ghost use Rattle.gx_model.specs.Objects.Naming.{record_text};

use gx_object::{Name, Sha1Namer};
use gx_objects::{LookFault, Object, Objects};
use gx_reached::Cause;
use gx_repo::Repo;
use gx_store::Prefix;
use std::alloc::{Allocator, Global};

/// What is answered of an object that can't be read: that it is missing, or a fault; and why it isn't saved then.
pub(crate) const ANSWERS: [(Option<LookFault>, Cause); 3] = [
    (None, Cause::Missing),
    (Some(LookFault::Damaged), Cause::Damaged),
    (Some(LookFault::ReadFailed), Cause::ReadFailed),
];

/// A repository that answers so of one object.
#[derive(Drop)]
pub(crate) struct Holed<'a> {
    pub(crate) repo: &'a Repo<Sha1Namer, Global>,
    pub(crate) hole: Name,
    pub(crate) fault: Option<LookFault>,
}

impl<'a> Holed<'a> {
    /// A repository that answers so of its object at a place.
    pub(crate) fn at(
        repo: &'a Repo<Sha1Namer, Global>,
        place: usize,
        fault: Option<LookFault>,
    ) -> Option<Holed<'a>> {
        let (hole, _kind, _body) = repo.store().record(place)?;
        Some(Holed { repo, hole, fault })
    }
}

impl<'a> Objects for Holed<'a> {
    ghost name_of = { λ _ kind body. sha1 (record_text kind body) };

    ghost told = { λ _. None };

    ghost stands = { λ _ number. number };

    fn sound_if_told(&self) {
        self.repo.sound_if_told();
    }

    fn object<'b, A: Allocator + Copy>(
        &'b self,
        name: &Name,
        room: &'b mut Vec<u8, A>,
    ) -> Result<Option<Object<'b>>, LookFault> {
        if *name == self.hole {
            return match self.fault {
                Some(fault) => Err(fault),
                None => Ok(None),
            };
        }
        self.repo.object(name, room)
    }

    fn place(&self, name: &Name) -> Result<Option<u64>, LookFault> {
        if *name == self.hole && self.fault.is_none() {
            return Ok(None);
        }
        self.repo.place(name)
    }

    fn object_at<'b, A: Allocator + Copy>(
        &'b self,
        _place: u64,
        name: &Name,
        room: &'b mut Vec<u8, A>,
    ) -> Result<Object<'b>, LookFault> {
        match self.object(name, room)? {
            Some(object) => Ok(object),
            None => Err(LookFault::Damaged),
        }
    }

    fn by_digits(&self, digits: &[u8]) -> Result<Prefix, LookFault> {
        self.repo.by_digits(digits)
    }

    fn object_of_ref(&self, name: &[u8]) -> Result<Option<Name>, LookFault> {
        self.repo.object_of_ref(name)
    }

    fn ref_lines<'b, A: Allocator + Copy>(
        &'b self,
        room: &'b mut Vec<u8, A>,
    ) -> Result<&'b [u8], LookFault> {
        self.repo.ref_lines(room)
    }
}
