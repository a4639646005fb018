//! A given object on its way into a repository.

ghost use Rattle.std.specs.Prelude.{◌≡◌};
ghost use Rattle.std.specs.Option.{option_map};
ghost use Rattle.gx_links.specs.Links.{shown_link};
ghost use Rattle.gx_placed.specs.Places.{Extends, shown_object};
ghost use Rattle.gx_placed.specs.Steps.{Begins, IsReady, Nexts, PutsLast, begun, last_fault};

use crate::fault::{ObjectFault, PlaceFault};
use gx_links::{Link, LinksFault, links_of};
use gx_object::Namer;
use gx_offered::OfferedObject;
use gx_repo::{AddFault, Repo};
use std::alloc::Allocator;

/// A given object at its place, what it names, and how many of these were looked at.
#[derive(Drop)]
pub(crate) struct Frame<A: Allocator> {
    pub(crate) place: usize,
    pub(crate) object: OfferedObject<A>,
    pub(crate) links: Vec<Link, A>,
    pub(crate) done: usize,
}

impl<A: Allocator + Copy> Frame<A> {
    /// An object none of whose links was looked at.
    ///
    /// `BadObject`: the body isn't a canonical one of its kind. `OutOfMemory`: a growth was refused. Cost: the body's length.
    pub(crate) fn new(
        alloc: A,
        place: usize,
        object: OfferedObject<A>,
    ) -> Result<Frame<A>, PlaceFault>
        ensures { Begins place (shown_object object) result }
    {
        match links_of(alloc, object.kind, object.body.as_slice()) {
            Ok(links) => Ok(Frame {
                place,
                object,
                links,
                done: 0,
            }),
            Err(LinksFault::BadBody) => Err(PlaceFault::Object(place, ObjectFault::BadObject)),
            Err(LinksFault::OutOfMemory) => Err(PlaceFault::OutOfMemory),
        }
    }

    /// The next link to look at. Takes no memory.
    pub(crate) fn next(&mut self) -> Option<Link>
        ensures { Nexts (begun self.old) (begun self.new) (option_map shown_link result) }
    {
        let link = *self.links.get(self.done)?;
        self.done += 1;
        Some(link)
    }

    /// Adds the object, all of whose links are held.
    ///
    /// `BadObject`: what is below a tree is bad. `OutOfMemory`: a growth was refused. Cost: that of `Repo::add_body`.
    pub(crate) fn put_into<N: Namer>(self, repo: &mut Repo<N, A>) -> Result<(), PlaceFault>
        ensures namer { repo.new.0 ≡ repo.old.0 }
        ensures refs { repo.new.1.refs ≡ repo.old.1.refs }
        ensures extends { Extends repo.old.1.records repo.new.1.records }
        ensures puts { IsReady (N.name_of repo.old.0) repo.old.1.records (begun self).new
            → PutsLast repo.old.1.records repo.new.1.records (begun self).place
            (begun self).new result }
    {
        match repo.add_body(self.object.kind, self.object.body) {
            Ok(_) => Ok(()),
            Err(fault) => Err(fault_at(self.place, fault)),
        }
    }
}

/// Why the object at a place, all of whose links are held, isn't added.
fn fault_at(place: usize, fault: AddFault) -> PlaceFault
    ensures { result ≡ last_fault place fault }
{
    match fault {
        AddFault::OutOfMemory => PlaceFault::OutOfMemory,
        AddFault::BadObject | AddFault::Dangling | AddFault::DuplicateObject => {
            PlaceFault::Object(place, ObjectFault::BadObject)
        }
    }
}
