//! Plain texts of which no body is held.

ghost use Rattle.std.specs.Prelude.{◌≡◌, IfOk, IfSome, IsOk};
ghost use Rattle.gx_model.specs.Stores.StoreReading.{store_of};
ghost use Rattle.gx_listed.specs.Listings.{ListsIfTold};
ghost use Rattle.gx_objects.specs.Answers.{OnlyUntold};
ghost use Rattle.gx_plain.specs.Plain.{places_in, told_by};

use crate::begun::found_between;
use crate::listing::list_records;
use crate::records::read_named;
use crate::refs::{Tail, read_tail};
use crate::start::read_start;
use gx_at::ReadAt;
use gx_listed::Listing;
use gx_look::{find_by_names, without_end};
use gx_model::Version;
use gx_model::store_laws::stores_are_read;
use gx_object::{Name, Namer};
use gx_objects::{LookFault, Object, Objects};
use gx_store::{Prefix, names_begun_by};
use std::alloc::Allocator;
use std::hash::RandomState;
use std::marker::Model;

/// A store's text of version 1 or 2, every claim of which was checked once. Held is what is known of its objects before their bodies
/// are read, and its refs.
///
/// It is seen as the namer, and the text that its source tells.
#[derive(Drop)]
pub struct Plain<S: ReadAt, N: Namer, A: Allocator> {
    source: S,
    namer: N,
    version: Version,
    listing: Listing<A>,
    tail: Tail<A>,
}

impl<S: ReadAt, N: Namer, A: Allocator> Model for Plain<S, N, A> {
    ghost use Rattle.std.specs.Prelude.{Option};
    ghost use Rattle.gx_model.specs.Texts.{Bytes};

    ghost Value = { N × Option Bytes };

    ghost use Rattle.gx_plain.specs.Plain.{IsOpened};

    ghost view = { λ s. (s.namer, S.text s.source) };

    ghost invariant = { λ s.
        IsOpened (N.name_of s.namer) (S.text s.source) s.version s.listing s.tail };
}

impl<S: ReadAt, N: Namer, A: Allocator + Copy> Plain<S, N, A> {
    /// Opens a store's text of version 1 or 2, and checks every claim of it: the form of its lines, each body, link and name, and each
    /// ref.
    ///
    /// Damaged: this is no such text; why, `gx_file::read` tells. ReadFailed: a read failed, or the text has 2^64 bytes or more.
    /// OutOfMemory: a growth was refused.
    /// Cost: one pass over the text, in which each body is hashed once; a look-up for each link. Memory: that of the listing, and
    /// 8 bytes for each object beside it until all are read; at most twice the longest record, and twice the refs.
    /// Source: this project's own format.
    pub fn open(
        alloc: A,
        namer: N,
        source: S,
        state: RandomState,
    ) -> Result<Plain<S, N, A>, LookFault>
    where
        S: Drop,
        N: Drop,
        ensures plain { IfOk result (λ plain. plain ≡ (namer, S.text source)) }
        ensures read { IfOk result (λ _. IfSome (S.text source)
            (λ text. IsOk (store_of (N.name_of namer) text))) }
        ensures fault { OnlyUntold (told_by (N.name_of namer) (S.text source)) result }
    {
        let start = read_start(alloc, &source)?;
        let (listing, place) = list_records(alloc, &source, &namer, &start, state)?;
        let tail = read_tail(alloc, &source, &namer, start.version, &listing, place)?;
        Ok(Plain {
            source,
            namer,
            version: start.version,
            listing,
            tail,
        })
    }

    /// All objects of the text in the order in which they were added. Takes no memory.
    pub fn listing(&self) -> &Listing<A>
        ensures { ListsIfTold (told_by (N.name_of self.now.0) self.now.1)
            (places_in (N.name_of self.now.0) self.now.1) result.now }
    {
        &self.listing
    }
}

impl<S: ReadAt, N: Namer, B: Allocator + Copy> Objects for Plain<S, N, B> {
    ghost name_of = { λ plain. N.name_of plain.0 };

    ghost told = { λ plain. told_by (N.name_of plain.0) plain.1 };

    ghost stands = { λ plain. places_in (N.name_of plain.0) plain.1 };

    fn sound_if_told(&self) {
        stores_are_read();
        let _ = &self.namer;
    }

    /// Reads the object into the room, and hashes it. Cost: one read for an object of less than 4,096 bytes. Memory: the room, of at
    /// most twice the object or 4,096 bytes.
    fn object<'a, A: Allocator + Copy>(
        &'a self,
        name: &Name,
        room: &'a mut Vec<u8, A>,
    ) -> Result<Option<Object<'a>>, LookFault> {
        let Some(place) = self.place(name)? else {
            return Ok(None);
        };
        let found = read_named(&self.source, &self.namer, self.version, place, name, room)?;
        let body = &room.as_slice()[found.start..found.end];
        Ok(Some(Object {
            kind: found.kind,
            body,
        }))
    }

    /// Cost: constant, as expected of hashes.
    fn place(&self, name: &Name) -> Result<Option<u64>, LookFault> {
        let Some(number) = self.listing.number(name) else {
            return Ok(None);
        };
        match self.listing.get(number) {
            Some((_name, standing)) => Ok(Some(standing.place)),
            None => Ok(None),
        }
    }

    /// Reads the object into the room, and hashes it. Cost and memory: what `object` costs.
    fn object_at<'a, A: Allocator + Copy>(
        &'a self,
        place: u64,
        name: &Name,
        room: &'a mut Vec<u8, A>,
    ) -> Result<Object<'a>, LookFault> {
        let found = read_named(&self.source, &self.namer, self.version, place, name, room)?;
        let body = &room.as_slice()[found.start..found.end];
        Ok(Object {
            kind: found.kind,
            body,
        })
    }

    /// Cost: one pass over the names of all objects.
    fn by_digits(&self, digits: &[u8]) -> Result<Prefix, LookFault> {
        stores_are_read();
        match names_begun_by(digits) {
            Some(ends) => Ok(found_between(&self.listing, &ends)),
            None => Ok(Prefix::Absent),
        }
    }

    /// Lends the lines as they stand behind the records. Takes no memory.
    fn ref_lines<'a, A: Allocator + Copy>(
        &'a self,
        _room: &'a mut Vec<u8, A>,
    ) -> Result<&'a [u8], LookFault> {
        stores_are_read();
        let lines = &self.tail.text.as_slice()[self.tail.refs..];
        match without_end(lines) {
            Some(refs) => Ok(refs),
            None => Err(LookFault::Damaged),
        }
    }

    /// Cost: a binary search in the lines of the refs for each name.
    fn object_of_ref(&self, name: &[u8]) -> Result<Option<Name>, LookFault> {
        stores_are_read();
        let lines = &self.tail.text.as_slice()[self.tail.refs..];
        Ok(find_by_names(lines, name))
    }
}
