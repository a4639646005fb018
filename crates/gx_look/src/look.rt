//! Looks into growing texts.

ghost use Rattle.std.specs.Prelude.{◌≡◌, IfOk, Ok, Some};
ghost use Rattle.sha2.specs.Sha256.{sha256};
ghost use Rattle.gx_model.specs.Histories.{Records};
ghost use Rattle.gx_model.specs.Texts.{Bytes};
ghost use Rattle.gx_growing.specs.GrowingReading.{grown_of};
ghost use Rattle.gx_growing.specs.GrowingText.{IsGrowingText};
ghost use Rattle.gx_growing_parts.specs.Endings.{IsEnding};
ghost use Rattle.gx_listed.specs.Listings.{ListsAll};
ghost use Rattle.gx_objects.specs.Answers.{FindsRef, Holds, IsNamed, OnlyUntold, Tells};
ghost use Rattle.gx_look.specs.Listing.{StandApart};
ghost use Rattle.gx_look.specs.Looking.{place_at, told_by, told_rows};

use crate::head::read_head;
use crate::listing::{list_rows, rows_by_place};
use crate::records::read_record;
use crate::refs::{find_by_names, without_end};
use crate::rows::{find_begun, find_place};
use crate::tail::{Tail, read_tail};
use gx_at::ReadAt;
use gx_growing_parts::Ending;
use gx_listed::Listing;
use gx_object::{Name, Namer};
use gx_objects::{LookFault, Object, Objects};
use gx_store::{Prefix, names_begun_by};
use std::alloc::Allocator;
use std::hash::RandomState;
use std::marker::Model;

/// A growing text of which a question reads what it needs. Held are its live runs and its refs.
///
/// It is seen as the namer, and the text that its source tells.
#[derive(Drop)]
pub struct Look<S: ReadAt, N: Namer, A: Allocator> {
    source: S,
    namer: N,
    is_first: bool,
    ends: u64,
    tail: Tail<A>,
}

impl<S: ReadAt, N: Namer, A: Allocator> Model for Look<S, N, A> {
    ghost use Rattle.std.specs.Prelude.{Option};
    ghost use Rattle.gx_model.specs.Texts.{Bytes};

    ghost Value = { N × Option Bytes };

    ghost use Rattle.gx_look.specs.Opened.{IsOpened};

    ghost view = { λ s. (s.namer, S.text s.source) };

    ghost invariant = { λ s.
        IsOpened (N.name_of s.namer) (S.text s.source) s.is_first s.ends s.tail };
}

impl<S: ReadAt, N: Namer, A: Allocator + Copy> Look<S, N, A> {
    /// Opens a growing text: reads its head, and the last tail of the slot that is picked.
    ///
    /// ReadFailed: a read failed. OutOfMemory: a growth was refused. Damaged: this is no growing text.
    /// Cost: the tail is read and hashed. Memory: at most twice the tail, and the runs. Source: this project's own format.
    pub fn open(alloc: A, namer: N, source: S) -> Result<Look<S, N, A>, LookFault>
    where
        S: Drop,
        N: Drop,
        ensures look { IfOk result (λ look. look ≡ (namer, S.text source)) }
        ensures fault { OnlyUntold (told_by (N.name_of namer) (S.text source)) result }
    {
        let picked = read_head(&source)?;
        let tail = read_tail(alloc, &source, &picked.slot)?;
        Ok(Look {
            source,
            namer,
            is_first: picked.is_first,
            ends: picked.slot.ends,
            tail,
        })
    }

    /// All objects of the text in the order in which they were added, for who goes through them. Whatever the text holds, no body of
    /// one stands in another's.
    ///
    /// ReadFailed: a read failed. OutOfMemory: a growth was refused. Damaged: this is no growing text.
    /// Cost: the rows of the live runs are read and sorted, and one read of 128 bytes for each object, from the front to the back. No
    /// body is read, and nothing is hashed but names. Memory: that of the listing, 28 bytes for each object beside it, and the rows of
    /// one run. Source: this project's own format.
    pub fn listing(&self, alloc: A, state: RandomState) -> Result<Listing<A>, LookFault>
        ensures listed { Tells (told_by (N.name_of self.now.0) self.now.1)
            (ListsAll (place_at (told_rows (N.name_of self.now.0) self.now.1))) result }
        ensures apart { IfOk result (StandApart 0) }
        ensures fault { OnlyUntold (told_by (N.name_of self.now.0) self.now.1) result }
    {
        let rows = rows_by_place(alloc, &self.source, self.tail.runs.as_slice())?;
        list_rows(alloc, &self.source, self.ends, rows.as_slice(), state)
    }

    /// How the text ends, for who appends to it. Cost: constant. Takes no memory. Source: this project's own format.
    pub fn ending(&self) -> Ending<'_>
        ensures { (text : Bytes) (repository : Records) → self.now.1 ≡ Some text
            → grown_of (N.name_of self.now.0) sha256 text ≡ Ok repository
            → (old : IsGrowingText (N.name_of self.now.0) sha256 text repository)
            × IsEnding old result }
    {
        Ending {
            is_first: self.is_first,
            ends: self.ends,
            runs: self.tail.runs.as_slice(),
        }
    }
}

impl<S: ReadAt, N: Namer, B: Allocator + Copy> Objects for Look<S, N, B> {
    ghost name_of = { λ look. N.name_of look.0 };

    ghost told = { λ look. told_by (N.name_of look.0) look.1 };

    ghost stands = { λ look. place_at (told_rows (N.name_of look.0) look.1) };

    fn sound_if_told(&self) {
        let _ = &self.namer;
    }

    /// Reads the object into the room, and hashes it. Cost: what `find_row` costs for each live run, and one read for an object
    /// of less than 4,096 bytes. Memory: the room, of at most twice the object or 4,096 bytes.
    fn object<'a, A: Allocator + Copy>(
        &'a self,
        name: &Name,
        room: &'a mut Vec<u8, A>,
    ) -> Result<Option<Object<'a>>, LookFault> {
        let Some(place) = find_place(&self.source, self.tail.runs.as_slice(), name)? else {
            return Ok(None);
        };
        let standing = read_record(&self.source, &self.namer, self.ends, place, name, room)?;
        let body = &room.as_slice()[standing.start..standing.end];
        Ok(Some(Object {
            kind: standing.kind,
            body,
        }))
    }

    /// Cost: what `find_row` costs for each live run.
    fn place(&self, name: &Name) -> Result<Option<u64>, LookFault> {
        let place = find_place(&self.source, self.tail.runs.as_slice(), name)?;
        Ok(place)
    }

    /// Reads the object into the room, and hashes it. Cost and memory: what `object` costs behind the look-up.
    fn object_at<'a, A: Allocator + Copy>(
        &'a self,
        place: u64,
        name: &Name,
        room: &'a mut Vec<u8, A>,
    ) -> Result<Object<'a>, LookFault> {
        let standing = read_record(&self.source, &self.namer, self.ends, place, name, room)?;
        let body = &room.as_slice()[standing.start..standing.end];
        Ok(Object {
            kind: standing.kind,
            body,
        })
    }

    /// Cost: what `first_from` costs for each live run.
    fn by_digits(&self, digits: &[u8]) -> Result<Prefix, LookFault> {
        let Some(ends) = names_begun_by(digits) else {
            return Ok(Prefix::Absent);
        };
        let found = find_begun(&self.source, self.tail.runs.as_slice(), &ends)?;
        Ok(found)
    }

    /// Lends the lines as they stand in the tail. Takes no memory.
    fn ref_lines<'a, A: Allocator + Copy>(
        &'a self,
        _room: &'a mut Vec<u8, A>,
    ) -> Result<&'a [u8], LookFault> {
        let lines = &self.tail.text.as_slice()[self.tail.refs..];
        match without_end(lines) {
            Some(refs) => Ok(refs),
            None => Err(LookFault::Damaged),
        }
    }

    /// Cost: a binary search in the lines of the refs for each name.
    fn object_of_ref(&self, name: &[u8]) -> Result<Option<Name>, LookFault> {
        let lines = &self.tail.text.as_slice()[self.tail.refs..];
        Ok(find_by_names(lines, name))
    }
}
