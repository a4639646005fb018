//! Devices over memory, which tell their bytes.

ghost use Rattle.std.specs.Prelude.{◌≡◌, ◌<◌, ◌≤◌, ◌+◌, min, length, [], Some, IfOk, OnErr, false, IsOk};
ghost use Rattle.std.specs.Vec.{vec_len, vec_capacity};
ghost use Rattle.gx_model.specs.Texts.Sinks.{Taken};
ghost use Rattle.gx_text.specs.Devices.{Coming, Supply, Pulls, Holding, Pushes, holding_nothing};

use crate::device::{Failed, Sink, Source};
use std::alloc::{AllocError, Allocator};
use std::marker::Model;

/// A source over memory. It is seen as the bytes that it still gives, with their end, and the most that one pull gives.
#[derive(Drop)]
pub struct Bytes<'a> {
    rest: &'a [u8],
    piece: usize,
    fails: bool,
}

impl<'a> Model for Bytes<'a> {
    ghost use Rattle.std.specs.Prelude.{◌<◌};
    ghost use Rattle.gx_text.specs.Devices.{Supply};

    ghost Value = { Supply };

    ghost view = { λ s. record {
      coming = record { bytes = s.rest.now; fails = s.fails };
      piece = s.piece;
    } };

    ghost invariant = { λ s. 0 < s.piece };
}

impl<'a> Bytes<'a> {
    /// Gives at most `piece` bytes per pull, then an end, or a failure where `fails` is true. Takes no memory.
    pub fn new(bytes: &'a [u8], piece: usize, fails: bool) -> Bytes<'a>
        requires { 0 < piece }
        ensures coming { result.coming ≡ record { bytes = bytes.now; fails = fails } }
        ensures piece { result.piece ≡ piece }
    {
        Bytes {
            rest: bytes,
            piece,
            fails,
        }
    }
}

impl<'a> Source for Bytes<'a> {
    ghost coming = { λ s. Some s.coming };

    /// Gives as many bytes as are left, as fit the buffer, and as `piece` allows. Cost: their number.
    fn pull(&mut self, buffer: &mut [u8]) -> Result<usize, Failed>
        requires nonempty { 0 < length buffer.old }
        ensures bound { IfOk result (λ n. n ≤ length buffer.new) }
        ensures bytes { Pulls (Some self.old.coming) (Some self.new.coming) buffer.new result }
        ensures all { IfOk result (λ n.
            n ≡ min (min (length self.old.coming.bytes) self.old.piece) (length buffer.old)) }
        ensures few { IfOk result (λ n. n ≤ self.old.piece) }
        ensures piece { self.new.piece ≡ self.old.piece }
    {
        let count = self.rest.len().min(self.piece).min(buffer.len());
        if count == 0 {
            return if self.fails { Err(Failed) } else { Ok(0) };
        }
        let (front, rest) = self.rest.split_at(count);
        buffer[..count].copy_from_slice(front);
        self.rest = rest;
        Ok(count)
    }
}

/// A sink over memory that takes so many bytes, and then fails. It is seen as what it took, and the room that is left.
#[derive(Drop)]
pub struct Held<A: Allocator> {
    bytes: Vec<u8, A>,
    room: usize,
    failed: bool,
}

impl<A: Allocator> Model for Held<A> {
    ghost use Rattle.std.specs.Prelude.{◌≤◌, ◌+◌};
    ghost use Rattle.std.specs.Vec.{vec_len, vec_capacity};
    ghost use Rattle.gx_text.specs.Devices.{Holding};

    ghost Value = { Holding };

    ghost view = { λ h. record {
      taken = record { bytes = h.bytes.items; failed = h.failed };
      room = h.room;
    } };

    ghost invariant = { λ h. vec_len h.bytes + h.room ≤ vec_capacity h.bytes };
}

impl<A: Allocator + Copy> Held<A> {
    /// Takes `room` bytes, and then fails. All of its memory is taken here.
    pub fn new(alloc: A, room: usize) -> Result<Held<A>, AllocError>
        ensures { IfOk result (λ held. held ≡ holding_nothing room) }
    {
        Ok(Held {
            bytes: Vec::with_capacity(alloc, room)?,
            room,
            failed: false,
        })
    }

    /// What it took. Takes no memory.
    pub fn bytes(&self) -> &[u8]
        ensures { result.now ≡ self.now.taken.bytes }
    {
        self.bytes.as_slice()
    }
}

impl<A: Allocator + Copy> Sink for Held<A> {
    ghost taken = { λ h. Some h.taken };

    /// Takes as many bytes as there is room for. Cost: their number.
    fn push(&mut self, bytes: &[u8]) -> Result<usize, Failed>
        requires nonempty { 0 < length bytes.now }
        ensures bound { IfOk result (λ n. n ≤ length bytes.now) }
        ensures some { IfOk result (λ n. 0 < n) }
        ensures bytes { Pushes (Some self.old.taken) (Some self.new.taken) bytes.now result }
        ensures all { IfOk result (λ n. n ≡ min (length bytes.now) self.old.room) }
        ensures room { IfOk result (λ n. self.new.room + n ≡ self.old.room) }
        ensures left { OnErr result (self.new.room ≡ self.old.room) }
        ensures fails { (0 < self.old.room) × (self.old.taken.failed ≡ false) → IsOk result }
    {
        let count = bytes.len().min(self.room);
        if self.failed || count == 0 {
            self.failed = true;
            return Err(Failed);
        }
        match self.bytes.extend_from_slice(&bytes[..count]) {
            Ok(()) => {
                self.room -= count;
                Ok(count)
            }
            Err(_) => unreachable!(),
        }
    }
}

/// A sink that takes all bytes, and fails where a growth is refused. It is seen as what it took.
#[derive(Drop)]
pub struct Growing<A: Allocator> {
    bytes: Vec<u8, A>,
    failed: bool,
}

impl<A: Allocator> Model for Growing<A> {
    ghost use Rattle.gx_model.specs.Texts.Sinks.{Taken};

    ghost Value = { Taken };

    ghost view = { λ s. record { bytes = s.bytes.items; failed = s.failed } };
}

impl<A: Allocator + Copy> Growing<A> {
    /// A sink that took nothing. Takes no memory.
    pub fn new(alloc: A) -> Growing<A>
        ensures { result ≡ record { bytes = []; failed = false } }
    {
        Growing {
            bytes: Vec::new(alloc),
            failed: false,
        }
    }

    /// Whether a growth was refused.
    pub fn has_failed(&self) -> bool
        ensures { result ≡ self.now.failed }
    {
        self.failed
    }

    /// What it took.
    pub fn into_bytes(self) -> Vec<u8, A>
        ensures { result.items ≡ self.bytes }
    {
        self.bytes
    }
}

impl<A: Allocator + Copy> Sink for Growing<A> {
    ghost taken = { λ s. Some s };

    /// Takes all of the bytes, and memory for them. Cost: their number, and now and then that of all that it took.
    fn push(&mut self, bytes: &[u8]) -> Result<usize, Failed>
        requires nonempty { 0 < length bytes.now }
        ensures bound { IfOk result (λ n. n ≤ length bytes.now) }
        ensures some { IfOk result (λ n. 0 < n) }
        ensures bytes { Pushes (Some self.old) (Some self.new) bytes.now result }
        ensures all { IfOk result (λ n. n ≡ length bytes.now) }
    {
        if self.failed || self.bytes.extend_from_slice(bytes).is_err() {
            self.failed = true;
            return Err(Failed);
        }
        Ok(bytes.len())
    }
}
