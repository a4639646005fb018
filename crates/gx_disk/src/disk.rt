//! A disk in memory.

ghost use Rattle.std.specs.Prelude.{◌≡◌, ◌⊎◌, [], IfOk, OnErr, OnOk};
ghost use Rattle.gx_append.specs.Devices.{Only};
ghost use Rattle.gx_disk.specs.Disks.{IsCut, IsFront, IsSync, IsWrite, MayLeave, Noted, begun, replayed};

use crate::call::Call;
use crate::overwriting::overwritten;
use crate::plan::Plan;
use std::alloc::{AllocError, Allocator};
use std::io;

/// A file on a disk, in memory. It keeps what it was at first, and each call that was done since.
///
/// Memory: the text twice, and the bytes of all writes.
#[derive(Drop)]
pub struct Disk<A: Allocator> {
    pub(crate) first: Vec<u8, A>,
    pub(crate) text: Vec<u8, A>,
    pub(crate) calls: Vec<Call<A>, A>,
    pub(crate) plan: Plan,
    pub(crate) faults: u64,
    ghost told: { text.items ≡ (replayed (begun first.items) calls.items).text },
}

impl<A: Allocator + Copy> Disk<A> {
    /// A disk with a text, which is durable. Calls fail as a plan says. Cost and memory: the text.
    pub fn new(alloc: A, text: &[u8], plan: Plan) -> Result<Disk<A>, AllocError>
        ensures text { IfOk result (λ disk. disk.text.items ≡ text.now) }
        ensures durable { IfOk result (λ disk.
            Only text.now (MayLeave (replayed (begun disk.first.items) disk.calls.items))) }
        ensures no_call { IfOk result (λ disk. (disk.calls.items ≡ []) × (disk.faults ≡ 0)) }
    {
        Ok(Disk {
            first: Vec::from_slice(alloc, text)?,
            text: Vec::from_slice(alloc, text)?,
            calls: Vec::new(alloc),
            plan,
            faults: 0,
        })
    }

    /// What is read.
    pub fn text(&self) -> &[u8]
        ensures { result.now ≡ self.now.text.items }
    {
        self.text.as_slice()
    }

    /// The calls that were done, the first of them first.
    pub fn calls(&self) -> &[Call<A>]
        ensures { result.now ≡ self.now.calls.items }
    {
        self.calls.as_slice()
    }

    /// Writes as the plan says. A write that fails has written a front.
    pub(crate) fn write(&mut self, at: u64, bytes: &[u8]) -> io::Result<()>
        ensures done { OnOk result
            (Noted (IsWrite at bytes.now) self.old.calls.items self.new.calls.items) }
        ensures failed { OnErr result ((self.new.calls.items ≡ self.old.calls.items)
            ⊎ Noted (IsFront at bytes.now) self.old.calls.items self.new.calls.items) }
        ensures first { self.new.first.items ≡ self.old.first.items }
        ensures faults { self.new.faults ≡ self.old.faults }
    {
        if at > self.text.len() as u64 {
            return Err(io::ErrorKind::InvalidInput.into());
        }
        if !self.plan.fails() {
            return self.put(at, bytes);
        }
        let front = self.plan.front.min(bytes.len());
        self.put(at, &bytes[..front])?;
        Err(refused())
    }

    /// Writes bytes over what stands at a place and behind the end. Where that wants memory nothing is written.
    fn put(&mut self, at: u64, bytes: &[u8]) -> io::Result<()>
        ensures done { OnOk result
            (Noted (IsWrite at bytes.now) self.old.calls.items self.new.calls.items) }
        ensures failed { OnErr result (self.new.calls.items ≡ self.old.calls.items) }
        ensures first { self.new.first.items ≡ self.old.first.items }
        ensures faults { self.new.faults ≡ self.old.faults }
    {
        let alloc = *self.text.allocator();
        let Ok(text) = overwritten(alloc, self.text.as_slice(), at, bytes) else {
            return Err(no_memory());
        };
        let Ok(bytes) = Vec::from_slice(alloc, bytes) else {
            return Err(no_memory());
        };
        let Ok(()) = self.calls.push(Call::Wrote { at, bytes }) else {
            return Err(no_memory());
        };
        self.text = text;
        Ok(())
    }

    /// Cuts as the plan says. A cut that fails does nothing.
    pub(crate) fn cut_off(&mut self, at: u64) -> io::Result<()>
        ensures done { OnOk result (Noted (IsCut at) self.old.calls.items self.new.calls.items) }
        ensures failed { OnErr result (self.new.calls.items ≡ self.old.calls.items) }
        ensures first { self.new.first.items ≡ self.old.first.items }
        ensures faults { self.new.faults ≡ self.old.faults }
    {
        if self.plan.fails() {
            return Err(refused());
        }
        let Ok(()) = self.calls.push(Call::CutOff { at }) else {
            return Err(no_memory());
        };
        self.text.truncate(at as usize);
        Ok(())
    }

    /// Syncs as the plan says. A sync that fails makes nothing durable.
    pub(crate) fn settle(&mut self) -> io::Result<()>
        ensures done { OnOk result (Noted IsSync self.old.calls.items self.new.calls.items) }
        ensures failed { OnErr result (self.new.calls.items ≡ self.old.calls.items) }
        ensures first { self.new.first.items ≡ self.old.first.items }
        ensures faults { self.new.faults ≡ self.old.faults }
    {
        if self.plan.fails() {
            return Err(refused());
        }
        let Ok(()) = self.calls.push(Call::Synced) else {
            return Err(no_memory());
        };
        Ok(())
    }
}

/// The error of a call for which there is no memory.
fn no_memory() -> io::Error {
    io::ErrorKind::OutOfMemory.into()
}

/// The error of a call that the plan lets fail.
fn refused() -> io::Error {
    io::Error::other("refused")
}
