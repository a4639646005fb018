//! What a stop of the machine leaves of a disk.

ghost use Rattle.std.specs.Prelude.{◌≡◌, length, take, IfOk};
ghost use Rattle.gx_append.specs.Devices.{Torn};
ghost use Rattle.gx_disk.specs.Disks.{Comes, MayLeave, Turns, begun, replayed};

use crate::call::Call;
use crate::disk::Disk;
use crate::overwriting::overwritten;
use std::alloc::{AllocError, Allocator};

/// What a stop leaves of a write that isn't synced. Of a cut it leaves nothing or all.
#[derive(Clone, Copy, Debug)]
pub enum Fate {
    /// Nothing of it is done.
    Lost,
    /// All of it is done.
    Done,
    /// So many bytes of its front are written.
    Front(usize),
    /// All of it is written, but in the place of so many bytes of its front there is another byte.
    Spoiled { count: usize, byte: u8 },
}

impl<A: Allocator + Copy> Disk<A> {
    /// What a stop may leave after as many calls as fates are given: those that aren't synced by then have their fates.
    ///
    /// Cost: the text, for each call. Memory: the text, a few times.
    pub fn stopped(&self, alloc: A, fates: &[Fate]) -> Result<Vec<u8, A>, AllocError>
        ensures { IfOk result (λ left. MayLeave (replayed (begun self.now.first.items)
            (take (length fates.now) self.now.calls.items)) left.items) }
    {
        let calls = self.calls.as_slice();
        let count = fates.len().min(calls.len());
        let mut text = Vec::from_slice(alloc, self.first.as_slice())?;
        let mut left = Vec::from_slice(alloc, self.first.as_slice())?;
        let mut number = 0;
        while number < count {
            text = turned(alloc, text, &calls[number])?;
            left = come(alloc, left, &calls[number], fates[number], text.as_slice())?;
            number += 1;
        }
        Ok(left)
    }
}

/// A text once a call is done.
fn turned<A: Allocator + Copy>(
    alloc: A,
    mut text: Vec<u8, A>,
    call: &Call<A>,
) -> Result<Vec<u8, A>, AllocError>
    ensures { IfOk result (λ new. Turns call.now text.items new.items) }
{
    match call {
        Call::Wrote { at, bytes } => overwritten(alloc, text.as_slice(), *at, bytes.as_slice()),
        Call::CutOff { at } => {
            text.truncate(*at as usize);
            Ok(text)
        }
        Call::Synced => Ok(text),
    }
}

/// What is left of a text by a call with a fate, and by a sync of another text.
fn come<A: Allocator + Copy>(
    alloc: A,
    mut left: Vec<u8, A>,
    call: &Call<A>,
    fate: Fate,
    text: &[u8],
) -> Result<Vec<u8, A>, AllocError>
    ensures { IfOk result (λ new. Comes call.now text.now left.items new.items) }
{
    match call {
        Call::Wrote { at, bytes } => torn(alloc, left, *at, bytes.as_slice(), fate),
        Call::CutOff { at } => {
            if !matches!(fate, Fate::Lost) {
                left.truncate(*at as usize);
            }
            Ok(left)
        }
        Call::Synced => Vec::from_slice(alloc, text),
    }
}

/// What is left of a text by a write with a fate.
fn torn<A: Allocator + Copy>(
    alloc: A,
    left: Vec<u8, A>,
    at: u64,
    bytes: &[u8],
    fate: Fate,
) -> Result<Vec<u8, A>, AllocError>
    ensures { IfOk result (λ new. Torn at (length bytes.now) left.items new.items) }
{
    match fate {
        Fate::Lost => Ok(left),
        Fate::Done => overwritten(alloc, left.as_slice(), at, bytes),
        Fate::Front(count) => {
            let front = bytes.split_at(count.min(bytes.len())).0;
            overwritten(alloc, left.as_slice(), at, front)
        }
        Fate::Spoiled { count, byte } => {
            let spoiled = spoiled(alloc, bytes, count, byte)?;
            overwritten(alloc, left.as_slice(), at, spoiled.as_slice())
        }
    }
}

/// As many bytes, of which the front is another byte.
fn spoiled<A: Allocator + Copy>(
    alloc: A,
    bytes: &[u8],
    count: usize,
    byte: u8,
) -> Result<Vec<u8, A>, AllocError>
    ensures { IfOk result (λ new. length new.items ≡ length bytes.now) }
{
    let count = count.min(bytes.len());
    let mut new = Vec::from_elem(alloc, byte, count)?;
    new.extend_from_slice(bytes.split_at(count).1)?;
    Ok(new)
}
