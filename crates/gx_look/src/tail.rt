//! The last tail of a growing text: its live runs, and its refs. Source: this project's own format.

ghost use Rattle.std.specs.Prelude.{◌≡◌, ◌+◌, ◌*◌, nat_le, IfOk};
ghost use Rattle.sha2.specs.Sha256.{sha256};
ghost use Rattle.gx_growing_parts.specs.Shown.{shown_slot};
ghost use Rattle.gx_look.specs.Tails.{AreWithin, IsWithin, ReadsRuns, ReadsTail, TellsTail};

use crate::fill::read_on;
use crate::refs::are_refs;
use gx_at::ReadAt;
use gx_growing_parts::{Run, Slot, digest_of, read_run};
use gx_lines::read_count;
use gx_objects::LookFault;
use std::alloc::Allocator;

/// The live runs, and the text of the tail, in which the lines of refs begin at a place.
#[derive(Drop)]
pub(crate) struct Tail<A: Allocator> {
    pub(crate) runs: Vec<Run, A>,
    pub(crate) text: Vec<u8, A>,
    pub(crate) refs: usize,
}

/// The tail to which a slot leads. `Damaged` where the tail hasn't its digest, isn't one, tells a run that stands behind the
/// end, or has a line that is no ref's.
pub(crate) fn read_tail<S: ReadAt, A: Allocator + Copy>(
    alloc: A,
    source: &S,
    slot: &Slot,
) -> Result<Tail<A>, LookFault>
    ensures within { IfOk result (IsWithin slot.now.ends) }
    ensures digest { IfOk result (λ tail. sha256 tail.text.items ≡ slot.now.digest) }
    ensures tail { TellsTail (S.text source.now) (shown_slot slot.now) result }
{
    let mut text = Vec::new(alloc);
    let Some(count) = slot.ends.checked_sub(slot.tail) else {
        return Err(LookFault::Damaged);
    };
    read_on(source, slot.tail, count as usize, &mut text)?;
    if digest_of(text.as_slice()) != slot.digest {
        return Err(LookFault::Damaged);
    }
    tail_of_text(alloc, slot.ends, text)
}

/// The tail that a text spells.
fn tail_of_text<A: Allocator + Copy>(
    alloc: A,
    ends: u64,
    text: Vec<u8, A>,
) -> Result<Tail<A>, LookFault>
    ensures within { IfOk result (IsWithin ends) }
    ensures text { IfOk result (λ tail. tail.text.items ≡ text.items) }
    ensures tail { ReadsTail ends text.items result }
{
    let (runs, rest) = read_runs(alloc, ends, text.as_slice())?;
    let Ok((count, rest)) = read_count(b"refs", rest) else {
        return Err(LookFault::Damaged);
    };
    let refs = text.len().saturating_sub(rest.len());
    if !are_refs(count, &text.as_slice()[refs..]) {
        return Err(LookFault::Damaged);
    }
    Ok(Tail { runs, text, refs })
}

/// The runs with which a tail begins, and what follows them.
fn read_runs<'a, A: Allocator + Copy>(
    alloc: A,
    ends: u64,
    text: &'a [u8],
) -> Result<(Vec<Run, A>, &'a [u8]), LookFault>
    ensures within { IfOk result (λ found. AreWithin ends found.0.items) }
    ensures runs { ReadsRuns ends text.now result }
{
    let Ok((count, lines)) = read_count(b"runs", text) else {
        return Err(LookFault::Damaged);
    };
    let mut runs = Vec::new(alloc);
    let mut rest = lines;
    for _ in 0..count {
        let Ok((run, behind)) = read_run(rest) else {
            return Err(LookFault::Damaged);
        };
        if !is_within(&run, ends) {
            return Err(LookFault::Damaged);
        }
        runs.push(run)?;
        rest = behind;
    }
    Ok((runs, rest))
}

/// Whether the rows of a run stand before an end.
fn is_within(run: &Run, ends: u64) -> bool
    ensures { result ≡ nat_le (run.now.place + 28 * run.now.count) ends }
{
    match run.count.checked_mul(28) {
        Some(length) => length <= ends && run.place <= ends - length,
        None => false,
    }
}
