//! Reading a whole growing text. Source: this project's own format.
ghost use Rattle.std.specs.Prelude.{◌≡◌, ◌<◌, ◌≤◌, ◌^◌, [], take, length, IfErr, IfOk};
ghost use Rattle.sha2.specs.Sha256.{sha256};
ghost use Rattle.gx_model.specs.declared.store_faults.FileFault.TheVariants as faults;
ghost use Rattle.gx_growing.specs.GrowingReading.{grown_of, has_rows};
ghost use Rattle.gx_growing.specs.GrowingText.{IsGrowingText};
ghost use Rattle.gx_growing_parts.specs.Shown.{shown_slot};
ghost use Rattle.gx_growing_file.specs.Grown.{ReadsGrown, RefusesOthers, grown_behind};
ghost use Rattle.gx_growing_segments.specs.Seen.{seen_with};

use gx_file::read_refs;
use gx_growing::GrowingFault;
use gx_growing::growing_laws::growing_is_read;
use gx_growing_parts::{HEAD, Slot, digest_of, read_head};
use gx_growing_rows::check_rows;
use gx_growing_segments::{Tail, read_segments};
use gx_lines::FileFault;
use gx_object::Namer;
use gx_repo::{OutOfMemory, Repo, Text};
use std::alloc::Allocator;
use std::hash::RandomState;

/// The repository of a growing text, every claim of which is checked: the head, the form of each segment's lines, each body, link
/// and name, the refs of each tail, and that the live runs of the last one tell where all objects stand.
///
/// The first fault from the front is answered, with the causes that [`GrowingFault`] gives. A text that is refused, but for want
/// of memory, is the growing text of no repository. What stands behind the end that the head tells is no part of the text; where something does, the text is copied up to there.
/// Cost: one pass over the text, each body hashed once, and the rows; a look-up for each link and each row. Memory: the text for
/// as long as one of its records is held, what a record takes beside its body, a place and a mark for each record while the text
/// is read, and the last tail.
pub fn read_text<N: Namer + Drop, A: Allocator + Copy>(
    alloc: A,
    namer: N,
    text: Text<A>,
    state: RandomState,
) -> Result<Repo<N, A>, GrowingFault>
    ensures namer { IfOk result (λ repo. repo.0 ≡ namer) }
    ensures store { ReadsGrown (λ repo. repo.1) result (grown_of (N.name_of namer) sha256 text) }
    ensures text { IfOk result (λ repo. IsGrowingText (N.name_of namer) sha256 text repo.1) }
    ensures refused { RefusesOthers (N.name_of namer) sha256 text result }
{
    growing_is_read();
    let bytes = text.as_slice();
    is_short(bytes);
    let (slot, _rest) = read_head(bytes)?;
    let Ok(whole) = text_to(alloc, text, slot.ends) else {
        return Err(GrowingFault::Text(FileFault::OutOfMemory));
    };
    let mut repo = Repo::new(alloc, namer, state);
    read_into(alloc, &mut repo, &whole, &slot)?;
    Ok(repo)
}

/// The text up to this place: itself where it ends there, and otherwise a copy of its front.
fn text_to<A: Allocator + Copy>(alloc: A, text: Text<A>, ends: u64) -> Result<Text<A>, OutOfMemory>
    requires { ends ≤ length text }
    ensures { IfOk result (λ front. front ≡ take ends text) }
{
    let bytes = text.as_slice();
    if ends == bytes.len() as u64 {
        return Ok(text);
    }
    let front = Vec::from_slice(alloc, &bytes[..ends as usize])?;
    let front = Text::new(alloc, front)?;
    Ok(front)
}

/// Reads what stands behind the head of a text, which ends where its slot says, into a repository that holds nothing.
fn read_into<N: Namer, A: Allocator + Copy>(
    alloc: A,
    repo: &mut Repo<N, A>,
    whole: &Text<A>,
    slot: &Slot,
) -> Result<(), GrowingFault>
    requires empty { repo.old.1 ≡ record { records = []; refs = [] } }
    requires ends { slot.now.ends ≡ length whole.now }
    ensures namer { repo.new.0 ≡ repo.old.0 }
    ensures store { ReadsGrown (λ _. repo.new.1) result
        (grown_behind (N.name_of repo.old.0) sha256 (shown_slot slot.now) whole.now) }
{
    let bytes = whole.as_slice();
    let mut places = Vec::new(alloc);
    if bytes.len() < HEAD {
        return Err(GrowingFault::Text(FileFault::Truncated));
    }
    let (_head, rest) = bytes.split_at(HEAD);
    let tail = read_segments(alloc, repo, &mut places, whole, rest)?;
    if (bytes.len() - tail.text.len()) as u64 != slot.tail {
        return Err(GrowingFault::Text(FileFault::BadRecord));
    }
    if !has_rows(alloc, repo, places.as_slice(), bytes, slot, &tail)? {
        return Err(GrowingFault::BadRows);
    }
    let _rest = read_refs(alloc, repo, tail.count, tail.refs)?;
    Ok(())
}

/// Whether the last tail of a text has the digest of its slot, and its live runs tell where the records are.
fn has_rows<N: Namer, A: Allocator + Copy>(
    alloc: A,
    repo: &Repo<N, A>,
    places: &[u64],
    text: &[u8],
    slot: &Slot,
    tail: &Tail<'_, A>,
) -> Result<bool, FileFault>
    requires aligned { length places.now ≡ length repo.now.1.records }
    ensures rows { IfOk result (λ told. told ≡ has_rows sha256 text.now (shown_slot slot.now)
        (seen_with repo.now.1.records places.now tail.now)) }
    ensures fault { IfErr result (λ fault. fault ≡ faults.OutOfMemory) }
{
    if digest_of(tail.text) != slot.digest {
        return Ok(false);
    }
    match check_rows(alloc, repo.store(), places, text, tail.runs.as_slice()) {
        Ok(told) => Ok(told),
        Err(_) => Err(FileFault::OutOfMemory),
    }
}

/// There are fewer than 2^63 bytes in memory.
fn is_short(text: &[u8])
    ensures { length text.now < 2 ^ 63 }
{}
