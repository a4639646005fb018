//! The segments of a growing text. Source: this project's own format.
ghost use Rattle.std.specs.Prelude.{◌≡◌, ◌+◌, ◌-◌, ◌++◌, ◌<◌, ◌≤◌, [], drop, length, IfOk, None, OnOk};
ghost use Rattle.gx_model.specs.declared.store_versions.Version.TheVariants.{Two};
ghost use Rattle.gx_model.specs.Faults.{NeedsNoMemory};
ghost use Rattle.gx_model.specs.Stores.StoreReading.{next_records};
ghost use Rattle.gx_file.specs.Reading.{ReadsRecords};
ghost use Rattle.gx_file.specs.TextEnds.{EndsWith};
ghost use Rattle.gx_lines.specs.Reads.{Reads};
ghost use Rattle.gx_growing.specs.GrowingText.{placed};
ghost use Rattle.gx_growing.specs.GrowingReading.{after_end, next_runs, next_segment, next_segments, next_tail, no_front};
ghost use Rattle.gx_growing_parts.specs.Placing.{rows_of};
ghost use Rattle.gx_growing_segments.specs.Seen.{HasRefs, seen_so_far, seen_with, shown_next_runs, shown_next_segment, shown_next_tail};

use crate::refs::check_refs;
use gx_file::read_record;
use gx_growing_parts::{Run, read_run, read_table};
use gx_lines::{FileFault, read_count, read_line};
use gx_model::Version;
use gx_object::Namer;
use gx_repo::{Repo, Text};
use std::alloc::Allocator;

/// A tail: what is left of the text from there on, its live runs, and so many refs at the front of a text, none of them set.
#[derive(Drop)]
pub struct Tail<'a, A: Allocator> {
    pub text: &'a [u8],
    pub runs: Vec<Run, A>,
    pub count: u64,
    pub refs: &'a [u8],
}

/// Adds the records of the segments that are left, one at least, with the places of their lines, and answers the last one's
/// tail. The refs of each tail are looked at, and none is set.
///
/// The first fault from the front is answered, with the causes that [`FileFault`] gives.
/// Cost: one pass over the text, each body hashed once, and a look-up for each link and ref. Memory: what a record takes beside
/// its body, its place, and the runs of a tail. Source: this project's own format.
pub fn read_segments<'a, N: Namer, A: Allocator + Copy>(
    alloc: A,
    repo: &mut Repo<N, A>,
    places: &mut Vec<u64, A>,
    whole: &Text<A>,
    text: &'a [u8],
) -> Result<Tail<'a, A>, FileFault>
    requires left { EndsWith whole.now text.now }
    requires less { length text.now < length whole.now }
    requires empty { repo.old.1 ≡ record { records = []; refs = [] } }
    requires none { places.old.items ≡ [] }
    ensures namer { repo.new.0 ≡ repo.old.0 }
    ensures refs { repo.new.1.refs ≡ [] }
    ensures aligned { OnOk result (length places.new.items ≡ length repo.new.1.records) }
    ensures segments { Reads (seen_with repo.new.1.records places.new.items) result
        (next_segments (N.name_of repo.old.0) (length whole.now) (length whole.now)
        no_front text.now) }
    ensures told { IfOk result (HasRefs repo.new.1.records) }
    ensures within { IfOk result (λ tail. length tail.text.now ≤ length whole.now) }
{
    let mut rest = text;
    loop {
        let (tail, behind) = read_segment(alloc, repo, places, whole, rest)?;
        if behind.is_empty() {
            return Ok(tail);
        }
        rest = behind;
    }
}

/// Adds the records of the segment that comes next, with their places, and answers its tail, and what follows it.
fn read_segment<'a, N: Namer, A: Allocator + Copy>(
    alloc: A,
    repo: &mut Repo<N, A>,
    places: &mut Vec<u64, A>,
    whole: &Text<A>,
    text: &'a [u8],
) -> Result<(Tail<'a, A>, &'a [u8]), FileFault>
    requires left { EndsWith whole.now text.now }
    requires aligned { length places.old.items ≡ length repo.old.1.records }
    ensures namer { repo.new.0 ≡ repo.old.0 }
    ensures refs { repo.new.1.refs ≡ repo.old.1.refs }
    ensures aligned { OnOk result (length places.new.items ≡ length repo.new.1.records) }
    ensures segment { Reads (shown_next_segment repo.new.1.records places.new.items) result
        (next_segment (N.name_of repo.old.0) (length whole.now)
        (seen_so_far repo.old.1.records places.old.items) text.now) }
    ensures told { IfOk result (λ parts. HasRefs repo.new.1.records parts.0) }
    ensures within { IfOk result (λ parts. length parts.0.text.now ≤ length whole.now) }
    ensures left { IfOk result (λ parts. EndsWith whole.now parts.1.now) }
    ensures less { IfOk result (λ parts. length parts.1.now < length text.now) }
{
    let (objects, rest) = read_count(b"objects", text)?;
    let rest = read_records(repo, places, whole, objects, rest)?;
    let (rows, rest) = read_count(b"rows", rest)?;
    let (_table, rest) = read_table(rows, rest)?;
    read_tail(alloc, repo, rest)
}

/// Adds the records that come next, so many of them, with their places, and answers what follows them.
fn read_records<'a, N: Namer, A: Allocator + Copy>(
    repo: &mut Repo<N, A>,
    places: &mut Vec<u64, A>,
    whole: &Text<A>,
    count: u64,
    text: &'a [u8],
) -> Result<&'a [u8], FileFault>
    requires left { EndsWith whole.now text.now }
    requires aligned { length places.old.items ≡ length repo.old.1.records }
    ensures namer { repo.new.0 ≡ repo.old.0 }
    ensures refs { repo.new.1.refs ≡ repo.old.1.refs }
    ensures aligned { OnOk result (length places.new.items ≡ length repo.new.1.records) }
    ensures records { ReadsRecords N.name_of repo.old repo.new Version.Two count text.now result }
    ensures placed { OnOk result (rows_of repo.new.1.records places.new.items
        ≡ rows_of repo.old.1.records places.old.items
        ++ placed (length whole.now - length text.now)
        (drop (length repo.old.1.records) repo.new.1.records)) }
    ensures left { IfOk result (λ rest. EndsWith whole.now rest.now) }
    ensures shorter { IfOk result (λ rest. length rest.now ≤ length text.now) }
{
    let mut rest = text;
    for _ in 0..count {
        let place = (whole.as_slice().len() - rest.len()) as u64;
        rest = read_record(repo, whole, Version::Two, rest)?;
        places.push(place)?;
    }
    Ok(rest)
}

/// The tail that comes next, and what follows it.
fn read_tail<'a, N: Namer, A: Allocator + Copy>(
    alloc: A,
    repo: &Repo<N, A>,
    text: &'a [u8],
) -> Result<(Tail<'a, A>, &'a [u8]), FileFault>
    ensures tail { Reads (shown_next_tail repo.now.1.records) result
        (next_tail repo.now.1.records text.now) }
    ensures text { IfOk result (λ parts. parts.0.text.now ≡ text.now) }
    ensures told { IfOk result (λ parts. HasRefs repo.now.1.records parts.0) }
    ensures behind { IfOk result (λ parts. EndsWith text.now parts.1.now) }
{
    let (count, rest) = read_count(b"runs", text)?;
    let (runs, rest) = read_runs(alloc, count, rest)?;
    let (count, refs) = read_count(b"refs", rest)?;
    let rest = check_refs(repo, count, refs)?;
    let rest = read_end(rest)?;
    let tail = Tail {
        text,
        runs,
        count,
        refs,
    };
    Ok((tail, rest))
}

/// So many runs, and what follows their lines.
fn read_runs<'a, A: Allocator + Copy>(
    alloc: A,
    count: u64,
    text: &'a [u8],
) -> Result<(Vec<Run, A>, &'a [u8]), FileFault>
    ensures { Reads shown_next_runs result (next_runs count text.now) }
{
    let mut runs = Vec::new(alloc);
    let mut rest = text;
    for _ in 0..count {
        let (run, behind) = read_run(rest)?;
        runs.push(run)?;
        rest = behind;
    }
    Ok((runs, rest))
}

/// What follows the line that ends a segment.
fn read_end(text: &[u8]) -> Result<&[u8], FileFault>
    ensures end { Reads (λ rest. rest.now) result (after_end text.now) }
    ensures memory { NeedsNoMemory FileFault.OutOfMemory result }
{
    let (line, rest) = read_line(text)?;
    if line != b"end".as_slice() {
        return Err(FileFault::BadRecord);
    }
    Ok(rest)
}
