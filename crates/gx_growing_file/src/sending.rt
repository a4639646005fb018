//! Writing a growing text anew, as one segment. Source: this project's own format.
ghost use Rattle.std.specs.Prelude.{◌≡◌, ◌++◌, ◌∷◌, ◌<◌, ◌^◌, [], codes, length, IfOk, IfSome};
ghost use Rattle.std.specs.List.{flat_map};
ghost use Rattle.sha2.specs.Sha256.{sha256};
ghost use Rattle.gx_model.specs.Objects.{line};
ghost use Rattle.gx_model.specs.Texts.Numbers.{number_text};
ghost use Rattle.gx_growing.specs.GrowingText.{first_runs, growing_text, head_text, no_slot, rows_text, run_text, slot_text, tail_text};
ghost use Rattle.gx_growing_parts.specs.Shown.{shown_slot};
ghost use Rattle.gx_file.specs.Sending.{Sent};
ghost use Rattle.gx_growing_file.specs.Grown.{IsGrownFrom};
ghost use Rattle.gx_growing_file.specs.Sending.{LaysOut, SentGrown, ends_of, runs_from, runs_of, slot_from};

use gx_file::{send_all, send_records, send_refs, send_text};
use gx_growing::growing_laws::growing_is_read;
use gx_growing_parts::{Run, Slot, digest_digits, digest_of, zeros_before};
use gx_growing_rows::{Table, first_table};
use gx_object::Namer;
use gx_repo::Repo;
use gx_text::{Failed, Growing, Sink};
use itoa::Buffer;
use std::alloc::{AllocError, Allocator};

/// Why a growing text isn't written.
#[derive(Clone, Copy, Debug, PartialEq, Eq)]
pub enum WriteFault {
    /// A growth was refused, or the text has 2^63 bytes or more. Nothing was sent.
    OutOfMemory,
    /// The sink failed.
    Failed,
}

/// What stands around the records in the growing text of a repository.
#[derive(Drop)]
pub struct Layout<A: Allocator> {
    pub slot: Slot,
    pub table: Table<A>,
    pub tail: Vec<u8, A>,
}

/// The growing text of a repository, with one segment: all objects, their rows in the order of names, and the refs.
///
/// Cost: the text's length, and that of sorting the rows. Memory: the text, and two rows for each object.
pub fn write<N: Namer, A: Allocator + Copy>(
    alloc: A,
    repo: &Repo<N, A>,
) -> Result<Vec<u8, A>, AllocError>
    ensures text { IfOk result (λ text. text.items ≡ growing_text sha256 repo.now.1) }
    ensures read { IfOk result (λ text. IsGrownFrom N.name_of text.items repo.now) }
{
    let mut sink = Growing::new(alloc);
    match write_to(alloc, repo, &mut sink) {
        Ok(()) => Ok(sink.into_bytes()),
        Err(_) => Err(AllocError),
    }
}

/// Sends the growing text of a repository that [`write`] makes. Each body goes out from where the repository has it.
///
/// `OutOfMemory`: a growth was refused, or the text has 2^63 bytes or more; nothing was sent. `Failed`: the sink failed; what it
/// took is a front of the text.
/// Cost: the text's length, and that of sorting the rows. Memory: two rows for each object, and the refs' lines.
pub fn write_to<N: Namer, A: Allocator + Copy, W: Sink>(
    alloc: A,
    repo: &Repo<N, A>,
    sink: &mut W,
) -> Result<(), WriteFault>
    ensures text { SentGrown (growing_text sha256 repo.now.1)
        (W.taken sink.old) (W.taken sink.new) result }
    ensures read { IfOk result (λ _.
        IsGrownFrom N.name_of (growing_text sha256 repo.now.1) repo.now) }
{
    repo.sound();
    growing_is_read();
    let Ok(layout) = layout_of(alloc, repo) else {
        return Err(WriteFault::OutOfMemory);
    };
    match send_laid_out(repo, &layout, sink) {
        Ok(()) => Ok(()),
        Err(_) => Err(WriteFault::Failed),
    }
}

/// What stands around the records of a repository, whose text has fewer than 2^63 bytes.
fn layout_of<N: Namer, A: Allocator + Copy>(
    alloc: A,
    repo: &Repo<N, A>,
) -> Result<Layout<A>, AllocError>
    ensures { IfOk result (LaysOut repo.now.1) }
{
    let store = repo.store();
    let table = first_table(alloc, store)?;
    let run = run_of(store.len(), &table);
    let tail = tail_of(alloc, repo, run)?;
    let Some(slot) = slot_of(&table, tail.as_slice()) else {
        return Err(AllocError);
    };
    Ok(Layout { slot, table, tail })
}

/// The run of a table with so many rows, and none where it has none.
pub fn run_of<A: Allocator>(count: usize, table: &Table<A>) -> Option<Run>
    ensures { runs_of result ≡ runs_from table.now.place count table.now.digests.items }
{
    if count == 0 {
        return None;
    }
    Some(Run {
        place: table.place,
        count: count as u64,
        digest: digest_of(table.digests.as_slice()),
    })
}

/// The slot of a text that ends with a table and a tail, if it has fewer than 2^63 bytes.
pub fn slot_of<A: Allocator>(table: &Table<A>, tail: &[u8]) -> Option<Slot>
    ensures slot { IfSome result (λ slot.
        shown_slot slot ≡ slot_from (ends_of table.now tail.now) tail.now) }
    ensures short { IfSome result (λ slot. slot.ends < 2 ^ 63) }
{
    let rows = table.place.checked_add(table.rows.len() as u64)?;
    let digests = rows.checked_add(table.digests.len() as u64)?;
    let begins = digests.checked_add(1)?;
    let ends = begins.checked_add(tail.len() as u64)?;
    if ends >= 1 << 63 {
        return None;
    }
    Some(Slot {
        ends,
        tail: begins,
        digest: digest_of(tail),
    })
}

/// The tail of a segment with these runs and the refs of a repository.
fn tail_of<N: Namer, A: Allocator + Copy>(
    alloc: A,
    repo: &Repo<N, A>,
    run: Option<Run>,
) -> Result<Vec<u8, A>, AllocError>
    ensures { IfOk result (λ tail. tail.items ≡ tail_text (runs_of run) repo.now.1.refs) }
{
    let mut tail = Growing::new(alloc);
    match send_tail(repo, run, &mut tail) {
        Ok(()) => Ok(tail.into_bytes()),
        Err(Failed) => Err(AllocError),
    }
}

/// Sends the tail of a segment with these runs and the refs of a repository.
fn send_tail<N: Namer, A: Allocator + Copy, W: Sink>(
    repo: &Repo<N, A>,
    run: Option<Run>,
    sink: &mut W,
) -> Result<(), Failed>
    ensures { Sent (tail_text (runs_of run) repo.now.1.refs)
        (W.taken sink.old) (W.taken sink.new) result }
{
    send_runs(sink, run)?;
    send_refs(repo, sink)?;
    send_text(sink, b"end\n")
}

/// Sends the number of runs and the runs, of which there is one or none.
pub fn send_runs<W: Sink>(sink: &mut W, run: Option<Run>) -> Result<(), Failed>
    ensures { Sent (line (codes "runs") (number_text (length (runs_of run)))
        ++ flat_map run_text (runs_of run))
        (W.taken sink.old) (W.taken sink.new) result }
{
    match run {
        Some(run) => send_run(sink, run.place, run.count, &run.digest),
        None => send_text(sink, b"runs 0\n"),
    }
}

/// Sends the line that tells that there is one run, and the run.
fn send_run<W: Sink>(sink: &mut W, place: u64, count: u64, digest: &[u8; 32]) -> Result<(), Failed>
    ensures { Sent (line (codes "runs") (number_text 1)
        ++ flat_map run_text ((record { place = place; count = count; digest = digest.now }) ∷ []))
        (W.taken sink.old) (W.taken sink.new) result }
{
    let mut place_digits = Buffer::new();
    let mut count_digits = Buffer::new();
    let digits = digest_digits(digest);
    send_all(
        sink,
        &[
            b"runs 1\n",
            place_digits.format(place).as_bytes(),
            b" ",
            count_digits.format(count).as_bytes(),
            b" ",
            digits.as_slice(),
            b"\n",
        ],
    )
}

/// Sends a repository's growing text, of which this stands around the records.
fn send_laid_out<N: Namer, A: Allocator + Copy, W: Sink>(
    repo: &Repo<N, A>,
    layout: &Layout<A>,
    sink: &mut W,
) -> Result<(), Failed>
    requires { LaysOut repo.now.1 layout.now }
    ensures { Sent (growing_text sha256 repo.now.1) (W.taken sink.old) (W.taken sink.new) result }
{
    send_head(
        sink,
        layout.slot.ends,
        layout.slot.tail,
        &layout.slot.digest,
    )?;
    send_records(repo, sink)?;
    let count = repo.store().len();
    send_table(sink, count, &layout.table, layout.tail.as_slice())
}

/// Sends the head of a growing text whose first slot is picked, and says this.
pub fn send_head<W: Sink>(
    sink: &mut W,
    ends: u64,
    tail: u64,
    digest: &[u8; 32],
) -> Result<(), Failed>
    ensures { Sent (head_text (codes "a")
        (slot_text (record { ends = ends; tail = tail; digest = digest.now })) (slot_text no_slot))
        (W.taken sink.old) (W.taken sink.new) result }
{
    let mut ends_digits = Buffer::new();
    let ends_text = ends_digits.format(ends).as_bytes();
    let mut tail_digits = Buffer::new();
    let tail_text = tail_digits.format(tail).as_bytes();
    let digits = digest_digits(digest);
    send_all(
        sink,
        &[
            b"gxstore 3\na\n",
            zeros_before(ends_text),
            ends_text,
            b" ",
            zeros_before(tail_text),
            tail_text,
            b" ",
            digits.as_slice(),
            b"\n00000000000000000000 00000000000000000000 ",
            b"0000000000000000000000000000000000000000000000000000000000000000\n",
        ],
    )
}

/// Sends a table of so many rows with its line, and what follows it.
pub fn send_table<A: Allocator, W: Sink>(
    sink: &mut W,
    count: usize,
    table: &Table<A>,
    tail: &[u8],
) -> Result<(), Failed>
    ensures { Sent (rows_text count (table.now.rows.items ++ table.now.digests.items) tail.now)
        (W.taken sink.old) (W.taken sink.new) result }
{
    let mut digits = Buffer::new();
    send_all(
        sink,
        &[
            b"rows ",
            digits.format(count).as_bytes(),
            b"\n",
            table.rows.as_slice(),
            table.digests.as_slice(),
            b"\n",
            tail,
        ],
    )
}
