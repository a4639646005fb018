//! What stands around the records of a growing text, laid out before a body is read. Source: this project's own format.

ghost use Rattle.std.specs.Prelude.{◌≡◌, List, length, nat_eq, IfOk};
ghost use Rattle.std.specs.List.{filter, flat_map};
ghost use Rattle.gx_model.specs.Histories.{Record};
ghost use Rattle.gx_model.specs.Texts.{Bytes};
ghost use Rattle.gx_model.specs.Stores.StoreText.{stored_ref};
ghost use Rattle.gx_objects.specs.Answers.{AreRefs, SpellsRefs};
ghost use Rattle.gx_store.specs.Marked.{marked};
ghost use Rattle.gx_growing.specs.GrowingText.{tail_text};
ghost use Rattle.gx_file.specs.Sending.{Sent};
ghost use Rattle.gx_growing_file.specs.Sending.{runs_of};
ghost use Rattle.gx_listed.specs.Listings.{HaveHeads};
ghost use Rattle.gx_kept.specs.Layouts.{ArePlaced, LaysOutMarked};

use crate::gone::count_marks;
use gx_file::{send_count, send_text};
use gx_growing_file::{Layout, run_of, send_runs, slot_of};
use gx_growing_parts::{HEAD, Run};
use gx_growing_rows::{Row, first_place, record_end, table_behind};
use gx_listed::Listing;
use gx_text::{Failed, Growing, Sink};
use std::alloc::{AllocError, Allocator};

/// What stands around the objects that are marked, and the refs of these lines, in a text that has fewer than 2^63 bytes.
///
/// `AllocError`: a growth was refused, or the text has more. Cost: the rows are sorted and hashed. Memory: two rows for each of the
/// objects, and the lines.
pub(crate) fn layout_of<A: Allocator + Copy>(
    alloc: A,
    listing: &Listing<A>,
    marks: &[bool],
    lines: &[u8],
) -> Result<Layout<A>, AllocError>
    requires long { length marks.now ≡ length listing.now }
    requires lines { SpellsRefs lines.now }
    ensures { IfOk result (LaysOutMarked listing.now marks.now lines.now) }
{
    let (rows, behind) = placed(alloc, listing, marks)?;
    let count = rows.len();
    let table = table_behind(alloc, rows, behind)?;
    let tail = tail_of(alloc, run_of(count, &table), lines)?;
    let Some(slot) = slot_of(&table, tail.as_slice()) else {
        return Err(AllocError);
    };
    Ok(Layout { slot, table, tail })
}

/// The rows of the objects that are marked, as their records stand one behind the other, and where the last one ends.
fn placed<A: Allocator + Copy>(
    alloc: A,
    listing: &Listing<A>,
    marks: &[bool],
) -> Result<(Vec<Row, A>, u64), AllocError>
    requires long { length marks.now ≡ length listing.now }
    ensures { IfOk result (λ laid. (records : List Record) → HaveHeads (marked marks.now listing.now) records
        → ArePlaced records laid.0.items laid.1) }
{
    let Some(first) = first_place(HEAD as u64, count_marks(marks)) else {
        return Err(AllocError);
    };
    let mut rows = Vec::new(alloc);
    let mut place = first;
    for number in 0..listing.len() {
        if marks[number] {
            let Some((name, standing)) = listing.get(number) else {
                unreachable!();
            };
            let Some(behind) = record_end(place, &name, standing.kind, standing.length) else {
                return Err(AllocError);
            };
            let bytes = name.bytes;
            rows.push((bytes, place))?;
            place = behind;
        }
    }
    Ok((rows, place))
}

/// The tail of a segment with these runs, and the refs of these lines.
fn tail_of<A: Allocator + Copy>(
    alloc: A,
    run: Option<Run>,
    lines: &[u8],
) -> Result<Vec<u8, A>, AllocError>
    ensures { IfOk result (λ tail. (refs : List (Bytes × Bytes)) → AreRefs refs
        → lines.now ≡ flat_map stored_ref refs → tail.items ≡ tail_text (runs_of run) refs) }
{
    let mut tail = Growing::new(alloc);
    match send_tail(run, lines, &mut tail) {
        Ok(()) => Ok(tail.into_bytes()),
        Err(Failed) => Err(AllocError),
    }
}

/// Sends the tail of a segment with these runs, and the refs of these lines.
fn send_tail<W: Sink>(run: Option<Run>, lines: &[u8], sink: &mut W) -> Result<(), Failed>
    ensures { (refs : List (Bytes × Bytes)) → AreRefs refs → lines.now ≡ flat_map stored_ref refs
        → Sent (tail_text (runs_of run) refs) (W.taken sink.old) (W.taken sink.new) result }
{
    send_runs(sink, run)?;
    send_count(sink, b"refs", count_lines(lines))?;
    send_text(sink, lines)?;
    send_text(sink, b"end\n")
}

/// How many lines there are.
fn count_lines(text: &[u8]) -> usize
    ensures { result ≡ length (filter (λ byte. nat_eq byte 10) text.now) }
{
    let mut count = 0;
    for byte in text {
        if *byte == b'\n' {
            count += 1;
        }
    }
    count
}
