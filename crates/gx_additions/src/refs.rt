//! The segment by which a growing text has other refs.

ghost use Rattle.std.specs.Prelude.{◌≡◌, ◌+◌, ◌<◌, ◌^◌, [], List, length, map, IfOk};
ghost use Rattle.sha2.specs.Sha256.{sha256};
ghost use Rattle.gx_model.specs.Texts.{Bytes};
ghost use Rattle.gx_growing.specs.GrowingLaws.{next_slot};
ghost use Rattle.gx_growing.specs.GrowingText.{records_text, rows_text, segment_text, slot_text};
ghost use Rattle.gx_growing_parts.specs.Shown.{shown_run};
ghost use Rattle.gx_additions.specs.Additions.{AreLines, refs_alone, tail_with};

use crate::parts::{put_all, put_count, put_runs};
use crate::slot::{Addition, with_slot};
use gx_growing_parts::{Ending, Run};
use std::alloc::{AllocError, Allocator};

/// The segment by which a growing text with an ending has other refs, so many of them, by their lines. It brings no objects: the
/// live runs stay.
///
/// `AllocError`: a growth was refused, or the text would have 2^63 bytes or more.
/// Cost: the lines, which are hashed. Memory: the segment. Source: this project's own format.
pub fn refs_alone<A: Allocator + Copy>(
    alloc: A,
    ending: Ending<'_>,
    count: u64,
    refs: &[u8],
) -> Result<Addition<A>, AllocError>
    ensures segment { IfOk result (λ made. (named : List (Bytes × Bytes))
        → AreLines named count refs.now
        → made.segment.items
        ≡ segment_text (refs_alone (map shown_run ending.entry.runs.now) named)) }
    ensures slot { IfOk result (λ made. (named : List (Bytes × Bytes))
        → AreLines named count refs.now
        → made.slot.items ≡ slot_text
        (next_slot sha256 ending.entry.ends
        (refs_alone (map shown_run ending.entry.runs.now) named))) }
    ensures short { IfOk result (λ made. ending.entry.ends + length made.segment.items < 2 ^ 63) }
{
    let segment = segment_of(alloc, ending.runs, count, refs)?;
    with_slot(alloc, ending.ends, segment, 18)
}

/// No objects and no rows, and the tail that these runs and lines make.
fn segment_of<A: Allocator + Copy>(
    alloc: A,
    runs: &[Run],
    count: u64,
    refs: &[u8],
) -> Result<Vec<u8, A>, AllocError>
    ensures { IfOk result (λ segment. segment.items
        ≡ records_text [] (rows_text 0 [] (tail_with (map shown_run runs.now) count refs.now))) }
{
    let mut segment = Vec::from_slice(alloc, b"objects 0\nrows 0\n\n")?;
    put_runs(&mut segment, runs)?;
    put_count(&mut segment, b"refs", count)?;
    put_all(&mut segment, &[refs, b"end\n"])?;
    Ok(segment)
}
