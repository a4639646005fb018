//! All objects of a growing text, by the rows of its live runs.

ghost use Rattle.std.specs.Prelude.{◌≡◌, ◌+◌, ◌*◌, ◌<◌, ◌≤◌, ◌^◌, IfErr, IfOk, OnOk};
ghost use Rattle.gx_look.specs.Listing.{AddsRows, AreRowsOf, EndsBeforeRuns, ListsRows, RefusesRows, StandApart, TellsStanding};
ghost use Rattle.gx_look.specs.Reading.{EndsBefore};
ghost use Rattle.gx_look.specs.Rows.{AreNear};

use crate::fill::{read_on, refill};
use crate::records::read_heading;
use gx_at::ReadAt;
use gx_growing_parts::Run;
use gx_growing_rows::{Row, read_rows};
use gx_listed::{Listing, Standing};
use gx_object::Name;
use gx_objects::LookFault;
use std::alloc::Allocator;
use std::hash::RandomState;

/// How many bytes are read of a record: its line has fewer.
const LINE: u64 = 128;

/// The rows of runs, in the order of places.
pub(crate) fn rows_by_place<S: ReadAt, A: Allocator + Copy>(
    alloc: A,
    source: &S,
    runs: &[Run],
) -> Result<Vec<Row, A>, LookFault>
    requires { AreNear runs.now }
    ensures rows { IfOk result (λ rows. AreRowsOf (S.text source.now) runs.now rows.items) }
    ensures fault { IfErr result (EndsBeforeRuns (S.text source.now) runs.now) }
{
    let mut rows = Vec::new(alloc);
    let mut room = Vec::new(alloc);
    for run in runs {
        push_rows(alloc, source, run, &mut rows, &mut room)?;
    }
    rows.sort_unstable_by_key(
        |row: &Row| -> u64
            ensures { result ≡ row.now.1 }
        { row.1 },
    );
    Ok(rows)
}

/// Pushes the rows of a run.
fn push_rows<S: ReadAt, A: Allocator + Copy>(
    alloc: A,
    source: &S,
    run: &Run,
    rows: &mut Vec<Row, A>,
    room: &mut Vec<u8, A>,
) -> Result<(), LookFault>
    requires { run.now.place + 28 * run.now.count < 2 ^ 64 }
    ensures rows { OnOk result (AddsRows (S.text source.now) run.now rows.old.items rows.new.items) }
    ensures fault { IfErr result (EndsBefore (S.text source.now) (run.now.place + 28 * run.now.count)) }
{
    room.clear();
    read_on(source, run.place, (28 * run.count) as usize, room)?;
    let more = read_rows(alloc, room.as_slice())?;
    rows.extend_from_slice(more.as_slice())?;
    Ok(())
}

/// The objects of these names in a text with this end, each of whose records stands at its place. `Damaged` where one doesn't or begins
/// in the one before, or a name stands twice.
pub(crate) fn list_rows<S: ReadAt, A: Allocator + Copy>(
    alloc: A,
    source: &S,
    ends: u64,
    rows: &[Row],
    state: RandomState,
) -> Result<Listing<A>, LookFault>
    ensures listed { IfOk result (ListsRows (S.text source.now) ends rows.now) }
    ensures apart { IfOk result (StandApart 0) }
    ensures fault { IfErr result (RefusesRows (S.text source.now) ends rows.now) }
{
    let mut listing = Listing::new(alloc, state);
    let mut room = Vec::new(alloc);
    let mut end = 0;
    for row in rows {
        if row.1 < end {
            return Err(LookFault::Damaged);
        }
        let name = Name { bytes: row.0 };
        let (standing, behind) = standing_at(source, ends, row.1, &name, &mut room)?;
        if !listing.push(name, standing)? {
            return Err(LookFault::Damaged);
        }
        end = behind;
    }
    Ok(listing)
}

/// What the line of the record of this name at a place says, and where its body ends. `Damaged` where there stands none, or its body ends
/// behind the end.
fn standing_at<S: ReadAt, A: Allocator + Copy>(
    source: &S,
    ends: u64,
    place: u64,
    name: &Name,
    room: &mut Vec<u8, A>,
) -> Result<(Standing, u64), LookFault>
    ensures standing { TellsStanding (S.text source.now) ends place name.now result }
    ensures behind { IfOk result (λ told. (told.0.place ≡ place) × (place + told.0.length ≤ told.1)) }
{
    let Some(left) = ends.checked_sub(place) else {
        return Err(LookFault::Damaged);
    };
    refill(source, place, left.min(LINE) as usize, room)?;
    let (heading, start) = read_heading(room.as_slice())?;
    if heading.name != *name {
        return Err(LookFault::Damaged);
    }
    if heading.length > left - start as u64 {
        return Err(LookFault::Damaged);
    }
    let standing = Standing {
        place,
        kind: heading.kind,
        length: heading.length,
    };
    Ok((standing, place + start as u64 + heading.length))
}
