//! The rows of live runs, held against the objects of a store. Source: this project's own format.
ghost use Rattle.std.specs.Prelude.{◌≡◌, ◌&&◌, ◌<◌, ◌≤◌, drop, length, map, take, IfOk};
ghost use Rattle.std.specs.Int.{from_be_bytes, w64};
ghost use Rattle.std.specs.List.{list_all};
ghost use Rattle.std.specs.Option.{MatchOption};
ghost use Rattle.sha2.specs.Sha256.{sha256};
ghost use Rattle.gx_growing.specs.GrowingReading.{is_standing, same_rows};
ghost use Rattle.gx_growing.specs.GrowingText.{live_rows, part, sorted_rows};
ghost use Rattle.gx_growing_parts.specs.Shown.{shown_run};
ghost use Rattle.gx_growing_parts.specs.Placing.{rows_of};
ghost use Rattle.gx_growing_rows.specs.Rising.{GathersRows, PushesRows, PushesRun, is_above};

use gx_growing_parts::{Run, standing_rows};
use gx_object::Namer;
use gx_store::Store;
use std::alloc::{AllocError, Allocator};

/// A record's name, and where its line begins. Rows have the order of names.
pub type Row = ([u8; 20], u64);

/// Whether live runs stand in the segments of a text, and their rows are those of all objects of a store with these places,
/// each once.
///
/// `AllocError`: a growth was refused. Cost: the rows are hashed and sorted; no more of them than there are objects. Memory: two
/// rows for each object. Source: this project's own format.
pub fn check_rows<N: Namer, A: Allocator + Copy>(
    alloc: A,
    store: &Store<N, A>,
    places: &[u64],
    text: &[u8],
    runs: &[Run],
) -> Result<bool, AllocError>
    requires aligned { length places.now ≡ length store.now.1 }
    ensures { IfOk result (λ told. told ≡ (
        list_all (is_standing sha256 text.now) (map shown_run runs.now)
        && same_rows (sorted_rows (live_rows text.now (map shown_run runs.now)))
        (sorted_rows (rows_of store.now.1 places.now)))) }
{
    let mut placed = placed_rows(alloc, store, places)?;
    let mut live = Vec::new(alloc);
    if !gather_rows(&mut live, places.len(), text, runs)? {
        return Ok(false);
    }
    placed.sort_unstable();
    live.sort_unstable();
    Ok(live.as_slice() == placed.as_slice())
}

/// The names of all objects of a store, with these places.
fn placed_rows<N: Namer, A: Allocator + Copy>(
    alloc: A,
    store: &Store<N, A>,
    places: &[u64],
) -> Result<Vec<Row, A>, AllocError>
    requires { length places.now ≡ length store.now.1 }
    ensures { IfOk result (λ rows. rows.items ≡ rows_of store.now.1 places.now) }
{
    let mut rows = Vec::new(alloc);
    for at in 0..places.len() {
        let Some((name, _kind, _body)) = store.record(at) else {
            unreachable!();
        };
        let bytes = name.bytes;
        rows.push((bytes, places[at]))?;
    }
    Ok(rows)
}

/// Pushes the rows of runs, and answers whether each of these stands in the text, and they have no more rows than `most`.
fn gather_rows<A: Allocator + Copy>(
    live: &mut Vec<Row, A>,
    most: usize,
    text: &[u8],
    runs: &[Run],
) -> Result<bool, AllocError>
    requires { length live.old.items ≡ 0 }
    ensures { GathersRows sha256 text.now most (map shown_run runs.now) live.new.items result }
{
    for run in runs {
        if !push_run(live, most, text, run)? {
            return Ok(false);
        }
    }
    Ok(true)
}

/// Pushes the rows of a run, and answers whether it stands in the text, and there are no more rows than `most` then.
fn push_run<A: Allocator + Copy>(
    live: &mut Vec<Row, A>,
    most: usize,
    text: &[u8],
    run: &Run,
) -> Result<bool, AllocError>
    requires { length live.old.items ≤ most }
    ensures { PushesRun sha256 text.now most (shown_run run.now)
        live.old.items live.new.items result }
{
    let Some(rows) = standing_rows(text, run) else {
        return Ok(false);
    };
    if run.count > (most - live.len()) as u64 {
        return Ok(false);
    }
    push_rows(live, rows)
}

/// Pushes so many rows, and answers whether their names go up.
fn push_rows<A: Allocator + Copy>(live: &mut Vec<Row, A>, rows: &[u8]) -> Result<bool, AllocError>
    ensures { PushesRows rows.now live.old.items live.new.items result }
{
    let mut last = None;
    let mut rest = rows;
    while let Some((row, behind)) = first_row(rest) {
        let name = row.0;
        if !is_above(last, &name) {
            return Ok(false);
        }
        last = Some(name);
        live.push(row)?;
        rest = behind;
    }
    Ok(true)
}

/// Whether a name stands behind the one before, where there is one.
fn is_above(last: Option<[u8; 20]>, name: &[u8; 20]) -> bool
    ensures { result ≡ is_above last name.now }
{
    match last {
        Some(last) => last.cmp(name).is_lt(),
        None => true,
    }
}

/// The first row, whose place has its most significant byte first, and those behind it.
pub(crate) fn first_row(rows: &[u8]) -> Option<(Row, &[u8])>
    ensures { MatchOption result (length rows.now < 28) (λ parts. (28 ≤ length rows.now)
        × (parts.0 ≡ (take 20 rows.now, from_be_bytes w64 (part rows.now 20 8)))
        × (parts.1.now ≡ drop 28 rows.now)) }
{
    let (name, rest) = rows.split_first_chunk::<20>()?;
    let (place, rest) = rest.split_first_chunk::<8>()?;
    Some(((*name, u64::from_be_bytes(*place)), rest))
}
