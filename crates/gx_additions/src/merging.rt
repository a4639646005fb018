//! The live runs that a new one takes in.

ghost use Rattle.std.specs.Prelude.{◌≡◌, ◌++◌, ◌≤◌, drop, length, map, take, true, false, IfErr, IfOk, OnOk};
ghost use Rattle.gx_growing_parts.specs.Shown.{shown_run};
ghost use Rattle.gx_additions.specs.Faults.{IsOfDevice};
ghost use Rattle.gx_additions.specs.Merging.{AddsRows, StayLive, AreTakenIn, Fits, ReadsRows};

use crate::fault::AdditionFault;
use gx_at::{ReadAt, fill_at};
use gx_growing_parts::Run;
use std::alloc::Allocator;

/// The live runs that stay where a segment brings so many rows, and those that its run takes in: the last ones, while each of
/// them has at most twice as many rows as the new run has so far. No more rows are taken in than `most`.
pub(crate) fn split_runs(runs: &[Run], new: u64, most: u64) -> (&[Run], &[Run])
    ensures runs { result.0.now ++ result.1.now ≡ runs.now }
    ensures taken { AreTakenIn new most result.1.now }
    ensures kept { StayLive new most result.0.now result.1.now }
{
    runs.split_at(kept_runs(runs, new, most))
}

/// How many of the live runs stay.
fn kept_runs(runs: &[Run], new: u64, most: u64) -> usize
    ensures runs { result ≤ length runs.now }
    ensures taken { AreTakenIn new most (drop result runs.now) }
    ensures kept { StayLive new most (take result runs.now) (drop result runs.now) }
{
    let mut kept = runs.len();
    let mut rows = 0;
    while kept > 0 {
        let count = runs[kept - 1].count;
        if !is_taken_in(count, rows, new, most) {
            return kept;
        }
        rows += count;
        kept -= 1;
    }
    0
}

/// Whether a run of so many rows is taken in where those of others are, beside new ones.
fn is_taken_in(count: u64, rows: u64, new: u64, most: u64) -> bool
    requires { rows ≤ most }
    ensures fits { result ≡ true → Fits new most rows count }
    ensures too_many { result ≡ false → Fits new most rows count → ⊥ }
{
    if count > most - rows {
        return false;
    }
    count
        .saturating_sub(rows)
        .saturating_sub(rows)
        .saturating_sub(new)
        <= new
}

/// The rows of runs, one behind the other.
///
/// `OutOfMemory`: a growth was refused. `ReadFailed`: a read failed, or the text ends before.
pub(crate) fn read_rows<S: ReadAt, A: Allocator + Copy>(
    alloc: A,
    source: &S,
    runs: &[Run],
) -> Result<Vec<u8, A>, AdditionFault>
    ensures rows { IfOk result (λ rows.
        ReadsRows (S.text source.now) (map shown_run runs.now) rows.items) }
    ensures fault { IfErr result (λ fault. IsOfDevice fault → ⊥) }
{
    let mut rows = Vec::new(alloc);
    for run in runs {
        read_run(source, run, &mut rows)?;
    }
    Ok(rows)
}

/// Reads the rows of a run behind others.
fn read_run<S: ReadAt, A: Allocator + Copy>(
    source: &S,
    run: &Run,
    rows: &mut Vec<u8, A>,
) -> Result<(), AdditionFault>
    ensures rows { OnOk result
        (AddsRows (S.text source.now) (shown_run run.now) rows.old.items rows.new.items) }
    ensures fault { IfErr result (λ fault. IsOfDevice fault → ⊥) }
{
    let done = rows.len();
    let Some(length) = run.count.checked_mul(28) else {
        return Err(AdditionFault::ReadFailed);
    };
    if length >= u64::MAX - run.place {
        return Err(AdditionFault::ReadFailed);
    }
    let Some(whole) = done.checked_add(length as usize) else {
        return Err(AdditionFault::OutOfMemory);
    };
    rows.resize(whole, 0)?;
    fill_at(source, run.place, &mut rows.as_mut_slice()[done..])?;
    Ok(())
}
