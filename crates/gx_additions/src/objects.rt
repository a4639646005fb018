//! The segments by which a growing text has new objects.

ghost use Rattle.std.specs.Prelude.{◌≡◌, ◌++◌, drop, List, map, IfErr, IfOk};
ghost use Rattle.sha2.specs.Sha256.{sha256};
ghost use Rattle.gx_model.specs.Texts.{Bytes};
ghost use Rattle.gx_growing_parts.specs.Shown.{shown_run};
ghost use Rattle.gx_additions.specs.Additions.{AreLines};
ghost use Rattle.gx_additions.specs.Faults.{IsOfDevice};
ghost use Rattle.gx_additions.specs.NewObjects.{Begins, BringsObjects, IsFront, laid_out, new_run};

use crate::fault::AdditionFault;
use crate::merging::{read_rows, split_runs};
use crate::parts::{put_all, put_count, put_records, put_refs, put_runs, put_table};
use crate::slot::{Addition, with_slot};
use gx_at::ReadAt;
use gx_growing_parts::{Ending, Run, digest_of};
use gx_growing_rows::{Table, next_table};
use gx_object::Namer;
use gx_repo::Repo;
use gx_store::Store;
use std::alloc::{AllocError, Allocator};

/// The segment by which a growing text has a repository's objects from one on, and its refs.
pub(crate) fn new_objects<S: ReadAt, N: Namer, A: Allocator + Copy>(
    alloc: A,
    source: &S,
    ending: Ending<'_>,
    repo: &Repo<N, A>,
    held: usize,
) -> Result<Addition<A>, AdditionFault>
    ensures objects { IfOk result (λ made.
        BringsObjects (S.text source.now) ending.entry (drop held repo.now.1.records)
        repo.now.1.refs made.segment.items made.slot.items) }
    ensures fault { IfErr result (λ fault. IsOfDevice fault → ⊥) }
{
    let (mut segment, front) = front_of(alloc, source, ending, held as u64, repo.store(), held)?;
    put_refs(&mut segment, repo)?;
    segment.extend_from_slice(b"end\n")?;
    let added = with_slot(alloc, ending.ends, segment, front)?;
    Ok(added)
}

/// The segment by which a growing text, which holds so many objects, has a store's objects, and refs, so many of them, by their lines.
pub(crate) fn new_additions<S: ReadAt, N: Namer, A: Allocator + Copy>(
    alloc: A,
    source: &S,
    ending: Ending<'_>,
    held: u64,
    store: &Store<N, A>,
    count: u64,
    refs: &[u8],
) -> Result<Addition<A>, AdditionFault>
    ensures objects { IfOk result (λ made. (named : List (Bytes × Bytes))
        → AreLines named count refs.now
        → BringsObjects (S.text source.now) ending.entry store.now.1 named
        made.segment.items made.slot.items) }
    ensures fault { IfErr result (λ fault. IsOfDevice fault → ⊥) }
{
    let (mut segment, front) = front_of(alloc, source, ending, held, store, 0)?;
    put_count(&mut segment, b"refs", count)?;
    put_all(&mut segment, &[refs, b"end\n"])?;
    let added = with_slot(alloc, ending.ends, segment, front)?;
    Ok(added)
}

/// What stands in front of the refs in the segment by which a growing text, which holds so many objects, has a store's objects from
/// one on. Beside it is told how many bytes stand before the tail.
fn front_of<S: ReadAt, N: Namer, A: Allocator + Copy>(
    alloc: A,
    source: &S,
    ending: Ending<'_>,
    held: u64,
    store: &Store<N, A>,
    from: usize,
) -> Result<(Vec<u8, A>, usize), AdditionFault>
    ensures front { IfOk result (λ made.
        Begins (S.text source.now) ending.entry (drop from store.now.1) made.0.items made.1) }
    ensures fault { IfErr result (λ fault. IsOfDevice fault → ⊥) }
{
    let new = store.len().saturating_sub(from);
    let (kept, taken) = split_runs(ending.runs, new as u64, held);
    let rows = read_rows(alloc, source, taken)?;
    let table = next_table(alloc, store, from, ending.ends, rows.as_slice())?;
    let Some(count) = (rows.len() / 28).checked_add(new) else {
        return Err(AdditionFault::OutOfMemory);
    };
    let made = front_with(alloc, store, from, kept, count as u64, &table)?;
    Ok(made)
}

/// The same with a table of so many rows, and live runs that stay.
fn front_with<N: Namer, A: Allocator + Copy>(
    alloc: A,
    store: &Store<N, A>,
    from: usize,
    kept: &[Run],
    count: u64,
    table: &Table<A>,
) -> Result<(Vec<u8, A>, usize), AllocError>
    ensures { IfOk result (λ made. IsFront
        (laid_out (drop from store.now.1) (map shown_run kept.now) count table.now)
        made.0.items made.1) }
{
    let runs = runs_with(alloc, kept, count, table)?;
    let mut segment = Vec::new(alloc);
    put_records(&mut segment, store, from)?;
    put_table(&mut segment, count, table)?;
    let front = segment.len();
    put_runs(&mut segment, runs.as_slice())?;
    Ok((segment, front))
}

/// Live runs, and behind them that of a table with so many rows, if it has any.
fn runs_with<A: Allocator + Copy>(
    alloc: A,
    kept: &[Run],
    count: u64,
    table: &Table<A>,
) -> Result<Vec<Run, A>, AllocError>
    ensures { IfOk result (λ runs. map shown_run runs.items ≡ map shown_run kept.now
        ++ new_run sha256 table.now.place count table.now.digests.items) }
{
    let mut runs = Vec::from_slice(alloc, kept)?;
    if count > 0 {
        let digest = digest_of(table.digests.as_slice());
        let place = table.place;
        runs.push(Run {
            place,
            count,
            digest,
        })?;
    }
    Ok(runs)
}
