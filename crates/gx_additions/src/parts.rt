//! The parts of a segment, put one behind the other.

ghost use Rattle.std.specs.Prelude.{◌≡◌, ◌++◌, drop, map, OnOk};
ghost use Rattle.std.specs.List.{flat_map};
ghost use Rattle.gx_model.specs.declared.store_versions.Version.TheVariants.{Two};
ghost use Rattle.gx_model.specs.Objects.{line};
ghost use Rattle.gx_model.specs.Texts.Numbers.{number_text};
ghost use Rattle.gx_model.specs.Stores.StoreText.{stored_record, stored_ref};
ghost use Rattle.gx_growing.specs.GrowingText.{run_text};
ghost use Rattle.gx_growing_parts.specs.Shown.{shown_run};
ghost use Rattle.gx_additions.specs.Parts.{body_called, records_front, refs_front, runs_front, table_front};

use gx_growing_parts::{Run, digest_digits};
use gx_growing_rows::Table;
use gx_object::{Kind, Name, Namer};
use gx_repo::Repo;
use gx_store::Store;
use itoa::Buffer;
use std::alloc::{AllocError, Allocator};

/// Puts the number of a store's objects from one on, and these.
pub(crate) fn put_records<N: Namer, A: Allocator + Copy>(
    bytes: &mut Vec<u8, A>,
    store: &Store<N, A>,
    held: usize,
) -> Result<(), AllocError>
    ensures { OnOk result
        (bytes.new.items ≡ bytes.old.items ++ records_front (drop held store.now.1)) }
{
    let count = store.len();
    put_count(bytes, b"objects", count.saturating_sub(held) as u64)?;
    for place in held..count {
        let Some((name, kind, body)) = store.record(place) else {
            unreachable!();
        };
        put_record(bytes, &name, kind, body)?;
    }
    Ok(())
}

/// Puts a record.
fn put_record<A: Allocator>(
    bytes: &mut Vec<u8, A>,
    name: &Name,
    kind: Kind,
    body: &[u8],
) -> Result<(), AllocError>
    ensures { OnOk result (bytes.new.items ≡ bytes.old.items ++ stored_record Two
        (record { name = name.now.bytes; kind = kind; body = body.now })) }
{
    put_body(bytes, kind.word().as_bytes(), name, body)
}

/// Puts a body behind its line, which begins with this word.
fn put_body<A: Allocator>(
    bytes: &mut Vec<u8, A>,
    word: &[u8],
    name: &Name,
    body: &[u8],
) -> Result<(), AllocError>
    ensures { OnOk result (bytes.new.items
        ≡ bytes.old.items ++ body_called word.now name.now body.now) }
{
    let mut length = Buffer::new();
    let digits = name.hex();
    put_all(
        bytes,
        &[
            word,
            b" ",
            length.format(body.len()).as_bytes(),
            b" ",
            digits.as_slice(),
            b"\n",
            body,
            b"\n",
        ],
    )
}

/// Puts the number of a table's rows, these with the digests of their pages, and an LF.
pub(crate) fn put_table<A: Allocator>(
    bytes: &mut Vec<u8, A>,
    count: u64,
    table: &Table<A>,
) -> Result<(), AllocError>
    ensures { OnOk result (bytes.new.items ≡ bytes.old.items
        ++ table_front count (table.now.rows.items ++ table.now.digests.items)) }
{
    put_count(bytes, b"rows", count)?;
    put_all(
        bytes,
        &[table.rows.as_slice(), table.digests.as_slice(), b"\n"],
    )
}

/// Puts the number of runs, and their lines.
pub(crate) fn put_runs<A: Allocator>(bytes: &mut Vec<u8, A>, runs: &[Run]) -> Result<(), AllocError>
    ensures { OnOk result
        (bytes.new.items ≡ bytes.old.items ++ runs_front (map shown_run runs.now)) }
{
    put_count(bytes, b"runs", runs.len() as u64)?;
    for run in runs {
        put_run(bytes, run)?;
    }
    Ok(())
}

/// Puts the line of a run.
fn put_run<A: Allocator>(bytes: &mut Vec<u8, A>, run: &Run) -> Result<(), AllocError>
    ensures { OnOk result (bytes.new.items ≡ bytes.old.items ++ run_text (shown_run run.now)) }
{
    let mut place = Buffer::new();
    let mut count = Buffer::new();
    let digits = digest_digits(&run.digest);
    put_all(
        bytes,
        &[
            place.format(run.place).as_bytes(),
            b" ",
            count.format(run.count).as_bytes(),
            b" ",
            digits.as_slice(),
            b"\n",
        ],
    )
}

/// Puts the number of a repository's refs, and their lines.
pub(crate) fn put_refs<N: Namer, A: Allocator + Copy>(
    bytes: &mut Vec<u8, A>,
    repo: &Repo<N, A>,
) -> Result<(), AllocError>
    ensures { OnOk result (bytes.new.items ≡ bytes.old.items ++ refs_front repo.now.1.refs) }
{
    put_count(bytes, b"refs", repo.refs().count() as u64)?;
    for (name, object) in repo.refs() {
        put_ref(bytes, name, &object)?;
    }
    Ok(())
}

/// Puts the line of a ref.
fn put_ref<A: Allocator>(
    bytes: &mut Vec<u8, A>,
    name: &[u8],
    object: &Name,
) -> Result<(), AllocError>
    ensures { OnOk result
        (bytes.new.items ≡ bytes.old.items ++ stored_ref (name.now, object.now.bytes)) }
{
    let digits = object.hex();
    put_all(bytes, &[digits.as_slice(), b" ", name, b"\n"])
}

/// Puts a line with a word and a number.
pub(crate) fn put_count<A: Allocator>(
    bytes: &mut Vec<u8, A>,
    word: &[u8],
    count: u64,
) -> Result<(), AllocError>
    ensures { OnOk result
        (bytes.new.items ≡ bytes.old.items ++ line word.now (number_text count)) }
{
    let mut digits = Buffer::new();
    put_all(bytes, &[word, b" ", digits.format(count).as_bytes(), b"\n"])
}

/// Puts these texts, one after the other.
pub(crate) fn put_all<A: Allocator>(
    bytes: &mut Vec<u8, A>,
    parts: &[&[u8]],
) -> Result<(), AllocError>
    ensures { OnOk result
        (bytes.new.items ≡ bytes.old.items ++ flat_map (λ part. part.now) parts.now) }
{
    for part in parts {
        bytes.extend_from_slice(part)?;
    }
    Ok(())
}
