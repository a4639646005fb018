//! The table of rows that a writer lays out for the objects of a store. Source: this project's own format.
ghost use Rattle.std.specs.Prelude.{◌≡◌, ℕ, ◌+◌, ◌*◌, ◌≤◌, ◌++◌, codes, drop, length, IfOk, IfSome};
ghost use Rattle.std.specs.List.{flat_map};
ghost use Rattle.sha2.specs.Sha256.{sha256};
ghost use Rattle.gx_model.specs.Texts.{Bytes};
ghost use Rattle.gx_model.specs.Objects.{line};
ghost use Rattle.gx_model.specs.Texts.Numbers.{number_text};
ghost use Rattle.gx_model.specs.declared.store_versions.Version.TheVariants.{Two};
ghost use Rattle.gx_model.specs.Stores.StoreText.{stored_record};
ghost use Rattle.gx_growing.specs.GrowingText.{first_rows, page_digests, placed, row_text, rows_in, rows_place, sorted_rows};
ghost use Rattle.gx_growing_rows.specs.NextTable.{next_place, next_rows};

use crate::checking::{Row, first_row};
use gx_growing_parts::{HEAD, digest_of, first_page};
use gx_object::{Kind, Name, Namer};
use gx_store::Store;
use itoa::Buffer;
use std::alloc::{AllocError, Allocator};

/// Where rows begin, their bytes, and the digests of their pages.
#[derive(Drop)]
pub struct Table<A: Allocator> {
    pub place: u64,
    pub rows: Vec<u8, A>,
    pub digests: Vec<u8, A>,
}

/// The rows of all objects of a store, where these are the records of a growing text's first segment.
///
/// `AllocError`: a growth was refused, or the segment ends behind 2^64 bytes. Cost: the rows are sorted and hashed. Memory: two
/// rows for each object. Source: this project's own format.
pub fn first_table<N: Namer, A: Allocator + Copy>(
    alloc: A,
    store: &Store<N, A>,
) -> Result<Table<A>, AllocError>
    ensures place { IfOk result (λ table. table.place ≡ rows_place store.now.1) }
    ensures rows { IfOk result (λ table. table.rows.items ≡ first_rows store.now.1) }
    ensures digests { IfOk result (λ table.
        table.digests.items ≡ page_digests sha256 table.rows.items) }
{
    next_table(alloc, store, 0, HEAD as u64, &[])
}

/// The rows of a segment that stands behind a place of a growing text, and whose records are the objects of a store from a
/// number on: the rows of these, and those of live runs that it takes in.
///
/// `AllocError`: a growth was refused, or the segment ends behind 2^64 bytes. Cost: the rows are sorted and hashed. Memory: two
/// rows for each row. Source: this project's own format.
pub fn next_table<N: Namer, A: Allocator + Copy>(
    alloc: A,
    store: &Store<N, A>,
    held: usize,
    ends: u64,
    taken_in: &[u8],
) -> Result<Table<A>, AllocError>
    ensures place { (taken : ℕ) → length taken_in.now ≡ 28 * taken
        → IfOk result (λ table. table.place ≡ next_place ends (drop held store.now.1) taken) }
    ensures rows { (taken : ℕ) → length taken_in.now ≡ 28 * taken
        → IfOk result (λ table. table.rows.items ≡ flat_map row_text
        (next_rows ends (drop held store.now.1) (rows_in taken taken_in.now))) }
    ensures digests { IfOk result (λ table.
        table.digests.items ≡ page_digests sha256 table.rows.items) }
{
    let mut rows = read_rows(alloc, taken_in)?;
    let Some(first) = first_place(ends, store.len().saturating_sub(held)) else {
        return Err(AllocError);
    };
    let behind = push_placed(&mut rows, store, held, first)?;
    table_behind(alloc, rows, behind)
}

/// The table of these rows, put in order, in a segment whose records end at a place.
///
/// `AllocError`: a growth was refused, or the line of the rows ends behind 2^64 bytes. Cost: the rows are sorted and hashed. Memory:
/// 28 bytes for each row. Source: this project's own format.
pub fn table_behind<A: Allocator + Copy>(
    alloc: A,
    rows: Vec<Row, A>,
    behind: u64,
) -> Result<Table<A>, AllocError>
    ensures place { IfOk result (λ table. table.place
        ≡ behind + length (line (codes "rows") (number_text (length rows.items)))) }
    ensures rows { IfOk result (λ table.
        table.rows.items ≡ flat_map row_text (sorted_rows rows.items)) }
    ensures digests { IfOk result (λ table.
        table.digests.items ≡ page_digests sha256 table.rows.items) }
{
    let mut rows = rows;
    let count = rows.len();
    rows.sort_unstable();
    let Some(place) = behind.checked_add(line_length(b"rows", count)) else {
        return Err(AllocError);
    };
    let rows = row_bytes(alloc, rows.as_slice())?;
    let digests = page_digests(alloc, rows.as_slice())?;
    Ok(Table {
        place,
        rows,
        digests,
    })
}

/// Where the first record stands of a segment with so many objects behind a place, if that is below 2^64. Cost: constant. Takes no
/// memory. Source: this project's own format.
pub fn first_place(ends: u64, count: usize) -> Option<u64>
    ensures { IfSome result (λ first.
        first ≡ ends + length (line (codes "objects") (number_text count))) }
{
    ends.checked_add(line_length(b"objects", count))
}

/// The rows that bytes are, each of 28. Cost and memory: the rows. Source: this project's own format.
pub fn read_rows<A: Allocator + Copy>(alloc: A, bytes: &[u8]) -> Result<Vec<Row, A>, AllocError>
    ensures { (count : ℕ) → length bytes.now ≡ 28 * count
        → IfOk result (λ rows. rows.items ≡ rows_in count bytes.now) }
{
    let mut rows = Vec::new(alloc);
    let mut rest = bytes;
    while let Some((row, behind)) = first_row(rest) {
        rows.push(row)?;
        rest = behind;
    }
    Ok(rows)
}

/// Pushes the names of a store's objects from a number on, with the places of their lines, of which this is the first, and
/// answers where the last one ends.
fn push_placed<N: Namer, A: Allocator + Copy>(
    rows: &mut Vec<Row, A>,
    store: &Store<N, A>,
    held: usize,
    first: u64,
) -> Result<u64, AllocError>
    ensures rows { IfOk result (λ behind.
        rows.new.items ≡ rows.old.items ++ placed first (drop held store.now.1)) }
    ensures behind { IfOk result (λ behind.
        behind ≡ first + length (flat_map (stored_record Two) (drop held store.now.1))) }
{
    let mut place = first;
    for at in held..store.len() {
        let Some((name, kind, body)) = store.record(at) else {
            unreachable!();
        };
        let Some(behind) = record_end(place, &name, kind, body.len() as u64) else {
            return Err(AllocError);
        };
        let bytes = name.bytes;
        rows.push((bytes, place))?;
        place = behind;
    }
    Ok(place)
}

/// Where the text of a record ends that begins at a place, and whose body has so many bytes, if that is below 2^64. Cost: constant.
/// Takes no memory. Source: this project's own format.
pub fn record_end(place: u64, name: &Name, kind: Kind, size: u64) -> Option<u64>
    ensures { IfSome result (λ behind. (body : Bytes) → length body ≡ size
        → behind ≡ place + length (stored_record Two
        (record { name = name.now.bytes; kind = kind; body = body }))) }
{
    // two spaces and an LF stand in the line beside the digits of the name, and an LF behind the body
    let digits = digits_length(size as usize);
    let line = kind.word().len() + digits + 2 * name.bytes.as_slice().len() + 4;
    let begins = place.checked_add(line as u64)?;
    let behind = begins.checked_add(size)?;
    Some(behind)
}

/// How many bytes a line has in which a number follows a word.
fn line_length(word: &[u8], number: usize) -> u64
    requires { length word.now ≤ 20 }
    ensures length { result ≡ length (line word.now (number_text number)) }
    ensures bound { result ≤ 42 }
{
    (word.len() + digits_length(number) + 2) as u64
}

/// How many digits a number has.
fn digits_length(number: usize) -> usize
    ensures length { result ≡ length (number_text number) }
    ensures bound { result ≤ 20 }
{
    let mut digits = Buffer::new();
    digits.format(number).len()
}

/// The bytes of rows.
fn row_bytes<A: Allocator + Copy>(alloc: A, rows: &[Row]) -> Result<Vec<u8, A>, AllocError>
    ensures { IfOk result (λ bytes. bytes.items ≡ flat_map row_text rows.now) }
{
    let mut bytes = Vec::new(alloc);
    for row in rows {
        bytes.extend_from_slice(&row.0)?;
        bytes.extend_from_slice(&row.1.to_be_bytes())?;
    }
    Ok(bytes)
}

/// The digests of the pages of rows.
fn page_digests<A: Allocator + Copy>(alloc: A, rows: &[u8]) -> Result<Vec<u8, A>, AllocError>
    ensures { IfOk result (λ digests. digests.items ≡ page_digests sha256 rows.now) }
{
    let mut digests = Vec::new(alloc);
    let mut rest = rows;
    while !rest.is_empty() {
        let (page, behind) = first_page(rest);
        digests.extend_from_slice(&digest_of(page))?;
        rest = behind;
    }
    Ok(digests)
}
