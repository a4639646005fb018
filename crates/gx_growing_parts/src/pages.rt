//! Tables of rows, and the digests of their pages. Source: this project's own format.
ghost use Rattle.std.specs.Prelude.{◌≡◌, ◌<◌, ◌≤◌, ◌^◌, drop, length, take, true, false};
ghost use Rattle.std.specs.Option.{MatchOption};
ghost use Rattle.sha2.specs.Sha256.{sha256};
ghost use Rattle.gx_model.specs.Faults.{NeedsNoMemory};
ghost use Rattle.gx_model.specs.Stores.StoreReading.{stored_body};
ghost use Rattle.gx_model.specs.Texts.{same_bytes};
ghost use Rattle.gx_growing.specs.GrowingText.{page_digests, run_bytes, table_length};
ghost use Rattle.gx_lines.specs.Reads.{Reads};
ghost use Rattle.gx_text.specs.Lent.{lent_pair};
ghost use Rattle.gx_growing_parts.specs.Shown.{shown_run};
ghost use Rattle.gx_growing_parts.specs.Tables.{digests_at, has_table, is_within, rows_at};

use crate::digests::digest_of;
use crate::head::HEAD;
use crate::runs::Run;
use gx_lines::{FileFault, read_body};

/// The bytes of a row, and of a page's rows.
const ROW: u64 = 28;

const PAGE: usize = 16_380;

/// The bytes of so many rows with the digests of their pages, and what follows the LF behind them. The digests aren't looked
/// at.
///
/// `Truncated`: the text ends before the LF. `BadRecord`: another byte stands in its place. Cost: constant. Takes no memory.
/// Source: this project's own format.
pub fn read_table(count: u64, text: &[u8]) -> Result<(&[u8], &[u8]), FileFault>
    ensures table { Reads lent_pair result (stored_body (table_length count) text.now) }
    ensures memory { NeedsNoMemory FileFault.OutOfMemory result }
{
    match table_length(count) {
        Some(length) => read_body(length, text),
        None => Err(FileFault::Truncated),
    }
}

/// How many bytes so many rows and their digests have, where these are fewer than 2^64.
fn table_length(count: u64) -> Option<u64>
    ensures { MatchOption result (2 ^ 64 ≤ table_length count)
        (λ length. length ≡ table_length count) }
{
    let rows = count.checked_mul(ROW)?;
    let pages = rows.checked_add(16_379)? / 16_380;
    rows.checked_add(32 * pages)
}

/// The rows of a run, where they stand in the segments of a text with their pages' digests, of which the run has the digest.
///
/// Cost: the rows are hashed. Takes no memory. Source: this project's own format.
pub fn standing_rows<'a>(text: &'a [u8], run: &Run) -> Option<&'a [u8]>
    ensures { MatchOption result (has_table sha256 text.now (shown_run run.now) ≡ false)
        (λ rows. (has_table sha256 text.now (shown_run run.now) ≡ true)
        × (rows.now ≡ run_bytes text.now (shown_run run.now))) }
{
    let (rows, digests) = table_at(text, run.place, run.count)?;
    if digest_of(digests) != run.digest {
        return None;
    }
    if are_pages(rows, digests) {
        Some(rows)
    } else {
        None
    }
}

/// The rows and the digests of a table, where it stands in the segments of a text.
fn table_at(text: &[u8], place: u64, count: u64) -> Option<(&[u8], &[u8])>
    ensures { MatchOption result (is_within text.now place count ≡ false) (λ parts.
        (is_within text.now place count ≡ true) × (parts.0.now ≡ rows_at text.now place count)
        × (parts.1.now ≡ digests_at text.now place count)) }
{
    let length = table_length(count)?;
    if place < HEAD as u64 {
        return None;
    }
    if place > text.len() as u64 {
        return None;
    }
    if text.len() as u64 - place < length {
        return None;
    }
    let (_front, rest) = text.split_at(place as usize);
    let (table, _behind) = rest.split_at(length as usize);
    Some(table.split_at((ROW * count) as usize))
}

/// Whether these are the digests of the pages of some rows.
fn are_pages(rows: &[u8], digests: &[u8]) -> bool
    ensures { result ≡ same_bytes digests.now (page_digests sha256 rows.now) }
{
    let mut rows = rows;
    let mut digests = digests;
    while !rows.is_empty() {
        let (page, behind) = first_page(rows);
        let Some((stated, others)) = digests.split_first_chunk::<32>() else {
            return false;
        };
        if *stated != digest_of(page) {
            return false;
        }
        rows = behind;
        digests = others;
    }
    digests.is_empty()
}

/// The bytes of the rows of the first page, and those behind them. Cost: constant. Takes no memory. Source: this project's own
/// format.
pub fn first_page(rows: &[u8]) -> (&[u8], &[u8])
    ensures page { result.0.now ≡ take 16380 rows.now }
    ensures behind { result.1.now ≡ drop 16380 rows.now }
{
    if rows.len() <= PAGE {
        return (rows, b"");
    }
    rows.split_at(PAGE)
}
