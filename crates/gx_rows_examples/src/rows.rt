//! Rows that are found, and those that aren't.

ghost use Rattle.std.specs.Prelude.{◌+◌, ◌*◌, ◌<◌, ◌^◌};

use crate::counted::Counted;
use crate::tables::{FRONT, name_of, spread, table_of};
use gx_at::TextAt;
use gx_rows::{Found, Row, Table, find_row, first_from};
use gx_text::Failed;
use std::alloc::Global;
use std::cell::Cell;
use std::test::Fail;

/// The table of a text that `table_of` makes.
fn whole(text: &[u8]) -> Table
    ensures { result.at + 28 * result.count < 2 ^ 64 }
{
    let rows = text.len().saturating_sub(FRONT) as u64 / 28;
    Table {
        at: FRONT as u64,
        count: rows,
    }
}

/// Whether each number's row is found by reads of at most so many bytes, and no row between two of them.
fn all_found(text: &[u8], numbers: &[u64], piece: usize) -> bool {
    let source = TextAt { text, piece };
    for row in 0..numbers.len() {
        let number = numbers[row];
        let found = Found {
            row: row as u64,
            place: !number,
        };
        if find_row(&source, whole(text), &name_of(number)) != Ok(Some(found)) {
            return false;
        }
        if find_row(&source, whole(text), &name_of(number ^ 1)) != Ok(None) {
            return false;
        }
    }
    true
}

/// Whether the rows of so many numbers are found, however reads are cut.
fn found_in_pieces(alloc: Global, count: usize) -> Option<bool> {
    let numbers = spread(alloc, count)?;
    let text = table_of(alloc, &numbers)?;
    for piece in [1, 27, 4_000, 1_000_000] {
        if !all_found(&text, &numbers, piece) {
            return Some(false);
        }
    }
    Some(true)
}

#[test]
fn each_row_is_found_however_reads_are_cut(rt: HostRuntime) -> Result<(), Fail> {
    for count in [0, 1, 2, 145, 146, 147, 600] {
        assert!(rt; found_in_pieces(rt.alloc(), count) == Some(true));
    }
    Ok(())
}

/// How many reads the look-up of a number takes; none where it isn't found.
fn reads_of(text: &[u8], number: u64) -> Option<u64> {
    let reads = Cell::new(0);
    let source = Counted {
        text: TextAt {
            text,
            piece: usize::MAX,
        },
        reads: &reads,
        most: u64::MAX,
    };
    let _found = find_row(&source, whole(text), &name_of(number)).ok()??;
    Some(reads.get())
}

/// The fewest and the most reads that look-ups of these numbers take, of those a step apart. The first one is left out: its row is
/// the first guess.
fn reads_of_each(text: &[u8], numbers: &[u64], step: usize) -> Option<(u64, u64)>
    requires { 0 < step }
{
    let mut ends = (u64::MAX, 0);
    for (row, number) in numbers.iter().enumerate() {
        if row > 0 && row % step == 0 {
            let reads = reads_of(text, *number)?;
            ends = (reads.min(ends.0), reads.max(ends.1));
        }
    }
    Some(ends)
}

/// The fewest and the most reads of look-ups among so many rows.
fn reads_among(alloc: Global, count: usize, step: usize) -> Option<(u64, u64)>
    requires { 0 < step }
{
    let numbers = spread(alloc, count)?;
    let text = table_of(alloc, &numbers)?;
    reads_of_each(&text, &numbers, step)
}

#[test]
fn reads_do_not_grow_with_the_table(rt: HostRuntime) {
    for count in [73, 1_000, 4_000] {
        assert!(rt; reads_among(rt.alloc(), count, 1) == Some((1, 1)));
    }
    for count in [5_001, 20_000, 300_000] {
        assert!(rt; reads_among(rt.alloc(), count, 7) == Some((2, 2)));
    }
}

/// Whether look-ups among names that all begin alike, as they may be made to, take at most so many reads.
fn like_names_take_at_most(alloc: Global, count: u64, most: u64) -> Option<bool> {
    let mut numbers = Vec::new(alloc);
    for number in 0..count {
        numbers.push(number).ok()?;
    }
    let text = table_of(alloc, &numbers)?;
    let (_, reads) = reads_of_each(&text, &numbers, 11)?;
    Some(reads <= most)
}

#[test]
fn names_that_begin_alike_take_few_reads(rt: HostRuntime) {
    assert!(rt; like_names_take_at_most(rt.alloc(), 100_000, 12 + 17) == Some(true));
}

/// How many of the rows of 10, 20 and 30 stand before a number, and the numbers of the two rows behind these.
fn rows_from(alloc: Global, number: u64) -> Option<(u64, Option<u64>, Option<u64>)> {
    let text = table_of(alloc, &[10, 20, 30])?;
    let source = TextAt {
        text: &text,
        piece: 100,
    };
    let front = first_from(&source, whole(&text), &name_of(number)).ok()?;
    Some((front.count, number_in(front.first), number_in(front.second)))
}

/// The number of a row.
fn number_in(row: Option<Row>) -> Option<u64> {
    Some(!row?.place)
}

#[test]
fn two_rows_follow_a_name(rt: HostRuntime) {
    assert!(rt; rows_from(rt.alloc(), 0) == Some((0, Some(10), Some(20))));
    assert!(rt; rows_from(rt.alloc(), 10) == Some((0, Some(10), Some(20))));
    assert!(rt; rows_from(rt.alloc(), 11) == Some((1, Some(20), Some(30))));
    assert!(rt; rows_from(rt.alloc(), 30) == Some((2, Some(30), None)));
    assert!(rt; rows_from(rt.alloc(), 31) == Some((3, None, None)));
}

/// What is found of a name between two rows, where reads fail from one on, and where the last byte is cut.
fn found_between(alloc: Global, most: u64, cut: usize) -> Option<Result<Option<Found>, Failed>> {
    let text = table_of(alloc, &[10, 20, 30])?;
    let reads = Cell::new(0);
    let source = Counted {
        text: TextAt {
            text: &text[..text.len().saturating_sub(cut)],
            piece: 50,
        },
        reads: &reads,
        most,
    };
    Some(find_row(&source, whole(&text), &name_of(15)))
}

#[test]
fn failed_read_is_no_absence(rt: HostRuntime) {
    assert!(rt; found_between(rt.alloc(), 2, 0) == Some(Ok(None)));
    assert!(rt; found_between(rt.alloc(), 1, 0) == Some(Err(Failed)));
    assert!(rt; found_between(rt.alloc(), 2, 1) == Some(Err(Failed)));
}

/// Whether a look-up in rows that stand in any order ends, and what it finds has the name.
fn ends_in_any_order(alloc: Global) -> Option<bool> {
    let mut numbers = spread(alloc, 1_000)?;
    numbers.reverse();
    let text = table_of(alloc, &numbers)?;
    let source = TextAt {
        text: &text,
        piece: 4_088,
    };
    for number in &numbers {
        if let Some(found) = find_row(&source, whole(&text), &name_of(*number)).ok()? {
            if found.place != !*number {
                return Some(false);
            }
        }
    }
    Some(true)
}

#[test]
fn rows_in_any_order_are_looked_up_to_an_end(rt: HostRuntime) {
    assert!(rt; ends_in_any_order(rt.alloc()) == Some(true));
}
