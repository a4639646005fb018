//! How many paths have each status.

ghost use Rattle.std.specs.Prelude.{◌≡◌, ◌≤◌, ◌++◌, ◌==◌, length, OnOk};
ghost use Rattle.std.specs.List.{count_by};
ghost use Rattle.gx_differences.specs.Listed.{shown_differences};
ghost use Rattle.gx_diff.specs.Lines.{count_line, counts_text, status_of};

use crate::lines::status_of;
use gx_differences::Difference;
use itoa::Buffer;
use std::alloc::{AllocError, Allocator};

/// Appends a line for each status: the status, and how many paths have it.
pub(crate) fn put_counts<A: Allocator + Copy>(
    text: &mut Vec<u8, A>,
    found: &[Difference<A>],
) -> Result<(), AllocError>
    ensures { OnOk result (text.new.items ≡ text.old.items
        ++ counts_text (shown_differences found.now)) }
{
    put_count(text, b'A', found)?;
    put_count(text, b'D', found)?;
    put_count(text, b'M', found)?;
    put_count(text, b'T', found)
}

/// Appends the line of a status.
fn put_count<A: Allocator + Copy>(
    text: &mut Vec<u8, A>,
    letter: u8,
    found: &[Difference<A>],
) -> Result<(), AllocError>
    ensures { OnOk result (text.new.items ≡ text.old.items
        ++ count_line letter (shown_differences found.now)) }
{
    let mut digits = Buffer::new();
    text.push(letter)?;
    text.push(b'\t')?;
    text.extend_from_slice(digits.format(count_of(letter, found)).as_bytes())?;
    text.push(b'\n')?;
    Ok(())
}

/// How many paths have a status.
fn count_of<A: Allocator>(letter: u8, found: &[Difference<A>]) -> u64
    ensures { result ≡ count_by (λ s. status_of s == letter) (shown_differences found.now) }
{
    let mut count: u64 = 0;
    for difference in found {
        if status_of(difference) == letter {
            count += 1;
        }
    }
    count
}
