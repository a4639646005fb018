//! Tables of rows, as texts.

use std::alloc::Global;

/// The bytes in front of a table.
pub(crate) const FRONT: usize = 226;

/// A text with a table of names behind some bytes: a name begins with a number, and its place is that number's complement.
pub(crate) fn table_of(alloc: Global, numbers: &[u64]) -> Option<Vec<u8>> {
    let mut text = Vec::new(alloc);
    text.resize(FRONT, b'x').ok()?;
    for number in numbers {
        text.extend_from_slice(&name_of(*number)).ok()?;
        text.extend_from_slice(&(!*number).to_be_bytes()).ok()?;
    }
    Some(text)
}

/// The name that begins with a number, and has a seven in each byte behind it.
pub(crate) fn name_of(number: u64) -> [u8; 20] {
    let mut name = [7; 20];
    name[..8].copy_from_slice(&number.to_be_bytes());
    name
}

/// So many numbers that are spread like names of objects, in order.
pub(crate) fn spread(alloc: Global, count: usize) -> Option<Vec<u64>> {
    let mut numbers = Vec::new(alloc);
    let mut state: u64 = 0x9e37_79b9_7f4a_7c15;
    for _ in 0..count {
        state ^= state << 13;
        state ^= state >> 7;
        state ^= state << 17;
        numbers.push(state).ok()?;
    }
    numbers.sort_unstable();
    Some(numbers)
}
