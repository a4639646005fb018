//! How a growing text ends.

use crate::runs::Run;

/// How a growing text ends, as who appends to it has to know.
#[derive(Clone, Copy, Debug)]
pub struct Ending<'a> {
    /// Whether the first slot is picked.
    pub is_first: bool,
    /// Where the text ends.
    pub ends: u64,
    /// The live runs, as the last tail has them.
    pub runs: &'a [Run],
}
