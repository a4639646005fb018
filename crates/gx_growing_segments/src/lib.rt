//! The segments of a growing text, read with each of their claims checked: records, places, runs and refs.
//! Rows are held against them elsewhere.
#![tactic(auto)]

mod refs;
mod segments;

pub use gx_lines::FileFault;
pub use segments::{Tail, read_segments};
