//! Where a command of a stream begins, so that what an import refused by its number is found in the stream's text.
//! The place is told of the text alone, which is in memory as a whole.
#![tactic(auto)]

mod fault;
mod lines;
mod place;
mod rest;

pub use fault::WhereFault;
pub use place::{Place, place_of_command};
