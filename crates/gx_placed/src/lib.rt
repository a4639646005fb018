//! Objects that are given are placed in a repository, each behind what it names, or none of them is.
#![tactic(auto)]

mod fault;
mod frame;
mod placing;
mod waiting;

pub use fault::{ObjectFault, PlaceFault};
pub use placing::place;
