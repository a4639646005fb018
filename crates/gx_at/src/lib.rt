//! Reads at places of a text: what gives the bytes at a place, over memory, and the filling of a room from a place on.
#![tactic(auto)]

mod fill;
mod memory;
mod read_at;

pub use fill::fill_at;
pub use memory::TextAt;
pub use read_at::ReadAt;
