//! Look-ups in tables of names that stand in a text, by reads at places. A table has rows of 28 bytes in the order of
//! names: a name's 20 bytes, and a place's 8, the most significant byte first.
#![tactic(auto)]

mod block;
mod finding;
mod guess;
mod row;

pub use finding::{Found, Front, find_row, first_from};
pub use row::{Row, Table};
