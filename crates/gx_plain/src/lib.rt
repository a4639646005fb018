//! A store's text of version 1 or 2 of which no body is held: read and checked once from the front, asked for objects by their names
//! and places, and sent as a growing text.
#![tactic(auto)]

mod begun;
mod checking;
mod fill;
mod growing;
mod heading;
mod listing;
mod plain;
mod records;
mod refs;
mod start;

pub use growing::grow;
pub use plain::Plain;
