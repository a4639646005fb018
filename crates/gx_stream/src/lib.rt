//! The items of a stream: lines, and the blocks of bytes that a `data` line announces.
//! The items that a reader gives are those of the whole text, however its source cuts that into pieces.
#![tactic(auto)]

mod fault;
mod first;
mod input;
mod item;
mod places;
mod pulls;
mod reader;

pub use fault::StreamFault;
pub use first::{First, first_item};
pub use item::Item;
pub use pulls::{LIMIT, SourceState, pull_piece};
pub use reader::ItemReader;
