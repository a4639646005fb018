//! Segments that are appended to growing texts, with the slots that lead to them. Source: this project's own format.
#![tactic(auto)]

mod appending;
mod fault;
pub mod laws;
mod merging;
mod objects;
mod parts;
mod refs;
mod slot;

pub use appending::{append_additions, append_objects, append_refs};
pub use fault::AdditionFault;
pub use refs::refs_alone;
pub use slot::Addition;
