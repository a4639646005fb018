//! What a repository's objects and refs are asked of, wherever they stand: in memory, or in a text of which a question reads
//! what it needs.
#![tactic(auto)]

mod fault;
mod objects;
mod ref_line;
mod repository;

pub use fault::LookFault;
pub use objects::{Object, Objects};
pub use ref_line::put_ref;
