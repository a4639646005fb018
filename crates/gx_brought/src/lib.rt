//! What an import over a small repository brings the whole one: objects and refs.
#![tactic(auto)]

mod fault;
mod objects;
mod refs;

pub use fault::BroughtFault;
pub use objects::new_objects;
pub use refs::next_refs;
