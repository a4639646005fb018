//! The import of a stream into a repository of which no more is read than the stream asks for: over a small repository, whose objects
//! have the names of that one's.
#![tactic(auto)]

mod comparing;
mod fault;
mod importing;

pub use fault::WholeWay;
pub use gx_import::Report;
pub use gx_model::Features;
pub use importing::{Imported, import_over};
