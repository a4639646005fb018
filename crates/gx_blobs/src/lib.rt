//! The names of the blobs of a stream, as they come.
#![tactic(auto)]

mod blob_names;
mod laws;

pub use blob_names::{BlobsFault, BlobsKind, blobs};
pub use laws::blobs_are_commands;
