//! The objects of a repository in the order in which they were added, as they are known before a body is read: by name, place, kind
//! and length.
#![tactic(auto)]

mod listing;

pub use listing::{Listing, Standing};
