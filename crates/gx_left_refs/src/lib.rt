//! The refs that are left when some are dropped, by the lines of refs alone.
#![tactic(auto)]

mod refs;

pub use refs::{LeftRefs, left_refs};
