//! The patch that makes the file at a path that of another tree, as `git apply` takes it: its head, and the hunks of `gx_hunks`.
//! What the files hold is asked of whatever holds objects.
#![tactic(auto)]

mod bodies;
mod heads;
mod patches;
mod sides;

pub use patches::put_patch;
