//! The best common ancestors of commits, and whether a commit is an ancestor of another, asked of whatever holds objects and refs.
//! Walks go down from the newest place, and end where no more than what common ancestors reach is left.
#![tactic(auto)]

mod asked;
mod bases;
mod fronts;
mod meetings;
mod words;

pub use asked::{ancestry_asked, bases_asked};
pub use bases::{is_ancestor, merge_bases};
pub use words::commits_of;
