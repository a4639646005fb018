//! The refs of a repository, by the lines that list them. Source: git-show-ref(1).
#![tactic(auto)]

mod names;
mod ref_lines;

pub use names::ref_names;
pub use ref_lines::RefLines;
