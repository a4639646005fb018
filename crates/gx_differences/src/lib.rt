//! What differs between the files of two trees, asked of whatever holds objects.
//! Only directories that differ are read.
#![tactic(auto)]

mod differences;
mod listed;

pub use differences::{ChangedFile, Differences, compare};
pub use listed::{Difference, FileLeaf, list};
