//! The files of a branch: a tree of directories, seen as a map from whole paths to modes and names.
//! Its edits are set operations on that map, and it writes and loads the canonical trees.
#![tactic(auto)]

mod carrying;
mod component;
mod copying;
mod directory;
mod fault;
mod grafting;
mod laws;
mod listing;
mod loaded;
mod loading;
mod moving;
mod parting;
mod path_tree;
mod placing;
mod reach;
mod removing;
mod renaming;
mod search;
mod writing;

pub use fault::TreeFault;
pub use laws::{records_keep_home, records_keep_loaded};
pub use listing::child;
pub use loaded::LoadedTrees;
pub use path_tree::{Found, PathTree};
