//! Revisions and range words: how they are read, what they give in a repository, and which commits they list.
//! What is answered is what a definition over the repository's history gives.
#![tactic(auto)]

mod ancestors;
mod base;
mod entries;
mod fault;
mod first_parents;
mod meetings;
mod objects;
mod parents;
mod places;
mod range;
mod reached;
mod refs;
mod revision;
mod shown;
mod suffix;
mod walking;

pub use ancestors::is_ancestor;
pub use base::{is_abbreviation, is_full_name};
pub use entries::put_entry_head;
pub use fault::{RevFault, WalkFault};
pub use first_parents::FirstParents;
pub use objects::{body_at, body_of, entries_of, tag_of, view_of};
pub use parents::Parents;
pub use range::Range;
pub use reached::{name_at, place_of};
pub use refs::reached_from_refs;
pub use revision::Revision;
pub use shown::{Shown, answers_tell_values, commit, look, shown_as, tree, tree_of_text};
pub use suffix::Suffix;
pub use walking::{names_marked, walk, walked};
