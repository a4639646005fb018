//! Kinds of objects, their names, and their bodies in both directions.
//! What is encoded is the canonical body of its parts, and only canonical bodies are decoded.
#![tactic(auto)]

mod any_commit;
mod any_tag;
mod commit;
mod earlier_files;
mod entry;
mod fault;
mod line;
mod name;
mod namer;
mod order;
mod tag;
mod tail;
mod tree;
mod tree_reader;

pub use any_commit::{
    AnyCommit, AnyCommitParts, ParentNames, decode_any_commit, encode_any_commit,
};
pub use any_tag::{AnyTag, decode_any_tag, encode_any_tag};
pub use commit::{CommitParts, CommitView, decode_commit, encode_commit};
pub use entry::{Entry, append_entry};
pub use fault::BadObject;
pub use gx_model::{Kind, Mode};
pub use name::Name;
pub use namer::{Namer, Sha1Namer};
pub use order::{compare_marked, is_canonical};
pub use tag::{TagParts, TagView, decode_tag, encode_tag};
pub use tree::{TreeEntries, decode_tree, encode_tree, encode_tree_into, held_tree};
pub use tree_reader::TreeReader;
