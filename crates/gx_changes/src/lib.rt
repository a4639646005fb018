//! The changes that range words list, as a stream that `gx_export` has of a repository, asked of whatever holds objects and refs:
//! what is read is the commits of the range, the directories that differ in them, and the blobs that are new.
#![tactic(auto)]

mod commit;
mod exporting;
mod fault;
mod finding;
mod refs;
mod sayable;
mod sending;

pub use exporting::export_range;
pub use fault::ChangesFault;
