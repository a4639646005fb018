//! A repository: objects under their names, and refs.
//! Whatever is called, each object's links are held, and a list of refs is published or dropped whole or not at all.
#![tactic(auto)]

mod additions;
mod checking;
mod dropping;
mod earlier;
mod fault;
mod offered;
mod pruning;
mod publishing;
mod ref_list;
mod refs;
mod repo;
mod reporting;
mod rooms;
mod target;
mod wanting;

pub use fault::{AddFault, DropFault, OutOfMemory, PublishFault};
pub use gx_store::{Body, StoreFault, Text, TextRange};
pub use pruning::Pruned;
pub use publishing::RefChange;
pub use ref_list::RefList;
pub use refs::Refs;
pub use repo::Repo;
pub use reporting::report_changes;
pub use target::is_target;
