//! The definitions that every contract of the workspace cites, with their laws.
//! No program logic stands here: a law is the contract of a public function with an empty body.
#![tactic(auto)]

pub mod changes_laws;
pub mod export_laws;
mod faults;
mod features;
pub mod file_map_laws;
pub mod gitlink_laws;
pub mod headline;
pub mod history_laws;
pub mod object_laws;
mod objects;
pub mod pruning_laws;
pub mod range_laws;
pub mod replay_laws;
pub mod repository_laws;
mod store_faults;
pub mod store_laws;
mod store_versions;
pub mod stream_laws;
pub mod text_laws;

pub use faults::Fault;
pub use features::{Feature, Features};
pub use objects::{Kind, Mode};
pub use store_faults::FileFault;
pub use store_versions::Version;
