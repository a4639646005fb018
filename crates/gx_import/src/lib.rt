//! The import of streams: the commands of git-fast-import(1), replayed on a repository.
//! An import that is accepted leaves the replayed history, and one that is refused leaves what its last checkpoint published.
#![tactic(auto)]

mod at_hand;
mod blob;
mod branches;
mod changes;
mod checkpoints;
mod commit;
mod commit_ish;
mod explanation;
mod fault;
mod files;
mod importing;
mod marks;
mod object;
mod publishing;
mod replay;
mod report;
mod reset;
mod table;
mod tables;
mod tag;

pub use explanation::{Asked, Explanation, RefLoss};
pub use fault::{ImportFault, ImportKind};
pub use importing::{import, import_asking, import_explained};
pub use report::Report;
