//! What revisions give, asked of whatever holds objects and refs.
//! What is answered is what a definition over the history of the repository that is told gives.
#![tactic(auto)]

mod base;
mod fault;
mod objects;
mod places;
mod shown;
mod suffix;

pub use base::eval_base;
pub use fault::AskFault;
pub use objects::{body, commit_in, commit_of, entries, parent_of};
pub use shown::{commit, eval, eval_text, tree};
