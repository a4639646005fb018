//! What is printed of a store that is asked for what it needs: what a revision shows, the entries of its tree or all of its files,
//! refs, names, and the commits of range words. The texts are those that `gx_print` has of a repository.
#![tactic(auto)]

mod archive;
mod batches;
mod diff;
mod fault;
mod files;
mod held;
mod log;
mod ls;
mod refs;
mod rev_parse;
mod sending;
mod serving;
mod show;
mod telling;
mod words;

pub use batches::batch;
pub use fault::ToldFault;
pub use serving::answer;
pub use telling::tell;
