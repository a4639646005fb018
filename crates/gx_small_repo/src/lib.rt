//! The small repository over which an import runs: of a whole one it has what a stream's texts ask for, and what stands for others.
#![tactic(auto)]

mod base;
mod commits;
mod fault;
mod putting;
mod small;
mod wanted;

pub use base::base_given;
pub use fault::SmallFault;
pub use small::small_repository;
