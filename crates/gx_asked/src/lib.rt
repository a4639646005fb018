//! What a stream asks of the repository that it begins with. Source: git-fast-import(1), "Commands".
#![tactic(auto)]

mod asked;
mod entering;
mod fault;

pub use asked::Asked;
pub use fault::AskedFault;
