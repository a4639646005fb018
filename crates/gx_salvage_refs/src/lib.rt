//! What can be saved of a store that is damaged: a repository with the refs whose whole history can still be read, and which refs
//! are lost by what.
#![tactic(auto)]

mod lost;
mod refs;
mod saving;
mod taking;

pub use lost::{Lost, Salvaged};
pub use saving::salvage;
