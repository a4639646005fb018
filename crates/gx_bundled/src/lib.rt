//! What a bundle of range words tells: the refs that they name, and the commits that they exclude. It is asked of whatever holds
//! objects and refs.
#![tactic(auto)]

mod excluded;
mod lines;
mod named;
mod told;

pub use told::{Told, told_by};
