//! A library that any language can call: repositories in memory behind a handle, over the calls of include/ginlarch.h.
//! What a call answers is what the functions below it answer; only the handle's pointer is proved by hand.
#![tactic(auto)]

mod answer;
mod asking;
mod bundling;
mod calls;
mod fields;
mod handing;
mod held;
mod importing;
mod keys;
mod listing;
mod objects;
mod opened;
mod reading;
mod store;
mod tags;
#[cfg(test)]
mod tests;
mod writing;

pub use answer::{Answer, Why};
pub use held::Held;
pub use opened::Opened;
pub use store::Store;
