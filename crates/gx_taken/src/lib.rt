//! A text of refs and objects, taken into a repository: all objects are placed, each behind what it names, and then the refs are
//! set in order. Where the first fault is told, nothing is left.
#![tactic(auto)]

mod checking;
mod fault;
mod laws;
mod parts;
mod setting;
mod taking;

pub use fault::{Refused, TakeFault};
pub use laws::last_refs_win;
pub use taking::{take, take_text};
