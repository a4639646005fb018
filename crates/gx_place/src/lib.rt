//! Where a store file stands, and how its next text takes its place: by a file beside it, which is the lock, over the calls of a
//! system that this crate knows by a trait alone.
#![tactic(auto)]

mod claim;
mod fault;
mod look;
mod next_text;
mod place;
mod putting;
mod reading;
mod rights;
mod system;

pub use claim::Patience;
pub use fault::{PlaceFault, Subject};
pub use look::{FileKind, Identity, Look, Stamp};
pub use next_text::NextText;
pub use place::Place;
pub use putting::Expected;
pub use reading::read_file;
pub use rights::{Access, Mode, Rights, handed_on};
pub use system::System;
