//! What the refs of a store reach, whatever of it can be read: the objects, the newest first, and why others aren't reached.
#![tactic(auto)]

mod bad;
mod damage;
mod links;
mod reaching;

pub use bad::Bad;
pub use damage::{Cause, Damage};
pub use links::{Link, links_of};
pub use reaching::{cause_of, reached};
