//! What fails, counts or waits in tests: memory that refuses a growth, a source and a sink that wait for each other, and namers that
//! count or give many objects one name.
#![tactic(auto)]

mod memory;
mod namers;
mod streams;

pub use memory::Refusing;
pub use namers::{ConstantNamer, CountingNamer, ShortNamer};
pub use streams::{Allowed, Allowing};
