//! A disk in memory, for tests of what is written to one: it tells its bytes, keeps each call, fails where a test says so, and shows
//! what a stop of the machine leaves.
#![tactic(auto)]

mod call;
mod device;
mod disk;
mod overwriting;
mod plan;
mod stop;

pub use call::Call;
pub use disk::Disk;
pub use plan::Plan;
pub use stop::Fate;
