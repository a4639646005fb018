//! The ref that each commit that an export sends goes out on: a branch that reaches the commit, where there is one. A walk goes
//! down from the newest place, and hands the numbers of refs down to what they reach.
#![tactic(auto)]

mod branches;
mod ranks;

pub use branches::Branches;
