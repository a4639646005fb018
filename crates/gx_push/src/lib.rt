//! Changes of refs that hold only where the refs are what somebody saw: imports as pushes, and lists of refs to set.
//! All of the changes are made, or none is.
#![tactic(auto)]

mod fault;
mod forward;
mod pushing;
mod setting;
mod setting_refs;
mod settings;
mod want;
mod wants;

pub use fault::{PushFault, RefFault, SetFault};
pub use pushing::{Pushed, push};
pub use setting_refs::set_refs;
pub use want::{Fate, Want, want_in};
