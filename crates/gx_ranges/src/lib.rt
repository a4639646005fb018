//! Which commits range words list, asked of whatever holds objects and refs. A walk goes down from the newest place, and reads
//! what it comes to: so a short range costs little, however much is held.
#![tactic(auto)]

mod fault;
mod fronts;
mod meetings;
mod refs;
mod telling;
mod walking;
mod words;

pub use fault::RangeFault;
pub use fronts::{add_parents, is_reached, place_of};
pub use refs::{cut_ref, peeled};
pub use walking::{CommitWalk, listed, walk};
pub use words::add_words;
