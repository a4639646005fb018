//! What an export of the changes of a range begins with, asked of whatever holds objects and refs: the refs with the commits that
//! they hold, those of them that the range sets, and the commits that it lists.
#![tactic(auto)]

mod spans;
mod tips;

pub use spans::{Spans, places_of, reached_places};
pub use tips::{Tip, tips_of};
