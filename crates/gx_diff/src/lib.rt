//! What is told of the paths at which two revisions differ: which of them are asked for, and the texts of these. What differs is
//! found by `gx_differences`.
#![tactic(auto)]

mod counts;
mod lines;
mod paths;
mod texts;

pub use lines::{name_field, status_of};
pub use paths::retain_asked;
pub use texts::{ends_well, text_of};
