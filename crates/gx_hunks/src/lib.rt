//! The differences between two texts as lines, and the text that tells of them: hunks, as `diff -u` has them. Nothing is looked
//! up here, and nothing goes out.
#![tactic(auto)]

mod finding;
mod hunks;
mod lines;
mod search;
mod texts;

pub use finding::{Change, changes};
pub use hunks::put_hunks;
pub use lines::lines_of;
pub use texts::{is_binary, put_differences};
