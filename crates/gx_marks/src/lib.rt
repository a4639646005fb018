//! Files of marks: the numbers that streams gave objects, one line each, as git's fast-import writes them at the end of a run and
//! reads them before the next. What is read is what the definitions say of the whole text.
#![tactic(auto)]

mod fault;
mod mark;
pub mod mark_laws;
mod reading;
mod writing;

pub use fault::MarksFault;
pub use mark::Mark;
pub use reading::read_marks;
pub use writing::write_marks;
