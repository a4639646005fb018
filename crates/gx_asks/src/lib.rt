//! What is asked of a store, of a change of it, and of a stream: plain values, that command lines, lines of a batch and callers of
//! the library make.
#![tactic(auto)]

mod change;
mod question;
mod trial;

pub use change::{Change, RefChange};
pub use question::{
    BatchForm, CommitFilter, DiffForm, DiffOptions, ExportForm, LogFormat, LogOptions, Question,
    RefFilter, RefTest,
};
pub use trial::Trial;
