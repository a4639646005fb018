//! Answers to many lines, one after the other, as long as a source gives lines: each answer goes out before the next line is
//! asked for. What is answered to a revision is a definition over the repository's history. Source: git-cat-file(1),
//! "BATCH OUTPUT".
#![tactic(auto)]

mod answerer;
mod answers;
mod batching;
mod ending;
mod fault;
mod format;
pub mod line_laws;
mod lines;
mod replies;

pub use answerer::{Answerer, answer_lines};
pub use answers::{answer_revision, directory_of};
pub use batching::{Revisions, batch};
pub use ending::LineEnding;
pub use fault::{BatchFault, FormatFault};
pub use format::Format;
pub use lines::{LineReader, read_lines};
pub use replies::{make_line, put_behind, refuse};
