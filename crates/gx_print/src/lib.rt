//! The texts that commands print of objects that were found: the lines of trees, files and names, and a commit in each format
//! of `log`; and the words of a command, read as revisions and ranges. Nothing is looked up here, and nothing goes out.
#![tactic(auto)]

mod asked;
mod choices;
mod entries;
mod formats;
mod identities;
mod messages;
mod names;
mod paths;
mod words;

pub use asked::{Asked, read_asked};
pub use choices::{passes, put_count};
pub use entries::{listing, put_line};
pub use formats::{gap, put_commit};
pub use names::shown_line;
pub use paths::printed_path;
pub use words::{add_lines, read_ranges, read_revisions, texts_of, word_at, words_in};
