//! The export of a repository as a stream, in the manner of git-fast-export(1) with `--full-tree`.
//! The text is that of the repository's history, and goes out as it is made.
#![tactic(auto)]

mod branches;
mod changed_commit;
mod changes;
mod commands;
mod commit;
mod comparing;
mod exporting;
mod exporting_changes;
mod fault;
mod file_lines;
mod lines;
mod naming;
mod output;
mod pairs;
mod refs;
mod sayable;
mod trees;
mod written;

pub use commands::{
    write_blob, write_commit_head, write_parent, write_reset, write_reset_to, write_tag,
};
pub use commit::{parent_word, write_root};
pub use exporting::export;
pub use exporting_changes::{export_changes, export_range};
pub use fault::{ExportFault, RangeFault};
pub use lines::{append_all, end_line, mode_digits};
pub use naming::CommitIsh;
pub use output::Output;
pub use pairs::{Pair, Pairs, is_same, name_in};
