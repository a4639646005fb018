//! The commands of a stream, each read whole from its lines and blocks.
//! A reader gives a command exactly where the grammar of git-fast-import(1), in the profile of this project, has one.
#![tactic(auto)]

mod ahead;
mod behind;
mod bodies;
mod change_lines;
mod commands;
mod fault;
mod heads;
mod lines;
mod marks;
mod modify_line;
mod reader;
mod texts;

pub use behind::{BehindFault, items_behind};
pub use commands::{Blob, Change, Command, Commit, CommitIsh, DataRef, Modify, Reset, Tag};
pub use fault::CommandFault;
pub use gx_model::{Feature, Features};
pub use reader::CommandReader;
pub use texts::{Digits, Encoding, Identity, RefName, TagName};
