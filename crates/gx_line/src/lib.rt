//! The command line of the program `gx`: the words behind its name, and the command that they give.
#![tactic(auto)]

mod command_line;
mod fault;

pub use command_line::{Line, read_line};
pub use fault::LineFault;
