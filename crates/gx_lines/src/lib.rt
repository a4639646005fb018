//! The lines and bodies of which the texts of store files are made, each read from the front of what is left.
//! What is read is what the definitions of gx_model say; none of it takes memory.
#![tactic(auto)]

mod bodies;
mod lines;

pub use bodies::read_body;
pub use gx_model::FileFault;
pub use lines::{after_word, read_count, read_end, read_line, read_magic, read_number};
