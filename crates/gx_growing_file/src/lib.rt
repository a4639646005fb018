//! The text of a store file that grows: a whole repository, read with every claim checked, and written anew as one segment.
//! What is read is a sound repository, and the tables of names in the text are those of its records.
#![tactic(auto)]

mod reading;
mod sending;

pub use gx_growing::GrowingFault;
pub use gx_repo::{OutOfMemory, Text};
pub use reading::read_text;
pub use sending::{
    Layout, WriteFault, run_of, send_head, send_runs, send_table, slot_of, write, write_to,
};
