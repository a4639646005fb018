//! The text of a store file: a whole repository as bytes, written so that it can be read again with every claim checked.
//! What is read is a sound repository, and its text is the one that was read.
#![tactic(auto)]

mod faults;
mod reading;
mod records;
mod refs;
mod sending;

pub use gx_model::FileFault;
pub use gx_repo::{OutOfMemory, Text};
pub use reading::{read, read_text};
pub use records::read_record;
pub use refs::{is_after, read_ref, read_refs};
pub use sending::{
    send_all, send_count, send_record, send_records, send_refs, send_text, write, write_to,
};
