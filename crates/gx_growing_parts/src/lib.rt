//! The parts of a growing text that tell where others stand: its head, the lines of its live runs, and the tables of rows.
//! Each is read as the definitions of gx_growing say, and none of it takes memory. Also what writers of them share.
#![tactic(auto)]

mod digests;
mod ending;
mod head;
mod pages;
mod runs;
mod written;

pub use digests::{digest_of, read_digest};
pub use ending::Ending;
pub use gx_lines::FileFault;
pub use head::{HEAD, Slot, read_head, read_slot};
pub use pages::{first_page, read_table, standing_rows};
pub use runs::{Run, read_run};
pub use written::{digest_digits, zeros_before};
