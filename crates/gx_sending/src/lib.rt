//! What an export of changes has sent so far, with the marks of what was sent by their names: blobs that go out once, and the
//! lines of what differs between two trees.
#![tactic(auto)]

mod blobs;
mod fault;
mod lines;
mod written;

pub use blobs::write_blobs;
pub use fault::SendFault;
pub use lines::write_differences;
pub use written::Written;
