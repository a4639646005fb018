//! Appending a segment to a growing text, so that whatever a stop of the machine leaves is read as what the text had before, or as
//! what it has with the segment.
#![tactic(auto)]

mod appending;
mod device;
mod fault;

pub use appending::append;
pub use device::Device;
pub use fault::AppendFault;
