//! Why a segment isn't appended.

use std::io;

/// Why a segment isn't appended, or it isn't known whether it is.
#[derive(Clone, Copy, Debug, Drop)]
pub enum AppendFault {
    /// The text is as it was: the segment can't be written, or isn't durable.
    Unwritten(io::Error),
    /// The segment is written, and the byte that makes it part of the text may be: the text is as it was, or has the segment.
    Unsettled(io::Error),
}
