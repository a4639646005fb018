//! One item of a stream.

/// An item of a stream, in the bytes of the text.
#[derive(Clone, Copy, Debug, PartialEq, Eq)]
pub enum Item<'a> {
    /// A line, without its LF.
    Line(&'a [u8]),
    /// The bytes of a block.
    Data(&'a [u8]),
}
