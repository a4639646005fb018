//! What an import did.

/// What an import that was accepted did.
#[derive(Clone, Copy, Debug, PartialEq, Eq)]
pub struct Report {
    /// The commands that were read.
    pub commands: u64,
    /// The objects that were added.
    pub objects: u64,
    /// The refs that were published at a checkpoint or at the end, each name once, also where its value stays.
    pub refs: u64,
}
