//! What an import holds of its checkpoints. Source: git-fast-import(1), "checkpoint".

/// The checkpoints that an import applied: what is left after a later fault.
#[derive(Drop)]
pub(crate) struct Checkpoints {
    /// How many were applied.
    pub(crate) count: u64,
    /// How many records were held at the last one, or at the start.
    pub(crate) records: usize,
}
