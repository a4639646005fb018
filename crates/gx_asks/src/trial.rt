//! What is asked of a stream, of which nothing is kept.

/// What is asked of a stream.
#[derive(Debug, Drop)]
pub enum Trial<'a> {
    /// The names of its blobs are printed.
    Blobs,
    /// It is imported, and a revision is shown. `done`, `force` and `explain` are as in an import.
    Try {
        revision: &'a str,
        done: bool,
        force: bool,
        explain: bool,
    },
    /// It is imported, exported, and imported again. `done`, `force` and `explain` are as in an import.
    Check {
        done: bool,
        force: bool,
        explain: bool,
    },
    /// Its lines are mended that an import refuses. With `drop_signatures` those of signatures go.
    Adapt {
        drop_signatures: bool,
    },
    /// It is told where the command with this number begins, counted from 1.
    Where(u64),
    /// It is told what its import into an empty store would be refused for. `done` and `force` are as in an import.
    WhereFault {
        done: bool,
        force: bool,
    },
}
