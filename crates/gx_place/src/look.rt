//! What a system tells of a file.

use crate::rights::Rights;

/// What kind of thing has a name.
#[derive(Clone, Copy, Debug, PartialEq, Eq, Drop)]
pub enum FileKind {
    /// A regular file.
    File,
    Folder,
    /// A link, a pipe, a device and the like.
    Other,
}

/// Which file it is, whatever names it has. Source: stat(3type), `st_dev` and `st_ino`.
#[derive(Clone, Copy, Debug, PartialEq, Eq, Drop)]
pub struct Identity {
    pub device: u64,
    pub inode: u64,
}

/// Which file it is, and as of when: one that was written since has another size or time.
#[derive(Clone, Copy, Debug, PartialEq, Eq, Drop)]
pub struct Stamp {
    pub identity: Identity,
    pub size: u64,
    pub seconds: i64,
    pub nanoseconds: i64,
}

/// What a look at a file shows. Source: stat(3type).
#[derive(Clone, Copy, Debug, PartialEq, Eq, Drop)]
pub struct Look {
    pub kind: FileKind,
    pub stamp: Stamp,
    pub rights: Rights,
}
