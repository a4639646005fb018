//! Why a store file can't be read, or its next text can't take its place.

use std::alloc::AllocError;
use std::io;

/// What a call of the system was about.
#[derive(Clone, Copy, Debug, PartialEq, Eq, Drop)]
pub enum Subject {
    /// The store file.
    Store,
    /// The file of its next text.
    NextText,
    /// The folder of both.
    Folder,
}

/// Why a store file isn't read or written.
#[derive(Clone, Copy, Debug, Drop)]
pub enum PlaceFault {
    /// There is a file where one is to be made.
    Exists,
    /// The store file can't be read.
    Unread(io::Error),
    /// What stands behind the subject can't be written.
    Unwritten(Subject, io::Error),
    /// The file of the next text can't be made and locked by this run alone.
    Unlocked(io::Error),
    /// The store file is another one than whoever gave the next text knows.
    Changed,
    /// The store file became another one after it was read, and so the next text stays beside it.
    Overtaken,
    /// The store file has so long a name that the one of its next text would be too long.
    LongName,
    OutOfMemory,
}

impl From<AllocError> for PlaceFault {
    fn from(_error: AllocError) -> PlaceFault {
        PlaceFault::OutOfMemory
    }
}

impl PlaceFault {
    /// A call that was there to read failed.
    pub(crate) fn unread(error: io::Error) -> PlaceFault {
        match error.kind() {
            io::ErrorKind::OutOfMemory => PlaceFault::OutOfMemory,
            _ => PlaceFault::Unread(error),
        }
    }
}
