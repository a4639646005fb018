//! A file of the system that is read, or written, at places.

ghost use Rattle.std.specs.Prelude.{◌≡◌, ◌<◌, ◌≤◌, length, None, IfOk};
ghost use Rattle.gx_at.specs.Reads.{ReadsAt};

use crate::run::{Run, Subject};
use gx_append::Device;
use gx_at::ReadAt;
use gx_text::Failed;
use std::fs::File;
use std::io::{self, ErrorKind};
use std::os::unix::fs::FileExt;

/// So often is a read tried that signals interrupt.
const MOST_TRIES: u32 = 1000;

/// No file has more bytes. Source: off_t(3type), on Linux.
const MOST_BYTES: u64 = i64::MAX as u64;

/// The number of the error of a file that gets too large. Source: errno(3), on Linux.
const FILE_TOO_LARGE: i32 = 27;

/// A store file that is read at places, and written if it may have bytes. It tells no text. Why a read failed is kept.
#[derive(Drop)]
pub(crate) struct FileAt<'a> {
    run: &'a Run<'a>,
    file: File,
    /// So many bytes may it have where something is written.
    most: u64,
}

impl<'a> FileAt<'a> {
    /// One that is only read.
    pub(crate) fn read_only(run: &'a Run<'a>, file: File) -> FileAt<'a> {
        FileAt { run, file, most: 0 }
    }

    /// One that may get so many bytes.
    pub(crate) fn of_most(run: &'a Run<'a>, file: File, most: u64) -> FileAt<'a> {
        FileAt { run, file, most }
    }
}

impl ReadAt for FileAt<'_> {
    ghost text = { λ _. None };

    fn read_at(&self, at: u64, room: &mut [u8]) -> Result<usize, Failed>
        requires nonempty { 0 < length room.old }
        ensures same_room { length room.new ≡ length room.old }
        ensures bound { IfOk result (λ n. n ≤ length room.new) }
        ensures bytes { ReadsAt None at room.new result }
    {
        if at > MOST_BYTES {
            return Ok(0);
        }
        for _try in 0..MOST_TRIES {
            match self.file.read_at(room, at) {
                Ok(count) => return Ok(count),
                Err(error) if error.kind() == ErrorKind::Interrupted => {}
                Err(error) => {
                    self.run.note(Subject::Store, error);
                    return Err(Failed);
                }
            }
        }
        Err(Failed)
    }
}

impl Device for FileAt<'_> {
    ghost may_leave = { λ _ _. ⊥ };

    ghost moment = { λ _. 0 };

    ghost left_since = { λ _ _ _. ⊥ };

    ghost faults = { λ _. 0 };

    ghost counts_now = { λ _ _ _ _ left. left };

    ghost only_now = { λ _ _ left. left };

    /// A write beyond what the system lets a file have would end the program by a signal: nothing of it is written.
    fn write_at(&mut self, at: u64, bytes: &[u8]) -> io::Result<()> {
        if at.saturating_add(bytes.len() as u64) > self.most {
            return Err(io::Error::from_raw_os_error(FILE_TOO_LARGE));
        }
        self.file.write_all_at(bytes, at)
    }

    /// A file that ends before the place isn't made longer.
    fn cut(&mut self, at: u64) -> io::Result<()> {
        if self.file.metadata()?.len() > at {
            self.file.set_len(at)?;
        }
        Ok(())
    }

    fn sync(&mut self) -> io::Result<()> {
        self.file.sync_all()
    }
}
