//! The system's files, as the standard library has them.

ghost use Rattle.std.specs.Prelude.{None, true};

use super::process::{leaves_group_bits, most_bytes_of_a_file, own_user};
use crate::run::Run;
use gx_place::{FileKind, Identity, Look, Mode, Rights, Stamp, System};
use std::fs::{self, File, Metadata, Permissions, TryLockError};
use std::io::{self, ErrorKind, Write};
use std::os::unix::fs::{MetadataExt, OpenOptionsExt, PermissionsExt, fchown};
use std::path::PathBuf;
use std::thread;
use std::time::Duration;

/// So many milliseconds pass between two looks at a file that another run holds.
const PAUSE: u64 = 100;

/// The set-group-ID bit of a mode.
const SET_GROUP: u32 = 0o2000;

/// All permissions of a file.
const ANY: u32 = 0o777;

/// Those of a file that is its owner's alone.
const OWN: u32 = 0o600;

/// The system of a run, and the store file as its user names it.
#[derive(Clone, Copy, Drop)]
pub(crate) struct Host<'a> {
    pub(crate) run: &'a Run<'a>,
    pub(crate) file: &'a str,
    /// No file is made with other permissions than these.
    most: u32,
}

impl<'a> Host<'a> {
    pub(crate) fn new(run: &'a Run<'a>, file: &'a str) -> Host<'a> {
        Host {
            run,
            file,
            most: ANY,
        }
    }

    /// One that makes files that are their owner's alone, unless everybody may read this file.
    pub(crate) fn beside(run: &'a Run<'a>, file: &'a str, other: &str) -> Host<'a> {
        let mut host = Host::new(run, file);
        match host.look(other) {
            Ok(found) if found.rights.mode.others.reads => {}
            _ => host.most = OWN,
        }
        host
    }
}

impl System for Host<'_> {
    type File = File;

    ghost calls = { λ _. None };

    ghost number = { λ _. 0 };

    ghost is_own = { λ _. true };

    fn look(&mut self, path: &str) -> io::Result<Look> {
        Ok(look(&fs::metadata(self.run.rt, path)?))
    }

    fn look_at(&mut self, file: &File) -> io::Result<Look> {
        Ok(look(&file.metadata()?))
    }

    fn look_at_name(&mut self, path: &str) -> io::Result<Look> {
        Ok(look(&fs::symlink_metadata(self.run.rt, path)?))
    }

    fn link(&mut self, path: &str) -> io::Result<Option<PathBuf>> {
        match fs::read_link(self.run.rt, path) {
            Ok(target) => Ok(Some(target)),
            Err(error) if is_no_link(&error) => Ok(None),
            Err(error) => Err(error),
        }
    }

    fn make(&mut self, path: &str, mode: Mode) -> io::Result<File> {
        let mut options = File::options();
        options
            .write(true)
            .create_new(true)
            .mode(mode.bits() & self.most);
        options.open(self.run.rt, path)
    }

    fn open(&mut self, path: &str) -> io::Result<File> {
        File::open(self.run.rt, path)
    }

    fn open_to_write(&mut self, path: &str) -> io::Result<File> {
        let mut options = File::options();
        options.read(true).write(true).open(self.run.rt, path)
    }

    fn lock(&mut self, file: &File) -> io::Result<()> {
        file.lock()
    }

    fn try_lock(&mut self, file: &File) -> io::Result<bool> {
        match file.try_lock() {
            Ok(()) => Ok(true),
            Err(TryLockError::WouldBlock) => Ok(false),
            Err(TryLockError::Error(error)) => Err(error),
        }
    }

    fn give(&mut self, file: &File, owner: Option<u32>, group: u32) -> io::Result<()> {
        fchown(file, owner, Some(group))
    }

    fn set_mode(&mut self, file: &File, mode: Mode) -> io::Result<()> {
        file.set_permissions(Permissions::from_mode(mode.bits()))
    }

    fn write(&mut self, file: &File, bytes: &[u8]) -> io::Result<usize> {
        let mut writer = file;
        writer.write(bytes)
    }

    fn sync(&mut self, file: &File) -> io::Result<()> {
        file.sync_all()
    }

    fn rename(&mut self, from: &str, to: &str) -> io::Result<()> {
        fs::rename(self.run.rt, from, to)
    }

    fn remove(&mut self, path: &str, _file: &File) -> io::Result<()> {
        fs::remove_file(self.run.rt, path)
    }

    fn own_user(&mut self) -> Option<u32> {
        own_user(self.run.rt)
    }

    fn shares_new_files(&mut self, folder: &File) -> io::Result<bool> {
        Ok(folder.metadata()?.mode() & SET_GROUP != 0 || leaves_group_bits(self.run.rt))
    }

    fn most_bytes_of_a_file(&mut self) -> u64 {
        most_bytes_of_a_file(self.run.rt)
    }

    fn pause(&mut self) {
        thread::sleep(self.run.rt, Duration::from_millis(PAUSE));
    }

    fn tell_wait(&mut self) {
        self.run.tell_wait(self.file);
    }
}

/// Whether a path can't be read as a link since it is none, or nothing.
fn is_no_link(error: &io::Error) -> bool {
    matches!(error.kind(), ErrorKind::InvalidInput | ErrorKind::NotFound)
}

fn look(found: &Metadata) -> Look {
    Look {
        kind: kind(found),
        stamp: Stamp {
            identity: Identity {
                device: found.dev(),
                inode: found.ino(),
            },
            size: found.size(),
            seconds: found.mtime(),
            nanoseconds: found.mtime_nsec(),
        },
        rights: Rights {
            owner: found.uid(),
            group: found.gid(),
            mode: Mode::from_bits(found.mode()),
        },
    }
}

fn kind(found: &Metadata) -> FileKind {
    if found.is_file() {
        FileKind::File
    } else if found.is_dir() {
        FileKind::Folder
    } else {
        FileKind::Other
    }
}
