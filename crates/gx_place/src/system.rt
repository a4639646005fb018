//! The calls of a system that a store file needs: names, files, locks, rights and syncs.

ghost use Rattle.std.specs.Prelude.{ℕ, Bool, ◌≤◌, length, List, Option, IfOk, OnOk, IsTrue};
ghost use Rattle.gx_place.specs.Calls.{Call, IsNamed, Makes, Looked, LookedAtName, LookedAt, Synced, Renamed, Removed};

use crate::look::Look;
use crate::rights::Mode;
use std::io::{self, Read};
use std::path::PathBuf;

/// A system with files. What a call can't do is its error.
pub trait System: Drop {
    /// An open file. Where it is dropped it is closed, and its lock is given up.
    type File: Read + Drop;

    /// The calls that were made of it, newest first, where that is known.
    ghost calls: { Self → Option (List Call) };

    /// The number of an open file.
    ghost number: { Self.File → ℕ };

    /// This run has made the file, or has its lock.
    ghost is_own: { Self.File → Bool };

    /// What a path names, behind links.
    fn look(&mut self, path: &str) -> io::Result<Look>
        ensures told { Makes (Looked path.now result) (calls self.old) (calls self.new) };

    /// What an open file is.
    fn look_at(&mut self, file: &Self::File) -> io::Result<Look>
        ensures told { Makes (LookedAt (number file.now) result)
            (calls self.old) (calls self.new) };

    /// What a path names, which may be a link.
    fn look_at_name(&mut self, path: &str) -> io::Result<Look>
        ensures told { Makes (LookedAtName path.now result) (calls self.old) (calls self.new) };

    /// The text of the link that a path names, or none where that is no link, or nothing.
    fn link(&mut self, path: &str) -> io::Result<Option<PathBuf>>;

    /// Makes a file and opens it for writing. Where the path names something, that is the error.
    fn make(&mut self, path: &str, mode: Mode) -> io::Result<Self::File>
        ensures { IfOk result (λ file. IsTrue (is_own file)) };

    /// Opens a file or a folder for reading.
    fn open(&mut self, path: &str) -> io::Result<Self::File>;

    /// Opens a file for reading and writing.
    fn open_to_write(&mut self, path: &str) -> io::Result<Self::File>;

    /// Takes the lock of a file, which others may hold.
    fn lock(&mut self, file: &Self::File) -> io::Result<()>
        ensures { OnOk result (IsTrue (is_own file.now)) };

    /// Takes the lock of a file where nobody holds it, and answers whether it has it.
    fn try_lock(&mut self, file: &Self::File) -> io::Result<bool>
        ensures { IfOk result (λ is_locked. IsTrue is_locked → IsTrue (is_own file.now)) };

    /// Gives a file to an owner, if one is told, and a group.
    fn give(&mut self, file: &Self::File, owner: Option<u32>, group: u32) -> io::Result<()>;

    fn set_mode(&mut self, file: &Self::File, mode: Mode) -> io::Result<()>;

    /// Writes bytes behind those that were written, and answers how many.
    fn write(&mut self, file: &Self::File, bytes: &[u8]) -> io::Result<usize>
        ensures { IfOk result (λ n. n ≤ length bytes.now) };

    /// Makes durable what was written, or the names in a folder.
    fn sync(&mut self, file: &Self::File) -> io::Result<()>
        ensures told { Makes (Synced (number file.now) result) (calls self.old) (calls self.new) };

    /// Gives what the first path names the second name, in the place of what has it.
    fn rename(&mut self, from: &str, to: &str) -> io::Result<()>
        ensures told { Makes (Renamed from.now to.now result) (calls self.old) (calls self.new) };

    /// Takes a file's name away. It is this run's file, and the path named it just now.
    fn remove(&mut self, path: &str, file: &Self::File) -> io::Result<()>
        requires own { IsTrue (is_own file.now) }
        requires named { IsNamed (calls self.old) path.now (number file.now) }
        ensures told { Makes (Removed path.now result) (calls self.old) (calls self.new) };

    /// The user whose rights this process has, where the system tells.
    fn own_user(&mut self) -> Option<u32>;

    /// Whether new files are their group's to read and write, too: by the folder's set-group-ID bit, or as the umask leaves all of a
    /// group's bits.
    fn shares_new_files(&mut self, folder: &Self::File) -> io::Result<bool>;

    /// How many bytes a file may have that this process writes.
    fn most_bytes_of_a_file(&mut self) -> u64;

    /// Lets a tenth of a second pass.
    fn pause(&mut self);

    /// Tells that another run is waited for.
    fn tell_wait(&mut self);
}
