//! `FILE.new`, where the next text of a store file is written. It is the lock on the store file, too.
//!
//! A run makes the file and locks it before it reads FILE, and keeps it until it has renamed it over FILE. Only a run that has
//! a file's lock, and sees that `FILE.new` names this file still, takes the name away from it, by renaming or removing it. So one
//! run at a time stands between its lock and its rename. A killed run's lock ends with it.
//!
//! Until it has FILE's owner, group and permissions, it is its maker's alone. So who may not read FILE can't open it, and can't hold
//! its lock.

ghost use Rattle.std.specs.Prelude.{IsTrue};

use crate::claim::{Claim, Patience, names};
use crate::fault::{PlaceFault, Subject};
use crate::look::{Look, Stamp};
use crate::place::Place;
use crate::putting::{Expected, put};
use crate::reading::{read_file, want_file, want_regular};
use crate::rights::{Access, Mode, handed_on};
use crate::system::System;
use std::alloc::Global;
use std::io::{self, ErrorKind, Write};

/// The number of the error of a file that gets too large. Source: errno(3), on Linux.
const FILE_TOO_LARGE: i32 = 27;

const NOTHING: Access = Access {
    reads: false,
    writes: false,
    runs: false,
};

const READS_AND_WRITES: Access = Access {
    reads: true,
    writes: true,
    runs: false,
};

/// The mode of what is its maker's alone.
const PRIVATE: Mode = Mode {
    owner: READS_AND_WRITES,
    group: NOTHING,
    others: NOTHING,
};

/// The mode that programs ask for, of which the umask takes some.
const COMMON: Mode = Mode {
    owner: READS_AND_WRITES,
    group: READS_AND_WRITES,
    others: READS_AND_WRITES,
};

/// The locked file of a next text, which this run has made. When it is dropped, the lock goes, and so does the file, unless that
/// was renamed or stays.
pub struct NextText<S: System> {
    system: S,
    place: Place,
    folder: S::File,
    held: S::File,
    expected: Expected,
    new_files: Option<NewFiles>,
    is_narrowed: bool,
    is_copied: bool,
    stays: bool,
    left: u64,
    ghost is_own: { IsTrue (S.is_own held) },
}

/// What is known of the group that new files get.
#[derive(Clone, Copy, Drop)]
struct NewFiles {
    group: u32,
    is_shared: bool,
}

impl<S: System> NextText<S> {
    /// Makes and locks the file for a store file that is made, with the permissions that the umask leaves. A place where there is
    /// something is refused.
    pub fn claim_new(
        alloc: Global,
        mut system: S,
        path: &str,
        patience: Patience,
    ) -> Result<NextText<S>, PlaceFault> {
        want_nothing(&mut system, path)?;
        let mut next = NextText::claim(alloc, system, path, COMMON, patience)?;
        // another run may have made the store while this one waited
        next.want_nothing()?;
        Ok(next)
    }

    /// Makes and locks the file for a store file that is replaced, and gives it that one's owner, group and permissions. One that
    /// can't be read is refused before anything is made.
    pub fn claim_next(
        alloc: Global,
        mut system: S,
        path: &str,
        patience: Patience,
    ) -> Result<NextText<S>, PlaceFault> {
        want_file(&mut system, path).map_err(PlaceFault::unread)?;
        let mut next = NextText::claim(alloc, system, path, PRIVATE, patience)?;
        match next.look_at_new_files() {
            Ok(new_files) => next.new_files = Some(new_files),
            Err(error) => return Err(PlaceFault::Unwritten(Subject::NextText, error)),
        }
        let found = next.look_at_store().map_err(PlaceFault::unread)?;
        next.expected = Expected::Stamped(found.stamp);
        next.take_rights_of(&found)?;
        Ok(next)
    }

    /// The same for a store file that somebody else has read, who has the next text, too: it has to be the one with this stamp.
    pub fn claim_known(
        alloc: Global,
        mut system: S,
        path: &str,
        patience: Patience,
        known: Stamp,
    ) -> Result<NextText<S>, PlaceFault> {
        want_known(&mut system, path, known)?;
        let mut next = NextText::claim_next(alloc, system, path, patience)?;
        // another run may have replaced the store while this one waited
        next.want_known(known)?;
        next.is_copied = true;
        next.expected = Expected::Stamped(known);
        Ok(next)
    }

    /// Another run that holds the file is waited for, and what a killed one left is removed.
    fn claim(
        alloc: Global,
        mut system: S,
        path: &str,
        mode: Mode,
        patience: Patience,
    ) -> Result<NextText<S>, PlaceFault> {
        let place = Place::find(alloc, &mut system, path).map_err(PlaceFault::unread)?;
        place.want_short_name()?;
        let folder = match system.open(place.folder()) {
            Ok(folder) => folder,
            Err(error) => return Err(PlaceFault::Unwritten(Subject::Folder, error)),
        };
        let mut claim = Claim {
            system: &mut system,
            place: &place,
            mode,
            patience,
            waited: 0,
        };
        let held = claim.make_held()?;
        Ok(NextText {
            system,
            place,
            folder,
            held,
            expected: Expected::Nothing,
            new_files: None,
            is_narrowed: false,
            is_copied: false,
            stays: false,
            left: 0,
        })
    }

    fn want_nothing(&mut self) -> Result<(), PlaceFault> {
        want_nothing(&mut self.system, self.place.store())
    }

    fn want_known(&mut self, known: Stamp) -> Result<(), PlaceFault> {
        want_known(&mut self.system, self.place.store(), known)
    }

    fn look_at_new_files(&mut self) -> io::Result<NewFiles> {
        let made = self.system.look_at(&self.held)?;
        Ok(NewFiles {
            group: made.rights.group,
            is_shared: self.system.shares_new_files(&self.folder)?,
        })
    }

    /// The bytes of the store file, which has to be the same one still when the next text takes its place.
    pub fn read_store(&mut self, alloc: Global) -> Result<Vec<u8>, PlaceFault> {
        match read_file(alloc, &mut self.system, self.place.store()) {
            Ok((bytes, stamp)) => {
                self.expected = Expected::Stamped(stamp);
                Ok(bytes)
            }
            Err(error) => Err(PlaceFault::unread(error)),
        }
    }

    /// Whether permissions of the file that is replaced are left out.
    pub fn is_narrowed(&self) -> bool {
        self.is_narrowed
    }

    /// Where it stands.
    pub fn place(&self) -> &Place {
        &self.place
    }

    /// Lets the next text be written. The file has the rights of the one that it replaces before it has a byte: they may be others than
    /// when it was made. Where that one is gone, which is refused once the text is written, it stays its owner's alone. It takes as many
    /// bytes as the system lets a file have.
    pub fn begin(&mut self) -> Result<(), PlaceFault> {
        self.renew_rights()?;
        self.left = self.system.most_bytes_of_a_file();
        Ok(())
    }

    fn renew_rights(&mut self) -> Result<(), PlaceFault> {
        if self.expected == Expected::Nothing {
            return Ok(());
        }
        if let Ok(found) = self.look_at_store() {
            return self.take_rights_of(&found);
        }
        self.is_narrowed = true;
        match self.system.set_mode(&self.held, PRIVATE) {
            Ok(()) => Ok(()),
            Err(error) => Err(PlaceFault::Unwritten(Subject::NextText, error)),
        }
    }

    fn take_rights_of(&mut self, found: &Look) -> Result<(), PlaceFault> {
        match self.given_rights_of(found) {
            Ok(is_narrowed) => {
                self.is_narrowed = is_narrowed;
                Ok(())
            }
            Err(error) => Err(PlaceFault::Unwritten(Subject::NextText, error)),
        }
    }

    /// Gives the file the owner, the group and the permissions of the one that it replaces, as far as this user may. Answers whether
    /// permissions were left out.
    fn given_rights_of(&mut self, found: &Look) -> io::Result<bool> {
        let Some(new_files) = self.new_files else {
            return Ok(false);
        };
        self.give_away(found)?;
        let given = self.system.look_at(&self.held)?.rights;
        // somebody gave it to this group, or new files are the group's, too
        let is_meant = new_files.is_shared || found.rights.group != new_files.group;
        let mode = handed_on(found.rights, given.owner, given.group, is_meant);
        self.system.set_mode(&self.held, mode)?;
        Ok(mode != found.rights.mode)
    }

    /// A user who may not give a file to another one may still give it to a group of his.
    fn give_away(&mut self, found: &Look) -> io::Result<()> {
        let (owner, group) = (found.rights.owner, found.rights.group);
        let made = self.system.look_at(&self.held)?.rights;
        if made.owner != owner && self.system.give(&self.held, Some(owner), group).is_ok() {
            return Ok(());
        }
        if made.group != group {
            // what the group then lacks is left out
            let _ = self.system.give(&self.held, None, group);
        }
        Ok(())
    }

    /// Removes the file, unless that was renamed or stays.
    fn give_up(&mut self) {
        if !self.stays && names(&mut self.system, self.place.next(), &self.held) {
            // there is nothing that could be done further
            let _ = self.system.remove(self.place.next(), &self.held);
        }
    }

    /// Looks at the store file, which is a file.
    fn look_at_store(&mut self) -> io::Result<Look> {
        let found = self.system.look(self.place.store())?;
        want_regular(&found)?;
        Ok(found)
    }

    /// Makes what was written durable, puts it into the store file's place, and makes that durable, too. Answers the stamp of what stands
    /// there then. It doesn't go on where either file is another one by now, or is gone: a text that would replace a file that wasn't
    /// read stays beside it.
    pub fn put_in_place(&mut self) -> Result<Stamp, PlaceFault> {
        let (store, next) = (self.place.store(), self.place.next());
        let expected = self.expected;
        match put(
            &mut self.system,
            store,
            next,
            &self.held,
            &self.folder,
            expected,
        ) {
            Err(PlaceFault::Changed) if !self.is_copied => {
                self.stays = true;
                Err(PlaceFault::Overtaken)
            }
            // the store file is gone
            Err(PlaceFault::Unwritten(Subject::Store, error))
                if error.kind() == ErrorKind::NotFound => {
                self.stays = !self.is_copied;
                Err(PlaceFault::Unwritten(Subject::Store, error))
            }
            answer => answer,
        }
    }
}

/// A write beyond what the system lets a file have would end the program by a signal.
impl<S: System> Write for NextText<S> {
    fn write(&mut self, buf: &[u8]) -> io::Result<usize> {
        let room = buf.len().min(self.left as usize);
        if room == 0 && !buf.is_empty() {
            return Err(io::Error::from_raw_os_error(FILE_TOO_LARGE));
        }
        let count = self.system.write(&self.held, &buf[..room])?;
        self.left = self.left.saturating_sub(count as u64);
        Ok(count)
    }

    fn flush(&mut self) -> io::Result<()> {
        Ok(())
    }
}

impl<S: System> Drop for NextText<S> {
    fn drop(mut self) {
        self.give_up();
        let NextText {
            system: _,
            place: _,
            folder: _,
            held: _,
            expected: _,
            new_files: _,
            is_narrowed: _,
            is_copied: _,
            stays: _,
            left: _,
        } = self;
    }
}

/// Refuses a place where there is something.
fn want_nothing<S: System>(system: &mut S, path: &str) -> Result<(), PlaceFault> {
    match system.look(path) {
        Ok(_) => Err(PlaceFault::Exists),
        Err(error) if error.kind() == ErrorKind::NotFound => Ok(()),
        Err(error) => Err(PlaceFault::unread(error)),
    }
}

/// Refuses a place where there is another file than one that is known, or none.
fn want_known<S: System>(system: &mut S, path: &str, known: Stamp) -> Result<(), PlaceFault> {
    match system.look(path) {
        Ok(found) if found.stamp == known => Ok(()),
        Ok(_) => Err(PlaceFault::Changed),
        Err(error) if error.kind() == ErrorKind::NotFound => Err(PlaceFault::Changed),
        Err(error) => Err(PlaceFault::unread(error)),
    }
}
