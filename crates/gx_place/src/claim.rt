//! How a run gets the file of a next text: it makes and locks it, and waits for a run that holds it.

ghost use Rattle.std.specs.Prelude.{IfOk, OnOk, IsTrue};
ghost use Rattle.gx_place.specs.Calls.{IsNamed};
ghost use Rattle.gx_place.specs.Turns.{IsOwnTurn};

use crate::fault::{PlaceFault, Subject};
use crate::look::{FileKind, Look};
use crate::place::Place;
use crate::rights::Mode;
use crate::system::System;
use std::io::{self, ErrorKind};

/// As many pauses take a second.
const PAUSES: u64 = 10;

/// How long a run waits for others: so many pauses, or as long as it takes.
#[derive(Clone, Copy, Debug, PartialEq, Eq, Drop)]
pub struct Patience {
    left: Option<u64>,
}

impl Patience {
    /// It waits as long as it takes.
    pub fn endless() -> Patience {
        Patience { left: None }
    }

    /// It waits for so many seconds.
    pub fn of_seconds(seconds: u64) -> Patience {
        Patience {
            left: Some(seconds.saturating_mul(PAUSES)),
        }
    }
}

/// What one turn comes to.
#[derive(Drop)]
enum Turn<F> {
    Held(F),
    /// What was in the way is gone.
    Again,
    /// A file is in the way that a run may have made, but that this user may not open, or nobody who may read the store file made.
    Barred(io::Error),
    /// The file can't be locked.
    Unlocked(io::Error),
}

/// A run that waits for a place of its own.
#[derive(Drop)]
pub(crate) struct Claim<'a, S: System> {
    pub(crate) system: &'a mut S,
    pub(crate) place: &'a Place,
    pub(crate) mode: Mode,
    pub(crate) patience: Patience,
    pub(crate) waited: u64,
}

impl<S: System> Claim<'_, S> {
    /// Makes and locks the file, in as many turns as that takes. What bars the way for a second is refused.
    pub(crate) fn make_held(&mut self) -> Result<S::File, PlaceFault>
        ensures { IfOk result (λ held. IsTrue (S.is_own held)) }
    {
        let mut barred = 0;
        for _ in 0..u64::MAX {
            match self.turn() {
                Ok(Turn::Held(held)) => return Ok(held),
                Ok(Turn::Again) => {}
                Ok(Turn::Barred(_)) if barred < PAUSES => {
                    barred += 1;
                    self.system.pause();
                }
                Ok(Turn::Barred(error) | Turn::Unlocked(error)) => {
                    return Err(PlaceFault::Unlocked(error));
                }
                Err(error) => return Err(PlaceFault::Unwritten(Subject::NextText, error)),
            }
        }
        Err(PlaceFault::Unlocked(io::Error::other("too many turns")))
    }

    /// One turn: makes and locks the file where there is none, or waits for whoever holds it.
    fn turn(&mut self) -> io::Result<Turn<S::File>>
        ensures { IfOk result (IsOwnTurn S.is_own) }
    {
        match self.system.look_at_name(self.place.next()) {
            Ok(found) if found.kind == FileKind::File => self.remove_left_over(&found),
            Ok(_) => Err(io::Error::other("not a regular file")),
            Err(error) if error.kind() == ErrorKind::NotFound => self.make_locked(),
            Err(error) => Err(error),
        }
    }

    /// Another run may get the new file's lock first, and remove it as a left-over: then this one asks for another turn.
    fn make_locked(&mut self) -> io::Result<Turn<S::File>>
        ensures { IfOk result (IsOwnTurn S.is_own) }
    {
        match self.system.make(self.place.next(), self.mode) {
            Ok(made) => self.lock_made(made),
            Err(error) if error.kind() == ErrorKind::AlreadyExists => Ok(Turn::Again),
            Err(error) => Err(error),
        }
    }

    /// Locks a new file, and looks whether it has its name still.
    fn lock_made(&mut self, made: S::File) -> io::Result<Turn<S::File>>
        requires { IsTrue (S.is_own made) }
        ensures { IfOk result (IsOwnTurn S.is_own) }
    {
        let locked = self.lock(&made);
        if !names(self.system, self.place.next(), &made) {
            return Ok(Turn::Again);
        }
        match locked {
            Ok(()) => Ok(Turn::Held(made)),
            Err(error) => {
                let _ = self.system.remove(self.place.next(), &made);
                Ok(Turn::Unlocked(error))
            }
        }
    }

    /// Waits for the lock. A file that has its name still was left by a run that is gone.
    fn remove_left_over(&mut self, found: &Look) -> io::Result<Turn<S::File>>
        ensures { IfOk result (IsOwnTurn S.is_own) }
    {
        if !self.may_be_a_runs(found) {
            let error = io::Error::other("made by a user who has no rights on the store");
            return Ok(Turn::Barred(error));
        }
        match self.open_found() {
            Ok(opened) => self.remove_opened(&opened),
            Err(error) if error.kind() == ErrorKind::NotFound => Ok(Turn::Again),
            Err(error) => Ok(Turn::Barred(error)),
        }
    }

    /// The same of the open file.
    fn remove_opened(&mut self, found: &S::File) -> io::Result<Turn<S::File>>
        ensures { IfOk result (IsOwnTurn S.is_own) }
    {
        if let Err(error) = self.lock(found) {
            return Ok(Turn::Unlocked(error));
        }
        if names(self.system, self.place.next(), found) {
            self.system.remove(self.place.next(), found)?;
        }
        Ok(Turn::Again)
    }

    /// Whether a file may be of a run of somebody who may read the store file. Before there is a store, anybody may make it.
    fn may_be_a_runs(&mut self, found: &Look) -> bool {
        match self.system.look(self.place.store()) {
            Ok(store) => is_trusted(found, &store, self.system.own_user()),
            Err(_) => true,
        }
    }

    /// Some file systems lock only what may be written, and a left-over may be one that may only be read.
    fn open_found(&mut self) -> io::Result<S::File> {
        match self.system.open_to_write(self.place.next()) {
            Ok(found) => Ok(found),
            Err(_) => self.system.open(self.place.next()),
        }
    }

    /// Locks a file, and tells after a second that it waits.
    fn lock(&mut self, file: &S::File) -> io::Result<()>
        ensures { OnOk result (IsTrue (S.is_own file.now)) }
    {
        for _ in 0..u64::MAX {
            if self.system.try_lock(file)? {
                return Ok(());
            }
            if self.patience.left == Some(0) {
                return Err(io::Error::other("another run holds it"));
            }
            if self.waited == PAUSES {
                self.system.tell_wait();
            }
            if self.patience.left.is_none() && self.waited >= PAUSES {
                return self.system.lock(file);
            }
            self.wait();
        }
        Err(io::Error::other("another run holds it"))
    }

    fn wait(&mut self) {
        self.system.pause();
        self.waited = self.waited.saturating_add(1);
        if let Some(left) = self.patience.left {
            self.patience.left = Some(left.saturating_sub(1));
        }
    }
}

/// Whether somebody made a file who may read the store file: this user, root, the store's owner, anybody where others may read it, or
/// somebody who could give it to the store's group.
fn is_trusted(found: &Look, store: &Look, own_user: Option<u32>) -> bool {
    let maker = found.rights.owner;
    maker == 0
        || Some(maker) == own_user
        || maker == store.rights.owner
        || store.rights.of_user(maker, found.rights.group).reads
}

/// Whether a path, with no link followed, names an open file.
pub(crate) fn names<S: System>(system: &mut S, path: &str, opened: &S::File) -> bool
    ensures { IsTrue result → IsNamed (S.calls system.new) path.now (S.number opened.now) }
{
    match system.look_at_name(path) {
        Ok(named) => match system.look_at(opened) {
            Ok(opened) => named.stamp.identity == opened.stamp.identity,
            Err(_) => false,
        },
        Err(_) => false,
    }
}
