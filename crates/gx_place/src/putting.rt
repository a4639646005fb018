//! How a text that was written takes a store file's place.

ghost use Rattle.gx_place.specs.Calls.{Made};
ghost use Rattle.gx_place.specs.Putting.{Puts, Wants};

use crate::fault::{PlaceFault, Subject};
use crate::look::{Look, Stamp};
use crate::system::System;
use std::io::{self, ErrorKind};

/// The number of the error of a name that nothing has. Source: errno(3), on Linux.
const NO_SUCH_FILE: i32 = 2;

/// What has to stand in a store file's place still when its next text takes that.
#[derive(Clone, Copy, Debug, PartialEq, Eq, Drop)]
pub enum Expected {
    Nothing,
    Stamped(Stamp),
}

/// Makes what was written durable, renames it over the store file, and makes that durable, too. It goes on only where the text has its
/// name still, and what is expected stands in its place. Answers what stands there then.
///
/// `Exists`, `Changed`: something else stands there. `Unwritten`: a call failed, or the text is without its name. The store file is as it
/// was, unless it was the folder's sync that failed.
pub(crate) fn put<S: System>(
    system: &mut S,
    store: &str,
    next: &str,
    held: &S::File,
    folder: &S::File,
    expected: Expected,
) -> Result<Stamp, PlaceFault>
    ensures { Made (Puts (record {
      store = store.now;
      next = next.now;
      held = S.number held.now;
      folder = S.number folder.now;
      expected = expected;
    }) result) (S.calls system.old) (S.calls system.new) }
{
    match system.sync(held) {
        Ok(()) => {}
        Err(error) => return Err(PlaceFault::Unwritten(Subject::NextText, error)),
    }
    let named = match system.look_at_name(next) {
        Ok(named) => named,
        Err(error) => return Err(PlaceFault::Unwritten(Subject::NextText, error)),
    };
    let now = match system.look_at(held) {
        Ok(now) => now,
        Err(error) => return Err(PlaceFault::Unwritten(Subject::NextText, error)),
    };
    if named.stamp.identity != now.stamp.identity {
        // somebody took the file away by hand
        let error = io::Error::from_raw_os_error(NO_SUCH_FILE);
        return Err(PlaceFault::Unwritten(Subject::NextText, error));
    }
    match want_expected(system.look(store), expected) {
        Ok(()) => {}
        Err(fault) => return Err(fault),
    }
    match system.rename(next, store) {
        Ok(()) => {}
        Err(error) => return Err(PlaceFault::Unwritten(Subject::Store, error)),
    }
    match system.sync(folder) {
        Ok(()) => Ok(now.stamp),
        // a file system that has no sync of folders says that this is no valid request
        Err(error) if error.kind() == ErrorKind::InvalidInput => Ok(now.stamp),
        Err(error) => Err(PlaceFault::Unwritten(Subject::Folder, error)),
    }
}

/// Refuses what isn't expected.
fn want_expected(seen: io::Result<Look>, expected: Expected) -> Result<(), PlaceFault>
    ensures { Wants expected seen result }
{
    match (expected, seen) {
        (Expected::Nothing, Ok(_)) => Err(PlaceFault::Exists),
        (Expected::Nothing, Err(error)) if error.kind() == ErrorKind::NotFound => Ok(()),
        (Expected::Stamped(stamp), Ok(found)) if found.stamp == stamp => Ok(()),
        (Expected::Stamped(_), Ok(_)) => Err(PlaceFault::Changed),
        (_, Err(error)) => Err(PlaceFault::Unwritten(Subject::Store, error)),
    }
}
