//! Reading a store file as a whole.

use crate::look::{FileKind, Look, Stamp};
use crate::system::System;
use std::alloc::Global;
use std::io::{self, Read};

/// The number of the error of a folder that is read. Source: errno(3), on Linux.
const IS_A_DIRECTORY: i32 = 21;

/// The bytes of the file that a path names, and which file it was. The room for them is taken at once, so that it needn't grow.
pub fn read_file<S: System>(
    alloc: Global,
    system: &mut S,
    path: &str,
) -> io::Result<(Vec<u8>, Stamp)> {
    let (mut opened, found) = open_file(system, path)?;
    let room = found.stamp.size.saturating_add(1) as usize;
    let mut bytes = Vec::with_capacity(alloc, room)?;
    opened.read_to_end(&mut bytes)?;
    Ok((bytes, found.stamp))
}

/// Refuses what is no file that can be read. Nothing is read yet.
pub(crate) fn want_file<S: System>(system: &mut S, path: &str) -> io::Result<()> {
    let _opened = open_file(system, path)?;
    Ok(())
}

/// Opens what is a file. A look comes first, since to open a pipe would wait.
fn open_file<S: System>(system: &mut S, path: &str) -> io::Result<(S::File, Look)> {
    want_regular(&system.look(path)?)?;
    let opened = system.open(path)?;
    let found = system.look_at(&opened)?;
    want_regular(&found)?;
    Ok((opened, found))
}

/// Refuses a folder, a pipe, a device and the like.
pub(crate) fn want_regular(found: &Look) -> io::Result<()> {
    match found.kind {
        FileKind::File => Ok(()),
        FileKind::Folder => Err(io::Error::from_raw_os_error(IS_A_DIRECTORY)),
        FileKind::Other => Err(io::Error::other("not a regular file")),
    }
}
