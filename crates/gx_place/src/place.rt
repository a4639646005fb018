//! The names of a store file, of its next text and of their folder.

ghost use Rattle.std.specs.Prelude.{◌≡◌, string_bytes};

use crate::fault::PlaceFault;
use crate::system::System;
use std::alloc::Global;
use std::io;
use std::path::{Path, PathBuf};

/// As many symbolic links as Linux follows in a path. Source: path_resolution(7).
const MOST_LINKS: u32 = 40;

/// The number of the error of a path with more links. Source: errno(3), on Linux.
const TOO_MANY_LINKS: i32 = 40;

/// As many bytes may a name have. Source: limits.h(0p), `NAME_MAX` of Linux.
const MOST_BYTES_OF_A_NAME: usize = 255;

/// A store file, behind the links at the end of its path, and what stands beside it.
#[derive(Drop)]
pub struct Place {
    store: String,
    next: String,
}

impl Place {
    /// The place of the file that a path names. Nothing needs to be there.
    pub fn find<S: System>(alloc: Global, system: &mut S, path: &str) -> io::Result<Place> {
        let store = follow_links(alloc, system, path)?;
        let next = format!(in alloc; "{store}.new")?;
        Ok(Place { store, next })
    }

    /// Refuses a name so long that the next text can have none.
    pub fn want_short_name(&self) -> Result<(), PlaceFault> {
        match Path::new(self.next()).file_name() {
            Some(name) if name.len() > MOST_BYTES_OF_A_NAME => Err(PlaceFault::LongName),
            _ => Ok(()),
        }
    }

    /// The store file's path.
    pub fn store(&self) -> &str
        ensures { result.now ≡ string_bytes self.now.store }
    {
        self.store.as_str()
    }

    /// The path of its next text.
    pub fn next(&self) -> &str
        ensures { result.now ≡ string_bytes self.now.next }
    {
        self.next.as_str()
    }

    /// The path of the folder of both.
    pub fn folder(&self) -> &str {
        match Path::new(self.store()).parent() {
            Some(folder) if !folder.as_str().is_empty() => folder.as_str(),
            _ => ".",
        }
    }
}

/// The path behind the symbolic links at the end of a path, of which there may be so many.
fn follow_links<S: System>(alloc: Global, system: &mut S, path: &str) -> io::Result<String> {
    let mut path = PathBuf::from_str(alloc, path)?;
    for _ in 0..=MOST_LINKS {
        if !follow_link(system, &mut path)? {
            return Ok(path.into_string());
        }
    }
    Err(io::Error::from_raw_os_error(TOO_MANY_LINKS))
}

/// Follows the symbolic link at the end of a path. Answers whether there was one.
fn follow_link<S: System>(system: &mut S, path: &mut PathBuf) -> io::Result<bool> {
    match system.link(path.as_path().as_str())? {
        Some(target) => {
            path.pop();
            path.push(target)?;
            Ok(true)
        }
        None => Ok(false),
    }
}
