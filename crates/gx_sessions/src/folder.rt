//! The files of a session.

use std::alloc::{AllocError, Global};

/// A file with its bytes.
#[derive(Drop)]
pub(crate) struct File {
    name: String,
    pub(crate) bytes: Vec<u8>,
    /// It is what a command left, and no text of the session.
    pub(crate) is_made: bool,
}

/// Files, of which the last one with a name counts.
#[derive(Drop)]
pub(crate) struct Folder {
    alloc: Global,
    files: Vec<File>,
}

impl Folder {
    pub(crate) fn new(alloc: Global) -> Folder {
        Folder {
            alloc,
            files: Vec::new(alloc),
        }
    }

    pub(crate) fn alloc(&self) -> Global {
        self.alloc
    }

    pub(crate) fn file(&self, name: &str) -> Option<&File> {
        let mut found = None;
        for file in &self.files {
            if file.name.as_str() == name {
                found = Some(file);
            }
        }
        found
    }

    /// The bytes of a file; none where there is none.
    pub(crate) fn bytes(&self, name: &str) -> &[u8] {
        match self.file(name) {
            Some(file) => &file.bytes,
            None => b"",
        }
    }

    /// Puts bytes in the place of a file, which a command left or which are the session's own.
    pub(crate) fn put(
        &mut self,
        name: &str,
        bytes: Vec<u8>,
        is_made: bool,
    ) -> Result<(), AllocError> {
        let file = File {
            name: String::from_str(self.alloc, name)?,
            bytes,
            is_made,
        };
        self.files.push(file)?;
        Ok(())
    }
}
