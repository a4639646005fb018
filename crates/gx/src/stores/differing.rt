//! A text that is written where it isn't the one that a store file has.

use crate::looks::file_at::FileAt;
use gx_at::ReadAt;
use std::alloc::{AllocError, Global};
use std::io::{self, Write};

/// So many bytes are compared at once.
const PIECE: usize = 1 << 14;

/// Takes a text beside a store file's. Nothing is written as long as both have the same bytes, nor where both end there: all of it is
/// from the first byte on that isn't the file's, with what came before.
#[derive(Drop)]
pub(super) struct Differing<'a, D> {
    store: FileAt<'a>,
    /// So many bytes the store file has.
    size: u64,
    /// So many bytes are the store file's, and aren't written.
    same: u64,
    is_same: bool,
    /// What is read of the store file.
    room: Vec<u8>,
    out: D,
}

impl<'a, D: Drop> Differing<'a, D> {
    /// A text beside that of a store file, of so many bytes.
    pub(super) fn new(
        alloc: Global,
        (store, size): (FileAt<'a>, u64),
        out: D,
    ) -> Result<Differing<'a, D>, AllocError> {
        let mut room = Vec::new(alloc);
        room.resize(PIECE, 0)?;
        Ok(Differing {
            store,
            size,
            same: 0,
            is_same: true,
            room,
            out,
        })
    }

    /// So many bytes of the store file from a place on, if it has them.
    fn read_store(&mut self, at: u64, count: usize) -> Option<&[u8]> {
        if self.room.is_empty() || self.store.read_at(at, &mut self.room).ok()? < count {
            return None;
        }
        self.room.get(..count)
    }
}

impl<D: Write + Drop> Differing<'_, D> {
    /// Writes what is the same so far.
    fn write_same(&mut self) -> io::Result<()> {
        self.is_same = false;
        for piece in 0..self.same.div_ceil(PIECE as u64) {
            let at = piece.saturating_mul(PIECE as u64);
            let count = self.same.saturating_sub(at).min(PIECE as u64);
            self.write_again(at, count as usize)?;
        }
        Ok(())
    }

    /// Writes so many bytes of the store file from a place on.
    fn write_again(&mut self, at: u64, count: usize) -> io::Result<()> {
        if self.read_store(at, count).is_none() {
            return Err(io::Error::other("can't be read again"));
        }
        self.out.write_all(self.room.get(..count).unwrap_or(b""))
    }
}

impl<D: Write + Drop> Write for Differing<'_, D> {
    fn write(&mut self, buf: &[u8]) -> io::Result<usize> {
        if self.is_same {
            let count = buf.len().min(PIECE);
            let next = &buf[..count];
            if self.read_store(self.same, count) == Some(next) {
                self.same = self.same.saturating_add(count as u64);
                return Ok(count);
            }
            self.write_same()?;
        }
        self.out.write(buf)
    }

    /// The text ends here.
    fn flush(&mut self) -> io::Result<()> {
        if self.is_same && self.same != self.size {
            self.write_same()?;
        }
        self.out.flush()
    }
}
