//! Calls on devices: pieces that come and go, ends, failures and interruptions.

ghost use Rattle.std.specs.Prelude.{◌<◌, ◌≤◌};

use crate::answers::{Room, first_word, number_of, parts_of};
use gx_text::{Bytes, Failed, FromRead, Held, IntoWrite, Sink, Source, send};
use std::io::{Error, ErrorKind, Read, Result as IoResult, Write};

/// A reader and a writer that does what a text tells, one byte of it after the other: at a `!` it
/// is interrupted, and at a `?` it fails. A digit is how many bytes a write takes at most. All
/// other bytes are read, up to a comma.
#[derive(Drop)]
struct Turns<'a> {
    turns: &'a [u8],
    taken: Vec<u8>,
}

impl<'a> Read for Turns<'a> {
    fn read(&mut self, buf: &mut [u8]) -> IoResult<usize> {
        if let Some(rest) = self.turns.strip_prefix(b"!") {
            self.turns = rest;
            return Err(Error::from(ErrorKind::Interrupted));
        }
        if let Some(rest) = self.turns.strip_prefix(b"?") {
            self.turns = rest;
            return Err(Error::from(ErrorKind::BrokenPipe));
        }
        let count = piece_len(self.turns).min(self.turns.len()).min(buf.len());
        let (piece, rest) = self.turns.split_at(count);
        buf[..count].copy_from_slice(piece);
        self.turns = rest.strip_prefix(b",").unwrap_or(rest);
        Ok(count)
    }
}

impl<'a> Write for Turns<'a> {
    fn write(&mut self, buf: &[u8]) -> IoResult<usize> {
        let Some((turn, rest)) = self.turns.split_first() else {
            return Err(Error::from(ErrorKind::BrokenPipe));
        };
        self.turns = rest;
        let most = match *turn {
            b'!' => return Err(Error::from(ErrorKind::Interrupted)),
            b'?' => return Err(Error::from(ErrorKind::StorageFull)),
            digit => digit.saturating_sub(b'0') as usize,
        };
        let count = buf.len().min(most);
        match self.taken.extend_from_slice(&buf[..count]) {
            Ok(()) => Ok(count),
            Err(_) => Err(Error::from(ErrorKind::OutOfMemory)),
        }
    }

    fn flush(&mut self) -> IoResult<()> {
        Ok(())
    }
}

/// How many bytes are read at once of turns.
fn piece_len(turns: &[u8]) -> usize {
    for (place, turn) in turns.iter().enumerate() {
        if matches!(*turn, b'!' | b'?' | b',') {
            return place;
        }
    }
    turns.len()
}

/// Answers the call of this name of a device, if there is one.
pub(crate) fn answer(room: &mut Room<'_>, call: &str, text: &[u8]) -> bool {
    let (first, rest) = first_word(text);
    match call {
        "bytes" => pull_bytes(room, number_of(first), rest, false),
        "bytes-fail" => pull_bytes(room, number_of(first), rest, true),
        "read" => pull_read(room, number_of(first), rest),
        "held" => send_held(room, number_of(first), rest),
        "written" => send_written(room, first, rest),
        "slice" => send_slice(room, text),
        _ => return false,
    }
    true
}

fn pull_bytes(room: &mut Room<'_>, piece: usize, bytes: &[u8], fails: bool) {
    pull(room, &mut Bytes::new(bytes, piece.max(1), fails), 8);
}

fn pull_read(room: &mut Room<'_>, most: usize, turns: &[u8]) {
    let taken = Vec::new(room.alloc);
    pull(room, &mut FromRead::new(Turns { turns, taken }), most);
}

/// What seven pulls of at most so many bytes, and 8, answer, one after the other.
fn pull<S: Source>(room: &mut Room<'_>, source: &mut S, most: usize) {
    let mut buffer = [0u8; 8];
    for _ in 0..7 {
        let most = most.min(8).max(1);
        match source.pull(&mut buffer[..most]) {
            Ok(count) => {
                room.put(b"|");
                room.put(&buffer[..count]);
            }
            Err(Failed) => room.put(b"|failed"),
        }
    }
}

/// What words are answered that are sent one after the other: that they are, or how many bytes of
/// them.
fn send_all<S: Sink>(room: &mut Room<'_>, sink: &mut S, words: &[u8]) {
    for word in &parts_of(room.alloc, words, b' ') {
        match send(sink, word) {
            Ok(()) => room.put(b"sent"),
            Err(count) => room.told(count),
        }
        room.put(b"|");
    }
}

/// The same of a sink that holds so many bytes, and what it took.
fn send_held(room: &mut Room<'_>, most: usize, words: &[u8]) {
    room.arm();
    match Held::new(room.heap, most) {
        Ok(mut sink) => {
            send_all(room, &mut sink, words);
            room.put(sink.bytes());
        }
        Err(_) => room.refused(),
    }
}

/// The same of a writer that takes turns.
fn send_written(room: &mut Room<'_>, turns: &[u8], words: &[u8]) {
    let taken = Vec::new(room.alloc);
    let mut writer = Turns { turns, taken };
    send_all(room, &mut IntoWrite::new(&mut writer), words);
    room.put(&writer.taken);
}

/// The same of a writer with room for four bytes.
fn send_slice(room: &mut Room<'_>, words: &[u8]) {
    let mut slice = [0u8; 4];
    send_all(room, &mut IntoWrite::new(&mut slice[..]), words);
    room.put(&slice);
}
