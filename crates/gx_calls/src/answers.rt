//! What calls are given and answer.

use gx_devices::Refusing;
use gx_object::{Kind, Name};
use gx_text::{cut, decimal};
use std::alloc::Global;
use std::fmt::Display;

/// A heap that may be told to refuse a growth.
pub(crate) type Heap = Refusing<Global>;

/// The memory of a call, and its answer so far. An answer for which there is no memory lacks
/// something, and so is another one.
#[derive(Drop)]
pub(crate) struct Room<'a> {
    /// What answers are made of.
    pub(crate) alloc: Global,
    pub(crate) heap: &'a Heap,
    /// The growth that is to be refused.
    pub(crate) nth: u64,
    pub(crate) answer: Vec<u8>,
}

impl<'a> Room<'a> {
    /// From here on the heap refuses.
    pub(crate) fn arm(&self) {
        self.heap.arm(self.nth);
    }

    pub(crate) fn put(&mut self, text: &[u8]) {
        let _ = self.answer.extend_from_slice(text);
    }

    pub(crate) fn word(&mut self, word: &str) {
        self.put(word.as_bytes());
    }

    pub(crate) fn yes_or_no(&mut self, is: bool) {
        self.word(if is { "yes" } else { "no" });
    }

    /// What this prints: a number, or a fault.
    pub(crate) fn told<T: Display + Drop>(&mut self, told: T) {
        if let Ok(text) = format!(in self.alloc; "{told}") {
            self.put(text.as_bytes());
        }
    }

    /// The digits of a name.
    pub(crate) fn digits(&mut self, name: &Name) {
        self.put(&name.hex());
    }

    /// The digits of a name, or that there is none.
    pub(crate) fn found(&mut self, name: Option<Name>) {
        match name {
            Some(name) => self.digits(&name),
            None => self.word("nothing"),
        }
    }

    /// The digits of a name, or why there is none.
    pub(crate) fn named<E: Display + Drop>(&mut self, answer: Result<Name, E>) {
        match answer {
            Ok(name) => self.digits(&name),
            Err(fault) => self.told(fault),
        }
    }

    /// That a call is done, or why it isn't.
    pub(crate) fn done<T: Drop, E: Display + Drop>(&mut self, answer: Result<T, E>) {
        match answer {
            Ok(_) => self.word("done"),
            Err(fault) => self.told(fault),
        }
    }

    /// That memory is wanting.
    pub(crate) fn refused(&mut self) {
        self.word("OutOfMemory");
    }
}

/// The first word of a text, which ends with a space or a line, and what is behind.
pub(crate) fn first_word(text: &[u8]) -> (&[u8], &[u8]) {
    for (place, byte) in text.iter().enumerate() {
        if *byte == b' ' || *byte == b'\n' {
            return (&text[..place], text.get(place + 1..).unwrap_or(b""));
        }
    }
    (text, b"")
}

/// The parts of a text between bytes of this value, as far as there is memory.
pub(crate) fn parts_of(alloc: Global, text: &[u8], at: u8) -> Vec<&[u8]> {
    let mut parts = Vec::new(alloc);
    put_parts(&mut parts, text, at);
    parts
}

fn put_parts<'a>(parts: &mut Vec<&'a [u8]>, text: &'a [u8], at: u8) {
    let mut rest = text;
    for _ in 0..text.len() {
        let Some((part, behind)) = cut(rest, at) else {
            break;
        };
        let _ = parts.push(part);
        rest = behind;
    }
    let _ = parts.push(rest);
}

/// The number that digits are, and 0 where they are none.
pub(crate) fn number_of(digits: &[u8]) -> usize {
    decimal(digits).unwrap_or(0) as usize
}

/// The kind of a word.
pub(crate) fn kind_of(word: &[u8]) -> Kind {
    match word {
        b"tree" => Kind::Tree,
        b"commit" => Kind::Commit,
        b"tag" => Kind::Tag,
        _ => Kind::Blob,
    }
}
