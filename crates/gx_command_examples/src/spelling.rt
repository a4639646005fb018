//! Texts that are spelled piece by piece.

use gx_devices::Refusing;
use gx_text::decimal;
use std::alloc::Global;

/// A heap that may be told to refuse a growth.
pub(crate) type Heap = Refusing<Global>;

/// What is left to spell of a text, and whether nothing else was spelled.
#[derive(Clone, Copy)]
pub(crate) struct Spelling<'a> {
    pub(crate) rest: &'a [u8],
    pub(crate) is_right: bool,
}

impl<'a> Spelling<'a> {
    /// A text of which nothing is spelled.
    pub(crate) fn new(text: &'a [u8]) -> Spelling<'a> {
        Spelling {
            rest: text,
            is_right: true,
        }
    }

    /// Spells a text between two others.
    pub(crate) fn put(&mut self, open: &[u8], text: &[u8], close: &[u8]) {
        for part in [open, text, close] {
            match self.rest.strip_prefix(part) {
                Some(rest) => self.rest = rest,
                None => self.is_right = false,
            }
        }
    }

    /// Spells a mark behind a space, where there is one.
    pub(crate) fn put_mark(&mut self, mark: Option<u64>) {
        if mark.is_some() {
            self.put(b" :", b"", b"");
            let digits = self
                .rest
                .split(|byte| *byte == b' ' || *byte == b';')
                .next()
                .unwrap_or(b"");
            self.is_right = self.is_right && decimal(digits) == mark;
            self.put(digits, b"", b"");
        }
    }
}
