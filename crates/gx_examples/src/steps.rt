//! The steps of scripts.
//!
//! A script is a list of steps, each behind a `$`. A step has up to five fields, with `%` between them: words, what is read, what is
//! printed, the line that refuses it, and what a store is made of. A field of bytes has them behind a line feed, up to the next `%`
//! or `$`, or it names one of the `texts`.

use crate::texts::text;
use std::alloc::{AllocError, Global};

/// A step of a script.
#[derive(Clone, Copy)]
pub(crate) struct Step<'a> {
    pub(crate) words: &'a str,
    pub(crate) input: &'a [u8],
    pub(crate) printed: &'a [u8],
    pub(crate) line: &'a str,
    pub(crate) stream: &'a [u8],
}

/// The step in a part of a script.
pub(crate) fn step_of(part: &str) -> Step<'_> {
    let (words, rest) = halves(part, '%');
    let (input, rest) = halves(rest, '%');
    let (printed, rest) = halves(rest, '%');
    let (line, stream) = halves(rest, '%');
    Step {
        words: words.trim(),
        input: bytes_of(input),
        printed: bytes_of(printed),
        line: line.trim(),
        stream: bytes_of(stream),
    }
}

/// The texts before and behind the first of these marks; the second is empty where there is none.
pub(crate) fn halves(text: &str, mark: char) -> (&str, &str) {
    match text.split_once(mark) {
        Some(parts) => parts,
        None => (text, ""),
    }
}

/// The bytes of a field.
fn bytes_of(field: &str) -> &[u8] {
    match field.strip_prefix('\n') {
        Some(bytes) => bytes.as_bytes(),
        None => text(field.trim()),
    }
}

/// The words of a line, with such a mark between them. An empty line has none.
pub(crate) fn words_of(alloc: Global, line: &str, mark: char) -> Result<Vec<&str>, AllocError> {
    let mut words = Vec::new(alloc);
    if !line.is_empty() {
        put_words(&mut words, line, mark)?;
    }
    Ok(words)
}

/// Puts the words of a line behind others.
fn put_words<'a>(words: &mut Vec<&'a str>, line: &'a str, mark: char) -> Result<(), AllocError> {
    for word in line.split(mark) {
        words.push(word)?;
    }
    Ok(())
}
