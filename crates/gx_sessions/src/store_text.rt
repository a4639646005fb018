//! Texts of stores: in their first version, and how much they hold.

use gx_text::{cut, decimal};
use std::alloc::{AllocError, Global};

/// A store's text in the first version, whose records have no names.
#[derive(Drop)]
pub(crate) struct StoreText {
    pub(crate) text: Vec<u8>,
    pub(crate) objects: u64,
    pub(crate) refs: u64,
}

/// The store of a text of either version; none where a text has not the form of one.
pub(crate) fn store_of(alloc: Global, text: &[u8]) -> Result<Option<StoreText>, AllocError> {
    let Some((objects, mut rest)) = head_of(text) else {
        return Ok(None);
    };
    let mut old = Vec::new(alloc);
    old.extend_from_slice(format!(in alloc; "gxstore 1\nobjects {objects}\n")?.as_bytes())?;
    for _ in 0..objects {
        match put_record(&mut old, rest)? {
            Some(behind) => rest = behind,
            None => return Ok(None),
        }
    }
    old.extend_from_slice(rest)?;
    let Some(refs) = number_behind(rest, b"refs ") else {
        return Ok(None);
    };
    Ok(Some(StoreText {
        text: old,
        objects,
        refs,
    }))
}

/// How many records a text has, and what is behind the line that tells it.
fn head_of(text: &[u8]) -> Option<(u64, &[u8])> {
    let (_, behind) = cut(text, b'\n')?;
    let (_, rest) = cut(behind, b'\n')?;
    Some((number_behind(behind, b"objects ")?, rest))
}

/// The number in the first line of a text, behind a word.
fn number_behind(text: &[u8], word: &[u8]) -> Option<u64> {
    let (line, _) = cut(text, b'\n')?;
    decimal(line.strip_prefix(word)?)
}

/// Puts the first record of a text without its name, and answers what is behind.
fn put_record<'a>(old: &mut Vec<u8>, text: &'a [u8]) -> Result<Option<&'a [u8]>, AllocError> {
    match record_of(text) {
        Some((line, body, rest)) => {
            old.extend_from_slice(line)?;
            old.push(b'\n')?;
            old.extend_from_slice(body)?;
            Ok(Some(rest))
        }
        None => Ok(None),
    }
}

/// The line of the first record of a text without the name, its body with the end of that, and what is behind.
fn record_of(text: &[u8]) -> Option<(&[u8], &[u8], &[u8])> {
    let (line, behind) = cut(text, b'\n')?;
    let (kind, numbers) = cut(line, b' ')?;
    let size = match cut(numbers, b' ') {
        Some((size, _)) => size,
        None => numbers,
    };
    let line = line.get(..kind.len().saturating_add(1).saturating_add(size.len()))?;
    let len = (decimal(size)? as usize).saturating_add(1);
    Some((line, behind.get(..len)?, behind.get(len..)?))
}
