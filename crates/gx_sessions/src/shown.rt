//! Bytes as the notation shows them: `\xHH` is the byte with these two digits, and `\xHH{N}` is N of them.

use crate::notation::NO_END;
use gx_text::{cut, decimal};
use std::alloc::{AllocError, Global};

/// The text that a line stands for.
pub(crate) fn read_text(alloc: Global, line: &str) -> Result<String, AllocError> {
    let mut bytes = Vec::new(alloc);
    put_read(&mut bytes, line)?;
    String::from_utf8_lossy(alloc, &bytes)
}

/// Puts the bytes that a line stands for.
pub(crate) fn put_read(bytes: &mut Vec<u8>, line: &str) -> Result<(), AllocError> {
    let mut rest = line.as_bytes();
    for _ in 0..line.len() {
        match cut(rest, b'\\') {
            Some((front, behind)) => {
                bytes.extend_from_slice(front)?;
                rest = put_escape(bytes, behind)?;
            }
            None => break,
        }
    }
    bytes.extend_from_slice(rest)
}

/// Puts what a backslash before these bytes stands for, and answers what is behind.
fn put_escape<'a>(bytes: &mut Vec<u8>, behind: &'a [u8]) -> Result<&'a [u8], AllocError> {
    match byte_of(behind) {
        Some((byte, rest)) => {
            let (count, rest) = count_of(rest);
            let len = bytes.len().saturating_add(count);
            bytes.resize(len, byte)?;
            Ok(rest)
        }
        None => {
            bytes.push(b'\\')?;
            Ok(behind)
        }
    }
}

/// The byte of an `x` with two digits, and what is behind.
fn byte_of(bytes: &[u8]) -> Option<(u8, &[u8])> {
    let digits = bytes.strip_prefix(b"x")?;
    let high = digit_of(*digits.first()?)?;
    let low = digit_of(*digits.get(1)?)?;
    Some(((high & 15) << 4 | low, digits.get(2..)?))
}

/// The value of a hexadecimal digit in lower case.
fn digit_of(byte: u8) -> Option<u8> {
    match byte {
        b'0'..=b'9' => Some(byte - b'0'),
        b'a'..=b'f' => Some(byte - b'a' + 10),
        _ => None,
    }
}

/// How many bytes are meant, and what is behind.
fn count_of(bytes: &[u8]) -> (usize, &[u8]) {
    match counted(bytes) {
        Some(answer) => answer,
        None => (1, bytes),
    }
}

fn counted(bytes: &[u8]) -> Option<(usize, &[u8])> {
    let (digits, rest) = cut(bytes.strip_prefix(b"{")?, b'}')?;
    Some((decimal(digits)? as usize, rest))
}

/// Bytes as a session shows them.
pub(crate) fn shown(alloc: Global, bytes: &[u8]) -> Result<String, AllocError> {
    let mut text = String::new(alloc);
    for byte in bytes {
        put_shown(alloc, &mut text, *byte)?;
    }
    if !bytes.is_empty() && !bytes.ends_with(b"\n") {
        text.push('\n')?;
        text.push_str(NO_END)?;
        text.push('\n')?;
    }
    Ok(text)
}

fn put_shown(alloc: Global, text: &mut String, byte: u8) -> Result<(), AllocError> {
    match byte {
        b'\n' | b'\t' | b' '..=b'~' => text.push(byte as char),
        _ => text.push_str(format!(in alloc; "\\x{byte:02x}")?.as_str()),
    }
}
