//! Quoted texts, read.

ghost use Rattle.std.specs.Prelude.{ℕ, ◌≡◌, ◌<◌, ◌≤◌, ◌-◌, length, drop, IfOk};
ghost use Rattle.std.specs.Option.{option_map};
ghost use Rattle.gx_model.specs.Texts.Paths.{named, octal_of, escape_at, char_at, unquote_within, unquote};
ghost use Rattle.gx_text.specs.Quoting.{GivesUnquoted, after_quoted};

use crate::fault::TextFault;
use std::alloc::Allocator;

/// The bytes of the quoted text at the front, and what follows its closing quote.
pub(crate) fn unquoted<A: Allocator + Copy>(
    alloc: A,
    bytes: &[u8],
) -> Result<(Vec<u8, A>, &[u8]), TextFault>
    ensures { GivesUnquoted (unquote bytes.now) result }
{
    match bytes.split_first() {
        Some((b'"', body)) => unquoted_body(alloc, body),
        _ => Err(TextFault::BadPath),
    }
}

// The bytes up to the closing quote, and what follows it.
fn unquoted_body<A: Allocator + Copy>(
    alloc: A,
    body: &[u8],
) -> Result<(Vec<u8, A>, &[u8]), TextFault>
    ensures { GivesUnquoted (unquote_within (length body.now) body.now) result }
{
    let mut text = Vec::new(alloc);
    let mut rest = body;
    for _turn in 0..body.len() {
        let Some((byte, after)) = next_char(rest) else {
            return Err(TextFault::BadPath);
        };
        let Some(byte) = byte else {
            return Ok((text, after));
        };
        text.push(byte)?;
        rest = after;
    }
    Err(TextFault::BadPath)
}

/// What follows the quoted text at the front.
///
/// Cost: the number of its bytes. Takes no memory. Source: git-fast-import(1), "filemodify", on C-style quoting.
pub fn after_quoted(bytes: &[u8]) -> Option<&[u8]>
    ensures { option_map (λ rest. rest.now) result ≡ after_quoted bytes.now }
{
    match bytes.split_first() {
        Some((b'"', body)) => after_body(body),
        _ => None,
    }
}

// What follows the closing quote.
fn after_body(body: &[u8]) -> Option<&[u8]>
    ensures { option_map (λ rest. rest.now) result
        ≡ option_map (λ p. p.1) (unquote_within (length body.now) body.now) }
{
    let mut rest = body;
    for _turn in 0..body.len() {
        let (byte, after) = next_char(rest)?;
        let Some(_byte) = byte else {
            return Some(after);
        };
        rest = after;
    }
    None
}

// The byte at the front of a quoted text, or none at its closing quote, and what follows.
#[tactic(auto, unfolding(gx_model::specs::Texts::Paths::char_at))]
fn next_char(bytes: &[u8]) -> Option<(Option<u8>, &[u8])>
    ensures { option_map (λ x. (x.0, x.1.now)) result ≡ char_at bytes.now }
{
    let (first, rest) = bytes.split_first()?;
    if *first == b'"' {
        return Some((None, rest));
    }
    if *first == b'\\' {
        let (byte, rest) = after_escape(rest)?;
        return Some((Some(byte), rest));
    }
    if *first == b'\n' || *first == 0 {
        return None;
    }
    Some((Some(*first), rest))
}

// The byte that an escape stands for, behind its backslash.
fn after_escape(bytes: &[u8]) -> Option<(u8, &[u8])>
    ensures { option_map (λ x. (x.0, x.1.now)) result ≡ escape_at bytes.now }
{
    if bytes.len() > 2 && b'0' <= bytes[0] && bytes[0] <= b'3' {
        return Some((octal_byte(bytes[0], bytes[1], bytes[2])?, &bytes[3..]));
    }
    let (letter, rest) = bytes.split_first()?;
    Some((named_byte(*letter)?, rest))
}

fn named_byte(letter: u8) -> Option<u8>
    ensures { result ≡ named letter }
{
    match letter {
        b'a' => Some(0x07),
        b'b' => Some(0x08),
        b'f' => Some(0x0c),
        b'n' => Some(b'\n'),
        b'r' => Some(b'\r'),
        b't' => Some(b'\t'),
        b'v' => Some(0x0b),
        b'\\' => Some(b'\\'),
        b'"' => Some(b'"'),
        _ => None,
    }
}

fn octal_byte(a: u8, b: u8, c: u8) -> Option<u8>
    ensures { result ≡ octal_of a b c }
{
    if b'0' <= a && a <= b'3' && b'0' <= b && b <= b'7' && b'0' <= c && c <= b'7' {
        Some((a - b'0') * 64 + (b - b'0') * 8 + (c - b'0'))
    } else {
        None
    }
}
