//! Texts, printed: as they stand, or quoted. Source: git-ls-files(1), "core.quotePath".

ghost use Rattle.std.specs.Prelude.{ℕ, ◌≡◌, length, take};
ghost use Rattle.std.specs.List.{list_all};
ghost use Rattle.gx_model.specs.Texts.Paths.{path_of, is_printed_bare, letter_of, printed_byte, printed};
ghost use Rattle.gx_model.specs.Streams.Lines.{last_path};
ghost use Rattle.gx_text.specs.Buffers.{GrowsBy};
ghost use Rattle.gx_text.specs.Quoting.{printed_quoted};

use std::alloc::{AllocError, Allocator};

/// Appends a text as a path is printed: quoted where a byte is below 0x20, DEL, `"`, `\` or at least 0x80. An error leaves the
/// old bytes at the front. At the end of a line, what was printed is read as the path that the text writes.
///
/// Cost: its length, at most four bytes for each of the text's. Source: git-ls-files(1), "core.quotePath".
pub fn put_printed<A: Allocator + Copy>(out: &mut Vec<u8, A>, text: &[u8]) -> Result<(), AllocError>
    ensures ok { GrowsBy out.old out.new (printed text.now) result }
    ensures front { take (length out.old.items) out.new.items ≡ out.old.items }
    ensures again { last_path (printed text.now) ≡ path_of text.now }
{
    if are_bare(text) {
        out.extend_from_slice(text)
    } else {
        put_quoted(out, text)
    }
}

fn put_quoted<A: Allocator + Copy>(out: &mut Vec<u8, A>, text: &[u8]) -> Result<(), AllocError>
    ensures ok { GrowsBy out.old out.new (printed_quoted text.now) result }
    ensures front { take (length out.old.items) out.new.items ≡ out.old.items }
{
    out.push(b'"')?;
    for b in text {
        put_byte(out, *b)?;
    }
    out.push(b'"')?;
    Ok(())
}

fn put_byte<A: Allocator + Copy>(out: &mut Vec<u8, A>, b: u8) -> Result<(), AllocError>
    ensures ok { GrowsBy out.old out.new (printed_byte b) result }
    ensures front { take (length out.old.items) out.new.items ≡ out.old.items }
{
    if is_bare(b) {
        return out.extend_from_slice(&[b]);
    }
    match letter(b) {
        Some(letter) => out.extend_from_slice(&[b'\\', letter]),
        None => out.extend_from_slice(&[b'\\', b'0' + b / 8 / 8, b'0' + b / 8 % 8, b'0' + b % 8]),
    }
}

/// Whether a text is printed as it stands.
fn are_bare(text: &[u8]) -> bool
    ensures { result ≡ list_all is_printed_bare text.now }
{
    text.iter().all(|b| is_bare(*b))
}

/// Whether the byte stands for itself in a text without quotes.
fn is_bare(b: u8) -> bool
    ensures { result ≡ is_printed_bare b }
{
    b >= 0x20 && b < 0x7f && b != b'"' && b != b'\\'
}

/// The letter of the byte's named escape.
fn letter(b: u8) -> Option<u8>
    ensures { result ≡ letter_of b }
{
    match b {
        0x07 => Some(b'a'),
        0x08 => Some(b'b'),
        0x0c => Some(b'f'),
        b'\n' => Some(b'n'),
        b'\r' => Some(b'r'),
        b'\t' => Some(b't'),
        0x0b => Some(b'v'),
        b'\\' => Some(b'\\'),
        b'"' => Some(b'"'),
        _ => None,
    }
}
