//! The lines of a message, and its subject. Source: git-log(1), "PRETTY FORMATS", and what git 2.39 takes for white space.

ghost use Rattle.std.specs.Prelude.{◌≡◌, ◌++◌, ◌∷◌, OnOk};
ghost use Rattle.std.specs.Iterator.{item_count};
ghost use Rattle.std.specs.Map.Iter.{TakesFirst};
ghost use Rattle.gx_print.specs.Messages.{PassesBlank, indented, indented_line, is_space, lines_left, message_lines, shown_line, subject, trimmed};

use gx_text::cut;
use std::alloc::{AllocError, Allocator};
use std::marker::Model;

/// The lines of a message, each without the white space at its end. It is seen as the list of those left.
#[derive(Drop)]
pub(crate) struct MessageLines<'a> {
    rest: Option<&'a [u8]>,
}

impl<'a> Model for MessageLines<'a> {
    ghost use Rattle.std.specs.Prelude.{List, ℕ};
    ghost use Rattle.gx_print.specs.Messages.{lines_left};

    ghost Value = { List (List ℕ) };

    ghost view = { λ it. lines_left it.rest };
}

impl<'a> MessageLines<'a> {
    /// The lines of a message.
    fn of(message: &'a [u8]) -> MessageLines<'a>
        ensures { result ≡ message_lines message.now }
    {
        MessageLines {
            rest: Some(message),
        }
    }

    /// The first line that isn't empty. It and those before it are passed.
    fn pass_blank(&mut self) -> Option<&'a [u8]>
        ensures { PassesBlank self.old self.new result }
    {
        while let Some(line) = self.next() {
            if !line.is_empty() {
                return Some(line);
            }
        }
        None
    }
}

impl<'a> Iterator for MessageLines<'a> {
    type Item = &'a [u8];

    ghost next_gives = { TakesFirst shown_line };

    ghost remaining = { item_count (λ rest. rest) };

    fn next(&mut self) -> Option<&'a [u8]> {
        let (line, rest) = first_line(self.rest?);
        self.rest = rest;
        Some(trimmed(line))
    }
}

/// The first line of a text, and what is left behind it, if anything.
fn first_line(text: &[u8]) -> (&[u8], Option<&[u8]>)
    ensures { message_lines text.now ≡ trimmed result.0.now ∷ lines_left result.1 }
{
    match cut(text, b'\n') {
        Some((line, rest)) => (line, Some(rest)),
        None => (text, None),
    }
}

/// Appends a message's subject: the lines of its first paragraph, with a space between each two.
pub(crate) fn put_subject<A: Allocator + Copy>(
    out: &mut Vec<u8, A>,
    message: &[u8],
) -> Result<(), AllocError>
    ensures { OnOk result (out.new.items ≡ out.old.items ++ subject message.now) }
{
    let mut lines = MessageLines::of(message);
    let Some(first) = lines.pass_blank() else {
        return Ok(());
    };
    out.extend_from_slice(first)?;
    for line in lines {
        if line.is_empty() {
            return Ok(());
        }
        out.push(b' ')?;
        out.extend_from_slice(line)?;
    }
    Ok(())
}

/// Appends a message's lines from the first on that isn't empty, each behind four spaces.
pub(crate) fn put_indented<A: Allocator + Copy>(
    out: &mut Vec<u8, A>,
    message: &[u8],
) -> Result<(), AllocError>
    ensures { OnOk result (out.new.items ≡ out.old.items ++ indented message.now) }
{
    let mut lines = MessageLines::of(message);
    let Some(first) = lines.pass_blank() else {
        return Ok(());
    };
    put_indented_line(out, first)?;
    for line in lines {
        put_indented_line(out, line)?;
    }
    Ok(())
}

fn put_indented_line<A: Allocator + Copy>(
    out: &mut Vec<u8, A>,
    line: &[u8],
) -> Result<(), AllocError>
    ensures { OnOk result (out.new.items ≡ out.old.items ++ indented_line line.now) }
{
    out.extend_from_slice(b"    ")?;
    out.extend_from_slice(line)?;
    Ok(out.push(b'\n')?)
}

/// A text without the white space at its end.
pub(crate) fn trimmed(text: &[u8]) -> &[u8]
    ensures { result.now ≡ trimmed text.now }
{
    let mut rest = text;
    while let Some((last, front)) = rest.split_last() {
        if !is_space(*last) {
            return rest;
        }
        rest = front;
    }
    rest
}

/// A space, a TAB, a CR or an LF.
fn is_space(byte: u8) -> bool
    ensures { result ≡ is_space byte }
{
    byte == b' ' || byte == b'\t' || byte == b'\r' || byte == b'\n'
}
