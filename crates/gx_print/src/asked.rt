//! What a line asks. Source: git-cat-file(1), "--batch-command".

ghost use Rattle.std.specs.Prelude.{◌≡◌};
ghost use Rattle.gx_print.specs.Asking.{asked_alone, asked_of, asked_with, ls_by, shown_asked};

use gx_text::cut;

/// What a line asks.
#[derive(Clone, Copy)]
pub enum Asked<'a> {
    /// The object of a revision, with its bytes.
    Contents(&'a [u8]),
    /// The line of a revision's object.
    Info(&'a [u8]),
    /// That what was answered goes out.
    Flush,
    /// The refs.
    Refs,
    /// The entries of a revision's tree, or all of its files.
    List(bool, &'a [u8]),
    /// The archive of a revision's tree.
    Archive(&'a [u8]),
    /// The commits of the range words of a text.
    Log(&'a [u8]),
    /// The names of what the revisions of a text give.
    Names(&'a [u8]),
    /// None of these.
    Unknown,
}

/// What a line asks: its command stands before the first space. Takes no memory.
pub fn read_asked(line: &[u8]) -> Asked<'_>
    ensures { shown_asked result ≡ asked_of line.now }
{
    match cut(line, b' ') {
        Some((command, rest)) => read_with(command, rest),
        None => read_alone(line),
    }
}

/// What a command asks that stands alone.
fn read_alone(command: &[u8]) -> Asked<'static>
    ensures { shown_asked result ≡ asked_alone command.now }
{
    if command == b"flush".as_slice() {
        Asked::Flush
    } else if command == b"refs".as_slice() {
        Asked::Refs
    } else {
        Asked::Unknown
    }
}

/// What a command asks with what stands behind it.
fn read_with<'a>(command: &[u8], rest: &'a [u8]) -> Asked<'a>
    ensures { shown_asked result ≡ asked_with command.now rest.now }
{
    if command == b"contents".as_slice() {
        Asked::Contents(rest)
    } else if command == b"info".as_slice() {
        Asked::Info(rest)
    } else if command == b"ls".as_slice() {
        read_list(rest)
    } else if command == b"archive".as_slice() {
        Asked::Archive(rest)
    } else if command == b"log".as_slice() {
        Asked::Log(rest)
    } else if command == b"rev-parse".as_slice() {
        Asked::Names(rest)
    } else {
        Asked::Unknown
    }
}

/// What `ls` asks with what stands behind it.
fn read_list(rest: &[u8]) -> Asked<'_>
    ensures { shown_asked result ≡ ls_by rest.now }
{
    if let Some(revision) = rest.strip_prefix(b"-r ") {
        return Asked::List(true, revision);
    }
    if rest == b"-r".as_slice() {
        Asked::Unknown
    } else {
        Asked::List(false, rest)
    }
}
