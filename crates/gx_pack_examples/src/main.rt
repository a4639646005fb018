//! The program `gx_pack_examples` writes the objects on its standard input as a pack. They stand there as
//! `git cat-file --batch='%(objecttype) %(objectsize)'` prints them, and end where no object stands.
#![tactic(auto)]

use gx_model::Kind;
use gx_pack::Pack;
use gx_text::{Failed, IntoWrite, Sink, cut, decimal};
use std::io::{self, Read};
use std::process::ExitCode;

/// An object, and what follows it.
#[derive(Drop)]
struct Printed<'a> {
    kind: Kind,
    body: &'a [u8],
    rest: &'a [u8],
}

fn main(rt: HostRuntime) -> io::Result<ExitCode> {
    let mut text = Vec::new(rt.alloc());
    rt.stdin().read_to_end(&mut text)?;
    let written = write_pack(&mut IntoWrite::new(rt.stdout()), &text);
    Ok(ExitCode::from(if written.is_ok() { 0 } else { 1 }))
}

/// Writes the objects of a text.
fn write_pack<W: Sink>(sink: &mut W, text: &[u8]) -> Result<(), Failed> {
    let count = count_objects(text);
    let mut pack = Pack::new(sink);
    pack.write_head(count)?;
    let mut rest = text;
    for _ in 0..count {
        if let Some(object) = first_object(rest) {
            pack.write_object(object.kind, object.body)?;
            rest = object.rest;
        }
    }
    pack.write_end()
}

/// How many objects stand at the front of a text.
fn count_objects(text: &[u8]) -> u32 {
    let mut rest = text;
    for count in 0..u32::MAX {
        match first_object(rest) {
            Some(object) => rest = object.rest,
            None => return count,
        }
    }
    u32::MAX
}

/// The object at the front of a text.
fn first_object(text: &[u8]) -> Option<Printed<'_>> {
    let (head, rest) = cut(text, b'\n')?;
    let (word, digits) = cut(head, b' ')?;
    let kind = kind_of(word)?;
    let length = usize::try_from(decimal(digits)?).ok()?;
    let (body, rest) = rest.split_at_checked(length)?;
    let rest = rest.strip_prefix(b"\n")?;
    Some(Printed { kind, body, rest })
}

/// The kind that a word tells.
fn kind_of(word: &[u8]) -> Option<Kind> {
    for kind in [Kind::Blob, Kind::Tree, Kind::Commit, Kind::Tag] {
        if kind.word().as_bytes() == word {
            return Some(kind);
        }
    }
    None
}
