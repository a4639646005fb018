//! What streams ask for and bring, and why it isn't told.

use gx_asked::{Asked, AskedFault};
use gx_command::{CommandFault, Features};
use gx_object::{Name, Sha1Namer};
use std::alloc::{AllocError, Global};
use std::collections::BTreeSet;

const STREAM: &str = "\
blob\n\
mark :1\n\
data 3\n\
one\n\
commit refs/heads/a\n\
mark :2\n\
committer A <a@x> 1 +0000\n\
data 1\n\
m\n\
from refs/heads/old~1\n\
merge main^2\n\
merge :1\n\
merge no..revision\n\
M 100644 d670460b4b4aece5915caf5c68d12f560a9fe3e4 f\n\
M 160000 1111111111111111111111111111111111111111 sub\n\
M 100755 :1 g\n\
M 100644 inline h\n\
data 2\n\
hi\n\
D f\n\
\n\
reset refs/heads/b\n\
from @\n\
\n\
reset refs/heads/a\n\
tag v1\n\
from topic\n\
tagger A <a@x> 1 +0000\n\
data 0\n\
done\n\
";

/// What it asks for and brings: the texts that name commits; their bases, and the digits that name a blob; the branches that it sets;
/// and the names that git gives the blobs that it brings.
const ASKED: &str = "@
main^2
refs/heads/old~1
topic

HEAD
d670460b4b4aece5915caf5c68d12f560a9fe3e4
main
refs/heads/old
topic

refs/heads/a
refs/heads/b

32f95c0d1244a78b2be1bab8de17906fabb2c4a8
43dd47ea691c90a5fa7827892c70241913351963
";

/// Streams, whether they fail behind their last byte, and why it isn't told what they ask for: faults of streams, and what may
/// stand for another object.
const FAULTS: [(&str, bool, Option<AskedFault>); 8] = [
    (
        "none\n",
        false,
        Some(AskedFault::Unread(CommandFault::UnknownCommand)),
    ),
    (
        "blob\ndata 9\nx",
        false,
        Some(AskedFault::Unread(CommandFault::TruncatedData)),
    ),
    (STREAM, true, None),
    (
        "blob\n",
        true,
        Some(AskedFault::Unread(CommandFault::ReadFailed)),
    ),
    (
        "blob\ndata 16\ngx: stands for: ",
        false,
        Some(AskedFault::StandsForAnother),
    ),
    ("blob\ndata 15\ngx: stands for:", false, None),
    (
        "commit refs/heads/a\ncommitter A <a@x> 1 +0000\ndata 17\ngx: stands for: x",
        false,
        Some(AskedFault::StandsForAnother),
    ),
    (
        "commit refs/heads/a\ncommitter A <a@x> 1 +0000\ndata 0\n\
        M 100644 inline f\ndata 16\ngx: stands for: ",
        false,
        Some(AskedFault::StandsForAnother),
    ),
];

/// Puts the texts of a set, as lines.
fn put_texts(lines: &mut Vec<u8>, texts: &BTreeSet<Vec<u8>>) -> Result<(), AllocError> {
    for text in texts.iter() {
        lines.extend_from_slice(text.as_slice())?;
        lines.push(b'\n')?;
    }
    Ok(())
}

/// Puts the texts of a set, as lines, and an empty line.
fn put_part(lines: &mut Vec<u8>, texts: &BTreeSet<Vec<u8>>) -> Result<(), AllocError> {
    put_texts(lines, texts)?;
    lines.push(b'\n')?;
    Ok(())
}

/// Puts the digits of the names of a set, as lines.
fn put_names(lines: &mut Vec<u8>, names: &BTreeSet<Name>) -> Result<(), AllocError> {
    for name in names.iter() {
        lines.extend_from_slice(name.hex().as_slice())?;
        lines.push(b'\n')?;
    }
    Ok(())
}

/// Puts what is asked for and brought.
fn put_asked(lines: &mut Vec<u8>, asked: &Asked<Global>) -> Result<(), AllocError> {
    put_part(lines, &asked.texts)?;
    put_part(lines, &asked.bases)?;
    put_part(lines, &asked.branches)?;
    put_names(lines, &asked.brought)
}

/// Whether this is asked for and brought.
fn asks(alloc: Global, asked: &Asked<Global>, wanted: &str) -> bool {
    let mut lines = Vec::new(alloc);
    match put_asked(&mut lines, asked) {
        Ok(()) => lines.as_slice() == wanted.as_bytes(),
        Err(_) => false,
    }
}

/// What a stream asks for, or why it isn't told.
fn told(alloc: Global, stream: &str, fails: bool) -> Result<Asked<Global>, AskedFault> {
    Asked::read(
        alloc,
        &Sha1Namer,
        stream.as_bytes(),
        fails,
        Features::none(),
    )
}

#[test]
fn all_that_a_stream_asks_for_is_told(rt: HostRuntime) {
    match told(rt.alloc(), STREAM, false) {
        Ok(asked) => assert!(rt; asks(rt.alloc(), &asked, ASKED)),
        Err(_) => assert!(rt; false),
    }
}

#[test]
fn faults_of_streams_are_told(rt: HostRuntime) {
    for (stream, fails, fault) in FAULTS {
        assert!(rt; told(rt.alloc(), stream, fails).err() == fault, "{stream}");
    }
}
