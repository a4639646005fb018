//! A history with two branches and a tag, as git writes it, and what is told where an object of it can't be read.

use gx_object::{Kind, Name, Sha1Namer};
use gx_repo::{RefChange, Repo};
use std::alloc::Global;
use std::hash::RandomState;

/// An object of the history, and what comes of it where it can't be read.
#[derive(Drop)]
pub(crate) struct Row<'a> {
    pub(crate) kind: Kind,
    pub(crate) body: &'a [u8],
    /// Whether it is bad by itself where it is missing, and where it is another or a read fails. A blob isn't read.
    pub(crate) bad: (bool, bool),
    /// The names of the refs that reach it, which are lost, and then the lines of the others.
    pub(crate) told: &'a [u8],
}

/// What is told of what all refs reach.
const ALL: &[u8] = b"refs/heads/main\nrefs/heads/topic\nrefs/tags/v1\n";

/// What is told of what `main` alone reaches.
const MAIN: &[u8] = b"refs/heads/main\n\
3e464be640449f16624278fecddfd843b49e3e70 refs/heads/topic\n\
750b08f80949c0f7604f3355f32df2d3aaffaffe refs/tags/v1\n";

/// What is told of what `topic` alone reaches.
const TOPIC: &[u8] = b"refs/heads/topic\n\
e1249a003c2f963efad11ed5914ffa2e58fcab2d refs/heads/main\n\
750b08f80949c0f7604f3355f32df2d3aaffaffe refs/tags/v1\n";

/// What is told of what the tag alone reaches.
const TAG: &[u8] = b"refs/tags/v1\n\
e1249a003c2f963efad11ed5914ffa2e58fcab2d refs/heads/main\n\
3e464be640449f16624278fecddfd843b49e3e70 refs/heads/topic\n";

/// What is told of what no ref reaches.
const NONE: &[u8] = b"e1249a003c2f963efad11ed5914ffa2e58fcab2d refs/heads/main\n\
3e464be640449f16624278fecddfd843b49e3e70 refs/heads/topic\n\
750b08f80949c0f7604f3355f32df2d3aaffaffe refs/tags/v1\n";

/// The refs.
pub(crate) const REFS: [RefChange<'static>; 3] = [
    RefChange {
        name: b"refs/heads/main",
        target: Name {
            bytes: *b"\xe1\x24\x9a\x00\x3c\x2f\x96\x3e\xfa\xd1\x1e\xd5\x91\x4f\xfa\x2e\x58\xfc\xab\x2d",
        },
    },
    RefChange {
        name: b"refs/heads/topic",
        target: Name {
            bytes: *b"\x3e\x46\x4b\xe6\x40\x44\x9f\x16\x62\x42\x78\xfe\xcd\xdf\xd8\x43\xb4\x9e\x3e\x70",
        },
    },
    RefChange {
        name: b"refs/tags/v1",
        target: Name {
            bytes: *b"\x75\x0b\x08\xf8\x09\x49\xc0\xf7\x60\x4f\x33\x55\xf3\x2d\xf2\xd3\xaa\xff\xaf\xfe",
        },
    },
];

/// Its objects in their order. No ref reaches the last one.
pub(crate) const ROWS: [Row<'static>; 13] = [
    Row {
        kind: Kind::Blob,
        body: b"file\n",
        bad: (true, false),
        told: ALL,
    },
    Row {
        kind: Kind::Blob,
        body: b"other\n",
        bad: (true, false),
        told: ALL,
    },
    Row {
        kind: Kind::Tree,
        body: b"100644 other\0\xe4\\\x9c&f\xd4N\x03'\xc1\xf9\xc29\xa7LP\x836\x05>",
        bad: (true, true),
        told: ALL,
    },
    Row {
        kind: Kind::Tree,
        body: b"40000 dir\0-%r\xf4%KG~8\xa7\x93\xa5\xc3\xf3\xf1\x9a\xc6k\xfb&\
100644 file\0\xf7?0\x93\xff\x86\\QLlQ\xf8g\xe3_i4\x87\xd0\xd3",
        bad: (true, true),
        told: ALL,
    },
    Row {
        kind: Kind::Commit,
        body: b"tree 833d9165d39b91b28576b991a287768268fe2842\n\
author A <a@b> 0 +0000\ncommitter A <a@b> 0 +0000\n\nm\n",
        bad: (true, true),
        told: ALL,
    },
    Row {
        kind: Kind::Blob,
        body: b"main\n",
        bad: (true, false),
        told: MAIN,
    },
    Row {
        kind: Kind::Tree,
        body: b"100644 file\0\xba)\x06\xd0fl\xf7&\xc7\xea\xad\xd2\xcd=\xb6\x15\xde\xdf\xdf:",
        bad: (true, true),
        told: MAIN,
    },
    Row {
        kind: Kind::Commit,
        body: b"tree 0393c48f162d5249555d33f1b227f306956c77e5\n\
parent 77c02903cb250b97a82ee41153f0669ad00346ad\n\
author A <a@b> 0 +0000\ncommitter A <a@b> 0 +0000\n\nm\n",
        bad: (true, true),
        told: MAIN,
    },
    Row {
        kind: Kind::Blob,
        body: b"topic\n",
        bad: (true, false),
        told: TOPIC,
    },
    Row {
        kind: Kind::Tree,
        body: b"100644 file\0\x0fb\xd6~v\xce\x12U\xa0\x98\x94$\x95\xa8F\xdf\x0f\x8a,\x11",
        bad: (true, true),
        told: TOPIC,
    },
    Row {
        kind: Kind::Commit,
        body: b"tree b05d06539755c2e03af8bb454cde27bad39569a6\n\
parent 77c02903cb250b97a82ee41153f0669ad00346ad\n\
author A <a@b> 0 +0000\ncommitter A <a@b> 0 +0000\n\nm\n",
        bad: (true, true),
        told: TOPIC,
    },
    Row {
        kind: Kind::Tag,
        body: b"object 77c02903cb250b97a82ee41153f0669ad00346ad\n\
type commit\ntag v1\ntagger A <a@b> 0 +0000\n\nm\n",
        bad: (true, true),
        told: TAG,
    },
    Row {
        kind: Kind::Blob,
        body: b"unreached\n",
        bad: (false, false),
        told: NONE,
    },
];

/// The history.
pub(crate) fn history(alloc: Global, state: RandomState) -> Option<Repo<Sha1Namer, Global>> {
    let mut repo = Repo::new(alloc, Sha1Namer, state);
    for row in ROWS.as_slice() {
        repo.add_record(row.kind, row.body).ok()?;
    }
    repo.publish(&REFS).ok()?;
    Some(repo)
}
