//! What places, digits and refs give, of growing texts and of a repository in memory.

use crate::looks::{look_into, name_of};
use crate::texts::{ALIKE, TWO};
use gx_object::{Kind, Name, Sha1Namer};
use gx_objects::Objects;
use gx_repo::{RefChange, Repo};
use gx_store::Prefix;
use std::alloc::Global;
use std::hash::RandomState;

/// Blobs of whose names some begin alike, and a commit of no files.
const RECORDS: [(Kind, &[u8]); 7] = [
    (Kind::Blob, b"80"),
    (Kind::Blob, b"816"),
    (Kind::Blob, b"365"),
    (Kind::Blob, b"1599"),
    (Kind::Blob, b"one"),
    (Kind::Tree, b""),
    (
        Kind::Commit,
        b"tree 4b825dc642cb6eb9a060e54bf8d69288fbee4904\n\
author A <a@b> 0 +0000\n\
committer A <a@b> 0 +0000\n\
\n\
m\n",
    ),
];

/// The commit's name.
const COMMIT: Name = Name {
    bytes: *b"\x09\xc9\xdf\xe0\x0d\xdf\xa1\xdb\x2b\x5b\xa1\x95\x3e\x25\x36\xa5\xe8\x4b\x21\xda",
};

/// A branch and a tag that hold the commit.
const REFS: [RefChange<'static>; 2] = [
    RefChange {
        name: b"refs/tags/v1",
        target: COMMIT,
    },
    RefChange {
        name: b"refs/heads/main",
        target: COMMIT,
    },
];

/// These in memory.
fn held(alloc: Global, state: RandomState) -> Option<Repo<Sha1Namer, Global>> {
    let mut repo = Repo::new(alloc, Sha1Namer, state);
    for (kind, body) in RECORDS {
        repo.add_record(kind, body).ok()?;
    }
    repo.publish(&REFS).ok()?;
    Some(repo)
}

/// Digits, and the blob whose name they begin alone.
const ALONE: [(&[u8], &[u8]); 7] = [
    (b"e3f1e", b"80"),
    (b"E3F17", b"816"),
    (b"55f04", b"365"),
    (b"55F08", b"1599"),
    (b"43dd", b"one"),
    (b"43dd47ea691c90a5fa7827892c7024191335196", b"one"),
    (b"43dd47ea691c90a5fa7827892c70241913351963", b"one"),
];

/// Digits that begin more than one, two of one segment, one of each, and all; and what begins no name.
const OTHERS: [(&[u8], Prefix); 8] = [
    (b"e3f1", Prefix::Ambiguous),
    (b"55f0", Prefix::Ambiguous),
    (b"", Prefix::Ambiguous),
    (b"43de", Prefix::Absent),
    (b"55f09", Prefix::Absent),
    (b"xy", Prefix::Absent),
    (b"43dd47ea691c90a5fa7827892c70241913351964", Prefix::Absent),
    (b"43dd47ea691c90a5fa7827892c702419133519631", Prefix::Absent),
];

/// The first digits whose answer is another than that of the tables.
fn told_otherwise<O: Objects>(objects: &O) -> Option<&'static [u8]> {
    for (digits, body) in ALONE {
        if objects.by_digits(digits) != Ok(Prefix::Unique(name_of(body))) {
            return Some(digits);
        }
    }
    for (digits, prefix) in OTHERS {
        if objects.by_digits(digits) != Ok(prefix) {
            return Some(digits);
        }
    }
    None
}

/// Whether the blobs stand at places that go up, and are found there.
fn places_go_up<O: Objects>(alloc: Global, objects: &O) -> Option<bool> {
    let mut least = 0;
    for body in [b"80".as_slice(), b"816", b"365", b"1599", b"one"] {
        let name = name_of(body);
        let place = objects.place(&name).ok()??;
        let mut room = Vec::new(alloc);
        let object = objects.object_at(place, &name, &mut room).ok()?;
        if place < least || object.kind != Kind::Blob || object.body != body {
            return Some(false);
        }
        least = place.saturating_add(1);
    }
    Some(objects.place(&name_of(b"four")) == Ok(None))
}

/// Whether these are the lines of refs.
fn has_lines<O: Objects>(alloc: Global, objects: &O, lines: &[u8]) -> bool {
    let mut room = Vec::new(alloc);
    match objects.ref_lines(&mut room) {
        Ok(told) => told == lines,
        Err(_) => false,
    }
}

/// The first digits whose answer is another than that of the tables, whether places go up, and whether these are the lines of refs.
type Answers = (Option<&'static [u8]>, Option<bool>, bool);

fn asked<O: Objects>(alloc: Global, objects: &O, lines: &[u8]) -> Answers {
    (
        told_otherwise(objects),
        places_go_up(alloc, objects),
        has_lines(alloc, objects, lines),
    )
}

/// What is told of the blobs in two segments.
fn asked_of_text(alloc: Global) -> Option<Answers> {
    let look = look_into(alloc, ALIKE, 1_000).ok()?;
    Some(asked(alloc, &look, b""))
}

/// The lines of the refs of two segments.
const LINES: &[u8] = b"1d19714ffbc272ba0da6eb419d66123c20527174 refs/heads/main\n\
e69de29bb2d1d6434b8b29ae775ad8c2e48c5391 refs/remotes/origin/HEAD\n\
43dd47ea691c90a5fa7827892c70241913351963 refs/tags/v1\n";

/// Whether these are told.
fn tells_lines(alloc: Global) -> bool {
    match look_into(alloc, TWO, 1_000) {
        Ok(look) => has_lines(alloc, &look, LINES),
        Err(_) => false,
    }
}

#[test]
fn growing_text_tells_places_digits_and_refs(rt: HostRuntime) {
    assert!(rt; asked_of_text(rt.alloc()) == Some((None, Some(true), true)));
    assert!(rt; tells_lines(rt.alloc()));
}

/// The lines of the refs in memory.
const HELD_LINES: &[u8] = b"09c9dfe00ddfa1db2b5ba1953e2536a5e84b21da refs/heads/main\n\
09c9dfe00ddfa1db2b5ba1953e2536a5e84b21da refs/tags/v1\n";

/// What is told of the same in memory.
fn asked_of_repository(alloc: Global, state: RandomState) -> Option<Answers> {
    let repo = held(alloc, state)?;
    Some(asked(alloc, &repo, HELD_LINES))
}

#[test]
fn repository_tells_places_digits_and_refs(rt: HostRuntime) {
    match RandomState::new(&rt) {
        Ok(state) => {
            assert!(rt; asked_of_repository(rt.alloc(), state) == Some((None, Some(true), true)))
        }
        Err(_) => assert!(rt; false),
    }
}
