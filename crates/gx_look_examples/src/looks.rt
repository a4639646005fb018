//! What is found in growing texts.

use crate::counted::Counted;
use crate::texts::{EMPTY, HEAD, LONG_BEHIND, LONG_FRONT, THRICE, TWO};
use gx_at::TextAt;
use gx_look::Look;
use gx_object::{Kind, Name, Namer, Sha1Namer};
use gx_objects::{LookFault, Objects};
use std::alloc::Global;
use std::cell::Cell;

/// A look into a text that is read in pieces.
pub(crate) fn look_into(
    alloc: Global,
    text: &[u8],
    piece: usize,
) -> Result<Look<TextAt<'_>, Sha1Namer, Global>, LookFault> {
    Look::open(alloc, Sha1Namer, TextAt { text, piece })
}

/// The name of a blob.
pub(crate) fn name_of(body: &[u8]) -> Name {
    Sha1Namer.name(Kind::Blob, body)
}

/// Whether this blob is found by its name, with its body.
fn is_found<O: Objects>(alloc: Global, objects: &O, body: &[u8]) -> bool {
    let mut room = Vec::new(alloc);
    match objects.object(&name_of(body), &mut room) {
        Ok(Some(object)) => object.kind == Kind::Blob && object.body == body,
        _ => false,
    }
}

/// Whether no object has the name of this blob.
fn is_absent<O: Objects>(alloc: Global, objects: &O, body: &[u8]) -> bool {
    let mut room = Vec::new(alloc);
    matches!(objects.object(&name_of(body), &mut room), Ok(None))
}

/// Two segments with a blob of 200,000 bytes.
fn long_text(alloc: Global) -> Option<Vec<u8>> {
    let mut text = Vec::from_slice(alloc, LONG_FRONT).ok()?;
    text.resize(200_782, b'x').ok()?;
    text.extend_from_slice(LONG_BEHIND).ok()?;
    Some(text)
}

/// Whether all of these segments are found, however reads are cut, and no other blob.
fn all_found(alloc: Global, text: &[u8], piece: usize) -> Option<bool> {
    let long = text.get(782..200_782)?;
    let look = look_into(alloc, text, piece).ok()?;
    let mut all = true;
    for body in [b"one".as_slice(), b"", b"two\nlines", b"three", long] {
        all = all && is_found(alloc, &look, body);
    }
    Some(all && is_absent(alloc, &look, b"four"))
}

#[test]
fn each_object_of_each_segment_is_found(rt: HostRuntime) {
    let Some(text) = long_text(rt.alloc()) else {
        return assert!(rt; false);
    };
    for piece in [1, 7, 4_096, 1_000_000] {
        assert!(rt;
            all_found(rt.alloc(), text.as_slice(), piece) == Some(true),
            "{piece}"
        );
    }
}

/// The names of the blobs `three`, `one` and the empty one.
const THREE: Name = Name {
    bytes: *b"\x1d\x19\x71\x4f\xfb\xc2\x72\xba\x0d\xa6\xeb\x41\x9d\x66\x12\x3c\x20\x52\x71\x74",
};

const ONE: Name = Name {
    bytes: *b"\x43\xdd\x47\xea\x69\x1c\x90\xa5\xfa\x78\x27\x89\x2c\x70\x24\x19\x13\x35\x19\x63",
};

const NOTHING: Name = Name {
    bytes: *b"\xe6\x9d\xe2\x9b\xb2\xd1\xd6\x43\x4b\x8b\x29\xae\x77\x5a\xd8\xc2\xe4\x8c\x53\x91",
};

/// Words, and what their six names lead to in two segments.
const WORDS: [(&[u8], Option<Name>); 7] = [
    (b"main", Some(THREE)),
    (b"heads/main", Some(THREE)),
    (b"refs/heads/main", Some(THREE)),
    (b"origin", Some(NOTHING)),
    (b"v1", Some(ONE)),
    (b"v", None),
    (b"end", None),
];

/// What the six names of a word lead to in two segments.
fn object_of_word(alloc: Global, word: &[u8]) -> Option<Option<Name>> {
    let look = look_into(alloc, TWO, 1_000).ok()?;
    look.object_of_ref(word).ok()
}

#[test]
fn six_names_lead_to_the_refs_of_the_last_tail(rt: HostRuntime) {
    for (word, name) in WORDS {
        assert!(rt; object_of_word(rt.alloc(), word) == Some(name));
    }
}

/// Whether a text has no object and no ref.
fn finds_nothing(alloc: Global, text: &[u8]) -> Option<bool> {
    let look = look_into(alloc, text, 1_000).ok()?;
    Some(is_absent(alloc, &look, b"") && look.object_of_ref(b"main") == Ok(None))
}

#[test]
fn empty_text_has_no_object_and_no_ref(rt: HostRuntime) {
    for (text, answer) in [(EMPTY, Some(true)), (THRICE, Some(true)), (HEAD, None)] {
        assert!(rt; finds_nothing(rt.alloc(), text) == answer);
    }
}

/// How many reads opening takes, and then the look-up of an object in the second run.
fn reads_taken(alloc: Global) -> Option<(u64, u64)> {
    let reads = Cell::new(0);
    let source = Counted {
        text: TextAt {
            text: TWO,
            piece: usize::MAX,
        },
        reads: &reads,
        most: u64::MAX,
    };
    let look = Look::open(alloc, Sha1Namer, source).ok()?;
    let opened = reads.get();
    if !is_found(alloc, &look, b"three") {
        return None;
    }
    Some((opened, reads.get().saturating_sub(opened)))
}

#[test]
fn few_reads_find_an_object(rt: HostRuntime) {
    assert!(rt; reads_taken(rt.alloc()) == Some((2, 3)));
}
