//! Refs that are written as lines, read and found again, and dropped by their lines.

use gx_left_refs::left_refs;
use gx_object::Name;
use gx_objects::put_ref;
use gx_ref_lines::{RefLines, ref_names};
use gx_repo::DropFault;
use std::alloc::{AllocError, Global};

const ONE: Name = Name { bytes: [31; 20] };

const TWO: Name = Name { bytes: [160; 20] };

/// The lines of three refs, of which one begins another.
const HELD: &str = "1f1f1f1f1f1f1f1f1f1f1f1f1f1f1f1f1f1f1f1f refs/heads/main
1f1f1f1f1f1f1f1f1f1f1f1f1f1f1f1f1f1f1f1f refs/heads/main-2
a0a0a0a0a0a0a0a0a0a0a0a0a0a0a0a0a0a0a0a0 refs/tags/v1
";

/// Names, and the object of the ref that has one.
const FOUND: [(&str, Option<Name>); 5] = [
    ("refs/heads/main", Some(ONE)),
    ("refs/heads/main-2", Some(ONE)),
    ("refs/tags/v1", Some(TWO)),
    ("refs/heads/maim", None),
    ("refs/heads", None),
];

/// What the ref of `main` may be called, as gitrevisions(7) has it.
const NAMES: &str = "main
refs/main
refs/tags/main
refs/heads/main
refs/remotes/main
refs/remotes/main/HEAD
";

/// Names of refs that are dropped of the three, how many are left, the number of the name that is refused, and the lines that are
/// left: a name is refused that no ref has, or that is given before.
const DROPPED: [(&[&[u8]], u64, u64, &str); 7] = [
    (&[], 3, 0, HELD),
    (
        &[b"refs/heads/main-2", b"refs/tags/v1"],
        1,
        0,
        "1f1f1f1f1f1f1f1f1f1f1f1f1f1f1f1f1f1f1f1f refs/heads/main\n",
    ),
    (
        &[b"refs/tags/v1", b"refs/heads/main"],
        1,
        0,
        "1f1f1f1f1f1f1f1f1f1f1f1f1f1f1f1f1f1f1f1f refs/heads/main-2\n",
    ),
    (
        &[b"refs/tags/v1", b"refs/heads/main", b"refs/heads/main-2"],
        0,
        0,
        "",
    ),
    (&[b"refs/heads"], 0, 1, ""),
    (&[b"refs/heads/main", b"v1", b"v1"], 0, 2, ""),
    (
        &[b"refs/tags/v1", b"refs/heads/main", b"refs/tags/v1"],
        0,
        3,
        "",
    ),
];

/// A tenth of a hundred refs.
const TENTH: &[&[u8]] = &[
    b"r/07", b"r/17", b"r/27", b"r/37", b"r/47", b"r/57", b"r/67", b"r/77", b"r/87", b"r/97",
];

/// Puts the lines of three refs.
fn put_three(text: &mut Vec<u8>) -> Result<(), AllocError> {
    put_ref(text, b"refs/heads/main", &ONE)?;
    put_ref(text, b"refs/heads/main-2", &ONE)?;
    put_ref(text, b"refs/tags/v1", &TWO)
}

#[test]
fn refs_have_their_lines(rt: HostRuntime) {
    let mut text = Vec::new(rt.alloc());
    assert!(rt; put_three(&mut text).is_ok());
    assert!(rt; text.as_slice() == HELD.as_bytes());
}

#[test]
fn refs_are_found_by_their_names(rt: HostRuntime) {
    let Ok(lines) = RefLines::read(rt.alloc(), HELD.as_bytes()) else {
        return assert!(rt; false);
    };
    assert!(rt; lines.refs.len() == 3);
    for (name, object) in FOUND {
        assert!(rt; lines.find(name.as_bytes()) == object, "{name}");
    }
}

/// Whether a text is read as lines of refs.
fn is_read(alloc: Global, text: &[u8]) -> bool {
    RefLines::read(alloc, text).is_ok()
}

#[test]
fn last_line_without_its_end_is_damaged(rt: HostRuntime) {
    let line = b"1f1f1f1f1f1f1f1f1f1f1f1f1f1f1f1f1f1f1f1f refs/heads/main";
    assert!(rt; is_read(rt.alloc(), b""));
    assert!(rt; !is_read(rt.alloc(), line));
}

/// Puts texts as lines.
fn put_lines(text: &mut Vec<u8>, lines: &[Vec<u8>]) -> Result<(), AllocError> {
    for line in lines {
        text.extend_from_slice(line.as_slice())?;
        text.push(b'\n')?;
    }
    Ok(())
}

/// The ref names of a word, as lines.
fn names_of(alloc: Global, word: &[u8]) -> Result<Vec<u8>, AllocError> {
    let names = ref_names(alloc, word)?;
    let mut text = Vec::new(alloc);
    put_lines(&mut text, names.as_slice())?;
    Ok(text)
}

#[test]
fn six_names_are_looked_for(rt: HostRuntime) {
    match names_of(rt.alloc(), b"main") {
        Ok(names) => assert!(rt; names.as_slice() == NAMES.as_bytes()),
        Err(_) => assert!(rt; false),
    }
}

/// How many refs are left of those of some lines, the number of the name that is refused, and whether these lines are left.
fn dropped(alloc: Global, held: &[u8], names: &[&[u8]], lines: &[u8]) -> Option<(u64, u64, bool)> {
    let held = RefLines::read(alloc, held).ok()?;
    match left_refs(alloc, &held, names) {
        Ok(left) => Some((left.count, 0, left.lines.as_slice() == lines)),
        Err(DropFault::UnknownRef { number }) => Some((0, number, lines.is_empty())),
        Err(DropFault::OutOfMemory) => None,
    }
}

#[test]
fn refs_of_other_names_are_left(rt: HostRuntime) {
    for (names, count, number, lines) in DROPPED {
        let dropped = dropped(rt.alloc(), HELD.as_bytes(), names, lines.as_bytes());
        assert!(rt;
            dropped == Some((count, number, true)),
            "{count} {number} {lines}"
        );
    }
}

/// Puts the lines of a hundred refs, or of those whose names don't end with a seven.
fn put_hundred(text: &mut Vec<u8>, has_sevens: bool) -> Result<(), AllocError> {
    for first in b"0123456789" {
        for second in b"0123456789" {
            if has_sevens || *second != b'7' {
                put_ref(text, &[b'r', b'/', *first, *second], &ONE)?;
            }
        }
    }
    Ok(())
}

/// The lines of a hundred refs, or of those whose names don't end with a seven.
fn hundred(alloc: Global, has_sevens: bool) -> Option<Vec<u8>> {
    let mut text = Vec::new(alloc);
    put_hundred(&mut text, has_sevens).ok()?;
    Some(text)
}

/// What is left of a hundred refs when those go whose names end with a seven.
fn dropped_sevens(alloc: Global) -> Option<(u64, u64, bool)> {
    let all = hundred(alloc, true)?;
    let rest = hundred(alloc, false)?;
    dropped(alloc, all.as_slice(), TENTH, rest.as_slice())
}

#[test]
fn a_tenth_of_a_hundred_refs_goes(rt: HostRuntime) {
    assert!(rt; dropped_sevens(rt.alloc()) == Some((90, 0, true)));
}
