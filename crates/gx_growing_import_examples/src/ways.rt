//! Streams that go the whole way.

ghost use Rattle.std.specs.Prelude.{◌≡◌};

use crate::imports::{BEFORE, over};
use gx_devices::ShortNamer;
use gx_growing_import::WholeWay;
use gx_import::import;
use gx_object::{Namer, Sha1Namer};
use gx_repo::Repo;
use gx_text::{Bytes, Growing};
use std::alloc::Global;
use std::hash::RandomState;

/// A blob that would stand for another.
const STAND_IN: &[u8] = b"blob\ndata 36\ngx: stands for: 01234567890123456789\n";

/// A commit of no files.
const COMMIT: &[u8] = b"commit refs/heads/main\ncommitter C <c@x> 1 +0000\ndata 0\n";

/// The stream of a repository, how often it stands there, a stream over a small one of it, and the way that this goes. The name of
/// the blob that would stand for another is the one that git gives it.
const WAYS: [(&[u8], usize, &[u8], &str); 8] = [
    (BEFORE, 1, b"feature done\ndone\n", "short"),
    (BEFORE, 1, b"x\n", "Unread"),
    (BEFORE, 1, b"feature done\n", "Unread"),
    (BEFORE, 1, STAND_IN, "StandsForAnother"),
    (
        BEFORE,
        1,
        b"commit refs/heads/main\ncommitter C <c@x> 4 +0000\ndata 16\ngx: stands for: \n",
        "StandsForAnother",
    ),
    (
        BEFORE,
        1,
        b"reset refs/heads/old\nfrom refs/heads/none\n\n",
        "Refused",
    ),
    (
        STAND_IN,
        1,
        b"commit refs/heads/main\ncommitter C <c@x> 4 +0000\ndata 0\n\
        M 100644 aa77e1b441312518a4b88e61808790e4f21043df a\n",
        "NotTaken",
    ),
    (
        COMMIT,
        4200,
        b"reset refs/heads/old\nfrom main~4190\n",
        "TooMany",
    ),
];

/// Two blobs of other lengths.
const TWO_BLOBS: &[u8] = b"blob\ndata 2\nx\nblob\ndata 3\nxy\n";

/// Streams over these, and the ways that they go, where objects have names by their lengths.
const SHORT_WAYS: [(&[u8], &str); 3] = [
    (b"blob\ndata 2\nx\n", "short"),
    (b"blob\ndata 2\ny\n", "NameHeld"),
    (b"reset refs/heads/main\nfrom 11111111\n", "Differs"),
];

/// A text so many times.
fn repeated(alloc: Global, text: &[u8], times: usize) -> Option<Vec<u8>> {
    let mut whole = Vec::new(alloc);
    for _time in 0..times {
        whole.extend_from_slice(text).ok()?;
    }
    Some(whole)
}

/// Imports a stream. Answers whether that is accepted.
fn is_imported<N: Namer>(alloc: Global, repo: &mut Repo<N, Global>, stream: &[u8]) -> bool
    ensures namer { repo.new.0 ≡ repo.old.0 }
{
    let mut sink = Growing::new(alloc);
    import(alloc, repo, Bytes::new(stream, 64, false), &mut sink).is_ok()
}

/// The word of the way that a stream goes over a small repository of what another one makes.
fn way<N: Namer + Copy>(
    alloc: Global,
    namer: N,
    before: &[u8],
    stream: &[u8],
    state: RandomState,
) -> &'static str {
    let mut repo = Repo::new(alloc, namer, state);
    if !is_imported(alloc, &mut repo, before) {
        return "not made";
    }
    word(over(alloc, namer, &repo, stream, state).err())
}

/// The word of a way.
fn word(way: Option<WholeWay>) -> &'static str {
    match way {
        None => "short",
        Some(WholeWay::OutOfMemory) => "OutOfMemory",
        Some(WholeWay::ReadFailed) => "ReadFailed",
        Some(WholeWay::Damaged) => "Damaged",
        Some(WholeWay::Unread(_)) => "Unread",
        Some(WholeWay::StandsForAnother) => "StandsForAnother",
        Some(WholeWay::TooMany) => "TooMany",
        Some(WholeWay::NotTaken) => "NotTaken",
        Some(WholeWay::Differs) => "Differs",
        Some(WholeWay::Refused(_)) => "Refused",
        Some(WholeWay::NameHeld) => "NameHeld",
    }
}

/// Whether a stream goes this way over a stream that stands so many times.
fn goes(
    alloc: Global,
    (before, times): (&[u8], usize),
    stream: &[u8],
    wanted: &str,
    state: RandomState,
) -> bool {
    match repeated(alloc, before, times) {
        Some(before) => way(alloc, Sha1Namer, before.as_slice(), stream, state) == wanted,
        None => false,
    }
}

#[test]
fn streams_go_the_whole_way(rt: HostRuntime) {
    let Ok(state) = RandomState::new(&rt) else {
        return assert!(rt; false);
    };
    for (before, times, stream, word) in WAYS {
        assert!(rt;
            goes(rt.alloc(), (before, times), stream, word, state),
            "{word}"
        );
    }
}

#[test]
fn names_of_others_go_the_whole_way(rt: HostRuntime) {
    let Ok(state) = RandomState::new(&rt) else {
        return assert!(rt; false);
    };
    for (stream, word) in SHORT_WAYS {
        assert!(rt;
            way(rt.alloc(), ShortNamer, TWO_BLOBS, stream, state) == word,
            "{word}"
        );
    }
}
