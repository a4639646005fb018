//! What no command tells of an import: what a namer that gives all objects one name makes of it, how often a refused
//! stream came to a checkpoint, and a text for which there is no room.

use crate::given::{FIRST, refusal, text_of};
use gx_devices::ConstantNamer;
use gx_file::write_to;
use gx_import::{ImportFault, ImportKind};
use gx_object::{Namer, Sha1Namer};
use gx_repo::Repo;
use gx_text::{Bytes, Held};
use std::alloc::Global;
use std::hash::RandomState;

mod counting;

/// Blobs of which the third has other bytes.
const BLOBS: &[u8] = b"blob\ndata 1\na\nblob\ndata 1\na\nblob\ndata 1\nb\n";

/// A command that is none behind a commit and its checkpoint.
const KEPT: &[u8] =
    b"commit refs/heads/main\nmark :1\ncommitter A <a@x> 1 +0000\ndata 2\nv1\nM 100644 inline test.txt\ndata 10\nversion 1\ncheckpoint\nfoo\n";

/// The same behind two checkpoints, between which the branch loses its commit.
const FORCED: &[u8] =
    b"feature force\ncommit refs/heads/main\nmark :1\ncommitter A <a@x> 1 +0000\ndata 2\nv1\nM 100644 inline test.txt\ndata 10\nversion 1\ncheckpoint\nreset refs/heads/main\ncommit refs/heads/main\ncommitter A <a@x> 2 +0000\ndata 2\nv2\ncheckpoint\nfoo\n";

/// Whether a sink with so much room gets a front of a repository's text, and all of it just where it has room.
fn goes_out<N: Namer>(alloc: Global, repo: &Repo<N, Global>, text: &[u8], room: usize) -> bool {
    let Ok(mut sink) = Held::new(alloc, room) else {
        return false;
    };
    let is_sent = write_to(repo, &mut sink).is_ok();
    text.starts_with(sink.bytes()) && is_sent == (sink.bytes() == text)
}

/// Whether a stream is refused so, with so many objects and refs held then, and the text goes out.
fn is_refused<N: Namer + Copy>(
    alloc: Global,
    namer: N,
    source: Bytes<'_>,
    fault: ImportFault,
    (objects, refs): (usize, usize),
    state: RandomState,
) -> bool {
    let mut repo = Repo::new(alloc, namer, state);
    let refused = refusal(alloc, &mut repo, source);
    refused == Some(fault) && has_so_many(alloc, &repo, objects, refs)
}

/// Whether a repository has so many objects and refs, and its text goes out.
fn has_so_many<N: Namer>(
    alloc: Global,
    repo: &Repo<N, Global>,
    objects: usize,
    refs: usize,
) -> bool {
    let text = text_of(alloc, repo);
    let short = text.len().saturating_sub(1);
    repo.store().len() == objects
        && repo.refs().count() == refs
        && goes_out(alloc, repo, &text, text.len())
        && goes_out(alloc, repo, &text, short)
}

/// Whether that comes of a stream that comes whole, and of one that comes byte by byte.
fn are_refused<N: Namer + Copy>(
    alloc: Global,
    namer: N,
    stream: &[u8],
    fault: ImportFault,
    held: (usize, usize),
    state: RandomState,
) -> bool {
    let whole = Bytes::new(stream, 4096, false);
    let bytewise = Bytes::new(stream, 1, false);
    is_refused(alloc, namer, whole, fault, held, state)
        && is_refused(alloc, namer, bytewise, fault, held, state)
}

#[test]
fn second_object_of_the_only_name_is_refused(rt: HostRuntime) {
    let Ok(state) = RandomState::new(&rt) else {
        return assert!(rt; false);
    };
    for (stream, command) in [(FIRST, 1), (BLOBS, 3)] {
        let fault = ImportFault {
            command,
            kind: ImportKind::NameHeld,
            checkpoints: 0,
        };
        assert!(rt; are_refused(rt.alloc(), ConstantNamer, stream, fault, (0, 0), state));
    }
}

#[test]
fn checkpoints_are_counted_before_what_is_refused(rt: HostRuntime) {
    let Ok(state) = RandomState::new(&rt) else {
        return assert!(rt; false);
    };
    for (stream, command, checkpoints, held) in [(KEPT, 3, 1, (3, 1)), (FORCED, 7, 2, (5, 1))] {
        let fault = ImportFault {
            command,
            kind: ImportKind::UnknownCommand,
            checkpoints,
        };
        assert!(rt; are_refused(rt.alloc(), Sha1Namer, stream, fault, held, state));
    }
}
