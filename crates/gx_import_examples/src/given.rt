//! Streams that the tests share, and what comes of a stream.

use gx_export::export;
use gx_file::{FileFault, read, write};
use gx_import::{ImportFault, ImportKind, import};
use gx_object::{Kind, Name, Namer, Sha1Namer};
use gx_repo::Repo;
use gx_rev::{Range, Revision, Shown, walk};
use gx_text::{Bytes, Held, Sink, Source};
use std::alloc::{Allocator, Global};
use std::hash::RandomState;
use std::slice::from_ref;

/// A commit on main, marked, with one file.
pub(crate) const FIRST: &[u8] =
    b"commit refs/heads/main\nmark :1\ncommitter A <a@x> 1 +0000\ndata 2\nv1\nM 100644 inline test.txt\ndata 10\nversion 1\n";

/// Two branches, one with a submodule, which are merged, and a tag.
pub(crate) const MERGED: &[u8] =
    b"commit refs/heads/a\nmark :1\ncommitter A <a@x> 1 +0000\ndata 1\np\nM 100644 inline f\ndata 6\nhello\n\ncommit refs/heads/b\nmark :2\ncommitter A <a@x> 2 +0000\ndata 1\nq\nM 160000 d670460b4b4aece5915caf5c68d12f560a9fe3e4 sub\ncommit refs/heads/a\nmark :3\ncommitter A <a@x> 3 +0000\ndata 1\nm\nmerge :2\ntag t\nfrom :3\ntagger A <a@x> 4 +0000\ndata 1\nt\n";

/// Why what a source gives is refused; none where it is imported. What the devices tell is left open here, so no caller
/// has more to prove than that the call is safe.
pub(crate) fn refusal_into<N: Namer, A: Allocator + Copy, R: Source + Drop, W: Sink>(
    alloc: A,
    repo: &mut Repo<N, A>,
    source: R,
    sink: &mut W,
) -> Option<ImportFault> {
    import(alloc, repo, source, sink).err()
}

/// Why a stream is refused; none where it is imported.
pub(crate) fn refusal<N: Namer, A: Allocator + Copy>(
    alloc: A,
    repo: &mut Repo<N, A>,
    source: Bytes<'_>,
) -> Option<ImportFault> {
    match Held::new(alloc, 64) {
        Ok(mut sink) => refusal_into(alloc, repo, source, &mut sink),
        Err(_) => Some(ImportFault {
            command: 0,
            kind: ImportKind::OutOfMemory,
            checkpoints: 0,
        }),
    }
}

/// Why a stream that comes in large pieces is refused; none where it is imported.
pub(crate) fn refusal_of<N: Namer, A: Allocator + Copy>(
    alloc: A,
    repo: &mut Repo<N, A>,
    stream: &[u8],
) -> Option<ImportFault> {
    refusal(alloc, repo, Bytes::new(stream, 4096, false))
}

/// The store text of a repository; an empty one where there is no memory.
pub(crate) fn text_of<N: Namer, A: Allocator + Copy>(alloc: A, repo: &Repo<N, A>) -> Vec<u8, A> {
    match write(alloc, repo) {
        Ok(text) => text,
        Err(_) => Vec::new(alloc),
    }
}

/// The text of a store with a stream imported; an empty one where that is refused.
pub(crate) fn text_with(
    alloc: Global,
    repo: &mut Repo<Sha1Namer, Global>,
    stream: &[u8],
) -> Vec<u8> {
    match refusal_of(alloc, repo, stream) {
        None => text_of(alloc, repo),
        Some(_) => Vec::new(alloc),
    }
}

/// The text of a new store with a stream imported; an empty one where that is refused.
pub(crate) fn stored(alloc: Global, stream: &[u8], state: RandomState) -> Vec<u8> {
    let mut repo = Repo::new(alloc, Sha1Namer, state);
    text_with(alloc, &mut repo, stream)
}

/// The repository of a store text, by Git's names.
pub(crate) fn opened<A: Allocator + Copy>(
    alloc: A,
    text: &[u8],
    state: RandomState,
) -> Result<Repo<Sha1Namer, A>, FileFault> {
    read(alloc, Sha1Namer, text, state)
}

/// The export of a repository; an empty one where it is refused.
pub(crate) fn exported(alloc: Global, repo: &Repo<Sha1Namer, Global>, room: usize) -> Vec<u8> {
    let Ok(mut sink) = Held::new(alloc, room) else {
        return Vec::new(alloc);
    };
    match export(alloc, repo, &mut sink) {
        Ok(()) => match Vec::from_slice(alloc, sink.bytes()) {
            Ok(text) => text,
            Err(_) => Vec::new(alloc),
        },
        Err(_) => Vec::new(alloc),
    }
}

/// The kind and the name of the object that a revision shows.
pub(crate) fn object_of<N: Namer>(
    alloc: Global,
    repo: &Repo<N, Global>,
    text: &[u8],
) -> Option<(Kind, Name)> {
    match Revision::read(alloc, text) {
        Ok(revision) => match revision.eval(repo) {
            Ok(Shown::Object(kind, name)) => Some((kind, name)),
            _ => None,
        },
        Err(_) => None,
    }
}

/// The commits that a word lists; none where it is refused.
pub(crate) fn listed(alloc: Global, repo: &Repo<Sha1Namer, Global>, word: &[u8]) -> Vec<Name> {
    match Range::read(alloc, word) {
        Ok(range) => walked(alloc, repo, &range),
        Err(_) => Vec::new(alloc),
    }
}

fn walked(alloc: Global, repo: &Repo<Sha1Namer, Global>, range: &Range<Global>) -> Vec<Name> {
    match walk(alloc, repo, from_ref(range)) {
        Ok(names) => names,
        Err(_) => Vec::new(alloc),
    }
}
