//! Pushes over small repositories: what is left of refs, with the names that git gives, or that they go the whole way.

use crate::imports::BEFORE;
use gx_growing_push::{look_at_lines, push_over};
use gx_import::import;
use gx_object::Sha1Namer;
use gx_repo::Repo;
use gx_text::{Bytes, Growing};
use std::alloc::{AllocError, Global};
use std::hash::RandomState;

/// A commit behind that of `main`.
const ON_MAIN: &[u8] = b"commit refs/heads/main\ncommitter C <c@x> 4 +0000\ndata 2\nn\n\
    from refs/heads/main^0\nD a\n";

const MAIN: &[u8] = b"+9ae392930fa7ea5bd8521d54fa446947325d6ab2 refs/heads/main";

const TAG: &[u8] = b"-1e48d39bcfaea0b6410c2dd5fad77e907840a477 refs/tags/v1";

const NEW: &[u8] = b"0000000000000000000000000000000000000000 refs/heads/new";

/// Lines of a push, and those of the refs that it leaves; none where it goes the whole way.
const ROWS: [(&[&[u8]], Option<&[u8]>); 6] = [
    (
        &[MAIN],
        Some(
            b"58627a476b7313eb628eae20655a4d29e73c3d1e refs/heads/main\n\
1e48d39bcfaea0b6410c2dd5fad77e907840a477 refs/tags/v1\n",
        ),
    ),
    (
        &[NEW, TAG, MAIN],
        Some(b"58627a476b7313eb628eae20655a4d29e73c3d1e refs/heads/main\n"),
    ),
    (&[TAG], None),
    (&[MAIN, MAIN], None),
    (
        &[b"+0000000000000000000000000000000000000000 refs/heads/main"],
        None,
    ),
    (
        &[b"9ae392930fa7ea5bd8521d54fa446947325d6ab2 refs/heads/main"],
        None,
    ),
];

/// Puts copies of lines.
fn put_copies(copies: &mut Vec<Vec<u8>>, alloc: Global, lines: &[&[u8]]) -> Result<(), AllocError> {
    for line in lines {
        copies.push(Vec::from_slice(alloc, line)?)?;
    }
    Ok(())
}

/// Whether a push of these lines leaves the lines of refs that it is to leave, or goes the whole way.
fn leaves(
    alloc: Global,
    repo: &Repo<Sha1Namer, Global>,
    lines: &[Vec<u8>],
    refs: Option<&[u8]>,
    state: RandomState,
) -> bool {
    let are_held = look_at_lines(alloc, repo, lines).is_ok();
    match push_over(alloc, Sha1Namer, repo, lines, ON_MAIN, false, false, state) {
        Ok(given) => are_held && refs == Some(given.refs.as_slice()),
        Err(_) => refs.is_none(),
    }
}

/// The same of lines that are copied first.
fn is_row(
    alloc: Global,
    repo: &Repo<Sha1Namer, Global>,
    lines: &[&[u8]],
    refs: Option<&[u8]>,
    state: RandomState,
) -> bool {
    let mut copies = Vec::new(alloc);
    let are_copied = put_copies(&mut copies, alloc, lines).is_ok();
    are_copied && leaves(alloc, repo, &copies, refs, state)
}

#[test]
fn refs_are_left_that_lines_leave(rt: HostRuntime) {
    let Ok(state) = RandomState::new(&rt) else {
        return assert!(rt; false);
    };
    let mut repo = Repo::new(rt.alloc(), Sha1Namer, state);
    assert!(rt; is_imported(rt.alloc(), &mut repo));
    for place in 0..6usize {
        let (lines, refs) = ROWS[place];
        assert!(rt; is_row(rt.alloc(), &repo, lines, refs, state), "{place}");
    }
}

/// Imports what is there before the pushes.
fn is_imported(alloc: Global, repo: &mut Repo<Sha1Namer, Global>) -> bool {
    let mut sink = Growing::new(alloc);
    import(alloc, repo, Bytes::new(BEFORE, 64, false), &mut sink).is_ok()
}
