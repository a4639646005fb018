//! Answers of a batch where memory fails, and lines as they end.

use crate::given::opened;
use gx_batch::{BatchFault, LineEnding, batch, read_lines};
use gx_devices::Refusing;
use gx_object::Sha1Namer;
use gx_repo::Repo;
use gx_text::{Bytes, Held};
use std::alloc::{Allocator, Global};
use std::hash::RandomState;

/// A commit with three files, the second of them empty and the third a submodule; a tag of it; and two blobs whose
/// names begin alike.
const STORE: &[u8] =
    b"gxstore 1\nobjects 7\nblob 3\nhi\n\nblob 0\n\ntree 91\n100644 a\0E\xb9\x83\xbe6\xb7<\x07\x88\xdc\x9c\xbc\xb7l\xbb\x80\xfc{\xb0W100644 b c\0\xe6\x9d\xe2\x9b\xb2\xd1\xd6CK\x8b)\xaewZ\xd8\xc2\xe4\x8cS\x91160000 sub\0\xd6pF\x0bKJ\xec\xe5\x91\\\xaf\\h\xd1/V\n\x9f\xe3\xe4\ncommit 98\ntree fac37e631d502f3221907f2c38528e17ce5bd986\nauthor A <a@x> 1 +0000\ncommitter A <a@x> 1 +0000\n\nv1\ntag 95\nobject 9000351c27b022929bcfaa71b5c1f3f8f06b7e9c\ntype commit\ntag v1\ntagger A <a@x> 2 +0000\n\none\n\nblob 4\n195\n\nblob 4\n389\n\nrefs 2\n9000351c27b022929bcfaa71b5c1f3f8f06b7e9c refs/heads/main\n3683cbedeb33ae7efc4125efbb9b8d98942ffcff refs/tags/v1\nend\n";

/// Whether a growth came at which it was to be refused, and whole answers alone went out. None where something else
/// came.
fn refused_at<A: Allocator + Copy>(
    heap: &Refusing<Global>,
    own: A,
    repo: &Repo<Sha1Namer, A>,
    growth: u64,
) -> Option<bool> {
    let Ok(mut sink) = Held::new(own, 1024) else {
        return None;
    };
    let source = Bytes::new(b"main:sub\n\nnope\n", 4, false);
    heap.arm(growth);
    let result = batch(own, repo, false, source, &mut sink);
    let came = !heap.is_waiting();
    heap.arm(0);
    let whole = sink.bytes().is_empty() || sink.bytes().ends_with(b" missing\n");
    if whole && came == (result == Err(BatchFault::OutOfMemory)) && came == result.is_err() {
        Some(came)
    } else {
        None
    }
}

/// How many growths are refused, one after the other, until none comes; none where something else came. The heap is
/// given once more as the allocator.
fn refused_growths<A: Allocator + Copy>(
    heap: &Refusing<Global>,
    own: A,
    state: RandomState,
) -> Option<u64> {
    match opened(own, STORE, state) {
        Ok(repo) => refused_on(heap, own, &repo),
        Err(_) => None,
    }
}

/// The same of this repository.
fn refused_on<A: Allocator + Copy>(
    heap: &Refusing<Global>,
    own: A,
    repo: &Repo<Sha1Namer, A>,
) -> Option<u64> {
    for growth in 1..100u64 {
        if !refused_at(heap, own, repo, growth)? {
            return Some(growth - 1);
        }
    }
    None
}

#[test]
fn refused_growths_leave_whole_answers(rt: HostRuntime) {
    let Ok(state) = RandomState::new(&rt) else {
        return assert!(rt; false);
    };
    let heap = Refusing::new(rt.alloc(), 0);
    let count = refused_growths(&heap, &heap, state).unwrap_or(0);
    assert!(rt; count > 3, "{count}");
}

/// How lines end, in what pieces they come, whether the source fails behind them, and which lines are read; none where they aren't
/// all read.
const LINES: [(LineEnding, usize, bool, Option<&[&[u8]]>); 3] = [
    (LineEnding::Lf, 1, false, Some(&[b"main", b"", b"v1\0x"])),
    (LineEnding::Nul, 100, false, Some(&[b"main\r\n\nv1", b"x"])),
    (LineEnding::Nul, 3, true, None),
];

/// Whether just these lines are read.
fn are_read(
    alloc: Global,
    ending: LineEnding,
    source: Bytes<'_>,
    wanted: Option<&[&[u8]]>,
) -> bool {
    match read_lines(alloc, ending, source) {
        Ok(lines) => match wanted {
            Some(wanted) => are_same(&lines, wanted),
            None => false,
        },
        Err(_) => wanted.is_none(),
    }
}

fn are_same(lines: &[Vec<u8>], wanted: &[&[u8]]) -> bool {
    for (line, wanted) in lines.iter().zip(wanted) {
        if line.as_slice() != *wanted {
            return false;
        }
    }
    lines.len() == wanted.len()
}

#[test]
fn lines_are_read_as_they_end(rt: HostRuntime) {
    for (ending, piece, fails, wanted) in LINES {
        let source = Bytes::new(b"main\r\n\nv1\0x", piece, fails);
        assert!(rt; are_read(rt.alloc(), ending, source, wanted), "{piece}");
    }
}
