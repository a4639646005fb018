//! Memory that is refused at each growth in turn: the store stays as it was or as at a checkpoint, or has all.

use crate::given::{FIRST, MERGED, opened, refusal_of, text_of, text_with};
use gx_devices::Refusing;
use gx_import::{ImportFault, ImportKind};
use gx_object::Sha1Namer;
use gx_repo::Repo;
use std::alloc::{Allocator, Global};
use std::hash::RandomState;

/// All changes of files and all commands that link to others, behind the first commit.
const MANY: &[u8] =
    b"feature done\nblob\nmark :1\ndata 3\nabc\ncommit refs/heads/main\nmark :2\nauthor A <a@x> 1 +0000\ncommitter B <b@x> 2 +0000\nencoding x\ndata 3\nfoofrom main^0\nM 644 :1 d/e\nM 755 inline f\ndata 3\nxyz\nC d g\nR f h\nD d/e\nreset refs/heads/b\nfrom :2\ncommit refs/heads/b\ncommitter B <b@x> 3 +0000\ndata 0\nmerge main^0\nM 644 :1 k\ntag v\nmark :3\nfrom :2\ntagger A <a@x> 1 +0000\ndata 0\nreset refs/heads/c\nfrom :3\nprogress x\ndone\n";

/// Two branches that are merged, a checkpoint, and a tag.
const CHECKED: &[u8] =
    b"commit refs/heads/a\nmark :1\ncommitter A <a@x> 1 +0000\ndata 1\np\nM 100644 inline f\ndata 6\nhello\n\ncommit refs/heads/b\nmark :2\ncommitter A <a@x> 2 +0000\ndata 1\nq\nM 160000 d670460b4b4aece5915caf5c68d12f560a9fe3e4 sub\ncommit refs/heads/a\nmark :3\ncommitter A <a@x> 3 +0000\ndata 1\nm\nmerge :2\ncheckpoint\ntag t\nfrom :3\ntagger A <a@x> 4 +0000\ndata 1\nt\n";

/// What stands in it from the checkpoint on.
const BEHIND: &[u8] = b"checkpoint\ntag t\nfrom :3\ntagger A <a@x> 4 +0000\ndata 1\nt\n";

/// The store text before an import, that at its checkpoint, and that with all of its stream.
type Texts<'a> = (&'a [u8], &'a [u8], &'a [u8]);

/// What an import leaves.
#[derive(Clone, Copy)]
enum Left {
    /// The store as it was, for want of memory.
    Before,
    /// The store as at the checkpoint, for want of memory.
    Kept,
    /// All of the stream, where no growth was refused.
    All,
    /// None of these.
    Wrong,
}

/// What an import leaves whose growth is refused unless it is still waited for: the text of the checkpoints that its
/// fault counts.
fn left_by(
    refused: Option<ImportFault>,
    is_waiting: bool,
    (before, kept, all): Texts<'_>,
    text: &[u8],
) -> Left {
    match refused {
        None if is_waiting && text == all => Left::All,
        Some(fault) if !is_waiting && fault.kind == ImportKind::OutOfMemory => {
            match fault.checkpoints {
                0 if text == before => Left::Before,
                1 if text == kept => Left::Kept,
                _ => Left::Wrong,
            }
        }
        _ => Left::Wrong,
    }
}

/// What an import into the store before leaves at which the growth with this number is refused. The heap is given once
/// more as the allocator, here and below.
fn left_at<A: Allocator + Copy>(
    heap: &Refusing<Global>,
    own: A,
    texts: Texts<'_>,
    stream: &[u8],
    nth: u64,
    state: RandomState,
) -> Left {
    let Ok(mut repo) = opened(own, texts.0, state) else {
        return Left::Wrong;
    };
    heap.arm(nth);
    let refused = refusal_of(own, &mut repo, stream);
    let is_waiting = heap.is_waiting();
    heap.arm(0);
    let text = text_of(own, &repo);
    left_by(refused, is_waiting, texts, text.as_slice())
}

/// Refuses each growth in turn, until an import is done; answers how many were refused before a checkpoint and how many
/// behind it, or none where an answer was wrong.
fn refused_growths<A: Allocator + Copy>(
    heap: &Refusing<Global>,
    own: A,
    texts: Texts<'_>,
    stream: &[u8],
    state: RandomState,
) -> Option<(u64, u64)> {
    let mut before = 0u64;
    let mut behind = 0u64;
    for nth in 1..2000u64 {
        match left_at(heap, own, texts, stream, nth, state) {
            Left::Before => before = before.saturating_add(1),
            Left::Kept => behind = behind.saturating_add(1),
            Left::All => return Some((before, behind)),
            Left::Wrong => return None,
        }
    }
    None
}

/// The text of a store with the first commit and a stream imported; an empty one where that is refused.
fn text_behind_first(alloc: Global, stream: &[u8], state: RandomState) -> Vec<u8> {
    let mut repo = Repo::new(alloc, Sha1Namer, state);
    match refusal_of(alloc, &mut repo, FIRST) {
        None => text_with(alloc, &mut repo, stream),
        Some(_) => Vec::new(alloc),
    }
}

/// How many growths of an import behind the first commit are refused, before a checkpoint and behind it; none where an
/// answer was wrong. Given are the part of the stream before the checkpoint, the stream, and one that makes the same
/// without a checkpoint.
fn refused_behind_first(
    alloc: Global,
    front: &[u8],
    stream: &[u8],
    unchecked: &[u8],
    state: RandomState,
) -> Option<(u64, u64)> {
    let before = text_behind_first(alloc, b"", state);
    let kept = text_behind_first(alloc, front, state);
    let all = text_behind_first(alloc, unchecked, state);
    let heap = Refusing::new(alloc, 0);
    refused_growths(&heap, &heap, (&before, &kept, &all), stream, state)
}

#[test]
fn refused_growth_leaves_the_store_or_the_last_checkpoint(rt: HostRuntime) {
    let Ok(state) = RandomState::new(&rt) else {
        return assert!(rt; false);
    };
    let front = CHECKED.strip_suffix(BEHIND).unwrap_or(b"");
    for (front, stream, unchecked) in [
        (b"".as_slice(), MERGED, MERGED),
        (b"".as_slice(), MANY, MANY),
        (front, CHECKED, MERGED),
    ] {
        let refused = refused_behind_first(rt.alloc(), front, stream, unchecked, state);
        let (before, behind) = refused.unwrap_or((0, 0));
        assert!(rt; before > 20 && (behind > 0) == !front.is_empty());
    }
}
