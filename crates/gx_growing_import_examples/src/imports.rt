//! Imports over small repositories that come to what those over the whole ones come to.

ghost use Rattle.std.specs.Prelude.{◌≡◌};

use gx_growing_import::{Features, Imported, WholeWay, import_over};
use gx_import::import;
use gx_object::{Namer, Sha1Namer};
use gx_objects::Objects;
use gx_repo::Repo;
use gx_store::Store;
use gx_text::{Bytes, Growing};
use std::alloc::{Allocator, Global};
use std::hash::RandomState;

/// Two commits of three files and a submodule, and a tag of the second.
pub(crate) const BEFORE: &[u8] = b"commit refs/heads/main\ncommitter C <c@x> 1 +0000\ndata 2\nm\n\
    M 100644 inline a\ndata 2\nx\nM 100755 inline d/b\ndata 2\ny\n\
    commit refs/heads/main\nmark :1\ncommitter C <c@x> 2 +0000\ndata 2\nm\n\
    M 100644 inline d/e/c\ndata 2\nz\nM 160000 1212121212121212121212121212121212121212 s\n\
    tag v1\nfrom :1\ntagger T <t@x> 3 +0000\ndata 2\nt\n";

/// A commit with a file moved, one copied and one that is there already, from a name; and a branch from a tag's parent.
const AFTER: &[u8] = b"progress begun\ncommit refs/heads/main\nmark :1\ncommitter C <c@x> 4 +0000\n\
    data 2\nn\nfrom refs/heads/main^0\nR a f\nC d g\nM 100644 inline h\ndata 2\nx\n\
    reset refs/heads/old\nfrom v1~1\n\ntag v2\nfrom :1\ndata 0\n";

/// A merge of what was there, a branch that goes on, and one that is set anew.
const MERGED: &[u8] = b"commit refs/heads/old\ncommitter C <c@x> 5 +0000\ndata 2\no\n\
    from refs/heads/old^0\nmerge v2\nM 100644 inline k\ndata 2\nk\ncheckpoint\n\
    commit refs/heads/new\ncommitter C <c@x> 6 +0000\ndata 2\np\nfrom v2^0\nD d\nD s\n\
    reset refs/heads/main\nfrom refs/heads/main^0\n\nprogress done\n";

/// What a stream gives a repository in memory, over a small one.
pub(crate) fn over<N: Namer + Copy, A: Allocator + Copy>(
    alloc: A,
    namer: N,
    repo: &Repo<N, Global>,
    stream: &[u8],
    state: RandomState,
) -> Result<Imported<N, A>, WholeWay>
    requires { N.name_of repo.now.0 ≡ N.name_of namer }
{
    import_over(alloc, namer, repo, stream, false, Features::none(), state)
}

/// Whether a stream gives a repository in memory the same over a small one as over all of it.
fn is_same(
    alloc: Global,
    repo: &mut Repo<Sha1Namer, Global>,
    stream: &[u8],
    state: RandomState,
) -> bool {
    let Ok(given) = over(alloc, Sha1Namer, repo, stream, state) else {
        return false;
    };
    let held = repo.store().len();
    let mut sink = Growing::new(alloc);
    let report = import(alloc, repo, Bytes::new(stream, 7, false), &mut sink);
    report == Ok(given.report)
        && sink.into_bytes().as_slice() == given.progress.as_slice()
        && is_given(alloc, repo, held, &given)
}

/// Whether a repository has just the refs that are given, and just the objects behind so many.
fn is_given(
    alloc: Global,
    repo: &Repo<Sha1Namer, Global>,
    held: usize,
    given: &Imported<Sha1Namer, Global>,
) -> bool {
    line_count(given.refs.as_slice()) == given.ref_count
        && has_lines(alloc, repo, given.refs.as_slice())
        && has_objects(repo, held, &given.objects)
}

/// How many lines a text has.
fn line_count(text: &[u8]) -> u64 {
    let mut count = 0u64;
    for byte in text {
        if *byte == b'\n' {
            count = count.saturating_add(1);
        }
    }
    count
}

/// Whether a repository has the refs of these lines.
fn has_lines(alloc: Global, repo: &Repo<Sha1Namer, Global>, lines: &[u8]) -> bool {
    let mut room = Vec::new(alloc);
    match repo.ref_lines(&mut room) {
        Ok(held) => held == lines,
        Err(_) => false,
    }
}

/// Whether a repository has just these objects behind so many.
fn has_objects(
    repo: &Repo<Sha1Namer, Global>,
    held: usize,
    objects: &Store<Sha1Namer, Global>,
) -> bool {
    for place in 0..objects.len() {
        if repo.store().record(held.saturating_add(place)) != objects.record(place) {
            return false;
        }
    }
    repo.store().len() == held.saturating_add(objects.len())
}

/// Streams, each over what those before it leave: into nothing, what is new, merges, and nothing.
const STREAMS: [&[u8]; 4] = [BEFORE, AFTER, MERGED, b""];

#[test]
fn small_repository_gives_what_the_whole_one_gives(rt: HostRuntime) {
    let Ok(state) = RandomState::new(&rt) else {
        return assert!(rt; false);
    };
    let mut repo = Repo::new(rt.alloc(), Sha1Namer, state);
    for place in 0..4usize {
        assert!(rt;
            is_same(rt.alloc(), &mut repo, STREAMS[place], state),
            "{place}"
        );
    }
}
