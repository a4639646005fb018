//! A small repository of what a stream asks for, beside the whole one.

use gx_asked::Asked;
use gx_command::Features;
use gx_object::{Kind, Sha1Namer};
use gx_objects::Objects;
use gx_ref_lines::RefLines;
use gx_repo::{RefChange, Repo};
use gx_small_repo::{base_given, small_repository};
use gx_stand_ins::StandIn;
use std::alloc::Global;
use std::hash::RandomState;

/// Four commits, of which the last two have a directory and a submodule more, and a tag of the third.
const RECORDS: [(Kind, &[u8]); 10] = [
    (Kind::Blob, b"x\n"),
    (Kind::Blob, b"y\n"),
    (
        Kind::Tree,
        b"100644 a\x00X{\xe6\xb4\xc3\xf9?\x93\xc4\x89\xc0\x11\x1b\xbaU\x96\x14z&\xcb",
    ),
    (
        Kind::Tree,
        b"100755 b\x00\x97_\xbe\xc8%m>\x8a7\x97\xe7\xa3a\x13\x80\xf2|I\xf4\xac",
    ),
    (
        Kind::Tree,
        b"100644 a\x00X{\xe6\xb4\xc3\xf9?\x93\xc4\x89\xc0\x11\x1b\xbaU\x96\x14z&\xcb\
        40000 d\x00j\xff\x15(\x1c\xb9,\xb9\xec\x1f\x1d\x0b\xc8\xc2\x20aNn\xfb\xb7\
        160000 s\x00\x12\x12\x12\x12\x12\x12\x12\x12\x12\x12\x12\x12\x12\x12\x12\x12\x12\x12\x12\x12",
    ),
    (
        Kind::Commit,
        b"tree 4d593e935186bcc35450336864a1aad148210a14\n\
        author C <c@x> 1 +0000\ncommitter C <c@x> 1 +0000\n\nm0",
    ),
    (
        Kind::Commit,
        b"tree 4d593e935186bcc35450336864a1aad148210a14\nparent 3fafb18f452ccdc59fe1328e753ba54728306212\n\
        author C <c@x> 1 +0000\ncommitter C <c@x> 1 +0000\n\nm1",
    ),
    (
        Kind::Commit,
        b"tree 401941dd98aba593ef5d5c3af77bf282315900e3\nparent dc423252d9e96709d1b2777dfcd76765688282b0\n\
        author C <c@x> 1 +0000\ncommitter C <c@x> 1 +0000\n\nm2",
    ),
    (
        Kind::Commit,
        b"tree 401941dd98aba593ef5d5c3af77bf282315900e3\nparent 9d5bc3f4d1d3f1d373b5fe0887bfd7b10953d3b8\n\
        author C <c@x> 1 +0000\ncommitter C <c@x> 1 +0000\n\nm3",
    ),
    (
        Kind::Tag,
        b"object 9d5bc3f4d1d3f1d373b5fe0887bfd7b10953d3b8\ntype commit\ntag v1\n\
        tagger C <c@x> 1 +0000\n\nt",
    ),
];

/// Whether a small repository has each of these, and whether it has it itself: others stand for the second blob and the second
/// commit, and nothing asks for the first commit.
const HELD: [(bool, bool); 10] = [
    (true, true),
    (true, false),
    (true, true),
    (true, true),
    (true, true),
    (false, false),
    (true, false),
    (true, true),
    (true, true),
    (true, true),
];

/// The refs of the whole one, and the places of their objects: nothing asks for the second.
const REFS: [(&[u8], usize); 3] = [
    (b"refs/heads/main", 8),
    (b"refs/heads/unasked", 5),
    (b"refs/tags/v1", 9),
];

/// Words of which both are to give the same.
const BASES: [&[u8]; 4] = [b"main", b"v1", b"587be6b4", b"unheard"];

/// A commit with a file that stands already, by its digits, and branches from a tag's parent and from a branch's.
const STREAM: &[u8] = b"commit refs/heads/main\ncommitter C <c@x> 4 +0000\ndata 2\nn\n\
    from refs/heads/main^0\nM 100644 587be6b4c3f93f93c489c0111bba5596147a26cb h\n\
    reset refs/heads/old\nfrom v1~1\n\nreset refs/heads/other\nfrom main~1\n\n";

/// Makes an empty repository the whole one. Answers whether all of it is there.
fn is_filled(repo: &mut Repo<Sha1Namer, Global>) -> bool {
    add_records(repo).is_some() && hold_refs(repo).is_some()
}

/// Adds the records.
fn add_records(repo: &mut Repo<Sha1Namer, Global>) -> Option<()> {
    for (kind, body) in RECORDS {
        repo.add_record(kind, body).ok()?;
    }
    Some(())
}

/// Has each ref hold its object.
fn hold_refs(repo: &mut Repo<Sha1Namer, Global>) -> Option<()> {
    for (name, place) in REFS {
        let (target, _kind, _body) = repo.store().record(place)?;
        repo.publish(&[RefChange { name, target }]).ok()?;
    }
    Some(())
}

/// The small repository of what the stream asks for.
fn small(
    alloc: Global,
    repo: &Repo<Sha1Namer, Global>,
    state: RandomState,
) -> Option<Repo<StandIn<Sha1Namer>, Global>> {
    let mut room = Vec::new(alloc);
    let lines = RefLines::read(alloc, repo.ref_lines(&mut room).ok()?).ok()?;
    let asked = Asked::read(alloc, &Sha1Namer, STREAM, false, Features::none()).ok()?;
    small_repository(alloc, Sha1Namer, repo, &asked, &lines, state).ok()
}

/// Whether a small repository has the object at a place, and whether it has it itself.
fn held(
    repo: &Repo<Sha1Namer, Global>,
    small: &Repo<StandIn<Sha1Namer>, Global>,
    place: usize,
) -> Option<(bool, bool)> {
    let (name, _kind, body) = repo.store().record(place)?;
    match small.store().get(&name) {
        Some((_kind, here)) => Some((true, here == body)),
        None => Some((false, false)),
    }
}

/// Whether a base gives the same in both.
fn is_same_base(
    repo: &Repo<Sha1Namer, Global>,
    small: &Repo<StandIn<Sha1Namer>, Global>,
    base: &[u8],
) -> bool {
    base_given(repo, base).ok() == base_given(small, base).ok()
}

/// Whether each object is held as it is to be.
fn are_held(repo: &Repo<Sha1Namer, Global>, small: &Repo<StandIn<Sha1Namer>, Global>) -> bool {
    for place in 0..10usize {
        if held(repo, small, place) != Some(HELD[place]) {
            return false;
        }
    }
    true
}

/// Whether each base gives the same in both.
fn are_same_bases(
    repo: &Repo<Sha1Namer, Global>,
    small: &Repo<StandIn<Sha1Namer>, Global>,
) -> bool {
    for base in BASES {
        if !is_same_base(repo, small, base) {
            return false;
        }
    }
    true
}

/// Whether the small repository of what the stream asks for has that, and no more.
fn is_small(alloc: Global, repo: &Repo<Sha1Namer, Global>, state: RandomState) -> bool {
    match small(alloc, repo, state) {
        Some(small) => {
            are_held(repo, &small)
                && are_same_bases(repo, &small)
                && small.store().len() == 9
                && small.refs().count() == 2
        }
        None => false,
    }
}

#[test]
fn small_repository_has_what_is_asked_for(rt: HostRuntime) {
    let Ok(state) = RandomState::new(&rt) else {
        return assert!(rt; false);
    };
    let mut repo = Repo::new(rt.alloc(), Sha1Namer, state);
    assert!(rt; is_filled(&mut repo));
    assert!(rt; is_small(rt.alloc(), &repo, state));
}
