//! Plain texts, as they are grown and asked, beside what is made of them in memory.

use gx_at::TextAt;
use gx_kept::KeptFault;
use gx_object::{Name, Sha1Namer};
use gx_objects::Objects;
use gx_plain::{Plain, grow};
use gx_text::Growing;
use std::alloc::Global;
use std::hash::RandomState;

/// A commit with one file, as the format of stores says.
const STORE: &[u8] = b"gxstore 2\nobjects 3\n\
blob 10 83baae61804e65cc73a7201a7252750c76066a30\nversion 1\n\n\
tree 36 d8329fc1cc938780ffdd9f94e0d364e0ea74f579\n\
100644 test.txt\0\x83\xba\xaea\x80N\x65\xccs\xa7 \x1arRu\x0cv\x06j0\n\
commit 98 02d6adf1689e06135d2b4b4d471f1ae489887b53\n\
tree d8329fc1cc938780ffdd9f94e0d364e0ea74f579\n\
author A <a@x> 1 +0000\ncommitter A <a@x> 1 +0000\n\nv1\n\
refs 1\n02d6adf1689e06135d2b4b4d471f1ae489887b53 refs/heads/main\nend\n";

/// Texts of stores, and of none.
const TEXTS: [&[u8]; 10] = [
    STORE,
    b"gxstore 1\nobjects 1\nblob 2\nv1\nrefs 0\nend\n",
    b"gxstore 2\nobjects 0\nrefs 0\nend\n",
    b"gxstore 2\nobjects 0\nrefs 0\nend\n\n",
    b"gxstore 2\nobjects 1\nrefs 0\nend\n",
    b"gxstore 2\nobjects 18446744073709551615\nrefs 0\nend\n",
    b"gxstore 1\nobjects 1\ntree 2\nv1\nrefs 0\nend\n",
    b"gxstore 1\nobjects 2\nblob 2\nv1\nblob 2\nv1\nrefs 0\nend\n",
    b"gxstore 2\nobjects 1\nblob 2 83baae61804e65cc73a7201a7252750c76066a30\nv1\nrefs 0\nend\n",
    b"gxstore 3\n",
];

/// What is grown of a text that is read in pieces, or why nothing is.
fn grown(
    alloc: Global,
    text: &[u8],
    piece: usize,
    state: RandomState,
) -> Result<Vec<u8>, KeptFault> {
    let mut sink = Growing::new(alloc);
    grow(alloc, Sha1Namer, TextAt { text, piece }, state, &mut sink)?;
    Ok(sink.into_bytes())
}

/// Whether a text is grown as where it is read as a whole, and is damaged where it isn't read so.
fn is_as_in_memory(alloc: Global, text: &[u8], piece: usize, state: RandomState) -> bool {
    match gx_file::read(alloc, Sha1Namer, text, state) {
        Ok(repo) => match (
            grown(alloc, text, piece, state),
            gx_growing_file::write(alloc, &repo),
        ) {
            (Ok(grown), Ok(written)) => grown.as_slice() == written.as_slice(),
            _ => false,
        },
        Err(_) => grown(alloc, text, piece, state).err() == Some(KeptFault::Damaged),
    }
}

#[test]
fn plain_texts_are_grown_as_in_memory(rt: HostRuntime) {
    let Ok(state) = RandomState::new(&rt) else {
        return assert!(rt; false);
    };
    for text in TEXTS {
        for piece in [1, 5_000] {
            assert!(rt; is_as_in_memory(rt.alloc(), text, piece, state));
        }
    }
}

/// Whether the store tells the object of its ref, by that and by digits.
fn is_told(alloc: Global, state: RandomState) -> Option<bool> {
    let (text, piece) = (STORE, 100);
    let plain = Plain::open(alloc, Sha1Namer, TextAt { text, piece }, state).ok()?;
    let mut room = Vec::new(alloc);
    let commit = plain.object_of_ref(b"main").ok()??;
    let begun = plain.by_digits(b"02d6").ok()?;
    let object = plain.object(&commit, &mut room).ok()??;
    let is_whole = object.body.len() == 98 && begun == gx_store::Prefix::Unique(commit);
    let none = plain.object(&Name { bytes: [7; 20] }, &mut room).ok()?;
    Some(is_whole && none.is_none() && plain.listing().len() == 3)
}

#[test]
fn plain_text_tells_what_it_holds(rt: HostRuntime) {
    let Ok(state) = RandomState::new(&rt) else {
        return assert!(rt; false);
    };
    assert!(rt; is_told(rt.alloc(), state) == Some(true));
}
