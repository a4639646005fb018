//! Streams and store texts with one byte changed to each other value: each is refused for its own sake, or is imported
//! or read whole.
ghost use Rattle.std.specs.Prelude.{◌<◌, length};

use crate::given::{MERGED, exported, listed, opened, refusal_of, stored, text_of};
use crate::hostile::old_texts::old_text_of;
use gx_file::FileFault;
use gx_import::ImportKind;
use gx_object::{Kind, Sha1Namer};
use gx_repo::Repo;
use std::alloc::{AllocError, Global};
use std::hash::RandomState;

/// More than an export of these texts takes.
const ROOM: usize = 4096;

/// The text of an empty store.
const EMPTY: &[u8] = b"gxstore 2\nobjects 0\nrefs 0\nend\n";

/// What a text is read as.
#[derive(Clone, Copy)]
pub(super) enum Text {
    Stream,
    StoreText,
    /// A store text of version 1.
    OldStoreText,
}

/// Whether each commit that a ref holds is walked from: the walk lists it first.
fn are_walked(alloc: Global, repo: &Repo<Sha1Namer, Global>) -> bool {
    for (_, target) in repo.refs() {
        let is_commit = matches!(repo.store().get(&target), Some((Kind::Commit, _)));
        if is_commit && listed(alloc, repo, target.hex().as_slice()).first() != Some(&target) {
            return false;
        }
    }
    true
}

/// Whether a store text is read, and what is read has this text.
fn comes_again(alloc: Global, text: &[u8], state: RandomState) -> bool {
    match opened(alloc, text, state) {
        Ok(repo) => text_of(alloc, &repo).as_slice() == text,
        Err(_) => false,
    }
}

/// Whether a repository is written and read again, and walked, and its export is imported into one with the same refs
/// and the same export.
fn is_whole(alloc: Global, repo: &Repo<Sha1Namer, Global>, state: RandomState) -> bool {
    comes_again(alloc, &text_of(alloc, repo), state)
        && are_walked(alloc, repo)
        && is_export_told(alloc, repo, &exported(alloc, repo, ROOM), state)
}

/// Whether a repository's export is imported into one with the same refs and the same export.
fn is_export_told(
    alloc: Global,
    repo: &Repo<Sha1Namer, Global>,
    text: &[u8],
    state: RandomState,
) -> bool {
    let mut again = Repo::new(alloc, Sha1Namer, state);
    let is_imported = !text.is_empty() && refusal_of(alloc, &mut again, text).is_none();
    is_imported && repo.refs().eq(again.refs()) && exported(alloc, &again, ROOM).as_slice() == text
}

/// Whether what a stream is refused for, if it is, is its own, and leaves nothing; or else the repository is whole.
fn is_import_told(
    alloc: Global,
    repo: &Repo<Sha1Namer, Global>,
    refused: Option<ImportKind>,
    state: RandomState,
) -> bool {
    match refused {
        None => is_whole(alloc, repo, state),
        Some(ImportKind::OutOfMemory | ImportKind::ReadFailed) => false,
        Some(ImportKind::WriteFailed | ImportKind::NameHeld) => false,
        Some(_) => text_of(alloc, repo).as_slice() == EMPTY,
    }
}

/// Whether a stream is refused for its own sake and leaves nothing, or else makes a repository that is whole.
fn is_stream_told(alloc: Global, stream: &[u8], state: RandomState) -> bool {
    let mut repo = Repo::new(alloc, Sha1Namer, state);
    let refused = refusal_of(alloc, &mut repo, stream).map(|fault| fault.kind);
    is_import_told(alloc, &repo, refused, state)
}

/// Whether what is read of a text has that text, and can be exported; one of version 1 is written as version 2, too.
fn is_read_whole(
    alloc: Global,
    kind: Text,
    repo: &Repo<Sha1Namer, Global>,
    text: &[u8],
    state: RandomState,
) -> bool {
    !exported(alloc, repo, ROOM).is_empty()
        && match kind {
            Text::OldStoreText => match old_text_of(alloc, repo) {
                Ok(old) => {
                    old.as_slice() == text && comes_again(alloc, &text_of(alloc, repo), state)
                }
                Err(_) => false,
            },
            _ => text_of(alloc, repo).as_slice() == text,
        }
}

/// Whether a text is told: refused for its own sake, or else imported or read whole.
pub(super) fn is_told(alloc: Global, kind: Text, text: &[u8], state: RandomState) -> bool {
    match kind {
        Text::Stream => is_stream_told(alloc, text, state),
        _ => match opened(alloc, text, state) {
            Ok(repo) => is_read_whole(alloc, kind, &repo, text, state),
            Err(fault) => fault != FileFault::OutOfMemory,
        },
    }
}

/// Whether the text is told with each other value of its byte at a place.
fn is_place_told(
    alloc: Global,
    kind: Text,
    text: &mut [u8],
    place: usize,
    state: RandomState,
) -> bool
    requires within { place < length text.now }
{
    let kept = text[place];
    for value in 0..=255u8 {
        text[place] = value;
        if value != kept && !is_told(alloc, kind, text, state) {
            return false;
        }
    }
    text[place] = kept;
    true
}

/// The first place at which a change of a text isn't told; 0 where the text is not read as it is.
fn wrong_place(alloc: Global, kind: Text, text: &mut [u8], state: RandomState) -> Option<usize> {
    if text.is_empty() || !is_told(alloc, kind, text, state) {
        return Some(0);
    }
    for place in 0..text.len() {
        if !is_place_told(alloc, kind, text, place, state) {
            return Some(place);
        }
    }
    None
}

/// The text of this kind of a stream, or of the store with it imported; an empty one where that is refused.
fn text_as(alloc: Global, kind: Text, stream: &[u8], state: RandomState) -> Vec<u8> {
    let text = match kind {
        Text::Stream => Vec::from_slice(alloc, stream),
        Text::StoreText => Ok(stored(alloc, stream, state)),
        Text::OldStoreText => stored_before(alloc, stream, state),
    };
    match text {
        Ok(text) => text,
        Err(_) => Vec::new(alloc),
    }
}

/// The text of version 1 of the store with a stream imported; an empty one where that is refused.
fn stored_before(alloc: Global, stream: &[u8], state: RandomState) -> Result<Vec<u8>, AllocError> {
    let mut repo = Repo::new(alloc, Sha1Namer, state);
    match refusal_of(alloc, &mut repo, stream) {
        None => old_text_of(alloc, &repo),
        Some(_) => Ok(Vec::new(alloc)),
    }
}

/// The first place at which a change of the text of this kind isn't told, if there is one.
fn wrong_in(alloc: Global, kind: Text, state: RandomState) -> Option<usize> {
    let mut text = text_as(alloc, kind, MERGED, state);
    wrong_place(alloc, kind, text.as_mut_slice(), state)
}

#[test]
fn changed_stream_is_told(rt: HostRuntime) {
    match RandomState::new(&rt) {
        Ok(state) => assert!(rt; wrong_in(rt.alloc(), Text::Stream, state).is_none()),
        Err(_) => assert!(rt; false),
    }
}

#[test]
fn changed_store_text_is_told(rt: HostRuntime) {
    match RandomState::new(&rt) {
        Ok(state) => assert!(rt; wrong_in(rt.alloc(), Text::StoreText, state).is_none()),
        Err(_) => assert!(rt; false),
    }
}

#[test]
fn changed_store_text_of_version_1_is_told(rt: HostRuntime) {
    match RandomState::new(&rt) {
        Ok(state) => assert!(rt; wrong_in(rt.alloc(), Text::OldStoreText, state).is_none()),
        Err(_) => assert!(rt; false),
    }
}
