//! Repositories whose texts are appended to, and what is read of a text then.

use crate::texts::{LINES, version_2};
use crate::told::{Told, answered};
use gx_additions::{append_additions, append_objects};
use gx_at::TextAt;
use gx_disk::{Disk, Plan};
use gx_growing_file::read_text;
use gx_look::Look;
use gx_object::{Kind, Sha1Namer};
use gx_repo::{RefChange, Repo, Text};
use gx_store::Store;
use std::alloc::Global;
use std::hash::RandomState;

/// The commit, or what it has grown to.
pub(crate) fn repository(
    alloc: Global,
    has_grown: bool,
    state: RandomState,
) -> Option<Repo<Sha1Namer, Global>> {
    gx_file::read(alloc, Sha1Namer, version_2(has_grown), state).ok()
}

/// A disk with the growing text of a repository, of which calls fail as a plan says.
pub(crate) fn disk_with(
    alloc: Global,
    repo: &Repo<Sha1Namer, Global>,
    plan: Plan,
) -> Option<Disk<Global>> {
    let text = gx_growing_file::write(alloc, repo).ok()?;
    Disk::new(alloc, text.as_slice(), plan).ok()
}

/// A disk with the growing text of the commit.
pub(crate) fn committed(alloc: Global, plan: Plan, state: RandomState) -> Option<Disk<Global>> {
    let repo = repository(alloc, false, state)?;
    disk_with(alloc, &repo, plan)
}

/// Appends what a repository has more than so many objects, and its refs.
pub(crate) fn append_to(
    alloc: Global,
    disk: &mut Disk<Global>,
    repo: &Repo<Sha1Namer, Global>,
    held: usize,
) -> Option<Told> {
    let text = Vec::from_slice(alloc, disk.text()).ok()?;
    let look = Look::open(alloc, Sha1Namer, whole(text.as_slice())).ok()?;
    Some(answered(append_objects(alloc, disk, look.ending(), repo, held)))
}

/// Appends what the commit has grown by.
pub(crate) fn append_grown(
    alloc: Global,
    disk: &mut Disk<Global>,
    state: RandomState,
) -> Option<Told> {
    let repo = repository(alloc, true, state)?;
    append_to(alloc, disk, &repo, 2)
}

/// Appends the objects of a store, and the refs of what the commit has grown to.
fn append_store(
    alloc: Global,
    disk: &mut Disk<Global>,
    store: &Store<Sha1Namer, Global>,
) -> Option<Told> {
    let text = Vec::from_slice(alloc, disk.text()).ok()?;
    let look = Look::open(alloc, Sha1Namer, whole(text.as_slice())).ok()?;
    let answer = append_additions(alloc, disk, look.ending(), 2, store, 2, LINES);
    Some(answered(answer))
}

/// Puts the blobs that the commit has grown by.
fn put_blobs(store: &mut Store<Sha1Namer, Global>) -> Option<()> {
    for byte in 0..3u8 {
        store.put(Kind::Blob, &[byte]).ok()?;
    }
    Some(())
}

/// Appends what the commit has grown by as a store of new objects.
pub(crate) fn append_blobs(
    alloc: Global,
    disk: &mut Disk<Global>,
    state: RandomState,
) -> Option<Told> {
    let mut store = Store::new(alloc, Sha1Namer, state);
    put_blobs(&mut store)?;
    append_store(alloc, disk, &store)
}

/// Adds blobs of one byte, from a number on.
pub(crate) fn add_blobs(repo: &mut Repo<Sha1Namer, Global>, from: u8, to: u8) -> Option<()> {
    for byte in from..to {
        repo.add_blob(&[byte]).ok()?;
    }
    Some(())
}

/// Has a ref hold the commit.
pub(crate) fn hold(repo: &mut Repo<Sha1Namer, Global>, name: &[u8]) -> Option<()> {
    let (target, _kind, _body) = repo.store().record(1)?;
    repo.publish(&[RefChange { name, target }]).ok()
}

/// How many live runs a text has.
pub(crate) fn count_runs(alloc: Global, text: &[u8]) -> Option<usize> {
    let look = Look::open(alloc, Sha1Namer, whole(text)).ok()?;
    Some(look.ending().runs.len())
}

/// A text that is read at once.
fn whole(text: &[u8]) -> TextAt<'_> {
    TextAt {
        text,
        piece: usize::MAX,
    }
}

/// The text of version 2 of what is read of a growing one.
pub(crate) fn read_whole(alloc: Global, text: &[u8], state: RandomState) -> Option<Vec<u8>> {
    let copy = Vec::from_slice(alloc, text).ok()?;
    let copy = Text::new(alloc, copy).ok()?;
    let repo = read_text(alloc, Sha1Namer, copy, state).ok()?;
    gx_file::write(alloc, &repo).ok()
}

/// Whether a growing text is read as the commit, or as what it has grown to.
pub(crate) fn is_read_as(alloc: Global, text: &[u8], has_grown: bool, state: RandomState) -> bool {
    match read_whole(alloc, text, state) {
        Some(read) => read.as_slice() == version_2(has_grown),
        None => false,
    }
}

/// Whether a growing text is read as a repository.
pub(crate) fn is_read_back(
    alloc: Global,
    text: &[u8],
    repo: &Repo<Sha1Namer, Global>,
    state: RandomState,
) -> Option<bool> {
    let read = read_whole(alloc, text, state)?;
    let held = gx_file::write(alloc, repo).ok()?;
    Some(read.as_slice() == held.as_slice())
}
