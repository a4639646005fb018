//! What a store file had when it was read.

use gx_cli::Repo;
use gx_object::{Name, Sha1Namer};
use gx_place::Stamp;
use gx_store::Store;
use gx_versions::{StoreForm, form_of};
use std::alloc::{AllocError, Global};

/// What a store file had when it was read, and which file that was.
#[derive(Drop)]
pub(super) struct Before {
    pub(super) stamp: Stamp,
    pub(super) kind: TextKind,
    /// So many objects.
    pub(super) objects: usize,
    /// Each ref as `put_ref` puts it.
    refs: Vec<u8>,
}

/// What a store's text is to whoever writes the next one.
#[derive(Clone, Copy, PartialEq, Eq, Drop)]
pub(super) enum TextKind {
    /// Of version 1, which is written no more.
    Old,
    /// Of version 2: a repository has this one alone.
    Plain,
    Growing,
}

impl TextKind {
    pub(super) fn of_text(text: &[u8]) -> TextKind {
        match form_of(text) {
            StoreForm::Growing => TextKind::Growing,
            StoreForm::Plain if text.starts_with(b"gxstore 1\n") => TextKind::Old,
            StoreForm::Plain => TextKind::Plain,
        }
    }

    /// The form of what is written of it.
    pub(super) fn form(self) -> StoreForm {
        match self {
            TextKind::Old | TextKind::Plain => StoreForm::Plain,
            TextKind::Growing => StoreForm::Growing,
        }
    }
}

impl Before {
    /// What the file has whose text is of this kind, and tells this repository.
    pub(super) fn of_repo(
        alloc: Global,
        stamp: Stamp,
        kind: TextKind,
        repo: &Repo<Sha1Namer, Global>,
    ) -> Result<Before, AllocError> {
        let mut refs = Vec::new(alloc);
        for (name, object) in repo.refs() {
            put_ref(&mut refs, name, &object)?;
        }
        Ok(Before {
            stamp,
            kind,
            objects: repo.store().len(),
            refs,
        })
    }

    /// Whether the file has no objects, or a repository that has these, and more behind them, has bodies there of as many bytes as the
    /// whole file. Cost: their number.
    pub(super) fn is_outweighed_by(&self, repo: &Repo<Sha1Namer, Global>) -> bool {
        self.objects == 0 || body_bytes(repo.store(), self.objects) >= self.stamp.size
    }

    /// Whether a repository that has all objects of the file, or some of them, in their order has the same, and the same refs.
    pub(super) fn has_all_of(&self, repo: &Repo<Sha1Namer, Global>) -> bool {
        repo.store().len() == self.objects && has_refs(self.refs.as_slice(), repo)
    }
}

/// How many bytes the bodies of a store's objects have from one on. Cost: their number.
pub(super) fn body_bytes(store: &Store<Sha1Namer, Global>, from: usize) -> u64 {
    let new = (from..store.len()).filter_map(|place| store.record(place));
    new.fold(
        0u64,
        |sum, (_, _, body)| sum.saturating_add(body.len() as u64),
    )
}

/// Whether a repository has these refs, and no others.
fn has_refs(refs: &[u8], repo: &Repo<Sha1Namer, Global>) -> bool {
    let mut rest = refs;
    for (name, object) in repo.refs() {
        match behind_ref(rest, name, &object) {
            Some(behind) => rest = behind,
            None => return false,
        }
    }
    rest.is_empty()
}

/// The bytes of a ref's object, and its name in a line.
fn put_ref(refs: &mut Vec<u8>, name: &[u8], object: &Name) -> Result<(), AllocError> {
    refs.extend_from_slice(&object.bytes)?;
    refs.extend_from_slice(name)?;
    refs.push(b'\n')?;
    Ok(())
}

/// What follows a ref, where that is the first.
fn behind_ref<'a>(refs: &'a [u8], name: &[u8], object: &Name) -> Option<&'a [u8]> {
    refs.strip_prefix(&object.bytes)?
        .strip_prefix(name)?
        .strip_prefix(b"\n")
}
