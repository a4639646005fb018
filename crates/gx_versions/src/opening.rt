//! The repository of a store's text.

ghost use Rattle.std.specs.Prelude.{◌≡◌, IfOk};
ghost use Rattle.gx_growing_file.specs.Grown.{ReadsGrown};
ghost use Rattle.gx_versions.specs.Versions.{opened_of};

use crate::forms::{StoreForm, form_of};
use gx_file::{FileFault, Text};
use gx_growing::GrowingFault;
use gx_object::Namer;
use gx_repo::Repo;
use std::alloc::Allocator;
use std::hash::RandomState;

/// The repository of a store's text of any version, which shares the text: no body is copied.
///
/// The first fault from the front is answered, with the causes that [`GrowingFault`] gives; of a plain text they are those of
/// `gx_file::read_text`. Cost and memory: those of that, or of `gx_growing_file::read_text`.
pub fn open_store<N: Namer + Drop, A: Allocator + Copy>(
    alloc: A,
    namer: N,
    store: Vec<u8, A>,
    state: RandomState,
) -> Result<Repo<N, A>, GrowingFault>
    ensures namer { IfOk result (λ repo. repo.0 ≡ namer) }
    ensures store { ReadsGrown (λ repo. repo.1) result (opened_of (N.name_of namer) store.items) }
{
    let form = form_of(store.as_slice());
    let Ok(text) = Text::new(alloc, store) else {
        return Err(GrowingFault::Text(FileFault::OutOfMemory));
    };
    match form {
        StoreForm::Plain => Ok(gx_file::read_text(alloc, namer, text, state)?),
        StoreForm::Growing => gx_growing_file::read_text(alloc, namer, text, state),
    }
}
