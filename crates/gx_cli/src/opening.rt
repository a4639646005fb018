//! The repository that is read of a store's text.

ghost use Rattle.std.specs.Prelude.{◌≡◌, IfOk};
ghost use Rattle.gx_model.specs.Stores.StoreReading.{store_of};
ghost use Rattle.gx_model.specs.Stores.StoreText.{IsStoreText};
ghost use Rattle.gx_lines.specs.Reads.{Reads};
ghost use Rattle.gx_file.specs.Reading.{RefusesOthers};

use gx_file::{FileFault, Text, read_text};
use gx_object::Namer;
use gx_repo::Repo;
use std::alloc::Allocator;
use std::hash::RandomState;

/// The repository of a store's text, which it shares: no body is copied.
///
/// The faults and the cost are those of `gx_file::read_text`. Memory: that of it.
pub(crate) fn open<N: Namer + Drop, A: Allocator + Copy>(
    alloc: A,
    namer: N,
    store: Vec<u8, A>,
    state: RandomState,
) -> Result<Repo<N, A>, FileFault>
    ensures namer { IfOk result (λ repo. repo.0 ≡ namer) }
    ensures store { Reads (λ repo. repo.1) result (store_of (N.name_of namer) store.items) }
    ensures text { IfOk result (λ repo. IsStoreText store.items repo.1) }
    ensures refused { RefusesOthers (N.name_of namer) store.items result }
{
    match Text::new(alloc, store) {
        Ok(text) => read_text(alloc, namer, text, state),
        Err(_) => Err(FileFault::OutOfMemory),
    }
}
