//! Objects that leave a store since no ref reaches them. Source: git-gc(1) and git-prune(1).

ghost use Rattle.std.specs.Prelude.{[]};
ghost use Rattle.gx_model.specs.Stores.StoreReading.{store_of};
ghost use Rattle.gx_object.specs.Commits.{bytes_of_names};
ghost use Rattle.gx_cli.specs.Collecting.{CollectsNamed, CollectsOpened, CollectsStored, GivesNames, kept_names};
ghost use Rattle.gx_cli.specs.Gathering.{texts_of};
ghost use Rattle.gx_cli.specs.Serving.{EndsCollected};

use crate::CliFault;
use crate::next_text::with_text;
use crate::opening::open;
use crate::serving::{Outcome, refused};
use gx_model::pruning_laws::{pruned_answers, pruned_stands};
use gx_object::{Name, Namer};
use gx_repo::{Pruned, Repo};
use std::alloc::Allocator;
use std::hash::RandomState;

/// Lets the objects of a store's text go that no ref reaches. It answers the repository whose text is the next one, which
/// [`send_store`](crate::send_store) sends, and how much went. What is read of the text shares it: no body is copied.
///
/// The others keep their order, and the refs stay; so each revision and each range by refs gives what it gave.
/// `Store`: the text isn't read. `OutOfMemory`: a growth was refused after that.
/// Cost: that of reading the store's text, and of `Repo::prune`. Memory: the store's text for as long as one of its records is
/// held, and what `Repo::prune` takes.
pub fn collect_store<N: Namer + Drop, A: Allocator + Copy>(
    alloc: A,
    namer: N,
    store: Vec<u8, A>,
    state: RandomState,
) -> Result<(Repo<N, A>, Pruned), CliFault>
    ensures { CollectsStored N.name_of namer [] (store_of (N.name_of namer) store.items) result }
{
    collect_text(alloc, namer, store, &[], state)
}

/// Does what [`collect_store`] does, but that the objects stay, too, whose names these lines give, each by its 40 digits, with all
/// that they reach. Digits that no object has keep nothing.
///
/// `Keep`: the first line that isn't 40 digits, by its number from 1. Then the store's text isn't read. Memory: 20 bytes for each
/// line, too.
pub fn collect_store_keeping<N: Namer + Drop, A: Allocator + Copy>(
    alloc: A,
    namer: N,
    store: Vec<u8, A>,
    lines: &[Vec<u8, A>],
    state: RandomState,
) -> Result<(Repo<N, A>, Pruned), CliFault>
    ensures { CollectsNamed N.name_of namer (kept_names (texts_of lines.now))
        (store_of (N.name_of namer) store.items) result }
{
    match names_in(alloc, lines) {
        Ok(names) => collect_text(alloc, namer, store, names.as_slice(), state),
        Err(fault) => Err(fault),
    }
}

/// The names that these lines give, each by its 40 digits, of either case.
///
/// `Keep`: the first line that isn't 40 digits, by its number from 1. `OutOfMemory`: a growth was refused.
pub fn names_in<A: Allocator + Copy>(
    alloc: A,
    lines: &[Vec<u8, A>],
) -> Result<Vec<Name, A>, CliFault>
    ensures { GivesNames (kept_names (texts_of lines.now)) result }
{
    let mut names = Vec::new(alloc);
    for line in lines {
        match Name::read(line.as_slice()) {
            Some(name) => names.push(name)?,
            None => {
                let number = names.len() as u64 + 1;
                return Err(CliFault::Keep { number });
            }
        }
    }
    Ok(names)
}

/// Lets the objects of a store's text go that neither refs nor objects of these names reach.
fn collect_text<N: Namer + Drop, A: Allocator + Copy>(
    alloc: A,
    namer: N,
    store: Vec<u8, A>,
    kept: &[Name],
    state: RandomState,
) -> Result<(Repo<N, A>, Pruned), CliFault>
    ensures { CollectsStored N.name_of namer (bytes_of_names kept.now)
        (store_of (N.name_of namer) store.items) result }
{
    match open(alloc, namer, store, state) {
        Ok(repo) => collect_opened(repo, kept),
        Err(fault) => Err(CliFault::Store(fault)),
    }
}

/// Lets the objects of a repository go that no ref reaches, and makes the text of what that leaves. Where names are to be read of
/// a file, which isn't here, it is refused.
pub(crate) fn collect<N: Namer + Drop, A: Allocator + Copy>(
    alloc: A,
    repo: Repo<N, A>,
    keeps: bool,
) -> Outcome<A>
    ensures { EndsCollected (N.name_of repo.0) keeps repo.1 result }
{
    if keeps {
        return refused(CliFault::ReadFailed);
    }
    match collect_opened(repo, &[]) {
        Ok((left, _)) => with_text(alloc, &left, 0, None),
        Err(fault) => refused(fault),
    }
}

/// Does what [`collect_store`] does with the repository of a store, but that the objects of these names stay, too, with all that
/// they reach.
pub fn collect_opened<N: Namer + Drop, A: Allocator + Copy>(
    repo: Repo<N, A>,
    kept: &[Name],
) -> Result<(Repo<N, A>, Pruned), CliFault>
    ensures { CollectsOpened N.name_of repo.0 (bytes_of_names kept.now) repo.1 result }
{
    pruned_stands();
    pruned_answers();
    repo.sound();
    let mut left = repo;
    match left.prune(kept) {
        Ok(gone) => Ok((left, gone)),
        Err(_) => Err(CliFault::OutOfMemory),
    }
}
