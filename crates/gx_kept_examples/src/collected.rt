//! What is kept of random stores.

use crate::stores::{Dice, Grown, look_into, random_text};
use gx_kept::{collect, rewrite};
use gx_object::{Name, Sha1Namer};
use gx_repo::{Pruned, Repo};
use gx_text::Growing;
use std::alloc::Global;
use std::hash::RandomState;

/// Collects what is kept of a text beside these names, and answers how much goes.
fn collected(
    alloc: Global,
    text: &[u8],
    kept: &[Name],
    sink: &mut Growing<Global>,
    state: RandomState,
) -> Option<Pruned> {
    let look = look_into(alloc, text)?;
    let listing = look.listing(alloc, state).ok()?;
    collect(alloc, &look, &listing, kept, sink).ok()
}

/// Writes all of a text anew.
fn rewritten(
    alloc: Global,
    text: &[u8],
    sink: &mut Growing<Global>,
    state: RandomState,
) -> Option<()> {
    let look = look_into(alloc, text)?;
    let listing = look.listing(alloc, state).ok()?;
    rewrite(alloc, &look, &listing, sink).ok()
}

/// Whether a text is rewritten as this one.
fn rewrites(alloc: Global, text: &[u8], wanted: &[u8], state: RandomState) -> bool {
    let mut sink = Growing::new(alloc);
    let is_done = rewritten(alloc, text, &mut sink, state).is_some();
    is_done && sink.into_bytes().as_slice() == wanted
}

/// Whether a text is rewritten as a repository in memory is written.
fn is_rewritten(
    alloc: Global,
    text: &[u8],
    repo: &Repo<Sha1Namer, Global>,
    state: RandomState,
) -> bool {
    match gx_growing_file::write(alloc, repo) {
        Ok(whole) => rewrites(alloc, text, whole.as_slice(), state),
        Err(_) => false,
    }
}

/// How many objects go where a text is collected beside these names, as a repository in memory is.
fn pruned(
    alloc: Global,
    text: &[u8],
    names: &[Name],
    repo: &mut Repo<Sha1Namer, Global>,
    state: RandomState,
) -> Option<usize> {
    let pruned = repo.prune(names).ok()?;
    let held = gx_growing_file::write(alloc, repo).ok()?;
    let mut sink = Growing::new(alloc);
    let gone = collected(alloc, text, names, &mut sink, state);
    let is_held = sink.into_bytes().as_slice() == held.as_slice();
    (is_held && gone == Some(pruned)).then_some(pruned.objects)
}

/// Puts names of some objects, and of none.
fn put_names(names: &mut Vec<Name>, dice: &mut Dice, repo: &Repo<Sha1Namer, Global>) -> Option<()> {
    for _ in 0..dice.below(3) {
        let place = dice.below(repo.store().len() as u64);
        let name = match repo.store().record(place as usize) {
            Some((name, _kind, _body)) => name,
            None => Name { bytes: [7; 20] },
        };
        names.push(name).ok()?;
    }
    Some(())
}

/// Whether a text is rewritten and collected as a repository in memory, and how many objects go.
fn gone(
    alloc: Global,
    text: &[u8],
    repo: &mut Repo<Sha1Namer, Global>,
    dice: &mut Dice,
    state: RandomState,
) -> Option<usize> {
    let mut names = Vec::new(alloc);
    if put_names(&mut names, dice, repo).is_some() && is_rewritten(alloc, text, repo, state) {
        pruned(alloc, text, names.as_slice(), repo, state)
    } else {
        None
    }
}

/// The same of a random store.
fn gone_of_random(alloc: Global, seed: u64, state: RandomState) -> Option<usize> {
    let mut dice = Dice { state: seed };
    let segments = dice.below(8);
    let mut grown = Grown::new(alloc, state);
    match random_text(alloc, &mut grown, &mut dice, segments, state) {
        Some(text) => gone(alloc, text.as_slice(), &mut grown.repo, &mut dice, state),
        None => None,
    }
}

#[test]
fn random_stores_are_collected_as_in_memory(rt: HostRuntime) {
    let Ok(state) = RandomState::new(&rt) else {
        return assert!(rt; false);
    };
    let mut most = 0;
    for seed in 0..40 {
        let Some(gone) = gone_of_random(rt.alloc(), seed, state) else {
            return assert!(rt; false);
        };
        most = most.max(gone);
    }
    assert!(rt; most > 10);
}
