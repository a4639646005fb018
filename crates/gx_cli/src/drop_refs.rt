//! Refs that leave a store. Source: git-update-ref(1), "delete".

ghost use Rattle.std.specs.Prelude.{◌≡◌, IfOk};
ghost use Rattle.gx_model.specs.Stores.StoreReading.{store_of};
ghost use Rattle.gx_repo.specs.Dropping.{dropped};
ghost use Rattle.gx_text.specs.Lent.{lent_texts};
ghost use Rattle.gx_cli.specs.Dropping.{DropsAll, DropsFrom, DropsStored, IsDropped, shown_left};
ghost use Rattle.gx_print.specs.Words.{with_lines};

use crate::CliFault;
use crate::lines::lines_from;
use crate::opening::open;
use gx_object::Namer;
use gx_print::{add_lines, texts_of};
use gx_repo::{DropFault, Repo};
use gx_rev::RevFault;
use gx_text::Source;
use std::alloc::Allocator;
use std::hash::RandomState;

/// Drops the refs with these names from the store of a text. It answers the repository whose text is the next one, which
/// [`send_store`](crate::send_store) sends. What is read of the text shares it: no body is copied. With `stdin` the lines of the
/// source are names, too, behind those that are given. Objects stay.
///
/// `Store`: the text isn't read. `Revision`: the first name that is no ref's, or that is given before, by its number from 1.
/// `ReadFailed`: the source failed. `OutOfMemory`: a growth was refused. With each of them nothing is left to be sent.
/// Cost: that of reading the store's text, and the source, and of `Repo::drop_refs`. Memory: the store's text for as long as one of
/// its records is held.
pub fn drop_store<N: Namer + Drop, R: Source + Drop, A: Allocator + Copy>(
    alloc: A,
    namer: N,
    store: Vec<u8, A>,
    words: &[&str],
    stdin: bool,
    source: R,
    state: RandomState,
) -> Result<Repo<N, A>, CliFault>
    ensures namer { IfOk result (λ left. left.0 ≡ namer) }
    ensures dropped { DropsStored (N.name_of namer) stdin (store_of (N.name_of namer) store.items)
        (lent_texts words.now) (R.coming source) (shown_left result) }
{
    match open(alloc, namer, store, state) {
        Ok(repo) => drop_named(alloc, repo, words, stdin, source),
        Err(fault) => Err(CliFault::Store(fault)),
    }
}

/// Does what [`drop_store`] does with the repository of a store.
pub fn drop_named<N: Namer + Drop, R: Source + Drop, A: Allocator + Copy>(
    alloc: A,
    repo: Repo<N, A>,
    words: &[&str],
    stdin: bool,
    source: R,
) -> Result<Repo<N, A>, CliFault>
    ensures namer { IfOk result (λ left. left.0 ≡ repo.0) }
    ensures dropped { DropsFrom (N.name_of repo.0) stdin repo.1 (lent_texts words.now)
        (R.coming source) (shown_left result) }
{
    if stdin {
        let lines = match lines_from(alloc, source) {
            Ok(lines) => lines,
            Err(fault) => return Err(fault),
        };
        drop_lines(alloc, repo, words, lines.as_slice())
    } else {
        drop_lines(alloc, repo, words, &[])
    }
}

/// Drops the refs whose names are these words and these lines.
fn drop_lines<'a, N: Namer + Drop, A: Allocator + Copy>(
    alloc: A,
    repo: Repo<N, A>,
    words: &[&'a str],
    lines: &'a [Vec<u8, A>],
) -> Result<Repo<N, A>, CliFault>
    ensures namer { IfOk result (λ left. left.0 ≡ repo.0) }
    ensures dropped { IsDropped (N.name_of repo.0) repo.1
        (dropped (with_lines words.now lines.now) repo.1.refs) (shown_left result) }
{
    let mut left = repo;
    match drop_names(alloc, &mut left, words, lines) {
        Ok(()) => {
            left.sound();
            Ok(left)
        }
        Err(fault) => Err(fault),
    }
}

/// Drops the refs whose names are these words and these lines.
fn drop_names<'a, N: Namer, A: Allocator + Copy>(
    alloc: A,
    repo: &mut Repo<N, A>,
    words: &[&'a str],
    lines: &'a [Vec<u8, A>],
) -> Result<(), CliFault>
    ensures { DropsAll repo.old repo.new (with_lines words.now lines.now) result }
{
    let mut names = texts_of(alloc, words)?;
    add_lines(&mut names, lines)?;
    match repo.drop_refs(names.as_slice()) {
        Ok(()) => Ok(()),
        Err(DropFault::OutOfMemory) => Err(CliFault::OutOfMemory),
        Err(DropFault::UnknownRef { number }) => Err(CliFault::Revision {
            number,
            kind: RevFault::UnknownRef,
        }),
    }
}
