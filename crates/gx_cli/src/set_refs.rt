//! Refs of a store that are set. Source: git-update-ref(1).

ghost use Rattle.std.specs.Prelude.{◌≡◌, IfOk};
ghost use Rattle.gx_model.specs.Stores.StoreReading.{store_of};
ghost use Rattle.gx_push.specs.Calls.{texts};
ghost use Rattle.gx_push.specs.Settings.{set_refs};
ghost use Rattle.gx_cli.specs.Dropping.{shown_left};
ghost use Rattle.gx_cli.specs.Setting.{IsSet, SetsFrom, SetsStored, change_line, changed_refs, has_space, is_divided};

use crate::CliFault;
use crate::lines::lines_from;
use crate::opening::open;
use gx_asks::RefChange;
use gx_object::Namer;
use gx_push::{RefFault, set_refs};
use gx_repo::Repo;
use gx_text::{Source, cut};
use std::alloc::{AllocError, Allocator};
use std::hash::RandomState;

/// Sets a ref of the store of a text or, where no change is given, the refs that the lines of the source tell: all of them, or
/// none. It answers the repository whose text is the next one, which [`send_store`](crate::send_store) sends. What is read of the
/// text shares it: no body is copied.
///
/// A change is the line `update REF NEW [OLD]` of [`gx_push::set_refs`], whose words have no space. Without `forced` a ref that is
/// set to an object moves forward.
///
/// `Store`: the text isn't read. `Ref`: the first change that is refused, by its number from 1, as `gx_push::set_refs` does.
/// `ReadFailed`: the source failed. `OutOfMemory`: a growth was refused. With each of them nothing is left to be sent.
/// Cost: that of reading the store's text, and the source, and of `gx_push::set_refs`. Memory: the store's text for as long as one
/// of its records is held, and the lines.
pub fn set_store<N: Namer + Drop, R: Source + Drop, A: Allocator + Copy>(
    alloc: A,
    namer: N,
    store: Vec<u8, A>,
    change: Option<RefChange<'_>>,
    source: R,
    forced: bool,
    state: RandomState,
) -> Result<Repo<N, A>, CliFault>
    ensures namer { IfOk result (λ left. left.0 ≡ namer) }
    ensures set { SetsStored (N.name_of namer) forced (store_of (N.name_of namer) store.items)
        change.entry (R.coming source) (shown_left result) }
{
    match open(alloc, namer, store, state) {
        Ok(repo) => set_told(alloc, repo, change, source, forced),
        Err(fault) => Err(CliFault::Store(fault)),
    }
}

/// Does what [`set_store`] does with the repository of a store.
pub fn set_told<N: Namer + Drop, R: Source + Drop, A: Allocator + Copy>(
    alloc: A,
    repo: Repo<N, A>,
    change: Option<RefChange<'_>>,
    source: R,
    forced: bool,
) -> Result<Repo<N, A>, CliFault>
    ensures namer { IfOk result (λ left. left.0 ≡ repo.0) }
    ensures set { SetsFrom (N.name_of repo.0) forced repo.1 change.entry (R.coming source)
        (shown_left result) }
{
    match change {
        Some(change) => set_one(alloc, repo, change, forced),
        None => match lines_from(alloc, source) {
            Ok(lines) => set_lines(alloc, repo, lines.as_slice(), forced),
            Err(fault) => Err(fault),
        },
    }
}

/// Makes a change, unless one of its words has a space.
fn set_one<N: Namer + Drop, A: Allocator + Copy>(
    alloc: A,
    repo: Repo<N, A>,
    change: RefChange<'_>,
    forced: bool,
) -> Result<Repo<N, A>, CliFault>
    ensures namer { IfOk result (λ left. left.0 ≡ repo.0) }
    ensures set { IsSet (N.name_of repo.0) repo.1 (changed_refs forced repo.1 change.entry)
        (shown_left result) }
{
    if is_divided(change) {
        return Err(CliFault::Ref {
            number: 1,
            kind: RefFault::BadLine,
        });
    }
    let mut lines = Vec::new(alloc);
    lines.push(line_of(alloc, change)?)?;
    set_lines(alloc, repo, lines.as_slice(), forced)
}

/// Makes the changes of these lines.
fn set_lines<N: Namer + Drop, A: Allocator + Copy>(
    alloc: A,
    repo: Repo<N, A>,
    lines: &[Vec<u8, A>],
    forced: bool,
) -> Result<Repo<N, A>, CliFault>
    ensures namer { IfOk result (λ left. left.0 ≡ repo.0) }
    ensures set { IsSet (N.name_of repo.0) repo.1 (set_refs forced repo.1 (texts lines.now))
        (shown_left result) }
{
    match set_refs(alloc, repo, lines, forced) {
        Ok(left) => Ok(left),
        Err(fault) => Err(CliFault::from(fault)),
    }
}

/// Whether a word of a change has a space.
fn is_divided(change: RefChange<'_>) -> bool
    ensures { result ≡ is_divided change.entry }
{
    let has_old = match change.old {
        Some(old) => has_space(old),
        None => false,
    };
    has_space(change.name) || has_space(change.new) || has_old
}

/// Whether a word has a space.
fn has_space(word: &str) -> bool
    ensures { result ≡ has_space word.now }
{
    cut(word.as_bytes(), b' ').is_some()
}

/// The line of a change.
fn line_of<A: Allocator + Copy>(alloc: A, change: RefChange<'_>) -> Result<Vec<u8, A>, AllocError>
    ensures { IfOk result (λ line. line.items ≡ change_line change.entry) }
{
    let mut line = Vec::new(alloc);
    line.extend_from_slice(b"update ")?;
    line.extend_from_slice(change.name.as_bytes())?;
    line.push(b' ')?;
    line.extend_from_slice(change.new.as_bytes())?;
    if let Some(old) = change.old {
        line.push(b' ')?;
        line.extend_from_slice(old.as_bytes())?;
    }
    Ok(line)
}
