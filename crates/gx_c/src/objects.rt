//! The import of a text of refs and objects. Source: git-cat-file(1), "BATCH OUTPUT", and git-for-each-ref(1).

ghost use Rattle.std.specs.Prelude.{◌≡◌, ◌-◌, IfOk, Some, [], false, length};
ghost use Rattle.gx_taken.specs.Calls.{TakesText};
ghost use Rattle.gx_c.specs.Called.{git_name};
ghost use Rattle.gx_c.specs.Objects.{TellsRefusal};
ghost use Rattle.gx_c.specs.declared.answer.Why.TheVariants as why;

use crate::answer::{Answer, Why};
use crate::importing::PIECE;
use gx_model::store_laws::stores_are_read;
use gx_object::Sha1Namer;
use gx_repo::Repo;
use gx_rev::RevFault;
use gx_taken::{TakeFault, take_text};
use gx_text::{Bytes, Growing};
use gx_versions::{StoreForm, open_store, send_store};
use std::alloc::{AllocError, Allocator};
use std::hash::RandomState;

/// What a repository becomes by a text of refs and objects, as `git for-each-ref` and `git cat-file --batch` print them; it
/// stays as it is itself.
///
/// The faults are those of `gx_taken::take_text`. Cost: that of a copy of the whole repository, whose objects are named
/// anew, and that of `gx_taken::take_text`.
pub(crate) fn with_objects<A: Allocator + Copy>(
    alloc: A,
    repo: &Repo<Sha1Namer, A>,
    state: RandomState,
    text: &[u8],
    force: bool,
) -> Result<Repo<Sha1Namer, A>, TakeFault<A>>
    ensures { TakesText git_name force repo.now.1
        (Some (record { bytes = text.now; fails = false })) result }
{
    let copy = copied(alloc, repo, state)?;
    take_text(
        alloc,
        &Sha1Namer,
        copy,
        Bytes::new(text, PIECE, false),
        force,
    )
}

/// A copy of a repository, by its store text. Each object is named anew.
fn copied<A: Allocator + Copy>(
    alloc: A,
    repo: &Repo<Sha1Namer, A>,
    state: RandomState,
) -> Result<Repo<Sha1Namer, A>, AllocError>
    ensures { IfOk result (λ copy. copy.1 ≡ repo.now.1) }
{
    repo.sound();
    stores_are_read();
    let mut text = Growing::new(alloc);
    if send_store(alloc, repo, StoreForm::Plain, &mut text).is_err() {
        return Err(AllocError);
    }
    match open_store(alloc, Sha1Namer, text.into_bytes(), state) {
        Ok(copy) => Ok(copy),
        Err(_) => Err(AllocError),
    }
}

/// The answer of a text that was taken into a repository: how many objects are new.
pub(crate) fn taken_into<A: Allocator + Copy>(
    alloc: A,
    old: &Repo<Sha1Namer, A>,
    new: &Repo<Sha1Namer, A>,
) -> Answer<A>
    ensures why { result.why ≡ why.Done }
    ensures bytes { result.bytes.items ≡ [] }
    ensures number { result.number ≡ 0 }
    ensures count { result.count ≡ length new.now.1.records - length old.now.1.records }
{
    Answer {
        why: Why::Done,
        bytes: Vec::new(alloc),
        number: 0,
        count: new.store().len().saturating_sub(old.store().len()) as u64,
    }
}

/// The refusal of a text: the word of what is against an item, with its number. Takes no memory.
pub(crate) fn refusal<A: Allocator + Copy>(alloc: A, fault: &TakeFault<A>) -> Answer<A>
    ensures { TellsRefusal fault.now result }
{
    match fault {
        TakeFault::OutOfMemory => Answer::refused(alloc, Why::Revision(RevFault::OutOfMemory), 0),
        TakeFault::ReadFailed => Answer::refused(alloc, Why::Item("ReadFailed"), 0),
        TakeFault::Item { number, kind } => {
            Answer::refused(alloc, Why::Item(kind.word()), *number as u64)
        }
    }
}
