//! What a refused line of a push is about. Source: git-push(1), "--force-with-lease".

ghost use Rattle.std.specs.Prelude.{◌≡◌, ◌++◌, IfOk, OnOk};
ghost use Rattle.gx_model.specs.Stores.StoreReading.{store_of};
ghost use Rattle.gx_object.specs.Parts.{bytes_if};
ghost use Rattle.gx_push.specs.Wants.{shown_want, want_in};
ghost use Rattle.gx_repo.specs.Reporting.{digits_or_zeros};
ghost use Rattle.gx_cli.specs.RefusedPush.{TellsRefused, refused_text, want_text};

use crate::CliFault;
use crate::opening::open;
use gx_object::{Name, Namer};
use gx_push::{Want, want_in};
use gx_repo::Repo;
use gx_text::put_printed;
use std::alloc::{AllocError, Allocator};
use std::hash::RandomState;

/// The line that tells what a line of a push wants of the store of a text, and what that has: the ref's name, as paths are printed,
/// and the digits of both objects, which are zeros for none. There is none for what is no line of a push.
///
/// `Store`: the text isn't read. `OutOfMemory`: a growth was refused.
/// Cost and memory: those of reading the store's text.
pub fn refused_line<N: Namer + Drop, A: Allocator + Copy>(
    alloc: A,
    namer: N,
    store: Vec<u8, A>,
    line: &[u8],
    state: RandomState,
) -> Result<Vec<u8, A>, CliFault>
    ensures { TellsRefused (store_of (N.name_of namer) store.items) line.now result }
{
    match open(alloc, namer, store, state) {
        Ok(repo) => Ok(refused_text(alloc, &repo, line)?),
        Err(fault) => Err(CliFault::Store(fault)),
    }
}

/// Does what [`refused_line`] does with the repository of a store. `AllocError`: a growth was refused.
pub fn refused_text<N: Namer, A: Allocator + Copy>(
    alloc: A,
    repo: &Repo<N, A>,
    line: &[u8],
) -> Result<Vec<u8, A>, AllocError>
    ensures { IfOk result (λ text. text.items ≡ refused_text repo.now.1.refs (want_in line.now)) }
{
    let mut text = Vec::new(alloc);
    if let Some(want) = want_in(line) {
        put_want(&mut text, repo, &want)?;
    }
    Ok(text)
}

/// Appends what is wanted of a ref, and what that is.
fn put_want<N: Namer, A: Allocator + Copy>(
    text: &mut Vec<u8, A>,
    repo: &Repo<N, A>,
    want: &Want<'_>,
) -> Result<(), AllocError>
    ensures { OnOk result (text.new.items ≡ text.old.items
        ++ want_text repo.now.1.refs (shown_want want.now)) }
{
    let (_, held) = repo.ref_near(0, want.name);
    text.extend_from_slice(b"gx: ")?;
    put_printed(text, want.name)?;
    text.extend_from_slice(b": expected ")?;
    put_digits(text, want.old)?;
    text.extend_from_slice(b", found ")?;
    put_digits(text, held)?;
    text.push(b'\n')?;
    Ok(())
}

/// Appends an object's digits, or zeros for none.
fn put_digits<A: Allocator + Copy>(
    text: &mut Vec<u8, A>,
    object: Option<Name>,
) -> Result<(), AllocError>
    ensures { OnOk result (text.new.items ≡ text.old.items ++ digits_or_zeros (bytes_if object)) }
{
    match object {
        Some(name) => text.extend_from_slice(name.hex().as_slice()),
        None => text.extend_from_slice(&[b'0'; 40]),
    }
}
