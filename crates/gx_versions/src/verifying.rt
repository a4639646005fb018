//! What a store holds, in numbers. Source: this project's own.

ghost use Rattle.gx_file.specs.Sending.{Sent};
ghost use Rattle.gx_versions.specs.Versions.{counts_text};
ghost use Rattle.gx_versions.specs.Verifying.{Verifies};
ghost use Rattle.gx_versions.specs.declared.verifying.VerifyFault.TheVariants.{Store};

use crate::forms::version_of;
use crate::opening::open_store;
use gx_file::send_count;
use gx_growing::GrowingFault;
use gx_object::Namer;
use gx_repo::Repo;
use gx_text::{Failed, Sink};
use std::alloc::Allocator;
use std::hash::RandomState;

/// Why it isn't told what a store holds.
#[derive(Clone, Copy, Debug, PartialEq, Eq)]
pub enum VerifyFault {
    /// Why the text isn't read.
    Store(GrowingFault),
    /// The sink failed.
    WriteFailed,
}

/// Reads a store's text of any version as a whole, and sends the version, how many objects and refs it has, and how many bytes,
/// each in a line of a word and a number.
///
/// `Store`: the first fault of the text, as [`open_store`] has it; nothing went out. `WriteFailed`: what the sink took is a
/// front of the lines. Cost and memory: those of [`open_store`].
pub fn verify_store<N: Namer + Drop, A: Allocator + Copy, W: Sink>(
    alloc: A,
    namer: N,
    store: Vec<u8, A>,
    state: RandomState,
    sink: &mut W,
) -> Result<(), VerifyFault>
    ensures { Verifies (N.name_of namer) store.items (W.taken sink.old) (W.taken sink.new) result }
{
    let text = store.as_slice();
    let (version, bytes) = (version_of(text), text.len());
    match open_store(alloc, namer, store, state) {
        Ok(repo) => match send_counts(&repo, version, bytes, sink) {
            Ok(()) => Ok(()),
            Err(_) => Err(VerifyFault::WriteFailed),
        },
        Err(fault) => Err(VerifyFault::Store(fault)),
    }
}

/// Sends what a repository holds, in numbers.
fn send_counts<N: Namer, A: Allocator + Copy, W: Sink>(
    repo: &Repo<N, A>,
    version: usize,
    bytes: usize,
    sink: &mut W,
) -> Result<(), Failed>
    ensures { Sent (counts_text version bytes repo.now.1) (W.taken sink.old)
        (W.taken sink.new) result }
{
    send_count(sink, b"version", version)?;
    send_count(sink, b"objects", repo.store().len())?;
    send_count(sink, b"refs", repo.refs().count())?;
    send_count(sink, b"bytes", bytes)
}
