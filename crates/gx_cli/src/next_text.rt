//! The next text of a store. Source: git-init(1).

ghost use Rattle.std.specs.Prelude.{◌≡◌, IfErr, IfOk, Ok};
ghost use Rattle.gx_model.specs.Histories.{empty_repository};
ghost use Rattle.gx_model.specs.Stores.StoreReading.{store_of};
ghost use Rattle.gx_model.specs.Stores.StoreText.{store_text};
ghost use Rattle.gx_model.specs.declared.store_versions.Version.TheVariants.{Two};
ghost use Rattle.gx_cli.specs.Sending.{PrintsText};
ghost use Rattle.gx_cli.specs.Serving.{EndsWithLeft, EndsWithText, IsWritten};
ghost use Rattle.gx_cli.specs.declared.fault.CliFault.TheVariants.{WriteFailed};

use crate::CliFault;
use crate::serving::{Outcome, refused};
use gx_file::{write, write_to};
use gx_object::Namer;
use gx_repo::Repo;
use gx_text::Sink;
use std::alloc::Allocator;
use std::hash::RandomState;

/// Sends the store text of a repository, which is of version 2. Each body goes out from where the repository has it.
///
/// `WriteFailed` where the sink fails, and nothing else. What it took is a front of the text.
/// Cost: the text's length, and some pushes for each record and ref. Takes no memory.
pub fn send_store<N: Namer, A: Allocator + Copy, W: Sink>(
    repo: &Repo<N, A>,
    sink: &mut W,
) -> Result<(), CliFault>
    ensures text { PrintsText (store_text Two repo.now.1)
        (W.taken sink.old) (W.taken sink.new) result }
    ensures read { IfOk result (λ _. store_of (N.name_of repo.now.0) (store_text Two repo.now.1)
        ≡ Ok repo.now.1) }
    ensures fault { IfErr result (λ fault. fault ≡ WriteFailed) }
{
    match write_to(repo, sink) {
        Ok(()) => Ok(()),
        Err(_) => Err(CliFault::WriteFailed),
    }
}

/// Makes the text of an empty store.
pub(crate) fn init<N: Namer + Drop, A: Allocator + Copy>(
    alloc: A,
    namer: N,
    state: RandomState,
) -> Outcome<A>
    ensures { IsWritten (N.name_of namer) empty_repository result }
{
    let repo = Repo::new(alloc, namer, state);
    with_text(alloc, &repo, 0, None)
}

/// How a command ends with the text of a repository.
pub(crate) fn with_text<N: Namer, A: Allocator + Copy>(
    alloc: A,
    repo: &Repo<N, A>,
    status: u8,
    fault: Option<CliFault>,
) -> Outcome<A>
    ensures { EndsWithText (N.name_of repo.now.0) repo.now.1 status fault result }
{
    match write(alloc, repo) {
        Ok(text) => Outcome {
            status,
            fault,
            store: Some(text),
        },
        Err(_) => refused(CliFault::OutOfMemory),
    }
}

/// How a command ends that leaves this repository, whose text is the next one.
pub(crate) fn left_text<N: Namer + Drop, A: Allocator + Copy>(
    alloc: A,
    answer: Result<Repo<N, A>, CliFault>,
) -> Outcome<A>
    ensures { EndsWithLeft N.name_of answer result }
{
    match answer {
        Ok(repo) => with_text(alloc, &repo, 0, None),
        Err(fault) => refused(fault),
    }
}
