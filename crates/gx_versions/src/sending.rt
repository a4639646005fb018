//! Stores' texts that go out.

ghost use Rattle.gx_growing_file.specs.Sending.{SentGrown};
ghost use Rattle.gx_versions.specs.Versions.{text_in};

use crate::forms::StoreForm;
use gx_growing_file::WriteFault;
use gx_object::Namer;
use gx_repo::Repo;
use gx_text::Sink;
use std::alloc::Allocator;

/// Sends the text of a repository in a form: of version 2, or a growing text. Each body goes out from where the repository has it.
///
/// `OutOfMemory`: a growing text's tables found no memory, and nothing went out. `Failed`: the sink failed, and what it took is a
/// front of the text. Cost and memory: those of `gx_file::write_to`, or of `gx_growing_file::write_to`.
pub fn send_store<N: Namer, A: Allocator + Copy, W: Sink>(
    alloc: A,
    repo: &Repo<N, A>,
    form: StoreForm,
    sink: &mut W,
) -> Result<(), WriteFault>
    ensures { SentGrown (text_in form repo.now.1) (W.taken sink.old) (W.taken sink.new) result }
{
    match form {
        StoreForm::Growing => gx_growing_file::write_to(alloc, repo, sink),
        StoreForm::Plain => match gx_file::write_to(repo, sink) {
            Ok(()) => Ok(()),
            Err(_) => Err(WriteFault::Failed),
        },
    }
}
