//! The import of a stream into a repository. Source: git-fast-import(1).

ghost use Rattle.std.specs.Prelude.{◌≡◌};
ghost use Rattle.gx_model.specs.Records.Sound.{IsSound};
ghost use Rattle.gx_c.specs.Importing.{AnswersImport, features_of, told_fault};

use crate::answer::{Answer, Why};
use gx_import::import_asking;
use gx_model::{Fault, Features};
use gx_object::Namer;
use gx_repo::Repo;
use gx_text::{Bytes, Growing};
use std::alloc::Allocator;

/// So many bytes of a stream are given at once.
pub(crate) const PIECE: usize = 0x1_0000;

/// Imports a stream, which with `done` has to end with the command `done`, and which with `force` may take commits from
/// a branch.
///
/// It answers the lines of `progress`, and how many commands there were and how many objects are new. Refused, it
/// answers the fault with the number of its command, and how many checkpoints were before it: the repository is as it
/// was right after the last one. Cost: that of `gx_import::import_asking`.
pub(crate) fn import<N: Namer, A: Allocator + Copy>(
    alloc: A,
    repo: &mut Repo<N, A>,
    stream: &[u8],
    done: bool,
    force: bool,
) -> Answer<A>
    ensures namer { repo.new.0 ≡ repo.old.0 }
    ensures imported { AnswersImport N.name_of (features_of done force) repo.old
        repo.new stream.now result }
    ensures sound { IsSound (N.name_of repo.old.0) repo.new.1 }
{
    let mut lines = Growing::new(alloc);
    let source = Bytes::new(stream, PIECE, false);
    let answer = import_asking(alloc, repo, source, &mut lines, Features { done, force });
    match answer {
        Ok(report) => Answer {
            why: Why::Done,
            bytes: lines.into_bytes(),
            number: report.commands,
            count: report.objects,
        },
        Err(fault) => Answer {
            why: Why::Import(told_fault(fault.kind)),
            bytes: lines.into_bytes(),
            number: fault.command,
            count: fault.checkpoints,
        },
    }
}

/// The fault of an import whose sink is in memory: that one fails for want of it.
fn told_fault(fault: Fault) -> Fault
    ensures { result ≡ told_fault fault }
{
    match fault {
        Fault::WriteFailed => Fault::OutOfMemory,
        _ => fault,
    }
}
