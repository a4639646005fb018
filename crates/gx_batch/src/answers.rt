//! What is answered to a line.

ghost use Rattle.std.specs.Prelude.{◌≡◌, IfOk};
ghost use Rattle.gx_model.specs.Faults.{Gives};
ghost use Rattle.gx_model.specs.Records.HistoryOf.{history_of};
ghost use Rattle.gx_rev.specs.Answers.{IsNamed, shown_by};
ghost use Rattle.gx_rev.specs.Objects.{value_at};
ghost use Rattle.gx_rev.specs.RevFaults.{fault_of};
ghost use Rattle.gx_rev.specs.Views.{borrowed};
ghost use Rattle.gx_rev.specs.declared.shown.Shown.TheVariants.{Object};
ghost use Rattle.gx_batch.specs.Answers.{asked_for, directory_of, object_text};
ghost use Rattle.gx_batch.specs.Batches.{Sent};
ghost use Rattle.gx_batch.specs.Calls.{SendsAnswer};

use crate::replies::{put, put_behind, refuse};
use crate::{BatchFault, Format};
use gx_object::{Kind, Name, Namer};
use gx_repo::Repo;
use gx_rev::{RevFault, Revision, Shown, body_of};
use gx_text::{Sink, cut};
use std::alloc::Allocator;

/// Sends what is answered to a revision: the line of its object in a format, and unless `check` is asked for the object's bytes
/// and an LF. Where it gives no object, it is answered itself, and behind it `missing`, or `ambiguous` where it abbreviates the
/// names of several. Behind the path of a directory one `/` may stand, as in `main:docs/`. The buffer is room for the text: what
/// stands in it is lost.
///
/// `WriteFailed`: the sink didn't take all of the answer. `OutOfMemory`: nothing of it went out.
/// Cost: that of `Revision::eval`, and what goes out: at once where the object has less than 64 KiB. Memory: the revision, and
/// what goes out at once. Source: git-cat-file(1), "BATCH OUTPUT", and what git 2.39 does with a `/`.
pub fn answer_revision<N: Namer, W: Sink, A: Allocator + Copy>(
    alloc: A,
    repo: &Repo<N, A>,
    check: bool,
    format: &Format<A>,
    asked: &[u8],
    buffer: &mut Vec<u8, A>,
    sink: &mut W,
) -> Result<(), BatchFault>
    ensures { SendsAnswer N.name_of W.taken repo.now check format.now.parts.items
        asked.now sink.old sink.new result }
{
    match eval_line(alloc, repo, asked) {
        Ok(Shown::Object(kind, name)) => {
            answer_object(repo, check, format, kind, &name, buffer, sink)
        }
        Ok(Shown::Submodule(_)) => refuse(asked, b"missing", buffer, sink),
        Err(RevFault::OutOfMemory) => Err(BatchFault::OutOfMemory),
        Err(RevFault::Ambiguous) => refuse(asked, b"ambiguous", buffer, sink),
        Err(_) => refuse(asked, b"missing", buffer, sink),
    }
}

/// What a line asks for: a revision, or the tree of one that has a slash behind its path.
fn eval_line<N: Namer, A: Allocator + Copy>(
    alloc: A,
    repo: &Repo<N, A>,
    asked: &[u8],
) -> Result<Shown, RevFault>
    ensures shown { Gives fault_of (shown_by repo.now.1) result
        (asked_for (N.name_of repo.now.0) (history_of repo.now.1) asked.now) }
    ensures named { IfOk result (IsNamed (N.name_of repo.now.0) repo.now.1) }
{
    let Some(front) = directory_of(asked) else {
        return Revision::eval_text(alloc, repo, asked);
    };
    match Revision::eval_text(alloc, repo, front)? {
        Shown::Object(Kind::Tree, name) => Ok(Shown::Object(Kind::Tree, name)),
        _ => Err(RevFault::WrongKind),
    }
}

/// What stands before the slash at the end of a line's path, which isn't a slash alone: the line then asks for a tree.
pub fn directory_of(asked: &[u8]) -> Option<&[u8]>
    ensures { borrowed result ≡ directory_of asked.now }
{
    let (_, path) = cut(asked, b':')?;
    if path == b"/".as_slice() {
        return None;
    }
    asked.strip_suffix(b"/")
}

/// Sends the line of a held object, and where its bytes are asked for these and an LF.
fn answer_object<N: Namer, W: Sink, A: Allocator + Copy>(
    repo: &Repo<N, A>,
    check: bool,
    format: &Format<A>,
    kind: Kind,
    name: &Name,
    buffer: &mut Vec<u8, A>,
    sink: &mut W,
) -> Result<(), BatchFault>
    requires { IsNamed (N.name_of repo.now.0) repo.now.1 (Object kind name.now) }
    ensures { Sent
        (object_text (N.name_of repo.now.0) check format.now.parts.items
        (value_at repo.now.1 name.now))
        (W.taken sink.old) (W.taken sink.new) result }
{
    let body = body_of(repo, name);
    format.make_line(name, kind, body.len(), buffer)?;
    if check {
        put(sink, buffer)
    } else {
        put_behind(body, buffer, sink)
    }
}
