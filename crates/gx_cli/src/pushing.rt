//! The push of a stream into a store. Source: git-push(1), and git-fast-import(1).

ghost use Rattle.std.specs.Prelude.{◌≡◌, IfOk, None, Ok};
ghost use Rattle.gx_model.specs.Records.Sound.{IsSound};
ghost use Rattle.gx_model.specs.Stores.StoreReading.{store_of};
ghost use Rattle.gx_push.specs.Calls.{texts};
ghost use Rattle.gx_cli.specs.Pushing.{ExplainsPushed, PushesStored, ReportsPushed, RetellsPushed, answer_of};

use crate::CliFault;
use crate::opening::open;
use gx_import::Explanation;
use gx_object::Namer;
use gx_push::{Pushed, push};
use gx_repo::Repo;
use gx_text::{Sink, Source};
use std::alloc::Allocator;
use std::hash::RandomState;

/// Imports a stream into the store of a text as a push: each ref that changes is as a line has it, and changes as the line lets
/// it, as [`gx_push::push`] does. It answers the repository whose text is the store's next one, which
/// [`send_store`](crate::send_store) sends, with the refs that changed. Lines of `progress` go out as they come.
///
/// `Store`: the text isn't read. `Push`: a line is refused, or a ref that no line has would change. `Import`: the stream is refused.
/// `OutOfMemory`: a growth was refused. After each of these there is no next text, whatever checkpoints the stream has.
/// Cost and memory: those of reading the store's text, and of `gx_push::push`.
pub fn push_store<N: Namer + Drop, R: Source + Drop, W: Sink, A: Allocator + Copy>(
    alloc: A,
    namer: N,
    store: Vec<u8, A>,
    lines: &[Vec<u8, A>],
    source: R,
    sink: &mut W,
    done: bool,
    state: RandomState,
    told: &mut Explanation<A>,
) -> Result<Pushed<N, A>, CliFault>
    ensures namer { IfOk result (λ pushed. pushed.repo.0 ≡ namer) }
    ensures pushed { PushesStored (N.name_of namer) done (store_of (N.name_of namer) store.items)
        (texts lines.now) (R.coming source) (W.taken sink.old) (W.taken sink.new)
        (answer_of result) }
    ensures explained { ExplainsPushed (N.name_of namer) done
        (store_of (N.name_of namer) store.items)
        (R.coming source) (answer_of result) told.new }
    ensures retold { R.coming source ≡ None
        → RetellsPushed (N.name_of namer) done (store_of (N.name_of namer) store.items)
        (W.taken sink.old) (W.taken sink.new) (answer_of result) told.new }
    ensures changes { ReportsPushed (store_of (N.name_of namer) store.items) result }
    ensures sound { IfOk result (λ pushed. IsSound (N.name_of namer) pushed.repo.1) }
{
    match open(alloc, namer, store, state) {
        Ok(repo) => push_opened(alloc, repo, lines, source, sink, done, told),
        Err(fault) => {
            *told = Explanation::none();
            Err(CliFault::Store(fault))
        }
    }
}

/// Does what [`push_store`] does with the repository of a store.
pub fn push_opened<N: Namer + Drop, R: Source + Drop, W: Sink, A: Allocator + Copy>(
    alloc: A,
    repo: Repo<N, A>,
    lines: &[Vec<u8, A>],
    source: R,
    sink: &mut W,
    done: bool,
    told: &mut Explanation<A>,
) -> Result<Pushed<N, A>, CliFault>
    ensures namer { IfOk result (λ pushed. pushed.repo.0 ≡ repo.0) }
    ensures pushed { PushesStored (N.name_of repo.0) done (Ok repo.1)
        (texts lines.now) (R.coming source) (W.taken sink.old) (W.taken sink.new)
        (answer_of result) }
    ensures explained { ExplainsPushed (N.name_of repo.0) done (Ok repo.1)
        (R.coming source) (answer_of result) told.new }
    ensures retold { R.coming source ≡ None → RetellsPushed (N.name_of repo.0) done (Ok repo.1)
        (W.taken sink.old) (W.taken sink.new) (answer_of result) told.new }
    ensures changes { ReportsPushed (Ok repo.1) result }
    ensures sound { IfOk result (λ pushed. IsSound (N.name_of repo.0) pushed.repo.1) }
{
    match push(alloc, repo, lines, source, sink, done, told) {
        Ok(pushed) => Ok(pushed),
        Err(fault) => Err(CliFault::from(fault)),
    }
}
