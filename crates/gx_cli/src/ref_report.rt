//! An import that tells which refs it changed. Source: git-fast-import(1), and githooks(5), "post-receive".

ghost use Rattle.std.specs.Prelude.{◌≡◌, None, Ok};
ghost use Rattle.gx_model.specs.Stores.StoreReading.{store_of};
ghost use Rattle.gx_cli.specs.Explained.{ExplainsCommand, ExplainsStored, KeepsTold};
ghost use Rattle.gx_cli.specs.Reporting.{Reports, ReportsStored};
ghost use Rattle.gx_cli.specs.Retold.{RetellsReported};

use crate::CliFault;
use crate::import::import_opened;
use crate::opening::open;
use gx_import::{Explanation, Report};
use gx_model::Features;
use gx_object::Namer;
use gx_repo::{RefList, Repo, report_changes};
use gx_text::{Sink, Source};
use std::alloc::Allocator;
use std::hash::RandomState;

/// Does what [`import_store`](crate::import_store) does. Beside the repository whose text is the store's next one, it answers
/// the lines of `gx_repo::report_changes` for the refs that this changes.
///
/// The errors are those of `import_store`. `OutOfMemory`: a growth was refused for the report; then there is no next text, and
/// nothing is told.
/// Cost: that of `import_store`, and the refs. Memory: that of it, a copy of the refs, and the lines.
pub fn import_store_reporting<N: Namer + Drop, R: Source + Drop, W: Sink, A: Allocator + Copy>(
    alloc: A,
    namer: N,
    store: Vec<u8, A>,
    source: R,
    sink: &mut W,
    features: Features,
    state: RandomState,
    told: &mut Explanation<A>,
) -> (Option<(Repo<N, A>, Vec<u8, A>)>, Result<Report, CliFault>)
    ensures explained { ExplainsStored (N.name_of namer) features
        (store_of (N.name_of namer) store.items) (R.coming source)
        result.1 told.new }
    ensures retold { R.coming source ≡ None
        → RetellsReported (N.name_of namer) features (store_of (N.name_of namer) store.items)
        (W.taken sink.old) (W.taken sink.new) result told.new }
    ensures reported { ReportsStored N.name_of namer features
        (store_of (N.name_of namer) store.items) (R.coming source)
        (W.taken sink.old) (W.taken sink.new) result }
{
    match open(alloc, namer, store, state) {
        Ok(repo) => report_opened(alloc, repo, source, sink, features, told),
        Err(fault) => {
            *told = Explanation::none();
            (None, Err(CliFault::Store(fault)))
        }
    }
}

/// Does what [`import_store_reporting`] does with the repository of a store.
pub fn report_opened<N: Namer + Drop, R: Source + Drop, W: Sink, A: Allocator + Copy>(
    alloc: A,
    repo: Repo<N, A>,
    source: R,
    sink: &mut W,
    features: Features,
    told: &mut Explanation<A>,
) -> (Option<(Repo<N, A>, Vec<u8, A>)>, Result<Report, CliFault>)
    ensures explained { ExplainsCommand (N.name_of repo.0) features repo.1
        (R.coming source) result.1 told.new }
    ensures retold { R.coming source ≡ None
        → RetellsReported (N.name_of repo.0) features (Ok repo.1)
        (W.taken sink.old) (W.taken sink.new) result told.new }
    ensures reported { ReportsStored N.name_of repo.0 features (Ok repo.1) (R.coming source)
        (W.taken sink.old) (W.taken sink.new) result }
{
    match repo.copy_refs() {
        Ok(before) => {
            let (next, answer) = import_opened(alloc, repo, source, sink, features, told);
            with_report(alloc, &before, next, answer, told)
        }
        Err(_) => {
            *told = Explanation::none();
            (None, Err(CliFault::OutOfMemory))
        }
    }
}

/// What an import answers, with the report of the refs that differ from those before it.
fn with_report<N: Namer + Drop, A: Allocator + Copy>(
    alloc: A,
    before: &RefList<A>,
    next: Option<Repo<N, A>>,
    answer: Result<Report, CliFault>,
    told: &mut Explanation<A>,
) -> (Option<(Repo<N, A>, Vec<u8, A>)>, Result<Report, CliFault>)
    ensures reported { Reports before.now (next, answer) result }
    ensures told { KeepsTold answer told.old result.1 told.new }
{
    let Some(repo) = next else {
        return (None, answer);
    };
    match report_changes(alloc, before.refs(), repo.refs()) {
        Ok(report) => (Some((repo, report)), answer),
        Err(_) => {
            *told = Explanation::none();
            (None, Err(CliFault::OutOfMemory))
        }
    }
}
