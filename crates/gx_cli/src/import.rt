//! The import of a stream into a store. Source: git-fast-import(1).

ghost use Rattle.std.specs.Option.{option_map};
ghost use Rattle.std.specs.Prelude.{◌≡◌, IfSome, None, Ok};
ghost use Rattle.gx_model.specs.Stores.StoreReading.{store_of};
ghost use Rattle.gx_cli.specs.Explained.{ExplainsCommand, ExplainsStored};
ghost use Rattle.gx_cli.specs.Retold.{RetellsOpened, RetellsStored};
ghost use Rattle.gx_cli.specs.Serving.{EndsImported, ImportsText, ImportsTextAgain};
ghost use Rattle.gx_cli.specs.Storing.{ImportsAgain, ImportsOpened, ImportsStored, answer_of, next_after};

use crate::CliFault;
use crate::forms::forms_are_imported;
use crate::next_text::with_text;
use crate::opening::open;
use crate::serving::{Outcome, outcome_of};
use gx_import::{Explanation, Report, import_explained};
use gx_model::Features;
use gx_object::Namer;
use gx_repo::Repo;
use gx_text::{Sink, Source};
use std::alloc::Allocator;
use std::hash::RandomState;

/// Imports a stream into the store of a text, where these features are asked for as if the stream began with them. It answers the
/// repository whose text is the store's next one, where there is one: [`send_store`](crate::send_store) sends it. Lines of
/// `progress` go out as they come.
///
/// The store's text is read first, and what is read of it shares it: no body is copied. After a refused import the next text is
/// that of the last checkpoint; where there was none, there is none. What a refused import is about is told, as
/// `gx_import::import_explained` does; where the store isn't read, nothing is told. What was told before is forgotten.
/// Cost: that of reading the store's text, and of the import. Memory: the store's text for as long as one of its records is held,
/// and what the import takes.
pub fn import_store<N: Namer + Drop, R: Source + Drop, W: Sink, A: Allocator + Copy>(
    alloc: A,
    namer: N,
    store: Vec<u8, A>,
    source: R,
    sink: &mut W,
    features: Features,
    state: RandomState,
    told: &mut Explanation<A>,
) -> (Option<Repo<N, A>>, Result<Report, CliFault>)
    ensures namer { IfSome result.0 (λ repo. repo.0 ≡ namer) }
    ensures imported { ImportsStored (N.name_of namer) features
        (store_of (N.name_of namer) store.items) (R.coming source)
        (W.taken sink.old) (W.taken sink.new) (answer_of result) }
    ensures explained { ExplainsStored (N.name_of namer) features
        (store_of (N.name_of namer) store.items) (R.coming source)
        result.1 told.new }
    ensures retold { R.coming source ≡ None
        → RetellsStored (N.name_of namer) features (store_of (N.name_of namer) store.items)
        (W.taken sink.old) (W.taken sink.new) (answer_of result) told.new }
    ensures again { ImportsAgain (N.name_of namer) features (store_of (N.name_of namer) store.items)
        (R.coming source)
        (answer_of result) }
{
    match open(alloc, namer, store, state) {
        Ok(repo) => import_opened(alloc, repo, source, sink, features, told),
        Err(fault) => {
            *told = Explanation::none();
            (None, Err(CliFault::Store(fault)))
        }
    }
}

/// Does what [`import_store`] does with the repository of a store.
pub fn import_opened<N: Namer + Drop, R: Source + Drop, W: Sink, A: Allocator + Copy>(
    alloc: A,
    repo: Repo<N, A>,
    source: R,
    sink: &mut W,
    features: Features,
    told: &mut Explanation<A>,
) -> (Option<Repo<N, A>>, Result<Report, CliFault>)
    ensures namer { IfSome result.0 (λ next. next.0 ≡ repo.0) }
    ensures imported { ImportsOpened (N.name_of repo.0) features repo.1 (R.coming source)
        (W.taken sink.old) (W.taken sink.new) (answer_of result) }
    ensures explained { ExplainsCommand (N.name_of repo.0) features repo.1
        (R.coming source) result.1 told.new }
    ensures retold { R.coming source ≡ None → RetellsOpened (N.name_of repo.0) features repo.1
        (W.taken sink.old) (W.taken sink.new) (answer_of result) told.new }
    ensures again { ImportsAgain (N.name_of repo.0) features (Ok repo.1)
        (R.coming source) (answer_of result) }
{
    forms_are_imported();
    let mut next = repo;
    match import_explained(alloc, &mut next, source, sink, features, told) {
        Ok(report) => (Some(next), Ok(report)),
        Err(fault) => (left(next, fault.checkpoints), Err(CliFault::Import(fault))),
    }
}

/// What the next text is of after a refused import, where there was a checkpoint.
fn left<N: Namer + Drop, A: Allocator + Copy>(
    repo: Repo<N, A>,
    checkpoints: u64,
) -> Option<Repo<N, A>>
    ensures { result ≡ next_after checkpoints repo }
{
    if checkpoints == 0 { None } else { Some(repo) }
}

/// Does what [`import_store`] does, and ends with the next text.
pub(crate) fn import_text<N: Namer + Drop, R: Source + Drop, W: Sink, A: Allocator + Copy>(
    alloc: A,
    namer: N,
    store: Vec<u8, A>,
    source: R,
    sink: &mut W,
    features: Features,
    state: RandomState,
) -> Outcome<A>
    ensures imported { ImportsText (N.name_of namer) features store.items (R.coming source)
        (W.taken sink.old) (W.taken sink.new) result }
    ensures again { ImportsTextAgain (N.name_of namer) features store.items
        (R.coming source) result }
{
    let mut told = Explanation::none();
    let told = &mut told;
    let (next, answer) = import_store(alloc, namer, store, source, sink, features, state, told);
    ended(alloc, next, answer)
}

/// How a command ends with what an import answers.
fn ended<N: Namer + Drop, A: Allocator + Copy>(
    alloc: A,
    next: Option<Repo<N, A>>,
    answer: Result<Report, CliFault>,
) -> Outcome<A>
    ensures { (namer : N) → IfSome next (λ repo. repo.0 ≡ namer)
        → EndsImported (N.name_of namer) (option_map (λ repo. repo.1) next) answer result }
{
    match next {
        Some(repo) => match answer {
            Ok(_) => with_text(alloc, &repo, 0, None),
            Err(fault) => with_text(alloc, &repo, 1, Some(fault)),
        },
        None => outcome_of(answer),
    }
}
