//! Questions to a store's text, which is read first, and changes of it.

ghost use Rattle.std.specs.Prelude.{◌≡◌, IsSome, Option};
ghost use Rattle.gx_model.specs.Stores.StoreReading.{store_of};
ghost use Rattle.gx_model.specs.Texts.Sinks.{Taken};
ghost use Rattle.gx_cli.specs.Serving.{ChangesExported, ChangesOpened, EndsAnswered, EndsOpened, IsAnswered, ServesChange, ServesQuestion, room_of_change};

use crate::CliFault;
use crate::archive::print_archive;
use crate::batch::batch_stored;
use crate::drop_refs::drop_named;
use crate::export::send_export;
use crate::export_range::export_words;
use crate::gc::collect;
use crate::import::import_text;
use crate::log::log_with_lines;
use crate::ls::list;
use crate::next_text::left_text;
use crate::opening::open;
use crate::refs::print_refs;
use crate::rev_parse::print_names;
use crate::serving::{Outcome, features_of, outcome_of, refused};
use crate::set_refs::set_told;
use crate::show::show;
use gx_asks::{Change, Question};
use gx_object::Namer;
use gx_print::texts_of;
use gx_repo::Repo;
use gx_text::{Sink, Source};
use std::alloc::Allocator;
use std::hash::RandomState;

/// Answers a question to the store of these bytes, which are read first.
///
/// Cost: that of reading the bytes, and of the question.
pub(crate) fn serve_question<N: Namer + Drop, R: Source + Drop, W: Sink, A: Allocator + Copy>(
    alloc: A,
    namer: N,
    question: &Question<'_>,
    store: Vec<u8, A>,
    source: R,
    sink: &mut W,
    state: RandomState,
) -> Outcome<A>
    ensures { ServesQuestion (N.name_of namer) question.now store.items (R.coming source)
        (W.taken sink.old) (W.taken sink.new) result }
{
    match question {
        Question::Batch { form, format, nul } => batch_stored(
            alloc, namer, *form, *format, *nul, store, source, sink, state,
        ),
        _ => answer_stored(alloc, namer, question, store, source, sink, state),
    }
}

/// Answers a question to the store of these bytes, which isn't a batch.
fn answer_stored<N: Namer + Drop, R: Source + Drop, W: Sink, A: Allocator + Copy>(
    alloc: A,
    namer: N,
    question: &Question<'_>,
    store: Vec<u8, A>,
    source: R,
    sink: &mut W,
    state: RandomState,
) -> Outcome<A>
    ensures { EndsOpened (store_of (N.name_of namer) store.items)
        (λ r. EndsAnswered (IsAnswered (N.name_of namer) question.now r (R.coming source)
        (W.taken sink.old) (W.taken sink.new)) result)
        (W.taken sink.old) (W.taken sink.new) result }
{
    match open(alloc, namer, store, state) {
        Ok(repo) => outcome_of(answer(alloc, &repo, question, source, sink)),
        Err(fault) => refused(CliFault::Store(fault)),
    }
}

/// Changes the store of these bytes, which are read first.
///
/// Cost: that of reading the bytes, and of the change.
pub(crate) fn serve_change<N: Namer + Drop, R: Source + Drop, W: Sink, A: Allocator + Copy>(
    alloc: A,
    namer: N,
    change: &Change<'_>,
    store: Vec<u8, A>,
    source: R,
    sink: &mut W,
    state: RandomState,
) -> Outcome<A>
    requires { IsSome (room_of_change change.now) }
    ensures served { ServesChange (N.name_of namer) change.now store.items (R.coming source)
        (W.taken sink.old) (W.taken sink.new) result }
    ensures again { ChangesExported (N.name_of namer) change.now store.items
        (R.coming source) result }
{
    match change {
        Change::Import {
            done,
            force,
            report: _,
            explain: _,
        } => {
            let features = features_of(*done, *force);
            import_text(alloc, namer, store, source, sink, features, state)
        }
        _ => change_stored(alloc, namer, change, store, source, state),
    }
}

/// Changes the store of these bytes, into which nothing is imported.
fn change_stored<N: Namer + Drop, R: Source + Drop, A: Allocator + Copy>(
    alloc: A,
    namer: N,
    change: &Change<'_>,
    store: Vec<u8, A>,
    source: R,
    state: RandomState,
) -> Outcome<A>
    ensures { (was : Option Taken) → EndsOpened (store_of (N.name_of namer) store.items)
        (λ r. ChangesOpened (N.name_of namer) change.now r (R.coming source) result × (was ≡ was))
        was was result }
{
    match open(alloc, namer, store, state) {
        Ok(repo) => change_opened(alloc, repo, change, source),
        Err(fault) => refused(CliFault::Store(fault)),
    }
}

/// Changes a repository, and makes the text of what is left of it.
fn change_opened<N: Namer + Drop, R: Source + Drop, A: Allocator + Copy>(
    alloc: A,
    repo: Repo<N, A>,
    change: &Change<'_>,
    source: R,
) -> Outcome<A>
    ensures { ChangesOpened (N.name_of repo.0) change.now repo.1 (R.coming source) result }
{
    match change {
        Change::Drop { refs, stdin } => left_text(
            alloc,
            drop_named(alloc, repo, refs.as_slice(), *stdin, source),
        ),
        Change::SetRef { change, force } => {
            left_text(alloc, set_told(alloc, repo, *change, source, *force))
        }
        Change::Gc { report: _, keep } => collect(alloc, repo, keep.is_some()),
        _ => refused(CliFault::ReadFailed),
    }
}

/// Answers a question to a repository, as [`serve`](crate::serve) does to a store's text. Of a batch, which
/// [`batch_opened`](crate::batch_opened) answers, nothing is printed. Refs that pass filters are refused here: `gx_told` answers
/// them.
///
/// Cost: that of the question.
pub fn answer<N: Namer, R: Source + Drop, W: Sink, A: Allocator + Copy>(
    alloc: A,
    repo: &Repo<N, A>,
    question: &Question<'_>,
    source: R,
    sink: &mut W,
) -> Result<(), CliFault>
    ensures { IsAnswered (N.name_of repo.now.0) question.now repo.now.1 (R.coming source)
        (W.taken sink.old) (W.taken sink.new) result }
{
    match question {
        Question::Show { revision } => show(alloc, repo, revision.as_bytes(), sink),
        Question::Ls {
            recursive,
            revision,
        } => list(alloc, repo, *recursive, revision.as_bytes(), sink),
        Question::Archive { prefix, revision } => {
            print_archive(alloc, repo, prefix.as_bytes(), revision.as_bytes(), sink)
        }
        Question::Refs => print_refs(repo, sink),
        Question::Names { revisions } => {
            let words = texts_of(alloc, revisions.as_slice())?;
            print_names(alloc, repo, words.as_slice(), sink)
        }
        Question::Log { options, ranges } => {
            log_with_lines(alloc, repo, *options, ranges.as_slice(), source, sink)
        }
        Question::Export(form) => send_export(alloc, repo, *form, sink),
        Question::ExportRange { done, ranges } => {
            let words = texts_of(alloc, ranges.as_slice())?;
            export_words(alloc, repo, *done, words.as_slice(), sink)
        }
        Question::RefsThat { .. }
        | Question::Diff { .. }
        | Question::MergeBase { .. }
        | Question::IsAncestor { .. } => Err(CliFault::ReadFailed),
        Question::Batch { .. } => Ok(()),
    }
}
