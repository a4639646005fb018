//! Many questions to one store, a line each. Source: git-cat-file(1), "BATCH OUTPUT".

ghost use Rattle.std.specs.Prelude.{◌≡◌, Result};
ghost use Rattle.std.specs.Result.{result_map_both};
ghost use Rattle.gx_model.specs.Stores.StoreReading.{store_of};
ghost use Rattle.gx_batch.specs.Batches.{Answers};
ghost use Rattle.gx_batch.specs.declared.fault.BatchFault.{BatchFault};
ghost use Rattle.gx_cli.specs.Gathering.{of_batch};
ghost use Rattle.gx_cli.specs.Serving.{AnswersBatch, AnswersLines, EndsAnswered, EndsOpened, ReadsParts, ending_of, format_parts};

use crate::commands::Commands;
use crate::opening::open;
use crate::serving::{Outcome, outcome_of, refused};
use crate::{BatchForm, CliFault};
use gx_batch::{Answerer, Format, LineEnding, Revisions, answer_lines};
use gx_object::Namer;
use gx_repo::Repo;
use gx_text::{Sink, Source};
use std::alloc::Allocator;
use std::hash::RandomState;

/// Answers each line of a source over the store of these bytes. The format is read first, and then the store.
///
/// `BadFormat`: the format isn't one. Cost: that of reading the store's bytes, and that of `gx_batch::answer_lines`.
pub(crate) fn batch_stored<N: Namer + Drop, R: Source + Drop, W: Sink, A: Allocator + Copy>(
    alloc: A,
    namer: N,
    form: BatchForm,
    format: Option<&str>,
    nul: bool,
    store: Vec<u8, A>,
    source: R,
    sink: &mut W,
    state: RandomState,
) -> Outcome<A>
    ensures { AnswersLines (N.name_of namer) form (format_parts format.entry) (ending_of nul)
        store.items (R.coming source)
        (W.taken sink.old) (W.taken sink.new) result }
{
    match read_format(alloc, format) {
        Ok(format) => batch_formatted(
            alloc,
            namer,
            form,
            &format,
            ending_of(nul),
            store,
            source,
            sink,
            state,
        ),
        Err(fault) => refused(fault),
    }
}

/// The format of a text, or the usual one.
///
/// `BadFormat`: the text is none. `OutOfMemory`: a growth was refused.
pub fn read_format<A: Allocator + Copy>(alloc: A, text: Option<&str>) -> Result<Format<A>, CliFault>
    ensures { ReadsParts (format_parts text.entry) result }
{
    match text {
        Some(text) => match Format::read(alloc, text.as_bytes()) {
            Ok(format) => Ok(format),
            Err(fault) => Err(CliFault::from(fault)),
        },
        None => match Format::usual(alloc) {
            Ok(format) => Ok(format),
            Err(_) => Err(CliFault::OutOfMemory),
        },
    }
}

/// How lines end, with NUL or with LF.
pub fn ending_of(nul: bool) -> LineEnding
    ensures { result ≡ ending_of nul }
{
    if nul { LineEnding::Nul } else { LineEnding::Lf }
}

/// Answers each line of a source in a format, over the store of these bytes, which are read first.
fn batch_formatted<N: Namer + Drop, R: Source + Drop, W: Sink, A: Allocator + Copy>(
    alloc: A,
    namer: N,
    form: BatchForm,
    format: &Format<A>,
    ending: LineEnding,
    store: Vec<u8, A>,
    source: R,
    sink: &mut W,
    state: RandomState,
) -> Outcome<A>
    ensures { EndsOpened (store_of (N.name_of namer) store.items)
        (λ r. EndsAnswered (AnswersBatch (N.name_of namer) form format.now.parts.items ending r
        (R.coming source)
        (W.taken sink.old) (W.taken sink.new)) result)
        (W.taken sink.old) (W.taken sink.new) result }
{
    match open(alloc, namer, store, state) {
        Ok(repo) => outcome_of(batch_opened(alloc, &repo, form, format, ending, source, sink)),
        Err(fault) => refused(CliFault::Store(fault)),
    }
}

/// Answers each line of a source over the repository of a store, in a format.
///
/// `ReadFailed`, `WriteFailed`, `OutOfMemory`: the answers end there. Cost: that of `gx_batch::answer_lines`.
pub fn batch_opened<N: Namer, R: Source + Drop, W: Sink, A: Allocator + Copy>(
    alloc: A,
    repo: &Repo<N, A>,
    form: BatchForm,
    format: &Format<A>,
    ending: LineEnding,
    source: R,
    sink: &mut W,
) -> Result<(), CliFault>
    ensures { AnswersBatch (N.name_of repo.now.0) form format.now.parts.items ending repo.now.1
        (R.coming source)
        (W.taken sink.old) (W.taken sink.new) result }
{
    match form {
        BatchForm::Bytes => {
            let revisions = Revisions {
                alloc,
                repo,
                check: false,
                format,
            };
            answer_all(alloc, &revisions, ending, source, sink)
        }
        BatchForm::Check => {
            let revisions = Revisions {
                alloc,
                repo,
                check: true,
                format,
            };
            answer_all(alloc, &revisions, ending, source, sink)
        }
        BatchForm::Commands => {
            let commands = Commands {
                alloc,
                repo,
                format,
            };
            answer_all(alloc, &commands, ending, source, sink)
        }
    }
}

/// Answers each line of a source, with a fault among those of the commands.
fn answer_all<B: Answerer<A>, R: Source + Drop, W: Sink, A: Allocator + Copy>(
    alloc: A,
    answerer: &B,
    ending: LineEnding,
    source: R,
    sink: &mut W,
) -> Result<(), CliFault>
    ensures { (answer : Result (Unit {0}) BatchFault)
        × Answers (B.answer_to answerer.now) ending (R.coming source)
        (W.taken sink.old) (W.taken sink.new) answer
        × (result ≡ result_map_both (λ done. done) of_batch answer) }
{
    match answer_lines(alloc, answerer, ending, source, sink) {
        Ok(()) => Ok(()),
        Err(fault) => Err(CliFault::from(fault)),
    }
}
