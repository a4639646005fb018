//! What a command does with the store's bytes, its input and its output.

ghost use Rattle.std.specs.Prelude.{◌≡◌, [], Option, Result, IsSome, None, Some, ℕ};
ghost use Rattle.std.specs.Result.{result_map_both};
ghost use Rattle.gx_blobs.specs.Naming.{NamesBlobs};
ghost use Rattle.gx_blobs.specs.declared.blob_names.BlobsFault.{BlobsFault};
ghost use Rattle.gx_model.specs.Texts.Sinks.{Taken};
ghost use Rattle.gx_text.specs.Devices.{Coming};
ghost use Rattle.gx_cli.specs.Serving.{IsOutcome, IsRefused, Serves, ServesChange, ServesExported, ServesStream, features_of, room_of_change, room_of_question, without_room};
ghost use Rattle.gx_cli.specs.declared.fault.CliFault.TheVariants.{Blobs};

use crate::adapt::{adapt_ended, adapt_stream};
use crate::next_text::init;
use crate::stored::{serve_change, serve_question};
use crate::where_place::print_place;
use crate::{CliFault, Line, blobs, check_stream, find_fault, try_revision};
use gx_asks::{Change, Question, Trial};
use gx_file::FileFault;
use gx_import::Explanation;
use gx_model::Features;
use gx_object::Namer;
use gx_text::{Sink, Source};
use std::alloc::Allocator;
use std::hash::RandomState;

/// How a command ended: the exit status, 0 or 1, or 3 of `adapt` where lines are lost; why it was refused; and the next text of the store, where there is one.
#[derive(Drop)]
pub struct Outcome<A: Allocator> {
    pub status: u8,
    pub fault: Option<CliFault>,
    pub store: Option<Vec<u8, A>>,
}

/// Runs a command. What it prints goes to the sink.
///
/// `blobs` reads the source as [`blobs`] does, `adapt` as [`adapt_stream`] does, and `try` as [`try_revision`] does: the source
/// is read before the revision. `check` does what [`check_stream`] does. `where` reads it whole, and tells where a command begins, or
/// what [`find_fault`] finds. These, and `init`, have no use for the store's bytes. An import with `--push`, which
/// [`push_store`](crate::push_store) does, `gc` with
/// `--keep`, which [`collect_store_keeping`](crate::collect_store_keeping) does, and `put` read a file that isn't here, and are
/// refused by `ReadFailed`; so are `init --growing`, `grow` and `verify`, since no text of version 3 is read or made here. The
/// other commands read the store's text first, then all words, and then evaluate each in its order; but `batch` reads its
/// format before. `import` and `batch` read their source then, and so do `drop` and `log` before the words, where its lines are words, and `set-ref`, where they are its changes. Only `init`, `import`, `drop`,
/// `set-ref` and `gc` answer a next store text: where they are accepted, and `import` also where it is refused after a
/// checkpoint. What `import` and `gc` report is told by [`import_store_reporting`](crate::import_store_reporting) and
/// [`collect_store`](crate::collect_store).
///
/// Importing what was exported, in any form, makes the repository again, as far as its refs reach: the same refs and object names.
///
/// `bundle`, `diff` and `merge-base` are refused by `ReadFailed`, too: they are asked of whatever holds objects. So is an import
/// with `--objects`, whose text is no stream.
///
/// Cost: that of a copy of the store's text, and of reading it, where one is read; for `import` also that of the import
/// and the next text, and for `export` that of the export.
pub fn serve<N: Namer + Drop, R: Source + Drop, W: Sink, A: Allocator + Copy>(
    alloc: A,
    namer: N,
    line: &Line<'_>,
    store: &[u8],
    source: R,
    sink: &mut W,
    state: RandomState,
) -> Outcome<A>
    ensures served { Serves (N.name_of namer) line.now store.now (R.coming source)
        (W.taken sink.old) (W.taken sink.new) result }
    ensures again { ServesExported (N.name_of namer) line.now store.now (R.coming source) result }
{
    match without_room(line) {
        Some(fault) => serve_copy(alloc, namer, line, store, fault, source, sink, state),
        None => serve_alone(alloc, namer, line, source, sink, state),
    }
}

/// Does what [`serve`] does, with a store's text that it is given: what is read of it shares it, and no body is copied.
///
/// The text is let go with the command, however that ends. Where there is no next text, the store's own stays as it was.
///
/// Cost: that of `serve`, but for the copy. Memory: the text, for as long as it is read.
pub fn serve_owned<N: Namer + Drop, R: Source + Drop, W: Sink, A: Allocator + Copy>(
    alloc: A,
    namer: N,
    line: &Line<'_>,
    store: Vec<u8, A>,
    source: R,
    sink: &mut W,
    state: RandomState,
) -> Outcome<A>
    ensures served { Serves (N.name_of namer) line.now store.items (R.coming source)
        (W.taken sink.old) (W.taken sink.new) result }
    ensures again { ServesExported (N.name_of namer) line.now store.items (R.coming source) result }
{
    match without_room(line) {
        Some(_) => serve_text(alloc, namer, line, store, source, sink, state),
        None => serve_alone(alloc, namer, line, source, sink, state),
    }
}

/// Does what [`serve`] does with a command that has no use for a store's text.
fn serve_alone<N: Namer + Drop, R: Source + Drop, W: Sink, A: Allocator + Copy>(
    alloc: A,
    namer: N,
    line: &Line<'_>,
    source: R,
    sink: &mut W,
    state: RandomState,
) -> Outcome<A>
    requires { without_room line.now ≡ None }
    ensures { Serves (N.name_of namer) line.now [] (R.coming source)
        (W.taken sink.old) (W.taken sink.new) result }
{
    match line {
        Line::Stream(trial) => serve_stream(alloc, namer, trial, source, sink, state),
        Line::Change {
            file: _,
            wait: _,
            change,
        } => change_alone(alloc, namer, change, state),
        _ => refused(CliFault::ReadFailed),
    }
}

/// Does what [`serve`] does with a stream that is tried.
fn serve_stream<N: Namer + Drop, R: Source + Drop, W: Sink, A: Allocator + Copy>(
    alloc: A,
    namer: N,
    trial: &Trial<'_>,
    source: R,
    sink: &mut W,
    state: RandomState,
) -> Outcome<A>
    ensures { ServesStream (N.name_of namer) trial.now (R.coming source)
        (W.taken sink.old) (W.taken sink.new) result }
{
    let mut told = Explanation::none();
    let told = &mut told;
    match trial {
        Trial::Blobs => outcome_of(blobs_alone(alloc, namer, source, sink, state)),
        Trial::Try {
            revision,
            done,
            force,
            explain: _,
        } => {
            let features = features_of(*done, *force);
            let word = revision.as_bytes();
            outcome_of(try_revision(alloc, namer, word, source, sink, features, state, told))
        }
        Trial::Check {
            done,
            force,
            explain: _,
        } => {
            let features = features_of(*done, *force);
            outcome_of(check_stream(alloc, namer, source, sink, features, state, told))
        }
        Trial::WhereFault { done, force } => {
            let features = features_of(*done, *force);
            outcome_of(find_fault(alloc, namer, source, features, state, told))
        }
        Trial::Adapt { drop_signatures } => {
            adapt_ended(adapt_stream(alloc, source, sink, *drop_signatures))
        }
        Trial::Where(command) => outcome_of(print_place(alloc, *command, source, sink)),
    }
}

/// Does what [`serve`] does with a change that has no use for a store's text.
fn change_alone<N: Namer + Drop, A: Allocator + Copy>(
    alloc: A,
    namer: N,
    change: &Change<'_>,
    state: RandomState,
) -> Outcome<A>
    requires { room_of_change change.now ≡ None }
    ensures { (coming : Option Coming) (was : Option Taken)
        → ServesChange (N.name_of namer) change.now [] coming was was result }
{
    match change {
        Change::Init { growing } => {
            if *growing {
                refused(CliFault::ReadFailed)
            } else {
                init(alloc, namer, state)
            }
        }
        _ => refused(CliFault::ReadFailed),
    }
}

/// Does what [`serve`] does with a command that reads a store's text.
fn serve_text<N: Namer + Drop, R: Source + Drop, W: Sink, A: Allocator + Copy>(
    alloc: A,
    namer: N,
    line: &Line<'_>,
    store: Vec<u8, A>,
    source: R,
    sink: &mut W,
    state: RandomState,
) -> Outcome<A>
    requires { IsSome (without_room line.now) }
    ensures served { Serves (N.name_of namer) line.now store.items (R.coming source)
        (W.taken sink.old) (W.taken sink.new) result }
    ensures again { ServesExported (N.name_of namer) line.now store.items (R.coming source) result }
{
    match line {
        Line::Ask { file: _, question } => {
            serve_question(alloc, namer, question, store, source, sink, state)
        }
        Line::Change {
            file: _,
            wait: _,
            change,
        } => serve_change(alloc, namer, change, store, source, sink, state),
        _ => unreachable!(),
    }
}

/// Does what [`serve`] does with a command that reads a store's text, and is refused for this where there is no memory for
/// a copy of it.
fn serve_copy<N: Namer + Drop, R: Source + Drop, W: Sink, A: Allocator + Copy>(
    alloc: A,
    namer: N,
    line: &Line<'_>,
    store: &[u8],
    fault: CliFault,
    source: R,
    sink: &mut W,
    state: RandomState,
) -> Outcome<A>
    requires room { without_room line.now ≡ Some fault }
    ensures served { Serves (N.name_of namer) line.now store.now (R.coming source)
        (W.taken sink.old) (W.taken sink.new) result }
    ensures again { ServesExported (N.name_of namer) line.now store.now (R.coming source) result }
{
    match Vec::from_slice(alloc, store) {
        Ok(copy) => serve_text(alloc, namer, line, copy, source, sink, state),
        Err(_) => refused(fault),
    }
}

/// Why a command is refused where there is no memory for its store's text; none where it has no use for one.
fn without_room(line: &Line<'_>) -> Option<CliFault>
    ensures { result ≡ without_room line.now }
{
    match line {
        Line::Ask { file: _, question } => Some(room_of_question(question)),
        Line::Change {
            file: _,
            wait: _,
            change,
        } => room_of_change(change),
        Line::Stream(_) | Line::Verify { .. } | Line::Bundle { .. } => None,
    }
}

/// Why a question is refused where there is no memory for its store's text.
fn room_of_question(question: &Question<'_>) -> CliFault
    ensures { result ≡ room_of_question question.now }
{
    match question {
        Question::Batch { .. } => CliFault::OutOfMemory,
        _ => CliFault::Store(FileFault::OutOfMemory),
    }
}

/// Why a change is refused where there is no memory for its store's text; none where it has no use for one.
fn room_of_change(change: &Change<'_>) -> Option<CliFault>
    ensures { result ≡ room_of_change change.now }
{
    match change {
        Change::Init { .. }
        | Change::Grow
        | Change::Objects { .. }
        | Change::Push { .. }
        | Change::Put { .. } => None,
        _ => Some(CliFault::Store(FileFault::OutOfMemory)),
    }
}

/// The features that a command asks for.
pub(crate) fn features_of(done: bool, force: bool) -> Features
    ensures { result ≡ features_of done force }
{
    Features { done, force }
}

/// What `blobs` answers, with its fault among those of the commands.
fn blobs_alone<N: Namer + Drop, R: Source + Drop, W: Sink, A: Allocator + Copy>(
    alloc: A,
    namer: N,
    source: R,
    sink: &mut W,
    state: RandomState,
) -> Result<u64, CliFault>
    ensures { (answer : Result ℕ BlobsFault)
        × NamesBlobs N.name_of W.taken namer (R.coming source) sink.old sink.new answer
        × (result ≡ result_map_both (λ count. count) Blobs answer) }
{
    match blobs(alloc, namer, source, sink, state) {
        Ok(count) => Ok(count),
        Err(fault) => Err(CliFault::Blobs(fault)),
    }
}

/// How a command ends that makes no store text.
pub(crate) fn outcome_of<T: Drop, A: Allocator>(answer: Result<T, CliFault>) -> Outcome<A>
    ensures { IsOutcome answer result }
{
    match answer {
        Ok(_) => Outcome {
            status: 0,
            fault: None,
            store: None,
        },
        Err(fault) => refused(fault),
    }
}

/// How a refused command ends.
pub(crate) fn refused<A: Allocator>(fault: CliFault) -> Outcome<A>
    ensures { IsRefused fault result }
{
    Outcome {
        status: 1,
        fault: Some(fault),
        store: None,
    }
}
