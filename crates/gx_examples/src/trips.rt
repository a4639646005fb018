//! The trip of a stream: its import into an empty store, the export of that, and the export's import.

use crate::steps::halves;
use gx_cli::{
    CliFault, Explanation, ExportForm, Features, Question, RoundTrip, RoundTripOptions, round_trip,
};
use gx_model::gitlink_laws::replays_keep_none;
use gx_object::Sha1Namer;
use gx_repo::Repo;
use gx_rev::{Range, Revision};
use gx_text::{Bytes, Held, TreePath};
use std::alloc::Allocator;
use std::hash::RandomState;

/// What a stream made of an empty store, and its trip, or why there is none.
#[derive(Drop)]
pub(crate) struct Made<A: Allocator> {
    pub(crate) first: Repo<Sha1Namer, A>,
    pub(crate) trip: Result<RoundTrip<Sha1Namer, A>, CliFault>,
}

/// A stream that is imported into an empty store, exported, and imported again, and what is asked between: a revision and a path
/// behind it, and the commits of the revision. There is none where there is no memory for these words.
pub(crate) fn tripped<A: Allocator + Copy>(
    alloc: A,
    stream: &[u8],
    words: &str,
    form: ExportForm,
    sink: &mut Held<A>,
    state: RandomState,
) -> Option<Made<A>> {
    let (word, path) = halves(words, ' ');
    let revision = Revision::read(alloc, word.as_bytes()).ok()?;
    let path = TreePath::read(alloc, path.as_bytes()).ok()?;
    let ranges = range_alone(alloc, word)?;
    let question = Question {
        revision,
        path,
        ranges,
    };
    Some(asked(alloc, stream, Some(question), form, sink, state))
}

/// A range word alone.
fn range_alone<A: Allocator + Copy>(alloc: A, word: &str) -> Option<Vec<Range<A>, A>> {
    match Range::read(alloc, word.as_bytes()) {
        Ok(range) => alone(alloc, range),
        Err(_) => None,
    }
}

/// A list of one.
fn alone<A: Allocator + Copy>(alloc: A, range: Range<A>) -> Option<Vec<Range<A>, A>> {
    let mut ranges = Vec::new(alloc);
    match ranges.push(range) {
        Ok(()) => Some(ranges),
        Err(_) => None,
    }
}

/// The same of a question, or of none.
pub(crate) fn asked<A: Allocator + Copy>(
    alloc: A,
    stream: &[u8],
    question: Option<Question<A>>,
    form: ExportForm,
    sink: &mut Held<A>,
    state: RandomState,
) -> Made<A> {
    replays_keep_none();
    let mut first = Repo::new(alloc, Sha1Namer, state);
    let mut told = Explanation::none();
    let options = RoundTripOptions {
        features: Features::none(),
        question,
        form,
    };
    let trip = round_trip(
        alloc,
        &mut first,
        Sha1Namer,
        Bytes::new(stream, 4096, false),
        sink,
        &options,
        state,
        &mut told,
    );
    Made { first, trip }
}

/// Whether two repositories have the same refs.
pub(crate) fn have_same_refs<A: Allocator + Copy>(
    one: &Repo<Sha1Namer, A>,
    other: &Repo<Sha1Namer, A>,
) -> bool {
    for (own, others) in one.refs().zip(other.refs()) {
        if own != others {
            return false;
        }
    }
    one.refs().count() == other.refs().count()
}
