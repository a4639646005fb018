//! What is answered on a trip, and what a refused one leaves. The name is the one that git gives the commit.

use crate::texts::text;
use crate::trips::{Made, tripped};
use gx_cli::{CliFault, ExportForm, Reply};
use gx_object::Name;
use gx_text::Held;
use std::alloc::Global;
use std::hash::RandomState;
use std::test::Fail;

#[test]
fn question_has_the_commit_and_the_list_of_its_revision(rt: HostRuntime) -> Result<(), Fail> {
    let state = RandomState::new(&rt)?;
    let alloc = rt.alloc();
    let mut sink = Held::new(alloc, 64)?;
    let tripped = tripped(
        alloc,
        text("version"),
        "v1 test.txt",
        ExportForm::FullTree,
        &mut sink,
        state,
    );
    let is_right = match &tripped {
        Some(made) => is_answered(made),
        None => false,
    };
    assert!(rt; is_right);
    Ok(())
}

/// Whether a trip's question was answered by the only commit of the version's stream.
fn is_answered(made: &Made<Global>) -> bool {
    match &made.trip {
        Ok(trip) => match &trip.reply {
            Some(reply) => is_of_version(reply),
            None => false,
        },
        Err(_) => false,
    }
}

/// Whether a reply has the only commit of the version's stream.
fn is_of_version(reply: &Reply<Global>) -> bool {
    let has_commit = match &reply.commit {
        Ok(commit) => {
            let has_people = commit.author.as_slice() == b"A <a@x> 1 +0000".as_slice()
                && commit.committer.as_slice() == b"A <a@x> 1 +0000".as_slice();
            let is_first = commit.parents.is_empty() && commit.headers.is_empty();
            has_people && is_first && commit.message.as_slice() == b"v1".as_slice()
        }
        Err(_) => false,
    };
    let is_listed = match &reply.listed {
        Ok(names) => names.len() == 1 && is_version(&names[0]),
        Err(_) => false,
    };
    has_commit && is_listed
}

/// Whether a name is the one that git gives the version's commit.
fn is_version(name: &Name) -> bool {
    name.hex() == *b"02d6adf1689e06135d2b4b4d471f1ae489887b53"
}

/// A refused import leaves what its checkpoint published, and nothing where there was none.
#[test]
fn refused_trip_leaves_the_last_checkpoint(rt: HostRuntime) -> Result<(), Fail> {
    let state = RandomState::new(&rt)?;
    for (stream, refs) in [(CHECKPOINTED, 1), (NOT_CHECKPOINTED, 0)] {
        let mut sink = Held::new(rt.alloc(), 64)?;
        let tripped = tripped(
            rt.alloc(),
            stream,
            "main f",
            ExportForm::FullTree,
            &mut sink,
            state,
        );
        let count = match &tripped {
            Some(made) => refs_left(made),
            None => None,
        };
        assert!(rt; count == Some(refs));
    }
    Ok(())
}

/// How many refs a refused import left; none where it wasn't refused.
fn refs_left(made: &Made<Global>) -> Option<usize> {
    match &made.trip {
        Err(CliFault::Import(_)) => Some(made.first.refs().count()),
        _ => None,
    }
}

/// A stream that is refused behind a checkpoint.
const CHECKPOINTED: &[u8] = b"commit refs/heads/main
committer A <a@x> 1 +0000
data 0

checkpoint
foo
";

/// The same without one.
const NOT_CHECKPOINTED: &[u8] = b"commit refs/heads/main
committer A <a@x> 1 +0000
data 0

foo
";
