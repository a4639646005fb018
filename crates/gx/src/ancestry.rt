//! What is asked of the ancestors of commits, and answered yes or no.

use crate::fault::RunFault;
use crate::run::{Run, Subject};
use gx_cli::CliFault;
use gx_merge_base::{ancestry_asked, bases_asked};
use gx_object::Name;
use gx_objects::Objects;
use gx_print::read_revisions;
use gx_rev::{RevFault, Revision, WalkFault};
use std::alloc::{AllocError, Global};
use std::io::Write;

/// Prints the names of the best common ancestors of commits, one a line: each of them, or the newest put. Answers whether there is
/// one. All revisions are read, and then all are evaluated.
pub(crate) fn tell_bases<O: Objects>(
    run: &Run<'_>,
    objects: &O,
    octopus: bool,
    all: bool,
    revision: &str,
    others: &[&str],
) -> Result<bool, RunFault> {
    let alloc = run.rt.alloc();
    let revisions = revisions_of(alloc, revision, others)?;
    let bases = bases_asked(alloc, objects, octopus, revisions.as_slice())?;
    let lines = lines_of(alloc, bases.as_slice(), all)?;
    run.want_written(Subject::Output, run.rt.stdout().write_all(&lines))?;
    Ok(!lines.is_empty())
}

/// Whether the commit of a revision is that of another, or one of its ancestors.
pub(crate) fn tell_ancestry<O: Objects>(
    run: &Run<'_>,
    objects: &O,
    revision: &str,
    descendant: &str,
) -> Result<bool, RunFault> {
    let alloc = run.rt.alloc();
    let revisions = revisions_of(alloc, revision, &[descendant])?;
    let answer = ancestry_asked(alloc, objects, revisions.as_slice())?;
    Ok(answer)
}

/// A revision and others behind it. One that is none is refused by its number.
fn revisions_of(
    alloc: Global,
    revision: &str,
    others: &[&str],
) -> Result<Vec<Revision<Global>>, RunFault> {
    let words = words_of(alloc, revision, others)?;
    match read_revisions(alloc, words.as_slice()) {
        Ok(revisions) => Ok(revisions),
        Err(fault) => Err(unread(fault)),
    }
}

/// The bytes of a word and of those behind it.
fn words_of<'a>(
    alloc: Global,
    first: &'a str,
    others: &[&'a str],
) -> Result<Vec<&'a [u8]>, AllocError> {
    let mut words = Vec::new(alloc);
    words.push(first.as_bytes())?;
    for word in others {
        words.push(word.as_bytes())?;
    }
    Ok(words)
}

/// Why a word isn't read. Want of memory is of none.
fn unread(fault: WalkFault) -> RunFault {
    match fault.kind {
        RevFault::OutOfMemory => RunFault::Command(CliFault::OutOfMemory),
        kind => RunFault::Command(CliFault::Revision {
            number: fault.word as u64,
            kind,
        }),
    }
}

/// The lines of all names, or of the first.
fn lines_of(alloc: Global, names: &[Name], all: bool) -> Result<Vec<u8>, AllocError> {
    let mut lines = Vec::new(alloc);
    for name in names {
        if all || lines.is_empty() {
            lines.extend_from_slice(name.hex().as_slice())?;
            lines.push(b'\n')?;
        }
    }
    Ok(lines)
}
