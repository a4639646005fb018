//! Imports and pushes over small repositories: of a growing store file no more is read than what the texts of a stream ask for.

use super::appending::InPlace;
use super::before::body_bytes;
use super::changed::changed_refs;
use super::import::{Asks, Told};
use super::next_text::NextText;
use crate::fault::RunFault;
use crate::run::Run;
use crate::streams::kept::Kept;
use crate::streams::progress::{Beside, ProgressLine};
use gx_growing_import::{Imported, import_over};
use gx_growing_push::{look_at_lines, push_over};
use gx_object::Sha1Namer;
use gx_objects::{LookFault, Objects};
use gx_ref_lines::RefLines;
use gx_text::{IntoWrite, send};
use std::alloc::Global;

/// What comes of an import over a small repository.
#[derive(Drop)]
pub(super) enum Short {
    /// The store file has what is new.
    Done(Told),
    /// It isn't done so. So many bytes of progress lines went out.
    Not { sent: usize },
}

/// What an import gives a store file.
type New = Imported<Sha1Namer, Global>;

/// Imports a stream over a small repository of a growing store file, where that can be done, and appends what is new. Where these are
/// the lines of a push, no ref changes but as they have it; they are looked at before the stream is read.
pub(super) fn import_small(
    run: &Run<'_>,
    next: &NextText<'_>,
    stream: &mut Kept<'_>,
    progress: &ProgressLine<'_>,
    asks: Asks<'_>,
) -> Result<Short, RunFault> {
    let Some(opened) = next.open_in_place() else {
        return Ok(Short::Not { sent: 0 });
    };
    if let Some(lines) = asks.lines {
        if look_at_lines(run.rt.alloc(), &opened.look, lines).is_err() {
            return Ok(Short::Not { sent: 0 });
        }
    }
    stream.tell_typed(run);
    let most = opened.size();
    let Some(nameless) = stream.read_commands(run, asks.features, asks.report, most) else {
        return Ok(Short::Not { sent: 0 });
    };
    let Some(new) = new_of(run, &opened, stream, asks) else {
        return Ok(Short::Not { sent: 0 });
    };
    let mut sink = IntoWrite::new(Beside::new(progress));
    if let Err(sent) = send(&mut sink, &new.progress) {
        return Ok(Short::Not { sent });
    }
    match publish(run, next, &opened, &new, asks.report)? {
        Some(changes) => Ok(Short::Done(Told {
            changes,
            answer: Ok(new.report),
            nameless,
        })),
        None => Ok(Short::Not {
            sent: new.progress.len(),
        }),
    }
}

/// What a stream gives a store file, where that is told by a small repository. What outweighs the file isn't: a whole text takes its
/// place then.
fn new_of(run: &Run<'_>, opened: &InPlace<'_>, stream: &Kept<'_>, asks: Asks<'_>) -> Option<New> {
    let front = stream.front();
    if opened.is_outweighed_by(front.len() as u64) {
        return None;
    }
    let new = imported(run, opened, front, asks)?;
    let bytes = body_bytes(&new.objects, 0);
    (!opened.is_outweighed_by(bytes)).then_some(new)
}

/// What a stream gives a store file by an import, or by a push.
fn imported(run: &Run<'_>, opened: &InPlace<'_>, stream: &[u8], asks: Asks<'_>) -> Option<New> {
    let (alloc, look) = (run.rt.alloc(), &opened.look);
    let (features, state) = (asks.features, asks.state);
    match asks.lines {
        None => import_over(alloc, Sha1Namer, look, stream, false, features, state).ok(),
        Some(lines) => {
            let done = features.done;
            push_over(alloc, Sha1Namer, look, lines, stream, false, done, state).ok()
        }
    }
}

/// Appends what is new to a store file, which stays as it is where nothing is. Answers the lines of the refs that changed, where they
/// are asked for; nothing where there was no memory for it.
fn publish(
    run: &Run<'_>,
    next: &NextText<'_>,
    opened: &InPlace<'_>,
    new: &New,
    report: bool,
) -> Result<Option<Vec<u8>>, RunFault> {
    let mut room = Vec::new(run.rt.alloc());
    let Ok(before) = opened.look.ref_lines(&mut room) else {
        return Ok(None);
    };
    let Ok(changes) = changes_of(run, before, &new.refs, report) else {
        return Ok(None);
    };
    let place = next.place();
    if new.objects.len() == 0 && before == new.refs.as_slice() {
        opened.settle(place)?;
        return Ok(Some(changes));
    }
    let is_done = opened.append_new(place, &new.objects, new.ref_count, &new.refs)?;
    Ok(is_done.then_some(changes))
}

/// The lines of the refs that differ, where they are asked for.
fn changes_of(
    run: &Run<'_>,
    before: &[u8],
    after: &[u8],
    report: bool,
) -> Result<Vec<u8>, LookFault> {
    let alloc = run.rt.alloc();
    if !report {
        return Ok(Vec::new(alloc));
    }
    let before = RefLines::read(alloc, before)?;
    let after = RefLines::read(alloc, after)?;
    Ok(changed_refs(alloc, &before, &after)?)
}
