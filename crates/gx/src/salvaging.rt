//! What can be saved of a store file that is damaged.

use crate::fault::RunFault;
use crate::looks::{growing_file, look_into};
use crate::run::{Run, Subject};
use crate::stores::files::{open_text, read_store};
use crate::stores::next_text::NextText;
use gx_at::ReadAt;
use gx_look::Look;
use gx_object::Sha1Namer;
use gx_objects::Objects;
use gx_reached::Cause;
use gx_salvage::OtherSlot;
use gx_salvage_refs::{Lost, Salvaged, salvage};
use gx_versions::StoreForm;
use std::alloc::{AllocError, Global};
use std::hash::RandomState;
use std::io::Write;

/// The status where something is lost.
const LOST: u8 = 3;

/// What is saved of a store file.
#[derive(Drop)]
struct Saved {
    salvaged: Salvaged<Sha1Namer, Global>,
    /// Whether it stood there last: not where that is what stood before something was appended.
    is_latest: bool,
}

/// Saves the refs of a store file whose whole history can be read into a new one of version 3, and prints a line for each of the
/// others. Answers the status.
pub(crate) fn salvage_into(
    run: &Run<'_>,
    file: &str,
    new: &str,
    state: RandomState,
) -> Result<u8, RunFault> {
    let mut next = NextText::claim_beside(run, new, file)?;
    next.shape(StoreForm::Growing);
    let saved = salvage_file(run, file, state)?;
    let lines = lost_lines(run.rt.alloc(), saved.salvaged.lost.as_slice())?;
    next.publish_store(&saved.salvaged.repo)?;
    drop(next);
    run.want_written(Subject::Output, run.rt.stdout().write_all(&lines))?;
    let has_all = saved.is_latest && lines.is_empty();
    Ok(if has_all { 0 } else { LOST })
}

/// Salvages a growing store by the slot that is picked, or by the other one where that leads to no tail. A store of another
/// version is read as a whole, and nothing of it is lost.
fn salvage_file(run: &Run<'_>, file: &str, state: RandomState) -> Result<Saved, RunFault> {
    let alloc = run.rt.alloc();
    let Some(opened) = growing_file(run, file)? else {
        let store = read_store(run, file)?;
        let salvaged = Salvaged {
            repo: open_text(run, store, state)?,
            lost: Vec::new(alloc),
        };
        return Ok(Saved {
            salvaged,
            is_latest: true,
        });
    };
    match look_into(run, file, opened) {
        Ok(look) => Ok(Saved {
            salvaged: salvage_look(run, &look, state)?,
            is_latest: true,
        }),
        Err(RunFault::Damaged) => salvage_by_other_slot(run, file, state),
        Err(fault) => Err(fault),
    }
}

/// Salvages what stood before the last segment was appended.
fn salvage_by_other_slot(run: &Run<'_>, file: &str, state: RandomState) -> Result<Saved, RunFault> {
    let opened = growing_file(run, file)?;
    let Some(other) = opened.and_then(OtherSlot::new) else {
        return Err(RunFault::Damaged);
    };
    let look = Look::open(run.rt.alloc(), Sha1Namer, other)?;
    run.tell_other_slot(file);
    Ok(Saved {
        salvaged: salvage_look(run, &look, state)?,
        is_latest: false,
    })
}

/// Salvages what a look shows, of no more bytes than its text has.
fn salvage_look<S: ReadAt>(
    run: &Run<'_>,
    look: &Look<S, Sha1Namer, Global>,
    state: RandomState,
) -> Result<Salvaged<Sha1Namer, Global>, RunFault> {
    let alloc = run.rt.alloc();
    let mut room = Vec::new(alloc);
    let lines = look.ref_lines(&mut room)?;
    let most = look.ending().ends;
    Ok(salvage(alloc, look, lines, Sha1Namer, most, state)?)
}

/// A line for each ref that is lost: its name, the digits of an object that isn't saved, and why that isn't.
fn lost_lines(alloc: Global, lost: &[Lost<Global>]) -> Result<Vec<u8>, AllocError> {
    let mut lines = Vec::new(alloc);
    for one in lost {
        put_lost(&mut lines, one)?;
    }
    Ok(lines)
}

fn put_lost(lines: &mut Vec<u8>, lost: &Lost<Global>) -> Result<(), AllocError> {
    lines.extend_from_slice(&lost.name)?;
    lines.push(b' ')?;
    lines.extend_from_slice(lost.damage.object.hex().as_slice())?;
    lines.push(b' ')?;
    lines.extend_from_slice(word_of(lost.damage.cause))?;
    lines.push(b'\n')?;
    Ok(())
}

/// The word of a cause.
fn word_of(cause: Cause) -> &'static [u8] {
    match cause {
        Cause::Missing => b"Missing",
        Cause::Damaged => b"Damaged",
        Cause::ReadFailed => b"ReadFailed",
        Cause::BadObject => b"BadObject",
        Cause::Dangling => b"Dangling",
        Cause::WrongKind => b"WrongKind",
    }
}
