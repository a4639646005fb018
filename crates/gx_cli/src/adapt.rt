//! A stream of another converter, adapted. Source: git-fast-import(1).

ghost use Rattle.std.specs.Prelude.{◌≡◌, ◌++◌, IfOk, OnOk};
ghost use Rattle.gx_adapt.specs.Adapting.{IsReadAgain};
ghost use Rattle.gx_cli.specs.Adapting.{EndsAdapted, adapt_status, lost_line, lost_text};
ghost use Rattle.gx_cli.specs.Gathering.{AdaptsStream, texts_of};

use crate::serving::{Outcome, refused};
use crate::{Adapted, CliFault};
use gx_adapt::adapt;
use gx_text::{Sink, Source, put_printed};
use std::alloc::{AllocError, Allocator};

/// Sends a stream with the lines changed that are read otherwise here than by git, and answers how many they are, and which lines
/// are lost. Where they are to be dropped, the signatures of commits are left out.
///
/// `Adapt`: the stream isn't adapted to its end. What came before went out.
/// Memory and cost are those of `gx_adapt::adapt`.
pub fn adapt_stream<R: Source + Drop, W: Sink, A: Allocator + Copy>(
    alloc: A,
    source: R,
    sink: &mut W,
    drop_signatures: bool,
) -> Result<Adapted<A>, CliFault>
    ensures adapts { AdaptsStream drop_signatures (R.coming source)
        (W.taken sink.old) (W.taken sink.new) result }
    ensures again { OnOk result (IsReadAgain drop_signatures (R.coming source)) }
{
    match adapt(alloc, source, sink, drop_signatures) {
        Ok(adapted) => Ok(adapted),
        Err(fault) => Err(CliFault::Adapt(fault)),
    }
}

/// The exit status of `adapt`: 3 where lines are lost by which git changes refs or files of marks, and 0 otherwise.
pub fn adapt_status<A: Allocator>(adapted: &Adapted<A>) -> u8
    ensures { result ≡ adapt_status (texts_of adapted.now.lost.items) }
{
    if adapted.lost.is_empty() { 0 } else { 3 }
}

/// What is told of the lines that are lost, one line for each: it stands there as paths are printed, or for a deletion the line
/// `reset` of its ref.
///
/// Cost: their length, at most four bytes for each of theirs.
pub fn lost_lines<A: Allocator + Copy>(
    alloc: A,
    adapted: &Adapted<A>,
) -> Result<Vec<u8, A>, AllocError>
    ensures { IfOk result (λ told. told.items ≡ lost_text (texts_of adapted.now.lost.items)) }
{
    let mut told = Vec::new(alloc);
    put_losses(&mut told, adapted.lost.as_slice())?;
    Ok(told)
}

/// Appends what is told of lost lines.
fn put_losses<A: Allocator + Copy>(
    told: &mut Vec<u8, A>,
    lines: &[Vec<u8, A>],
) -> Result<(), AllocError>
    ensures { OnOk result (told.new.items ≡ told.old.items ++ lost_text (texts_of lines.now)) }
{
    for line in lines {
        put_lost(told, line.as_slice())?;
    }
    Ok(())
}

/// Appends what is told of a lost line.
fn put_lost<A: Allocator + Copy>(told: &mut Vec<u8, A>, line: &[u8]) -> Result<(), AllocError>
    ensures { OnOk result (told.new.items ≡ told.old.items ++ lost_line line.now) }
{
    told.extend_from_slice(b"gx: adapt: lost: ")?;
    put_printed(told, line)?;
    told.push(b'\n')?;
    Ok(())
}

/// How the command ends that adapts a stream.
pub(crate) fn adapt_ended<A: Allocator>(answer: Result<Adapted<A>, CliFault>) -> Outcome<A>
    ensures { EndsAdapted answer result }
{
    match answer {
        Ok(adapted) => Outcome {
            status: adapt_status(&adapted),
            fault: None,
            store: None,
        },
        Err(fault) => refused(fault),
    }
}
