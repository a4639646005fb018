//! Commands of which each growth is refused in turn.

use crate::commands::ran_on;
use crate::steps::Step;
use gx_adapt::AdaptFault;
use gx_asks::{Question, Trial};
use gx_cli::{BlobsKind, CliFault, Line};
use gx_devices::Refusing;
use gx_export::ExportFault;
use gx_file::FileFault;
use gx_import::ImportKind;
use gx_text::{Bytes, Held};
use gx_where::WhereFault;
use std::alloc::{Allocator, Global};
use std::hash::RandomState;

/// How many growths are refused before a command succeeds on a store's text, which it is given or which is lent to it; none where
/// one is answered otherwise.
pub(crate) fn refused_growths(
    alloc: Global,
    line: &Line<'_>,
    step: &Step<'_>,
    (store, is_given): (&[u8], bool),
    state: RandomState,
) -> u64 {
    for nth in 1..3000u64 {
        match is_refused_at(alloc, (line, step, store, is_given), nth, state) {
            Some(true) => {}
            Some(false) => return nth - 1,
            None => return 0,
        }
    }
    0
}

/// Whether a command is refused of which this growth is to be refused; none where it is answered otherwise.
fn is_refused_at(
    alloc: Global,
    command: (&Line<'_>, &Step<'_>, &[u8], bool),
    nth: u64,
    state: RandomState,
) -> Option<bool> {
    let heap = Refusing::new(alloc, 0);
    match Held::new(&heap, 4096) {
        Ok(mut sink) => is_command_refused(&heap, &mut sink, command, nth, state),
        Err(_) => None,
    }
}

/// The same, with a sink for what it prints. The store's text is there before.
fn is_command_refused<'a, B: Allocator>(
    heap: &'a Refusing<B>,
    sink: &mut Held<&'a Refusing<B>>,
    (line, step, store, is_given): (&Line<'_>, &Step<'_>, &[u8], bool),
    nth: u64,
    state: RandomState,
) -> Option<bool> {
    let Ok(store) = Vec::from_slice(heap, store) else {
        return None;
    };
    let source = Bytes::new(step.input, 7, false);
    heap.arm(nth);
    let outcome = ran_on(heap, line, store, is_given, source, sink, state);
    let is_waiting = heap.is_waiting();
    heap.arm(0);
    let ended = (outcome.status, outcome.fault);
    is_refused((line, step), ended, sink.bytes(), is_waiting)
}

/// Whether a command that ended so, with this printed, was refused for want of memory; none where it was answered otherwise.
fn is_refused(
    (line, step): (&Line<'_>, &Step<'_>),
    (status, fault): (u8, Option<CliFault>),
    printed: &[u8],
    is_waiting: bool,
) -> Option<bool> {
    let is_right = match fault {
        None => is_waiting && status == status_of(line, step) && printed == step.printed,
        Some(fault) => {
            !is_waiting && is_memory(line, fault) && is_left(line, printed, step.printed)
        }
    };
    is_right.then_some(!is_waiting)
}

/// The status of a command that isn't refused: that of `adapt` tells of the file of marks that the rough lines ask for.
fn status_of(line: &Line<'_>, step: &Step<'_>) -> u8 {
    let asks_for_marks = step.input.starts_with(b"feature export-marks=");
    if asks_for_marks && matches!(line, Line::Stream(Trial::Adapt { .. })) {
        3
    } else {
        0
    }
}

/// Whether memory ran out, as this command says it.
fn is_memory(line: &Line<'_>, fault: CliFault) -> bool {
    let is_export = matches!(
        line,
        Line::Ask {
            question: Question::Export(_),
            ..
        }
    );
    let is_refs = matches!(
        line,
        Line::Ask {
            question: Question::Refs,
            ..
        }
    );
    let has_store = !matches!(line, Line::Stream(_));
    match fault {
        CliFault::OutOfMemory => !is_export && !is_refs,
        CliFault::Import(fault) => !is_export && fault.kind == ImportKind::OutOfMemory,
        CliFault::Export(fault) => is_export && fault == ExportFault::OutOfMemory,
        CliFault::Store(fault) => has_store && fault == FileFault::OutOfMemory,
        CliFault::Adapt(fault) => fault == AdaptFault::OutOfMemory,
        CliFault::Where(fault) => fault == WhereFault::OutOfMemory,
        CliFault::Blobs(fault) => fault.kind == BlobsKind::OutOfMemory,
        _ => false,
    }
}

/// Whether what is printed is right where memory ran out: a front for the names of blobs, an export, a try, an adaption or a
/// batch, and nothing for others.
fn is_left(line: &Line<'_>, printed: &[u8], whole: &[u8]) -> bool {
    match line {
        Line::Stream(
            Trial::Blobs | Trial::Try { .. } | Trial::Check { .. } | Trial::Adapt { .. },
        ) => whole.starts_with(printed),
        Line::Ask {
            question: Question::Export(_) | Question::Batch { .. },
            ..
        } => whole.starts_with(printed),
        _ => printed.is_empty(),
    }
}
