//! What is told of a refused import behind its fault, where that is asked for: where the faulty item stands, and what it is about.
//! Source: git-fast-import(1), "Commands".

use super::trail::{Spot, Trail};
use crate::run::Run;
use gx_cli::{CliFault, Explanation, ImportFault, ImportKind, explanation_lines, item_line};
use std::alloc::{AllocError, Global};

/// An answer. Where it refuses the stream with this trail, the lines that explain this are kept, to be told behind it, if they are asked for
/// and there is memory for them.
pub(crate) fn explained<T>(
    run: &Run<'_>,
    trail: Option<&Trail>,
    answer: Result<T, CliFault>,
    told: &Explanation<Global>,
) -> Result<T, CliFault> {
    if !run.explains() {
        return answer;
    }
    if let (Err(CliFault::Import(fault)), Some(trail)) = (&answer, trail) {
        if let Ok(lines) = lines_of(run.rt.alloc(), trail, fault, told) {
            run.explain(lines);
        }
    }
    answer
}

fn lines_of(
    alloc: Global,
    trail: &Trail,
    fault: &ImportFault,
    told: &Explanation<Global>,
) -> Result<Vec<u8>, AllocError> {
    let mut lines = match item_at_fault(trail, fault, told) {
        Some(item) => item_line(alloc, item.line, item.byte, trail.text(item))?,
        None => end_line(alloc, trail, fault, told)?,
    };
    lines.extend_from_slice(explanation_lines(alloc, told)?.as_slice())?;
    Ok(lines)
}

/// The line of the stream's end, where that is at fault.
fn end_line(
    alloc: Global,
    trail: &Trail,
    fault: &ImportFault,
    told: &Explanation<Global>,
) -> Result<Vec<u8>, AllocError> {
    if is_of_end(trail, fault.kind, told) {
        item_line(alloc, trail.line(), trail.byte(), b"end of the stream")
    } else {
        Ok(Vec::new(alloc))
    }
}

/// Whether the stream's end is at fault: the reader wants an item, and there is none.
fn is_of_end(trail: &Trail, kind: ImportKind, told: &Explanation<Global>) -> bool {
    kind == ImportKind::MissingDone || (is_of_reading(kind, told) && trail.has_ended())
}

/// The item at fault: the line of the change that is told, the last that was read where no command is read, or the first of the
/// command.
fn item_at_fault<'a>(
    trail: &'a Trail,
    fault: &ImportFault,
    told: &Explanation<Global>,
) -> Option<&'a Spot> {
    let items = trail.items_of(fault.command);
    if let Some(number) = told.change {
        let before = number.saturating_sub(1) as usize;
        return items
            .iter()
            .filter(|item| begins_change(trail.text(item)))
            .nth(before);
    }
    if is_of_end(trail, fault.kind, told) {
        None
    } else if is_of_reading(fault.kind, told) {
        trail.last()
    } else {
        items.first()
    }
}

/// Whether a line of a commit is a change, or begins one.
fn begins_change(line: &[u8]) -> bool {
    let is_clear = line == b"deleteall".as_slice();
    is_clear
        || [b"M ", b"D ", b"C ", b"R "]
            .iter()
            .any(|front| line.starts_with(front.as_slice()))
}

/// Whether a fault is one of a command that isn't read whole, where no change is told. What was asked for in vain is of one that is,
/// also where its path is a bad one.
fn is_of_reading(kind: ImportKind, told: &Explanation<Global>) -> bool {
    let is_met_in_reading = matches!(
        kind,
        ImportKind::ReadFailed
            | ImportKind::UnknownCommand
            | ImportKind::BadLine
            | ImportKind::BadNumber
            | ImportKind::TruncatedData
            | ImportKind::BadPath
            | ImportKind::PathTooLong
            | ImportKind::BadMode
            | ImportKind::BadIdent
            | ImportKind::BadRefName
            | ImportKind::Unsupported
            | ImportKind::LateOption
            | ImportKind::MissingDone
    );
    is_met_in_reading && told.asked.is_none()
}
