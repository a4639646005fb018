//! Why a text of refs and objects is refused, and the line that explains it, where that is asked for.

use crate::fault::RunFault;
use crate::run::Run;
use gx_cli::{CliFault, Explanation, RefLoss, explanation_lines, printed_path};
use gx_object::Name;
use gx_offered::ItemFault;
use gx_taken::{Refused, TakeFault};
use std::alloc::{AllocError, Global};

/// The refusal of a text. The line that explains it is kept, to be told behind it, if it is asked for and there is memory for it.
pub(crate) fn refused(run: &Run<'_>, fault: &TakeFault<Global>) -> RunFault {
    match fault {
        TakeFault::OutOfMemory => RunFault::Command(CliFault::OutOfMemory),
        TakeFault::ReadFailed => RunFault::Command(CliFault::ReadFailed),
        TakeFault::Item { number, kind } => {
            if run.explains() {
                if let Ok(line) = explained(run.rt.alloc(), kind) {
                    run.explain(line);
                }
            }
            RunFault::Item {
                number: *number,
                word: kind.word(),
            }
        }
    }
}

/// What is against an item, in words.
fn explained(alloc: Global, kind: &Refused<Global>) -> Result<Vec<u8>, AllocError> {
    match kind {
        Refused::Unread(fault) => line(alloc, &[unread(*fault).as_bytes()]),
        Refused::BadObject(name) => of_object(
            alloc,
            name,
            b" isn't canonical, or has what no store holds, as a tag of a blob",
        ),
        Refused::NameHeld(name) => of_object(alloc, name, b" is held with other bytes"),
        Refused::Dangling(name, link) => {
            let (name, link) = (name.hex(), link.hex());
            line(
                alloc,
                &[
                    name.as_slice(),
                    b" names ",
                    link.as_slice(),
                    b", which is neither held nor given so",
                ],
            )
        }
        Refused::DanglingRef(name, object) => {
            let (name, object) = (printed_path(alloc, name)?, object.hex());
            line(
                alloc,
                &[
                    name.as_slice(),
                    b" names ",
                    object.as_slice(),
                    b", which is neither held nor given",
                ],
            )
        }
        Refused::WrongKind(name) => {
            let name = printed_path(alloc, name)?;
            line(
                alloc,
                &[
                    name.as_slice(),
                    b" can hold a commit, or under refs/tags/ the tag of its name",
                ],
            )
        }
        Refused::NotFastForward(name, old, new) => loss_line(alloc, name, *old, *new),
    }
}

/// Why an item isn't read.
fn unread(fault: ItemFault) -> &'static str {
    match fault {
        ItemFault::TruncatedData => "the text ends within the item",
        ItemFault::BadLine => "the line isn't as git prints it, or no LF stands behind a body",
        ItemFault::BadNumber => "the length isn't as git writes it",
        ItemFault::Missing => "git lacks the object",
        ItemFault::BadRefName => "the name isn't that of a ref",
        ItemFault::NameMismatch => "the bytes aren't those that have this name",
    }
}

/// The line of a ref that would lose a commit, as that of an import.
fn loss_line(alloc: Global, name: &[u8], old: Name, new: Name) -> Result<Vec<u8>, AllocError> {
    let mut told = Explanation::none();
    let name = Vec::from_slice(alloc, name)?;
    told.loss = Some(RefLoss { name, old, new });
    explanation_lines(alloc, &told)
}

/// A line that begins with the digits of an object.
fn of_object(alloc: Global, name: &Name, rest: &[u8]) -> Result<Vec<u8>, AllocError> {
    line(alloc, &[name.hex().as_slice(), rest])
}

/// A line of these parts.
fn line(alloc: Global, parts: &[&[u8]]) -> Result<Vec<u8>, AllocError> {
    let mut line = Vec::from_slice(alloc, b"gx: ")?;
    for part in parts {
        line.extend_from_slice(part)?;
    }
    line.push(b'\n')?;
    Ok(line)
}
