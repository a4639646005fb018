//! The lines of faults, as the program prints them on standard error: of those that no script of commands ends with.

use crate::commands::{has_line, is_text};
use gx_adapt::AdaptFault;
use gx_cli::{BlobsFault, BlobsKind, CliFault, LineFault};
use gx_command::CommandFault;
use gx_export::ExportFault;
use gx_file::FileFault;
use gx_import::{ImportFault, ImportKind};
use gx_rev::RevFault;
use gx_where::WhereFault;
use std::alloc::Global;

/// Faults; numbers are printed whole.
const FAULTS: &[CliFault] = &[
    CliFault::Blobs(BlobsFault {
        command: 1,
        kind: BlobsKind::OutOfMemory,
    }),
    CliFault::Blobs(BlobsFault {
        command: 1,
        kind: BlobsKind::WriteFailed,
    }),
    CliFault::Import(ImportFault {
        command: 20,
        kind: ImportKind::OutOfMemory,
        checkpoints: 0,
    }),
    CliFault::Import(ImportFault {
        command: 20,
        kind: ImportKind::WriteFailed,
        checkpoints: 0,
    }),
    CliFault::Import(ImportFault {
        command: 20,
        kind: ImportKind::NameHeld,
        checkpoints: 0,
    }),
    CliFault::Import(ImportFault {
        command: 20,
        kind: ImportKind::BadRevision,
        checkpoints: 0,
    }),
    CliFault::Import(ImportFault {
        command: 20,
        kind: ImportKind::Ambiguous,
        checkpoints: 0,
    }),
    CliFault::Import(ImportFault {
        command: 20,
        kind: ImportKind::NoParent,
        checkpoints: 0,
    }),
    CliFault::Revision {
        number: 3,
        kind: RevFault::OutOfMemory,
    },
    CliFault::Revision {
        number: 3,
        kind: RevFault::BadPath,
    },
    CliFault::Revision {
        number: 3,
        kind: RevFault::PathTooLong,
    },
    CliFault::Revision {
        number: 3,
        kind: RevFault::Ambiguous,
    },
    CliFault::Store(FileFault::OutOfMemory),
    CliFault::Store(FileFault::DuplicateObject),
    CliFault::Store(FileFault::Dangling),
    CliFault::Store(FileFault::BadObject),
    CliFault::Store(FileFault::BadRef),
    CliFault::Store(FileFault::RefOrder),
    CliFault::Adapt(AdaptFault::OutOfMemory),
    CliFault::Adapt(AdaptFault::WriteFailed),
    CliFault::Where(WhereFault::Command {
        command: 2,
        kind: CommandFault::OutOfMemory,
    }),
    CliFault::Where(WhereFault::Command {
        command: 2,
        kind: CommandFault::ReadFailed,
    }),
    CliFault::Where(WhereFault::Command {
        command: 2,
        kind: CommandFault::BadLine,
    }),
    CliFault::Where(WhereFault::Command {
        command: 2,
        kind: CommandFault::BadNumber,
    }),
    CliFault::Where(WhereFault::Command {
        command: 2,
        kind: CommandFault::BadPath,
    }),
    CliFault::Where(WhereFault::Command {
        command: 2,
        kind: CommandFault::PathTooLong,
    }),
    CliFault::Where(WhereFault::Command {
        command: 2,
        kind: CommandFault::BadMode,
    }),
    CliFault::Where(WhereFault::Command {
        command: 2,
        kind: CommandFault::BadIdent,
    }),
    CliFault::Where(WhereFault::Command {
        command: 2,
        kind: CommandFault::BadRefName,
    }),
    CliFault::Where(WhereFault::Command {
        command: 2,
        kind: CommandFault::Unsupported,
    }),
    CliFault::Where(WhereFault::ReadFailed),
    CliFault::Where(WhereFault::OutOfMemory),
    CliFault::Export(ExportFault::OutOfMemory),
    CliFault::Export(ExportFault::WriteFailed { written: 7 }),
    CliFault::StoreExists,
    CliFault::WriteFailed,
    CliFault::OutOfMemory,
    CliFault::Import(ImportFault {
        command: 18446744073709551615,
        kind: ImportKind::BadLine,
        checkpoints: 0,
    }),
    CliFault::Revision {
        number: 18446744073709551615,
        kind: RevFault::BadPath,
    },
];

/// The lines of these faults, in their order.
const LINES: &str = "gx: command 1: OutOfMemory
gx: command 1: WriteFailed
gx: command 20: OutOfMemory
gx: command 20: WriteFailed
gx: command 20: NameHeld
gx: command 20: BadRevision
gx: command 20: Ambiguous
gx: command 20: NoParent
gx: revision 3: OutOfMemory
gx: revision 3: BadPath
gx: revision 3: PathTooLong
gx: revision 3: Ambiguous
gx: store: OutOfMemory
gx: store: DuplicateObject
gx: store: Dangling
gx: store: BadObject
gx: store: BadRef
gx: store: RefOrder
gx: adapt: OutOfMemory
gx: adapt: WriteFailed
gx: where: command 2: OutOfMemory
gx: where: command 2: ReadFailed
gx: where: command 2: BadLine
gx: where: command 2: BadNumber
gx: where: command 2: BadPath
gx: where: command 2: PathTooLong
gx: where: command 2: BadMode
gx: where: command 2: BadIdent
gx: where: command 2: BadRefName
gx: where: command 2: Unsupported
gx: where: read failed
gx: where: out of memory
gx: export: OutOfMemory
gx: export: WriteFailed
gx: store exists
gx: write failed
gx: out of memory
gx: command 18446744073709551615: BadLine
gx: revision 18446744073709551615: BadPath
";

/// Behind the last line there is no fault.
#[test]
fn faults_have_their_lines(rt: HostRuntime) {
    for (place, line) in LINES.split('\n').enumerate() {
        assert!(rt;
            has_line(rt.alloc(), FAULTS.get(place).copied(), line),
            "{line}"
        );
    }
}

/// Whether the fault of words that are not read prints this line.
fn prints(alloc: Global, fault: LineFault, line: &str) -> bool {
    is_text(format!(in alloc; "{fault}"), line)
}

/// Whether the fault with this text prints it.
fn prints_its_own(alloc: Global, own: &str) -> bool {
    match String::from_str(alloc, own) {
        Ok(text) => prints(alloc, LineFault::Status { status: 2, text }, own),
        Err(_) => false,
    }
}

#[test]
fn words_that_are_not_read_print_their_own_line(rt: HostRuntime) {
    assert!(rt; prints(rt.alloc(), LineFault::OutOfMemory, "gx: out of memory"));
    assert!(rt; prints_its_own(rt.alloc(), "error: x\n"));
}
