//! The commands of `gx_cli`, with what they tell of their work.

use crate::pass::Pass;
use crate::reporting::{collected, imported, reported};
use gx_asks::{Change, Trial};
use gx_cli::{
    AdaptReport, Adapted, CliFault, Features, ImportReport, Line, Outcome, Pruned, adapt_status,
    adapt_stream, lost_lines, serve, serve_owned,
};
use gx_devices::ShortNamer;
use gx_object::{Namer, Sha1Namer};
use gx_text::{Held, Sink, Source};
use std::alloc::{AllocError, Global};
use std::hash::RandomState;

/// Commands print fewer bytes.
const ROOM: usize = 0x1_0000;

/// How a command ended.
#[derive(Drop)]
pub(crate) struct Ending {
    pub(crate) printed: Vec<u8>,
    pub(crate) told: Option<String>,
    pub(crate) is_refused: bool,
    /// The command makes a next text where it is accepted.
    pub(crate) makes_text: bool,
    pub(crate) store: Option<Vec<u8>>,
}

/// Runs a command on a store's text and an input, behind which the source may fail.
pub(crate) fn serve_line(
    alloc: Global,
    line: &Line<'_>,
    store: Vec<u8>,
    (input, fails): (&[u8], bool),
    pass: Pass,
) -> Result<Ending, AllocError> {
    let mut sink = Held::new(alloc, ROOM)?;
    let source = pass.source(input, fails);
    let (outcome, report) = if pass.has_short_names {
        ended(alloc, ShortNamer, line, store, source, &mut sink, pass)
    } else {
        ended(alloc, Sha1Namer, line, store, source, &mut sink, pass)
    };
    // a stream that lost lines is adapted, with a status of its own
    let is_refused = outcome.status == 1;
    Ok(Ending {
        printed: Vec::from_slice(alloc, sink.bytes())?,
        told: told_text(alloc, outcome.fault, report)?,
        is_refused,
        makes_text: makes_text(line),
        store: outcome.store,
    })
}

/// Whether a command that is accepted makes a next text.
fn makes_text(line: &Line<'_>) -> bool {
    match line {
        Line::Change { change, .. } => !matches!(change, Change::Grow),
        _ => false,
    }
}

/// What a command tells of its work.
#[derive(Drop)]
pub(crate) enum Report {
    /// It tells nothing, or this way of running it doesn't say.
    Unknown,
    Import(ImportReport),
    /// The lines of the refs that an import changed, and its counts where it is accepted.
    Changes(Vec<u8>, Option<ImportReport>),
    Pruned(Pruned),
    Adapt(Adapted<Global>, bool),
}

/// How a command ends. What the devices tell is left open here, so no caller has more to prove than that the call is safe.
fn ended<N: Namer + Copy + Drop, R: Source + Drop, W: Sink>(
    alloc: Global,
    namer: N,
    line: &Line<'_>,
    store: Vec<u8>,
    source: R,
    sink: &mut W,
    pass: Pass,
) -> (Outcome<Global>, Report) {
    if let Line::Change {
        change: Change::Import {
            done,
            force,
            report: true,
            ..
        },
        ..
    } = line
    {
        let features = Features {
            done: *done,
            force: *force,
        };
        return reported(alloc, namer, store, source, sink, features, pass.state);
    }
    if pass.is_given {
        let outcome = serve_owned(alloc, namer, line, store, source, sink, pass.state);
        return (outcome, Report::Unknown);
    }
    match line {
        Line::Change {
            change: Change::Import { done, force, .. },
            ..
        } => {
            let features = Features {
                done: *done,
                force: *force,
            };
            imported(alloc, namer, store, source, sink, features, pass.state)
        }
        Line::Change {
            change: Change::Gc { .. },
            ..
        } => collected(alloc, namer, store, pass.state),
        Line::Stream(Trial::Adapt { drop_signatures }) => {
            adapted(alloc, source, sink, *drop_signatures)
        }
        _ => {
            let outcome = serve(alloc, namer, line, &store, source, sink, pass.state);
            (outcome, Report::Unknown)
        }
    }
}

fn adapted<R: Source + Drop, W: Sink>(
    alloc: Global,
    source: R,
    sink: &mut W,
    drop_signatures: bool,
) -> (Outcome<Global>, Report) {
    let (status, fault, report) = match adapt_stream(alloc, source, sink, drop_signatures) {
        Ok(adapted) => {
            let status = adapt_status(&adapted);
            (status, None, Report::Adapt(adapted, drop_signatures))
        }
        Err(fault) => (1, Some(fault), Report::Unknown),
    };
    let outcome = Outcome {
        status,
        fault,
        store: None,
    };
    (outcome, report)
}

/// What standard error gets; none where it isn't known.
fn told_text(
    alloc: Global,
    fault: Option<CliFault>,
    report: Report,
) -> Result<Option<String>, AllocError> {
    let told = match report {
        Report::Changes(lines, counts) => changes_text(alloc, &lines, fault, counts)?,
        Report::Import(counts) => import_text(alloc, &counts)?,
        Report::Pruned(gone) => pruned_text(alloc, &gone)?,
        Report::Adapt(adapted, drop_signatures) => {
            let mut text = adapt_text(alloc, &adapted.report, drop_signatures)?;
            put_losses(alloc, &mut text, &adapted)?;
            text
        }
        Report::Unknown => match fault {
            Some(fault) => format!(in alloc; "{fault}\n")?,
            None => return Ok(None),
        },
    };
    Ok(Some(told))
}

/// What a terminal shows of an import.
fn import_text(alloc: Global, report: &ImportReport) -> Result<String, AllocError> {
    let (commands, objects, refs) = (report.commands, report.objects, report.refs);
    format!(in alloc; "gx: commands: {commands}, objects: {objects}, refs: {refs}\n")
}

/// What is told of an import with a report: the lines, and why it is refused or its counts.
fn changes_text(
    alloc: Global,
    lines: &[u8],
    fault: Option<CliFault>,
    report: Option<ImportReport>,
) -> Result<String, AllocError> {
    let mut text = String::from_utf8_lossy(alloc, lines)?;
    if let Some(fault) = fault {
        text.push_str(format!(in alloc; "{fault}\n")?.as_str())?;
    }
    if let Some(report) = report {
        text.push_str(import_text(alloc, &report)?.as_str())?;
    }
    Ok(text)
}

/// What is told of objects that went.
fn pruned_text(alloc: Global, gone: &Pruned) -> Result<String, AllocError> {
    let (objects, bytes) = (gone.objects, gone.bytes);
    format!(in alloc; "gx: pruned objects: {objects}, bytes: {bytes}\n")
}

/// What is told of an adapted stream: each count that isn't 0, and how the stream ended.
fn adapt_text(
    alloc: Global,
    report: &AdaptReport,
    drop_signatures: bool,
) -> Result<String, AllocError> {
    let counts = [
        ("identities that got a space", report.identities),
        ("deletions left out", report.deletions),
        ("paths put in quotes", report.paths),
        ("lines of marks left out", report.marks),
        ("lines of features left out", report.features),
        (signatures_text(drop_signatures), report.signatures),
        (
            "lines with branch names that git refuses",
            report.refused_names,
        ),
        ("notes that an import refuses", report.notes),
        (
            "dates before 1970 that an import refuses",
            report.early_dates,
        ),
        (
            "tags of blobs and tags that an import refuses",
            report.tags_of_blobs_or_tags,
        ),
    ];
    let mut text = String::new(alloc);
    for (what, count) in counts {
        if count > 0 {
            text.push_str(format!(in alloc; "gx: {what}: {count}\n")?.as_str())?;
        }
    }
    let end = if report.ended_with_done {
        "with"
    } else {
        "without"
    };
    text.push_str(format!(in alloc; "gx: adapt: the stream ended {end} done\n")?.as_str())?;
    Ok(text)
}

/// Appends what is told of lines that are lost, if any are.
fn put_losses(
    alloc: Global,
    text: &mut String,
    adapted: &Adapted<Global>,
) -> Result<(), AllocError> {
    if adapted.lost.is_empty() {
        return Ok(());
    }
    let lines = lost_lines(alloc, adapted)?;
    text.push_str(String::from_utf8_lossy(alloc, &lines)?.as_str())?;
    text.push_str("gx: adapt: no done went out, since lines are lost\n")
}

/// What is told of signatures.
fn signatures_text(drop_signatures: bool) -> &'static str {
    if drop_signatures {
        "signatures left out, so that names differ from those of git"
    } else {
        "signatures that an import refuses"
    }
}
