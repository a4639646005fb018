//! What a command did, told on standard error. A report that can't be written is left: the command is done.

use crate::run::Run;
use gx_cli::{Adapted, ImportReport, Pruned, lost_lines};
use std::alloc::Global;
use std::io::{IsTerminal, Write};

/// Tells the lines of the refs that an import changed, whose names are bytes.
pub(crate) fn tell_changes(run: &Run<'_>, lines: &[u8]) {
    let _ = run.rt.stderr().write_all(lines);
}

/// Tells what was imported, where that is asked for or somebody reads it as it comes.
pub(crate) fn tell_import(run: &Run<'_>, report: &ImportReport, is_asked: bool) {
    if is_asked || run.is_watched() {
        let (commands, objects, refs) = (report.commands, report.objects, report.refs);
        let _ = eprintln!(run.rt; "gx: commands: {commands}, objects: {objects}, refs: {refs}");
    }
}

/// Tells how many objects came of a text of refs and objects, and how many refs changed, where that is asked for or somebody reads it
/// as it comes.
pub(crate) fn tell_taken(run: &Run<'_>, objects: usize, refs: usize, is_asked: bool) {
    if is_asked || run.is_watched() {
        let _ = eprintln!(run.rt; "gx: objects: {objects}, refs: {refs}");
    }
}

/// Tells how many identities have other bytes than in git, which writes a space before their `<`, if any were counted.
pub(crate) fn tell_nameless(run: &Run<'_>, count: u64) {
    tell_count(
        run,
        "identities without a name, which git gives a space",
        count,
    );
}

/// Tells how much a store lost, where that is asked for or somebody reads it as it comes.
pub(crate) fn tell_pruned(run: &Run<'_>, gone: &Pruned, is_asked: bool) {
    if is_asked || run.is_watched() {
        let (objects, bytes) = (gone.objects, gone.bytes);
        let _ = eprintln!(run.rt; "gx: pruned objects: {objects}, bytes: {bytes}");
    }
}

/// Tells what was changed in a stream, what stays that an import refuses, whether `done` ended it, and what is lost.
pub(crate) fn tell_adaption(run: &Run<'_>, adapted: &Adapted<Global>, drop_signatures: bool) {
    let report = &adapted.report;
    tell_count(run, "identities that got a space", report.identities);
    tell_count(run, "deletions left out", report.deletions);
    tell_count(run, "paths put in quotes", report.paths);
    tell_count(run, "lines of marks left out", report.marks);
    tell_count(run, "lines of features left out", report.features);
    let signatures = if drop_signatures {
        "signatures left out, so that names differ from those of git"
    } else {
        "signatures that an import refuses"
    };
    tell_count(run, signatures, report.signatures);
    let refused_names = report.refused_names;
    tell_count(
        run,
        "lines with branch names that git refuses",
        refused_names,
    );
    tell_count(run, "notes that an import refuses", report.notes);
    let early_dates = report.early_dates;
    tell_count(run, "dates before 1970 that an import refuses", early_dates);
    let tags = report.tags_of_blobs_or_tags;
    tell_count(run, "tags of blobs and tags that an import refuses", tags);
    let end = if report.ended_with_done {
        "with"
    } else {
        "without"
    };
    let _ = eprintln!(run.rt; "gx: adapt: the stream ended {end} done");
    if !adapted.lost.is_empty() {
        tell_losses(run, adapted);
    }
}

/// Tells which lines are lost, where there is memory for that, and that there are any.
fn tell_losses(run: &Run<'_>, adapted: &Adapted<Global>) {
    if let Ok(lines) = lost_lines(run.rt.alloc(), adapted) {
        let _ = run.rt.stderr().write_all(&lines);
    }
    let _ = eprintln!(run.rt; "gx: adapt: no done went out, since lines are lost");
}

/// Tells how many there are of what was changed or stays, if there are any.
fn tell_count(run: &Run<'_>, what: &str, count: u64) {
    if count > 0 {
        let _ = eprintln!(run.rt; "gx: {what}: {count}");
    }
}

/// Tells somebody at a terminal, who may wait for something to happen, that a stream is to be typed.
pub(crate) fn tell_typed_stream(run: &Run<'_>) {
    tell_typed(run, "a stream");
}

/// The same of what is to be typed.
pub(crate) fn tell_typed(run: &Run<'_>, what: &str) {
    if run.is_watched() && run.rt.stdin().is_terminal() {
        let _ = eprintln!(run.rt; "gx: reading {what} from standard input");
    }
}
