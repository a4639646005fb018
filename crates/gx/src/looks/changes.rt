//! Exports of the changes that range words list in growing store files. Each reads the commits that it sends, and what differs.

use super::file_at::FileAt;
use super::{growing_file, look_into};
use crate::fault::RunFault;
use crate::run::Run;
use crate::streams::devices::{Noted, flushed};
use crate::streams::progress::ProgressLine;
use gx_changes::export_range;
use gx_cli::CliFault;
use gx_print::{read_ranges, texts_of};
use gx_rev::{Range, WalkFault};
use gx_text::IntoWrite;
use std::alloc::Global;
use std::io::BufWriter;

/// Exports what range words list of a growing store's file, and shows how much went out. Answers false, and does nothing, where the
/// file isn't one, or where no word excludes a commit: what sends all is read as a whole, once.
pub(crate) fn export_looked<'a>(
    run: &'a Run<'a>,
    file: &'a str,
    words: &[&str],
    done: bool,
) -> Result<bool, RunFault> {
    let Some(opened) = growing_file(run, file)? else {
        return Ok(false);
    };
    let ranges = ranges_of(run, words)?;
    if !ranges.iter().any(excludes) {
        return Ok(false);
    }
    export_opened(run, file, opened, &ranges, done)?;
    Ok(true)
}

/// The range words of a command. The first that isn't one is answered.
pub(crate) fn ranges_of(run: &Run<'_>, words: &[&str]) -> Result<Vec<Range<Global>>, RunFault> {
    let alloc = run.rt.alloc();
    let words = texts_of(alloc, words)?;
    match read_ranges(alloc, words.as_slice()) {
        Ok(ranges) => Ok(ranges),
        Err(WalkFault { word, kind }) => Err(RunFault::Command(CliFault::Revision {
            number: word as u64,
            kind,
        })),
    }
}

/// Whether a range word excludes commits.
fn excludes(word: &Range<Global>) -> bool {
    !matches!(word, Range::WithAncestors(_) | Range::AllParents(_))
}

/// Does so for a growing store file that is open. The stream goes out through a buffer.
fn export_opened<'a>(
    run: &'a Run<'a>,
    file: &'a str,
    opened: FileAt<'a>,
    ranges: &[Range<Global>],
    done: bool,
) -> Result<(), RunFault> {
    let alloc = run.rt.alloc();
    let look = look_into(run, file, opened)?;
    let progress = ProgressLine::new(run);
    let output = Noted::output(run).shown_by(&progress);
    let answer = match BufWriter::new(alloc, output) {
        Ok(mut out) => {
            let answered = export_range(alloc, &look, ranges, &mut IntoWrite::new(&mut out), done);
            flushed(&mut out, answered.map_err(RunFault::from))
        }
        Err(_) => Err(RunFault::Command(CliFault::OutOfMemory)),
    };
    progress.clear();
    answer
}
