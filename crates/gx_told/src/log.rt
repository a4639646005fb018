//! The commits that range words list, each in its format. Source: git-log(1) and git-rev-list(1).

ghost use Rattle.std.specs.Prelude.{map};
ghost use Rattle.gx_model.specs.Records.HistoryOf.{history_of};
ghost use Rattle.gx_rev.specs.Views.{shown_range};
ghost use Rattle.gx_text.specs.Lent.{lent_texts};
ghost use Rattle.gx_print.specs.Logs.{log_text};
ghost use Rattle.gx_print.specs.Words.{with_lines};
ghost use Rattle.gx_questions.specs.Answers.{IfTold};
ghost use Rattle.gx_told.specs.Logging.{LogsFrom, ranges_text};
ghost use Rattle.gx_told.specs.Printing.{Prints};

mod choices;
mod commits;
mod walks;

use crate::ToldFault;
use crate::words::{refused, unread};
use gx_asks::LogOptions;
use gx_batch::{LineEnding, read_lines};
use gx_objects::Objects;
use gx_print::{add_lines, read_ranges, texts_of};
use gx_ranges::CommitWalk;
use gx_rev::Range;
use gx_text::{Sink, Source};
use std::alloc::Allocator;
use walks::print_chosen;

/// Prints the commits that range words list. With `stdin` the lines of the source are words, too, behind those that are given.
///
/// `ReadFailed`: the source failed, and nothing was printed. Cost: that of reading the source, and that of `log`.
pub(crate) fn log_with_lines<O: Objects, R: Source + Drop, W: Sink, A: Allocator + Copy>(
    alloc: A,
    objects: &O,
    options: LogOptions,
    words: &[&str],
    source: R,
    sink: &mut W,
) -> Result<(), ToldFault>
    ensures { IfTold (O.told objects.now) (λ r. LogsFrom (O.name_of objects.now) options
        options.stdin r (lent_texts words.now) (R.coming source)
        (W.taken sink.old) (W.taken sink.new)) result }
{
    if options.stdin {
        match read_lines(alloc, LineEnding::Lf, source) {
            Ok(lines) => log_words(alloc, objects, options, words, lines.as_slice(), sink),
            Err(fault) => Err(ToldFault::from(fault)),
        }
    } else {
        log_words(alloc, objects, options, words, &[], sink)
    }
}

/// Does what `log` does with words and with lines behind them.
fn log_words<'a, O: Objects, A: Allocator + Copy, W: Sink>(
    alloc: A,
    objects: &O,
    options: LogOptions,
    words: &[&'a str],
    lines: &'a [Vec<u8, A>],
    sink: &mut W,
) -> Result<(), ToldFault>
    ensures { IfTold (O.told objects.now) (λ r. Prints (log_text (O.name_of objects.now) options
        (history_of r) (with_lines words.now lines.now))
        (W.taken sink.old) (W.taken sink.new)) result }
{
    let mut asked = texts_of(alloc, words)?;
    add_lines(&mut asked, lines)?;
    log(alloc, objects, options, asked.as_slice(), sink)
}

/// Prints the commits that range words list, the last made first, and with `all` those of all refs, too; of these those that the
/// options keep. The commits go out one after the other, each as the walk comes to it; where they are turned round, once all are
/// found. With `count` it is told how many they are.
///
/// `Revision`: the first word that isn't a range word, or else the first that gives nothing, by its number from 1.
/// Cost: that of `gx_ranges::walk`, and for each commit its text; turned round, unless their names alone are asked for, their
/// bodies once more. Memory: the ranges, the places that are to be visited, and the longest body and text of a commit; turned
/// round, the names.
pub(crate) fn log<O: Objects, A: Allocator + Copy, W: Sink>(
    alloc: A,
    objects: &O,
    options: LogOptions,
    words: &[&[u8]],
    sink: &mut W,
) -> Result<(), ToldFault>
    ensures { IfTold (O.told objects.now) (λ r. Prints (log_text (O.name_of objects.now) options
        (history_of r) (lent_texts words.now))
        (W.taken sink.old) (W.taken sink.new)) result }
{
    match read_ranges(alloc, words) {
        Ok(ranges) => log_ranges(alloc, objects, options, ranges.as_slice(), sink),
        Err(fault) => Err(unread(fault)),
    }
}

/// Prints the commits that ranges list.
fn log_ranges<O: Objects, A: Allocator + Copy, W: Sink>(
    alloc: A,
    objects: &O,
    options: LogOptions,
    ranges: &[Range<A>],
    sink: &mut W,
) -> Result<(), ToldFault>
    ensures { IfTold (O.told objects.now) (λ r. Prints (ranges_text (O.name_of objects.now) options
        (history_of r) (map shown_range ranges.now))
        (W.taken sink.old) (W.taken sink.new)) result }
{
    let mut room = Vec::new(alloc);
    // how many are taken at most is counted behind those that are left out
    match CommitWalk::begin(alloc, objects, ranges, options.all, None, &mut room) {
        Ok(walk) => {
            let mut walk = walk;
            print_chosen(alloc, objects, options, &mut walk, &mut room, sink)
        }
        Err(fault) => Err(refused(fault.word as u64, fault.kind)),
    }
}
