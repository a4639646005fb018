//! The commits that range words list, each in its format. Source: git-log(1) and git-rev-list(1).

ghost use Rattle.gx_model.specs.Records.HistoryOf.{history_of};
ghost use Rattle.gx_text.specs.Lent.{lent_texts};
ghost use Rattle.gx_cli.specs.Answers.{Prints};
ghost use Rattle.gx_cli.specs.Logs.{LogsFrom};
ghost use Rattle.gx_print.specs.Logs.{log_text};
ghost use Rattle.gx_print.specs.Words.{with_lines};

mod choices;
mod commits;
mod formats;

use crate::lines::lines_from;
use crate::words::ranges_of;
use crate::{CliFault, LogOptions};
use choices::names_chosen;
use commits::names_listed;
use formats::print_chosen;
use gx_object::Namer;
use gx_print::{add_lines, texts_of};
use gx_repo::Repo;
use gx_text::{Sink, Source};
use std::alloc::Allocator;

/// Prints the commits that range words list. With `stdin` the lines of the source are words, too, behind those that are given.
///
/// `ReadFailed`: the source failed, and nothing was printed. Cost: that of reading the source, and that of `log`.
pub(crate) fn log_with_lines<N: Namer, R: Source + Drop, W: Sink, A: Allocator + Copy>(
    alloc: A,
    repo: &Repo<N, A>,
    options: LogOptions,
    words: &[&str],
    source: R,
    sink: &mut W,
) -> Result<(), CliFault>
    ensures { LogsFrom (N.name_of repo.now.0) options options.stdin repo.now.1
        (lent_texts words.now) (R.coming source)
        (W.taken sink.old) (W.taken sink.new) result }
{
    if options.stdin {
        let lines = lines_from(alloc, source)?;
        log_words(alloc, repo, options, words, lines.as_slice(), sink)
    } else {
        log_words(alloc, repo, options, words, &[], sink)
    }
}

/// Does what `log` does with words and with lines behind them.
fn log_words<'a, N: Namer, A: Allocator + Copy, W: Sink>(
    alloc: A,
    repo: &Repo<N, A>,
    options: LogOptions,
    words: &[&'a str],
    lines: &'a [Vec<u8, A>],
    sink: &mut W,
) -> Result<(), CliFault>
    ensures { Prints (log_text (N.name_of repo.now.0) options (history_of repo.now.1)
        (with_lines words.now lines.now))
        (W.taken sink.old) (W.taken sink.new) result }
{
    let mut asked = texts_of(alloc, words)?;
    add_lines(&mut asked, lines)?;
    log(alloc, repo, options, asked.as_slice(), sink)
}

/// Prints the commits that range words list, the last made first, and with `all` those of all refs, too; of these those that the
/// options keep. The commits go out one after the other. With `count` it is told how many they are.
///
/// `Revision`: the first word that isn't a range word, or else the first that gives nothing, by its number from 1.
/// Cost: that of `walk`, and for each commit a look-up and its text. Memory: the ranges, the names, and the longest text of a
/// commit.
pub(crate) fn log<N: Namer, A: Allocator + Copy, W: Sink>(
    alloc: A,
    repo: &Repo<N, A>,
    options: LogOptions,
    words: &[&[u8]],
    sink: &mut W,
) -> Result<(), CliFault>
    ensures { Prints (log_text (N.name_of repo.now.0) options (history_of repo.now.1)
        (lent_texts words.now))
        (W.taken sink.old) (W.taken sink.new) result }
{
    let ranges = ranges_of(alloc, words)?;
    let names = names_listed(alloc, repo, ranges.as_slice(), options.all)?;
    let names = names_chosen(alloc, repo, options, names.as_slice())?;
    print_chosen(alloc, repo, options, names.as_slice(), sink)
}
