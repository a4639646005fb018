//! The command line of `gx`, read by `clap`.

ghost use Rattle.std.specs.Prelude.{◌≡◌, IfErr, IfOk, Some, codes, map};
ghost use Rattle.clap.specs.Words.{first_of, found_of, kind_of, rows_of};
ghost use Rattle.gx_line.specs.CommandLine as say;

mod arguments;
mod changes;
mod commands;
mod manual;
mod questions;
mod values;

use crate::LineFault;
use changes::change_of;
use clap::error::ErrorKind;
use clap::{ArgMatches, Error};
use commands::command_line;
use gx_asks::{Change, Question, Trial};
use questions::question_of;
use std::alloc::Global;
use values::{any_words_of, is_set, number_of, option_of, unknown, word_of};

/// A command with its options and words.
#[derive(Debug, Drop)]
pub enum Line<'a> {
    /// A question to a store file.
    Ask {
        file: &'a str,
        question: Question<'a>,
    },
    /// A change of a store file. It waits for another run that writes the file: at most `wait` seconds, where that is given.
    Change {
        file: &'a str,
        wait: Option<u64>,
        change: Change<'a>,
    },
    /// A stream is tried, of which nothing is kept.
    Stream(Trial<'a>),
    /// It is told what a store holds, which is read whole. With `salvage` the refs whose history can be read are saved into a
    /// new store file, and it is told which are lost.
    Verify {
        file: &'a str,
        salvage: Option<&'a str>,
    },
    /// Refs of a store go out as a bundle, with the objects that they reach and that what range words exclude doesn't: those
    /// that words name, or all of them. With `head` this ref is HEAD, too. With `pack` the objects go out alone, as a pack.
    Bundle {
        file: &'a str,
        ranges: Vec<&'a str>,
        all: bool,
        head: Option<&'a str>,
        pack: bool,
    },
}

/// The line that the words after the program's name give.
///
/// Takes memory in proportion to the words. Words that clap takes for a line are refused by want of memory alone. Of a
/// command that has an argument with a rule on another one, clap doesn't tell which words it takes.
pub fn read_line<'a>(alloc: Global, words: &'a [&'a str]) -> Result<Line<'a>, LineFault>
    ensures line { IfOk result (λ line. say.IsReadFrom (map (λ s. s.now) words.entry.now) line) }
    ensures refused { IfErr result (say.RefusesNoLine (map (λ s. s.now) words.entry.now)) }
{
    let matches = match command_line(alloc)?.try_get_matches_from(words) {
        Ok(matches) => matches,
        Err(error) => return Err(fault_of(alloc, &error)),
    };
    match matches.subcommand() {
        Some((name, found)) => line_of(alloc, name, found),
        None => Err(unknown(alloc)),
    }
}

/// The line that a command and what clap found for it give.
#[tactic(auto, unfolding(crate::specs::CommandLine::Says, crate::specs::CommandLine::Asks, crate::specs::CommandLine::Alters, crate::specs::CommandLine::Tries))]
fn line_of<'a>(
    alloc: Global,
    name: &'a str,
    matches: &ArgMatches<'a>,
) -> Result<Line<'a>, LineFault>
    ensures line { IfOk result (λ line. say.Says name.now (rows_of (found_of matches.now)) line) }
    ensures refused { IfErr result (say.IsRefused name.now (rows_of (found_of matches.now))) }
{
    match name {
        "blobs" => Ok(Line::Stream(Trial::Blobs)),
        "try" => Ok(Line::Stream(Trial::Try {
            revision: word_of(alloc, matches, "rev")?,
            done: is_set(matches, "done"),
            force: is_set(matches, "force"),
            explain: is_set(matches, "explain"),
        })),
        "check" => Ok(Line::Stream(Trial::Check {
            done: is_set(matches, "done"),
            force: is_set(matches, "force"),
            explain: is_set(matches, "explain"),
        })),
        "adapt" => Ok(Line::Stream(Trial::Adapt {
            drop_signatures: is_set(matches, "drop-signatures"),
        })),
        "where" => where_line(alloc, matches),
        _ => file_line(alloc, name, matches, word_of(alloc, matches, "file")?),
    }
}

/// The line of `where`. clap makes sure that there is a number or `--fault`.
#[tactic(auto, unfolding(crate::specs::CommandLine::Says, crate::specs::CommandLine::Asks, crate::specs::CommandLine::Alters, crate::specs::CommandLine::Tries))]
fn where_line<'a>(alloc: Global, matches: &ArgMatches<'a>) -> Result<Line<'a>, LineFault>
    ensures line { IfOk result
        (λ line. say.Says (codes "where") (rows_of (found_of matches.now)) line) }
    ensures refused { IfErr result
        (say.IsRefused (codes "where") (rows_of (found_of matches.now))) }
{
    if is_set(matches, "fault") {
        return Ok(Line::Stream(Trial::WhereFault {
            done: is_set(matches, "done"),
            force: is_set(matches, "force"),
        }));
    }
    match number_of(matches, "number") {
        Some(command) => Ok(Line::Stream(Trial::Where(command))),
        None => Err(unknown(alloc)),
    }
}

/// The line that a command on a store file gives.
#[tactic(auto, unfolding(crate::specs::CommandLine::Says))]
fn file_line<'a>(
    alloc: Global,
    name: &'a str,
    matches: &ArgMatches<'a>,
    file: &'a str,
) -> Result<Line<'a>, LineFault>
    requires file { first_of (codes "file") (rows_of (found_of matches.now)) ≡ Some file.now }
    requires other { say.IsNoneOf say.stream_names name.now }
    ensures line { IfOk result (λ line. say.Says name.now (rows_of (found_of matches.now)) line) }
    ensures refused { IfErr result (say.IsRefused name.now (rows_of (found_of matches.now))) }
{
    match name {
        "verify" => Ok(Line::Verify {
            file,
            salvage: option_of(matches, "salvage"),
        }),
        "bundle" => Ok(Line::Bundle {
            file,
            ranges: any_words_of(alloc, matches, "range")?,
            all: is_set(matches, "all"),
            head: option_of(matches, "head"),
            pack: is_set(matches, "pack"),
        }),
        _ => ask_or_change(alloc, name, matches, file),
    }
}

/// The line of a command that changes a store file or asks a question of it.
#[tactic(auto, unfolding(crate::specs::CommandLine::Says))]
fn ask_or_change<'a>(
    alloc: Global,
    name: &'a str,
    matches: &ArgMatches<'a>,
    file: &'a str,
) -> Result<Line<'a>, LineFault>
    requires file { first_of (codes "file") (rows_of (found_of matches.now)) ≡ Some file.now }
    requires other { say.IsNoneOf say.stream_names name.now }
    requires neither { say.IsNoneOf say.whole_names name.now }
    ensures line { IfOk result (λ line. say.Says name.now (rows_of (found_of matches.now)) line) }
    ensures refused { IfErr result (say.IsRefused name.now (rows_of (found_of matches.now))) }
{
    match change_of(alloc, name, matches)? {
        Some(change) => Ok(Line::Change {
            file,
            wait: number_of(matches, "wait"),
            change,
        }),
        None => Ok(Line::Ask {
            file,
            question: question_of(alloc, name, matches)?,
        }),
    }
}

/// What clap answered, as a fault.
fn fault_of(alloc: Global, error: &Error) -> LineFault
    ensures { say.IsAnswer (kind_of error.now) result }
{
    if matches!(error.kind(), ErrorKind::OutOfMemory) {
        return LineFault::OutOfMemory;
    }
    match format!(in alloc; "{error}") {
        Ok(text) => LineFault::Status {
            status: if error.use_stderr() { 2 } else { 0 },
            text,
        },
        Err(_) => LineFault::OutOfMemory,
    }
}
