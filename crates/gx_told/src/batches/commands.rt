//! What is answered to a line as a command. Source: git-cat-file(1), "--batch-command".

ghost use Rattle.std.specs.Prelude.{[], Some, codes};
ghost use Rattle.gx_batch.specs.Answers.{reason};
ghost use Rattle.gx_model.specs.Records.HistoryOf.{history_of};
ghost use Rattle.gx_print.specs.Asking.{answered_by, no_options, printed_answer};
ghost use Rattle.gx_print.specs.Logs.{log_text};
ghost use Rattle.gx_print.specs.Stored.{Printed, names_text};
ghost use Rattle.gx_print.specs.Words.{words_in};
ghost use Rattle.gx_questions.specs.Answers.{IfTold};
ghost use Rattle.gx_text.specs.Lent.{lent_texts};
ghost use Rattle.gx_told.specs.Batching.{SendsAnswer, command_answer, having_taken};
ghost use Rattle.gx_told.specs.Printing.{Prints};

use super::revisions::{answer_revision, reason_of, send_behind, send_line};
use crate::ToldFault;
use crate::archive::print_archive;
use crate::log::log;
use crate::ls::list;
use crate::refs::print_refs;
use crate::rev_parse::print_names;
use gx_asks::{CommitFilter, LogFormat, LogOptions};
use gx_batch::{Format, make_line};
use gx_objects::Objects;
use gx_print::{Asked, read_asked, word_at, words_in};
use gx_text::{Growing, Sink};
use itoa::Buffer;
use std::alloc::Allocator;

/// No commit is left out.
const ALL_COMMITS: CommitFilter = CommitFilter {
    merges: false,
    no_merges: false,
    since: None,
    until: None,
};

/// The options of `log` in a line.
const NO_OPTIONS: LogOptions = LogOptions {
    reverse: false,
    only: ALL_COMMITS,
    skip: None,
    max_count: None,
    count: false,
    parents: false,
    all: false,
    stdin: false,
    format: LogFormat::Names,
};

/// Sends what is answered to a line as a command.
pub(super) fn answer_command<O: Objects, W: Sink, A: Allocator + Copy>(
    alloc: A,
    objects: &O,
    format: &Format<A>,
    line: &[u8],
    room: &mut Vec<u8, A>,
    buffer: &mut Vec<u8, A>,
    sink: &mut W,
) -> Result<(), ToldFault>
    ensures { IfTold (O.told objects.now) (λ r. SendsAnswer
        (command_answer (O.name_of objects.now) format.now.parts.items r line.now)
        (W.taken sink.old) (W.taken sink.new)) result }
{
    match read_asked(line) {
        Asked::Contents(revision) => {
            answer_revision(alloc, objects, false, format, revision, room, buffer, sink)
        }
        Asked::Info(revision) => {
            answer_revision(alloc, objects, true, format, revision, room, buffer, sink)
        }
        Asked::Flush => Ok(()),
        Asked::Refs => {
            let mut made = Growing::new(alloc);
            let printed = print_refs(alloc, objects, &mut made);
            send_printed(b"refs", &[], printed, made, buffer, sink)
        }
        Asked::List(recursive, revision) => {
            let mut made = Growing::new(alloc);
            let printed = list(alloc, objects, recursive, revision, &mut made);
            send_printed(b"ls", &[revision], printed, made, buffer, sink)
        }
        Asked::Archive(revision) => {
            let mut made = Growing::new(alloc);
            let printed = print_archive(alloc, objects, b"", revision, &mut made);
            send_printed(b"archive", &[revision], printed, made, buffer, sink)
        }
        Asked::Log(rest) => answer_log(alloc, objects, rest, buffer, sink),
        Asked::Names(rest) => answer_names(alloc, objects, rest, buffer, sink),
        Asked::Unknown => send_line(line, b"unknown", buffer, sink),
    }
}

/// Sends the commits that the range words of a text list.
fn answer_log<O: Objects, W: Sink, A: Allocator + Copy>(
    alloc: A,
    objects: &O,
    rest: &[u8],
    buffer: &mut Vec<u8, A>,
    sink: &mut W,
) -> Result<(), ToldFault>
    ensures { IfTold (O.told objects.now) (λ r. SendsAnswer (answered_by reason (codes "log")
        (words_in rest.now)
        (log_text (O.name_of objects.now) no_options (history_of r) (words_in rest.now)))
        (W.taken sink.old) (W.taken sink.new)) result }
{
    let words = words_in(alloc, rest)?;
    let words = words.as_slice();
    let mut made = Growing::new(alloc);
    let printed = log(alloc, objects, NO_OPTIONS, words, &mut made);
    send_printed(b"log", words, printed, made, buffer, sink)
}

/// Sends the names of what the revisions of a text give.
fn answer_names<O: Objects, W: Sink, A: Allocator + Copy>(
    alloc: A,
    objects: &O,
    rest: &[u8],
    buffer: &mut Vec<u8, A>,
    sink: &mut W,
) -> Result<(), ToldFault>
    ensures { IfTold (O.told objects.now) (λ r. SendsAnswer (answered_by reason (codes "rev-parse")
        (words_in rest.now)
        (names_text (O.name_of objects.now) (history_of r) (words_in rest.now)))
        (W.taken sink.old) (W.taken sink.new)) result }
{
    let words = words_in(alloc, rest)?;
    let words = words.as_slice();
    let mut made = Growing::new(alloc);
    let printed = print_names(alloc, objects, words, &mut made);
    send_printed(b"rev-parse", words, printed, made, buffer, sink)
}

/// Sends what a command printed into memory of these words, behind its own line; or the first word that is refused, and why.
fn send_printed<W: Sink, A: Allocator + Copy>(
    command: &[u8],
    words: &[&[u8]],
    printed: Result<(), ToldFault>,
    made: Growing<A>,
    buffer: &mut Vec<u8, A>,
    sink: &mut W,
) -> Result<(), ToldFault>
    ensures { (given : Printed) → Prints given (Some (having_taken [])) (Some made) printed
        → SendsAnswer (answered_by reason command.now (lent_texts words.now) given)
        (W.taken sink.old) (W.taken sink.new) result }
{
    match printed {
        Ok(()) => reply(command, &made.into_bytes(), buffer, sink),
        Err(ToldFault::Revision { number, kind }) => {
            send_line(word_at(words, number), reason_of(kind), buffer, sink)
        }
        // The text goes to memory: that it isn't taken means that there is none.
        Err(ToldFault::WriteFailed) => Err(ToldFault::OutOfMemory),
        Err(fault) => Err(fault),
    }
}

/// Sends a text behind a line of its command and its length, and an LF behind it.
fn reply<W: Sink, A: Allocator>(
    command: &[u8],
    text: &[u8],
    buffer: &mut Vec<u8, A>,
    sink: &mut W,
) -> Result<(), ToldFault>
    ensures { SendsAnswer (printed_answer command.now text.now)
        (W.taken sink.old) (W.taken sink.new) result }
{
    let mut digits = Buffer::new();
    make_line(command, digits.format(text.len()).as_bytes(), buffer)?;
    send_behind(text, buffer, sink)
}
