//! Commands that one store is asked, a line each. Source: git-cat-file(1), "--batch-command".

ghost use Rattle.std.specs.Prelude.{◌≡◌, [], Some, codes};
ghost use Rattle.gx_model.specs.Records.HistoryOf.{history_of};
ghost use Rattle.gx_rev.specs.RevFaults.{fault_of};
ghost use Rattle.gx_batch.specs.Answers.{reason};
ghost use Rattle.gx_batch.specs.Batches.{Sent};
ghost use Rattle.gx_batch.specs.Calls.{SendsAnswer};
ghost use Rattle.gx_text.specs.Lent.{lent_texts};
ghost use Rattle.gx_cli.specs.Answers.{Prints};
ghost use Rattle.gx_cli.specs.Commanding.{answered, command_answer};
ghost use Rattle.gx_print.specs.Asking.{no_options, printed_answer};
ghost use Rattle.gx_print.specs.Words.{words_in};
ghost use Rattle.gx_print.specs.Logs.{log_text};
ghost use Rattle.gx_print.specs.Stored.{Printed, names_text};
ghost use Rattle.gx_cli.specs.Trying.{having_taken};

use crate::archive::print_archive;
use crate::log::log;
use crate::ls::list;
use crate::refs::print_refs;
use crate::rev_parse::print_names;
use crate::{CliFault, CommitFilter, LogFormat, LogOptions};
use gx_batch::{Answerer, BatchFault, Format, answer_revision, make_line, put_behind, refuse};
use gx_object::Namer;
use gx_print::{Asked, read_asked, word_at, words_in};
use gx_repo::Repo;
use gx_rev::RevFault;
use gx_text::{Growing, Sink};
use itoa::Buffer;
use std::alloc::Allocator;

/// No commit is left out.
const ALL_COMMITS: CommitFilter = CommitFilter {
    merges: false,
    no_merges: false,
    since: None,
    until: None,
};

/// The options of `log` in a line.
const NO_OPTIONS: LogOptions = LogOptions {
    reverse: false,
    only: ALL_COMMITS,
    skip: None,
    max_count: None,
    count: false,
    parents: false,
    all: false,
    stdin: false,
    format: LogFormat::Names,
};

/// Answers lines as commands over a repository.
#[derive(Drop)]
pub(crate) struct Commands<'a, N: Namer, A: Allocator> {
    /// The allocator that answers take their memory of.
    pub(crate) alloc: A,
    pub(crate) repo: &'a Repo<N, A>,
    /// How the line of an object is made.
    pub(crate) format: &'a Format<A>,
}

impl<'a, N: Namer, A: Allocator + Copy> Answerer<A> for Commands<'a, N, A> {
    ghost answer_to = { λ self. command_answer (N.name_of self.repo.now.0)
        self.format.now.parts.items self.repo.now.1 };

    fn answer<W: Sink>(
        &self,
        line: &[u8],
        buffer: &mut Vec<u8, A>,
        sink: &mut W,
    ) -> Result<(), BatchFault> {
        match read_asked(line) {
            Asked::Contents(revision) => self.tell(false, revision, buffer, sink),
            Asked::Info(revision) => self.tell(true, revision, buffer, sink),
            Asked::Flush => Ok(()),
            Asked::Refs => {
                let mut made = Growing::new(self.alloc);
                let printed = print_refs(self.repo, &mut made);
                send_printed(b"refs", &[], printed, made, buffer, sink)
            }
            Asked::List(recursive, revision) => {
                let mut made = Growing::new(self.alloc);
                let printed = list(self.alloc, self.repo, recursive, revision, &mut made);
                send_printed(b"ls", &[revision], printed, made, buffer, sink)
            }
            Asked::Archive(revision) => {
                let mut made = Growing::new(self.alloc);
                let printed = print_archive(self.alloc, self.repo, b"", revision, &mut made);
                send_printed(b"archive", &[revision], printed, made, buffer, sink)
            }
            Asked::Log(rest) => self.print_log(rest, buffer, sink),
            Asked::Names(rest) => self.print_names(rest, buffer, sink),
            Asked::Unknown => refuse(line, b"unknown", buffer, sink),
        }
    }
}

impl<'a, N: Namer, A: Allocator + Copy> Commands<'a, N, A> {
    /// Sends what a batch answers to a revision.
    fn tell<W: Sink>(
        &self,
        check: bool,
        revision: &[u8],
        buffer: &mut Vec<u8, A>,
        sink: &mut W,
    ) -> Result<(), BatchFault>
        ensures { SendsAnswer N.name_of W.taken self.now.repo.now check
            self.now.format.now.parts.items revision.now sink.old sink.new result }
    {
        answer_revision(
            self.alloc,
            self.repo,
            check,
            self.format,
            revision,
            buffer,
            sink,
        )
    }

    /// Sends the commits that the range words of a text list.
    fn print_log<W: Sink>(
        &self,
        rest: &[u8],
        buffer: &mut Vec<u8, A>,
        sink: &mut W,
    ) -> Result<(), BatchFault>
        ensures { Sent (answered (codes "log") (words_in rest.now)
            (log_text (N.name_of self.now.repo.now.0) no_options (history_of self.now.repo.now.1)
            (words_in rest.now)))
            (W.taken sink.old) (W.taken sink.new) result }
    {
        let words = words_in(self.alloc, rest)?;
        let words = words.as_slice();
        let mut made = Growing::new(self.alloc);
        let printed = log(self.alloc, self.repo, NO_OPTIONS, words, &mut made);
        send_printed(b"log", words, printed, made, buffer, sink)
    }

    /// Sends the names of what the revisions of a text give.
    fn print_names<W: Sink>(
        &self,
        rest: &[u8],
        buffer: &mut Vec<u8, A>,
        sink: &mut W,
    ) -> Result<(), BatchFault>
        ensures { Sent (answered (codes "rev-parse") (words_in rest.now)
            (names_text (N.name_of self.now.repo.now.0) (history_of self.now.repo.now.1)
            (words_in rest.now)))
            (W.taken sink.old) (W.taken sink.new) result }
    {
        let words = words_in(self.alloc, rest)?;
        let words = words.as_slice();
        let mut made = Growing::new(self.alloc);
        let printed = print_names(self.alloc, self.repo, words, &mut made);
        send_printed(b"rev-parse", words, printed, made, buffer, sink)
    }
}

/// Sends what a command printed into memory of these words, behind its own line; or the first word that is refused, and why.
fn send_printed<W: Sink, A: Allocator + Copy>(
    command: &[u8],
    words: &[&[u8]],
    printed: Result<(), CliFault>,
    made: Growing<A>,
    buffer: &mut Vec<u8, A>,
    sink: &mut W,
) -> Result<(), BatchFault>
    ensures { (given : Printed) → Prints given (Some (having_taken [])) (Some made) printed
        → Sent (answered command.now (lent_texts words.now) given)
        (W.taken sink.old) (W.taken sink.new) result }
{
    match printed {
        Ok(()) => reply(command, &made.into_bytes(), buffer, sink),
        Err(CliFault::Revision { number, kind }) => {
            refuse(word_at(words, number), reason_of(kind), buffer, sink)
        }
        // The text goes to memory: that it isn't made means that there is none.
        Err(_) => Err(BatchFault::OutOfMemory),
    }
}

/// Sends a text behind a line of its command and its length, and an LF behind it.
fn reply<W: Sink, A: Allocator>(
    command: &[u8],
    text: &[u8],
    buffer: &mut Vec<u8, A>,
    sink: &mut W,
) -> Result<(), BatchFault>
    ensures { Sent (printed_answer command.now text.now)
        (W.taken sink.old) (W.taken sink.new) result }
{
    let mut digits = Buffer::new();
    make_line(command, digits.format(text.len()).as_bytes(), buffer)?;
    put_behind(text, buffer, sink)
}

/// Why a word is refused.
fn reason_of(kind: RevFault) -> &'static [u8]
    ensures { result.now ≡ reason (fault_of kind) }
{
    match kind {
        RevFault::Ambiguous => b"ambiguous",
        _ => b"missing",
    }
}
