//! The marks of blobs and of tags, which no tag may be of here.

ghost use Rattle.std.specs.Prelude.{◌≡◌, IfOk, OnOk, []};
ghost use Rattle.std.specs.Result.{result_ok};
ghost use Rattle.gx_model.specs.Streams.Lines.{mark_of};
ghost use Rattle.gx_model.specs.Streams.Items.{Line};
ghost use Rattle.gx_adapt.specs.Marks.{command_begun, is_blob_or_tag, is_tag, mark_behind};
ghost use Rattle.gx_adapt.specs.Adapting.{Passes, SetsMark, StandsBehind, names_held};

use crate::lot::is_reset_line;
use gx_text::{cut, mark_number};
use std::alloc::{AllocError, Allocator};
use std::collections::BTreeSet;

/// A command with a mark or a `from`.
#[derive(Clone, Copy)]
pub(crate) enum Command {
    Blob,
    Commit,
    Tag,
    Reset,
}

/// The command that a stream is in, and the marks of its blobs and tags so far.
#[derive(Drop)]
pub(crate) struct Marks<A: Allocator> {
    pub(crate) command: Option<Command>,
    pub(crate) numbers: BTreeSet<u64, A>,
}

impl<A: Allocator + Copy> Marks<A> {
    /// Those before a stream: none. Takes no memory.
    pub(crate) fn new(alloc: A) -> Marks<A>
        ensures { StandsBehind [] result }
    {
        Marks {
            command: None,
            numbers: BTreeSet::new(alloc),
        }
    }

    /// Goes behind a line, and answers whether it is the `from` of a tag of a blob or of a tag.
    ///
    /// Cost: the line's length, and the logarithm of the number of marks.
    pub(crate) fn pass(&mut self, line: &[u8]) -> Result<bool, AllocError>
        ensures names { IfOk result (λ names. names ≡ names_held self.old (Line line.now)) }
        ensures passes { OnOk result (Passes (Line line.now) self.old self.new) }
    {
        let names = self.names_blob_or_tag(line);
        self.set(line)?;
        if let Some(command) = command_begun(line) {
            self.command = Some(command);
        }
        Ok(names)
    }

    /// Whether a line is the `from` of a tag, and names a mark of a blob or of a tag.
    fn names_blob_or_tag(&self, line: &[u8]) -> bool
        ensures { result ≡ names_held self.now (Line line.now) }
    {
        if !is_tag(self.command) {
            return false;
        }
        match mark_behind(b"from", line) {
            Some(number) => self.numbers.contains(&number),
            None => false,
        }
    }

    /// Sets the mark of the present command, where a line asks for one. A number that is used again moves.
    fn set(&mut self, line: &[u8]) -> Result<(), AllocError>
        ensures command { OnOk result (self.new.command ≡ self.old.command) }
        ensures sets { OnOk result (SetsMark (Line line.now) self.old self.new) }
    {
        if let Some(number) = mark_behind(b"mark", line) {
            if is_blob_or_tag(self.command) {
                self.numbers.insert(number)?;
            } else {
                self.numbers.remove(&number);
            }
        }
        Ok(())
    }
}

fn is_blob_or_tag(command: Option<Command>) -> bool
    ensures { result ≡ is_blob_or_tag command }
{
    matches!(command, Some(Command::Blob | Command::Tag))
}

fn is_tag(command: Option<Command>) -> bool
    ensures { result ≡ is_tag command }
{
    matches!(command, Some(Command::Tag))
}

/// The command that a line begins.
#[tactic(auto, unfolding(crate::specs::Marks::command_begun))]
fn command_begun(line: &[u8]) -> Option<Command>
    ensures { result ≡ command_begun line.now }
{
    if line == b"blob".as_slice() {
        Some(Command::Blob)
    } else if line.starts_with(b"commit ") {
        Some(Command::Commit)
    } else if line.starts_with(b"tag ") {
        Some(Command::Tag)
    } else if is_reset_line(line) {
        Some(Command::Reset)
    } else {
        None
    }
}

/// The mark behind a line's word, where it is this word.
#[tactic(auto, unfolding(crate::specs::Marks::mark_behind))]
fn mark_behind(word: &[u8], line: &[u8]) -> Option<u64>
    ensures { result ≡ mark_behind word.now line.now }
{
    match cut(line, b' ') {
        Some((first, text)) if first == word => mark_of(text),
        _ => None,
    }
}

/// A colon and a mark's number.
#[tactic(auto, unfolding(gx_model::specs::Streams::Lines::mark_of))]
fn mark_of(text: &[u8]) -> Option<u64>
    ensures { result ≡ result_ok (mark_of text.now) }
{
    match text.split_first() {
        Some((b':', digits)) => mark_number(digits),
        _ => None,
    }
}
