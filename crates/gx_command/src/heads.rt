//! The lines that begin commands.

ghost use Rattle.std.specs.Prelude.{◌≡◌, IsErrOf, IsOk};
ghost use Rattle.std.specs.Option.{option_map};
ghost use Rattle.gx_model.specs.Faults.{Gives, NeedsNoMemory};
ghost use Rattle.gx_model.specs.Streams.Items.{Stream};
ghost use Rattle.gx_model.specs.Streams.Grammar.{command_at};
ghost use Rattle.gx_stream.specs.Reading.{item_of};
ghost use Rattle.gx_command.specs.Ahead.{ReadsOn, Falls, FallsNot, to_come, most};
ghost use Rattle.gx_command.specs.CommandFaults.{fault_of};
ghost use Rattle.gx_command.specs.Explaining.{ExplainsFrom, ExplainsOn, MayBeAhead};
ghost use Rattle.gx_command.specs.Heads.{Begins, BeginsCommand, BeginsIn, BeginsWhole, ItemBegins, MayBeWhole, TakesStart, TakesHead, begun, begun_there, early_feature, early_rest, first, is_left_out, option_of, progress_of, started};
ghost use Rattle.gx_command.specs.Lines.{lent_bytes, shown_words};
ghost use Rattle.gx_command.specs.Views.{shown_command};
ghost use Rattle.gx_command.specs.declared.fault.CommandFault.TheVariants.{OutOfMemory};

use crate::ahead::Ahead;
use crate::commands::Command;
use crate::fault::CommandFault;
use crate::lines::Words;
use crate::texts::{RefName, TagName};
use gx_model::Feature;
use gx_stream::Item;
use gx_text::Source;
use std::alloc::Allocator;

/// What a command's first line says of it.
#[derive(Drop)]
pub(crate) enum Head<A: Allocator> {
    Blob,
    Commit(RefName<A>),
    Tag(TagName<A>),
    Reset(RefName<A>),
    /// All of the command.
    Whole(Command<A>),
}

/// A line where a command may begin.
#[derive(Drop)]
pub(crate) enum Start<A: Allocator> {
    Empty,
    Head(Head<A>),
}

impl<R: Source, A: Allocator + Copy> Ahead<R, A> {
    /// The next command, or `None` at the end of the items. Only options came before it, or `is_early` is false.
    pub(crate) fn command(&mut self, is_early: bool) -> Result<Option<Command<A>>, CommandFault>
        ensures reads { ReadsOn (option_map shown_command) (first is_early)
            self.old self.new result }
        ensures explains { ExplainsOn (option_map shown_command) (first is_early)
            self.old self.new result }
        ensures falls { Falls (most self.old) (most self.new) result }
    {
        match self.head(is_early)? {
            None => Ok(None),
            Some(head) => Ok(Some(self.body(head)?)),
        }
    }

    /// The rest of the command that begins so.
    #[tactic(auto, unfolding(crate::specs::Explaining::Explains))]
    fn body(&mut self, head: Head<A>) -> Result<Command<A>, CommandFault>
        ensures reads { ReadsOn shown_command (begun head) self.old self.new result }
        ensures explains { ExplainsOn shown_command (begun head) self.old self.new result }
        ensures falls { FallsNot (most self.old) (most self.new) result }
    {
        match head {
            Head::Blob => Ok(Command::Blob(self.blob()?)),
            Head::Commit(branch) => Ok(Command::Commit(self.commit(branch)?)),
            Head::Tag(name) => Ok(Command::Tag(self.tag(name)?)),
            Head::Reset(branch) => Ok(Command::Reset(self.reset(branch)?)),
            Head::Whole(command) => Ok(command),
        }
    }

    /// The head of the next command, past empty lines.
    fn head(&mut self, is_early: bool) -> Result<Option<Head<A>>, CommandFault>
        ensures takes { TakesHead is_early (to_come self.old) (to_come self.new) result }
        ensures explains { ExplainsFrom begun_there (first is_early) (MayBeAhead self.old)
            (MayBeAhead self.new) result }
        ensures falls { Falls (most self.old) (most self.new) result }
    {
        loop {
            match self.start(is_early)? {
                None => return Ok(None),
                Some(Start::Empty) => {}
                Some(Start::Head(head)) => return Ok(Some(head)),
            }
        }
    }

    fn start(&mut self, is_early: bool) -> Result<Option<Start<A>>, CommandFault>
        ensures takes { TakesStart is_early (to_come self.old) (to_come self.new) result }
        ensures explains { ExplainsFrom (started is_early) (first is_early) (MayBeAhead self.old)
            (MayBeAhead self.new) result }
        ensures falls { Falls (most self.old) (most self.new) result }
    {
        let alloc = self.alloc;
        self.take(|item| read_start(alloc, is_early, item))
    }
}

/// What an item begins. Each item is taken where a command may begin.
fn read_start<A: Allocator + Copy>(
    alloc: A,
    is_early: bool,
    item: Item<'_>,
) -> Result<Option<Start<A>>, CommandFault>
    ensures begins { (s : Stream) → BeginsIn is_early (item_of item.entry) s result }
    ensures memory { IsErrOf result OutOfMemory → ItemBegins is_early (item_of item.entry) }
{
    match item {
        Item::Data(_) => Err(CommandFault::UnknownCommand),
        Item::Line(line) if line.is_empty() => Ok(Some(Start::Empty)),
        Item::Line(line) => {
            let head = read_head(alloc, is_early, Words::of(line))?;
            Ok(Some(Start::Head(head)))
        }
    }
}

/// The command that a line begins with these words.
fn read_head<A: Allocator + Copy>(
    alloc: A,
    is_early: bool,
    words: Words<'_>,
) -> Result<Head<A>, CommandFault>
    ensures begins { (s : Stream)
        → Begins s result (command_at is_early (shown_words words.entry) s) }
    ensures memory { IsErrOf result OutOfMemory → BeginsCommand is_early (shown_words words.entry) }
{
    if words.is(b"blob") {
        words.bare(Head::Blob)
    } else if words.is(b"commit") {
        Ok(Head::Commit(RefName::read(alloc, words)?))
    } else if words.is(b"tag") {
        Ok(Head::Tag(TagName::read(alloc, words)?))
    } else if words.is(b"reset") {
        Ok(Head::Reset(RefName::read(alloc, words)?))
    } else {
        Ok(Head::Whole(read_whole(alloc, is_early, words)?))
    }
}

/// The command that a line with these words is, where it is all of one.
fn read_whole<A: Allocator + Copy>(
    alloc: A,
    is_early: bool,
    words: Words<'_>,
) -> Result<Command<A>, CommandFault>
    requires { MayBeWhole (shown_words words) }
    ensures begins { (s : Stream)
        → BeginsWhole s result (command_at is_early (shown_words words.entry) s) }
    ensures memory { IsErrOf result OutOfMemory → BeginsCommand is_early (shown_words words.entry) }
{
    if words.is(b"checkpoint") {
        words.bare(Command::Checkpoint)
    } else if words.is(b"progress") {
        read_progress(alloc, words)
    } else if words.is(b"feature") {
        Ok(Command::Feature(read_feature(is_early, words)?))
    } else if words.is(b"option") {
        read_option(alloc, is_early, words)
    } else if words.is(b"done") {
        words.bare(Command::Done)
    } else if is_left_out(words) {
        Err(CommandFault::Unsupported)
    } else {
        Err(CommandFault::UnknownCommand)
    }
}

fn read_progress<A: Allocator + Copy>(
    alloc: A,
    words: Words<'_>,
) -> Result<Command<A>, CommandFault>
    ensures reads { Gives fault_of shown_command result (progress_of (shown_words words.entry)) }
    ensures memory { IsErrOf result OutOfMemory → IsOk (progress_of (shown_words words.entry)) }
{
    let text = words.rest()?;
    Ok(Command::Progress(Vec::from_slice(alloc, text)?))
}

fn read_option<A: Allocator + Copy>(
    alloc: A,
    is_early: bool,
    words: Words<'_>,
) -> Result<Command<A>, CommandFault>
    ensures reads { Gives fault_of shown_command result
        (option_of is_early (shown_words words.entry)) }
    ensures memory { IsErrOf result OutOfMemory
        → IsOk (option_of is_early (shown_words words.entry)) }
{
    let text = early_rest(is_early, words)?;
    Ok(Command::OptionLine(Vec::from_slice(alloc, text)?))
}

/// The rest of an option, which stands before every other command.
fn early_rest<'a>(is_early: bool, words: Words<'a>) -> Result<&'a [u8], CommandFault>
    ensures rest { Gives fault_of lent_bytes result
        (early_rest is_early (shown_words words.entry)) }
    ensures memory { NeedsNoMemory CommandFault.OutOfMemory result }
{
    let rest = words.rest()?;
    if is_early {
        Ok(rest)
    } else {
        Err(CommandFault::LateOption)
    }
}

/// A command of git-fast-import(1) that isn't supported.
fn is_left_out(words: Words<'_>) -> bool
    ensures { result ≡ is_left_out (shown_words words.entry) }
{
    words.is(b"ls") || words.is(b"cat-blob") || words.is(b"get-mark") || words.is(b"alias")
}

fn read_feature(is_early: bool, words: Words<'_>) -> Result<Feature, CommandFault>
    ensures reads { Gives fault_of (λ f. f) result
        (early_feature is_early (shown_words words.entry)) }
    ensures memory { NeedsNoMemory CommandFault.OutOfMemory result }
{
    let text = early_rest(is_early, words)?;
    if text == b"done".as_slice() {
        Ok(Feature::Done)
    } else if text == b"date-format=raw".as_slice() {
        Ok(Feature::RawDates)
    } else if text == b"force".as_slice() {
        Ok(Feature::Force)
    } else {
        Err(CommandFault::Unsupported)
    }
}
