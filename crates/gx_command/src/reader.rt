//! The reader of commands.

ghost use Rattle.std.specs.Prelude.{◌≡◌, ◌-◌, ◌^◌, None};
ghost use Rattle.std.specs.Option.{option_map};
ghost use Rattle.gx_model.specs.Streams.Commands.{Commands, no_features};
ghost use Rattle.gx_command.specs.Ahead.{most, ReadsOn, Falls as FallsAhead};
ghost use Rattle.gx_command.specs.Behind.{at_start};
ghost use Rattle.gx_command.specs.Explaining.{ExplainsOn};
ghost use Rattle.gx_command.specs.Reading.{AreOfItems, ExplainsNext, MayCome, Reads, ReadsSayable, Finishes, Falls, Repeats, commands_asked_from, commands_from, next_after, over_after, state_after};
ghost use Rattle.gx_command.specs.Views.{shown_command};

use crate::ahead::Ahead;
use crate::commands::Command;
use crate::fault::CommandFault;
use gx_model::{Feature, Features};
use gx_text::Source;
use std::alloc::Allocator;
use std::marker::Model;

/// What options came so far.
#[derive(Clone, Copy)]
pub(crate) struct Options {
    /// No other command came.
    are_all: bool,
    /// `feature done` is among them, or was asked for as if it were.
    needs_done: bool,
}

/// How far a reader has come: commands may come, none comes any more, or each call answers a fault.
#[derive(Clone, Copy)]
pub(crate) enum State {
    Open(Options),
    Ended,
    Failed(CommandFault),
}

/// A reader of the commands of a stream, seen as the commands that are still to come, where the source tells its bytes,
/// a bound on how many may come, and how it is over. Source: git-fast-import(1), "Commands", in the profile of this project.
#[derive(Drop)]
pub struct CommandReader<R: Source, A: Allocator> {
    ahead: Ahead<R, A>,
    state: State,
}

impl<R: Source, A: Allocator> Model for CommandReader<R, A> {
    ghost use Rattle.std.specs.Option.{option_map};
    ghost use Rattle.gx_command.specs.Ahead.{to_come, most, shown_held_item};
    ghost use Rattle.gx_command.specs.Reading.{Seen, seen_commands};

    ghost Value = { Seen };

    ghost view = { λ r. seen_commands r.state (to_come r.ahead) (most r.ahead)
        (option_map shown_held_item r.ahead.held) r.ahead.items };
}

impl<R: Source, A: Allocator + Copy> CommandReader<R, A> {
    /// A reader of all the commands of a source. Takes no memory and constant time, and nothing is pulled yet.
    pub fn new(alloc: A, source: R) -> CommandReader<R, A>
        ensures commands { result.commands ≡ option_map commands_from (R.coming source) }
        ensures most { result.most ≡ 2 ^ 63 - 1 }
        ensures over { result.over ≡ None }
        ensures explains { (commands : Commands) → MayCome result commands
            → AreOfItems no_features commands }
    {
        CommandReader::asking(alloc, source, Features::none())
    }

    /// A reader of all the commands of a source, where these features are asked for as if it began with them. Options that
    /// come first are early, and no command is added. Takes no memory and constant time, and nothing is pulled yet.
    /// Source: git-fast-import(1), "--done".
    pub fn asking(alloc: A, source: R, features: Features) -> CommandReader<R, A>
        ensures commands { result.commands
            ≡ option_map (commands_asked_from features) (R.coming source) }
        ensures most { result.most ≡ 2 ^ 63 - 1 }
        ensures over { result.over ≡ None }
        ensures explains { (commands : Commands) → MayCome result commands
            → AreOfItems features commands }
    {
        CommandReader {
            ahead: Ahead::new(alloc, source),
            state: State::at_start(features),
        }
    }

    /// The next command, whole, or `None` after `done` and at the end of the stream.
    ///
    /// A command that ends with a block is whole with it. A commit or a reset is whole once the item after it was read,
    /// which is an empty line, or begins the next command; so a fault of that item comes in its place. What follows `done`
    /// is never read. After a fault each call answers the same fault, and after the end each call answers `None`.
    ///
    /// Errors: those of `CommandFault`, each with its causes there; of several in one command, the first from left to right.
    ///
    /// Cost: time in the bytes of the command and of the item after it. Memory: the command's own, the item after it, and
    /// the buffer of the items; a block's bytes are copied once, from that buffer into the command.
    /// Source: git-fast-import(1), "Commands".
    pub fn next(&mut self) -> Result<Option<Command<A>>, CommandFault>
        ensures reads { Reads self.old.commands self.new.commands result }
        ensures explains { ExplainsNext (MayCome self.old) (MayCome self.new) result }
        ensures finishes { Finishes self.new.commands result }
        ensures falls { Falls self.old.most self.new.most result }
        ensures over { self.new.over ≡ over_after result }
        ensures repeats { Repeats self.old.over self.old self.new result }
        ensures gitlinks { ReadsSayable result }
    {
        let options = match self.state {
            State::Open(options) => options,
            State::Ended => return Ok(None),
            State::Failed(fault) => return Err(fault),
        };
        match next_command(&mut self.ahead, options) {
            Ok(Some(command)) => {
                self.state = options.after(&command);
                Ok(Some(command))
            }
            Ok(None) => {
                self.state = State::Ended;
                Ok(None)
            }
            Err(fault) => {
                self.state = State::Failed(fault);
                Err(fault)
            }
        }
    }
}

/// The command that comes next. A stream that asks for `done` doesn't end without it.
pub(crate) fn next_command<R: Source, A: Allocator + Copy>(
    ahead: &mut Ahead<R, A>,
    options: Options,
) -> Result<Option<Command<A>>, CommandFault>
    ensures reads { ReadsOn (option_map shown_command) (next_after options)
        ahead.old ahead.new result }
    ensures explains { ExplainsOn (option_map shown_command) (next_after options)
        ahead.old ahead.new result }
    ensures falls { FallsAhead (most ahead.old) (most ahead.new) result }
{
    match ahead.command(options.are_all)? {
        Some(command) => Ok(Some(command)),
        None if options.needs_done => Err(CommandFault::MissingDone),
        None => Ok(None),
    }
}

impl State {
    /// No command came yet, and these features are asked for.
    pub(crate) fn at_start(features: Features) -> State
        ensures { result ≡ at_start features }
    {
        State::Open(Options {
            are_all: true,
            needs_done: features.done,
        })
    }
}

impl Options {
    /// The state after a command.
    pub(crate) fn after<A: Allocator>(self, command: &Command<A>) -> State
        ensures { result ≡ state_after self (shown_command command.now) }
    {
        match command {
            Command::Done => State::Ended,
            Command::Feature(Feature::Done) => State::Open(Options {
                needs_done: true,
                ..self
            }),
            Command::Feature(_) | Command::OptionLine(_) => State::Open(self),
            _ => State::Open(Options {
                are_all: false,
                ..self
            }),
        }
    }
}
