//! How many items stand behind the first commands of a stream.

ghost use Rattle.std.specs.Prelude.{◌≡◌, ◌≤◌, ◌≢◌, ◌-◌, ◌^◌, OnOk, IfErr};
ghost use Rattle.std.specs.Option.{option_map};
ghost use Rattle.gx_stream.specs.Heard.{items_from};
ghost use Rattle.gx_stream.specs.Reading.{item_of};
ghost use Rattle.gx_command.specs.Ahead.{to_come, most};
ghost use Rattle.gx_command.specs.Behind.{CountsLeft, ExplainsCount, ExplainsLeft, ExplainsPasses, Passes, TellsBehind, TellsLeft, fault_at, is_empty_line};
ghost use Rattle.gx_command.specs.Explaining.{MayBeAhead};

use crate::ahead::Ahead;
use crate::fault::CommandFault;
use crate::reader::{State, next_command};
use gx_model::Features;
use gx_stream::Item;
use gx_text::Source;
use std::alloc::Allocator;

/// Why the items behind some commands can't be told.
#[derive(Clone, Copy, Debug, PartialEq, Eq)]
pub enum BehindFault {
    /// There was no memory for what came.
    OutOfMemory,
    /// One of the commands, counted from 1, meets this fault, which is not `OutOfMemory`.
    Command {
        /// The number of the command.
        command: u64,
        /// Its fault.
        kind: CommandFault,
    },
}

/// How many items of a source stand behind its first commands, so many, and behind the empty lines after them. `None`
/// where it has fewer. Those items may end with a fault, and hold commands that can't be read.
///
/// Cost: time in the bytes of the source. Memory: that of the commands, one by one, and the longest item.
/// Source: git-fast-import(1), "Commands".
pub fn items_behind<R: Source + Drop, A: Allocator + Copy>(
    alloc: A,
    source: R,
    commands: u64,
) -> Result<Option<u64>, BehindFault>
    ensures { TellsBehind commands (option_map items_from (R.coming source)) result }
{
    let mut ahead = Ahead::new(alloc, source);
    ahead.count_behind(commands)
}

impl<R: Source, A: Allocator + Copy> Ahead<R, A> {
    /// Reads so many commands, and counts the items that are left behind them and the empty lines after them.
    fn count_behind(&mut self, commands: u64) -> Result<Option<u64>, BehindFault>
        requires { most self.old ≤ 2 ^ 63 - 1 }
        ensures tells { TellsLeft commands (to_come self.old) result }
        ensures explains { ExplainsLeft commands (MayBeAhead self.old) result }
    {
        if !self.pass_commands(commands)? {
            return Ok(None);
        }
        Ok(Some(self.count_left()?))
    }

    /// Reads so many commands from the first on. Answers whether there are so many.
    fn pass_commands(&mut self, commands: u64) -> Result<bool, BehindFault>
        ensures passes { Passes commands (to_come self.old) (to_come self.new) result }
        ensures explains { ExplainsPasses commands (MayBeAhead self.old)
            (MayBeAhead self.new) result }
        ensures falls { OnOk result (most self.new ≤ most self.old) }
    {
        let mut state = State::at_start(Features::none());
        let mut passed = 0;
        while passed < commands {
            let State::Open(options) = state else {
                return Ok(false);
            };
            match next_command(self, options) {
                Ok(Some(command)) => state = options.after(&command),
                Ok(None) => return Ok(false),
                Err(kind) => return Err(fault_at(passed + 1, kind)),
            }
            passed += 1;
        }
        Ok(true)
    }

    /// Takes all the items that are left, and counts them without the empty lines before them.
    fn count_left(&mut self) -> Result<u64, BehindFault>
        requires { most self.old ≤ 2 ^ 63 - 1 }
        ensures counts { CountsLeft (to_come self.old) result }
        ensures explains { ExplainsCount (MayBeAhead self.old) result }
    {
        let mut count = 0;
        loop {
            match self.take(|item| Ok(Some(is_empty_line(item)))) {
                Ok(Some(is_empty)) => {
                    if count > 0 || !is_empty {
                        count += 1;
                    }
                }
                Ok(None) => return Ok(count),
                Err(CommandFault::OutOfMemory) => return Err(BehindFault::OutOfMemory),
                Err(_) => return Ok(count),
            }
        }
    }
}

fn is_empty_line(item: Item<'_>) -> bool
    ensures { result ≡ is_empty_line (item_of item.entry) }
{
    match item {
        Item::Line(line) => line.is_empty(),
        Item::Data(_) => false,
    }
}

/// The fault of a command with this number.
fn fault_at(command: u64, kind: CommandFault) -> BehindFault
    ensures { result ≡ fault_at command kind }
{
    match kind {
        CommandFault::OutOfMemory => BehindFault::OutOfMemory,
        _ => BehindFault::Command { command, kind },
    }
}
