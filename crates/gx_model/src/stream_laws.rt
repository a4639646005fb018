//! Laws of streams: how a text reads as items, and items as commands.
ghost use Rattle.gx_model.specs.Laws.CommandLaws.{OneCommands, SomeCommands};
ghost use Rattle.gx_model.specs.Laws.StreamLaws.{OneReading, SomeReading};

/// Every text, with an end or a failure after it, has a reading: comments, lines and blocks that spell it from front to back,
/// and an end. It is the one that the contracts of readers speak of.
#[tactic(auto, using(crate::proofs::Streams::Found::has_reading))]
pub fn some_reading()
    ensures reading { SomeReading }
{}

/// No text has two readings.
#[tactic(auto, using(crate::proofs::Streams::Readings::only_reading))]
pub fn one_reading()
    ensures reading { OneReading }
{}

/// All items, with an end or a failure after them, have the shape of some commands: the lines and blocks of each stand as in the tables
/// of git-fast-import(1), and a fault is that of the first line or missing item that fits in none. They are the commands that the
/// contracts of readers speak of.
#[tactic(auto, using(crate::proofs::Streams::CommandReadings::some_commands))]
pub fn some_commands()
    ensures commands { SomeCommands }
{}

/// No items have the shape of two lists of commands, or of two faults.
#[tactic(auto, using(crate::proofs::Streams::CommandReadings::one_commands))]
pub fn one_commands()
    ensures commands { OneCommands }
{}
