//! The arguments of the commands, as clap is told of them.

ghost use Rattle.std.specs.Prelude.{◌≡◌, false};
ghost use Rattle.clap.specs.Words.{rule_of};
ghost use Rattle.gx_line.specs.Arguments as rules;
ghost use Rattle.gx_line.specs.CommandLine as say;

use clap::builder::ValueParser;
use clap::{Arg, ArgAction, Command};
use std::alloc::{AllocError, Global};

/// The revision of a command.
pub(super) fn revision<'a>(alloc: Global) -> Arg<'a>
    ensures rule { rule_of result ≡ rules.revision }
    ensures local { result.global ≡ false }
{
    one_word(alloc, "rev", "REV", "A revision, as gx --help has it")
}

/// A positional argument that isn't left out. Help shows it by `shown`.
pub(super) fn one_word<'a>(alloc: Global, id: &'a str, shown: &'a str, help: &'a str) -> Arg<'a>
    ensures rule { rule_of result ≡ rules.one_word id.entry.now }
    ensures local { result.global ≡ false }
{
    Arg::new(alloc, id)
        .required(true)
        .value_name(shown)
        .help(help)
}

/// A positional argument that may be left out. Help shows it by `shown`.
pub(super) fn any_word<'a>(alloc: Global, id: &'a str, shown: &'a str, help: &'a str) -> Arg<'a>
    ensures rule { rule_of result ≡ rules.any_word id.entry.now }
    ensures local { result.global ≡ false }
{
    Arg::new(alloc, id).value_name(shown).help(help)
}

/// A positional argument that stands at least once. Help shows it by `shown`.
pub(super) fn words<'a>(alloc: Global, id: &'a str, shown: &'a str, help: &'a str) -> Arg<'a>
    ensures rule { rule_of result ≡ rules.words id.entry.now }
    ensures local { result.global ≡ false }
{
    one_word(alloc, id, shown, help).num_args(1..)
}

/// Positional arguments that may be left out. Help shows each by `shown`.
pub(super) fn any_words<'a>(alloc: Global, id: &'a str, shown: &'a str, help: &'a str) -> Arg<'a>
    ensures rule { rule_of result ≡ rules.any_words id.entry.now }
    ensures local { result.global ≡ false }
{
    Arg::new(alloc, id)
        .value_name(shown)
        .help(help)
        .num_args(1..)
}

/// A flag that is given by its id.
pub(super) fn flag<'a>(alloc: Global, id: &'a str, help: &'a str) -> Arg<'a>
    ensures rule { rule_of result ≡ rules.flag id.entry.now }
    ensures local { result.global ≡ false }
{
    Arg::new(alloc, id)
        .long(id)
        .action(ArgAction::SetTrue)
        .help(help)
}

/// A flag that is given by a letter alone.
pub(super) fn letter<'a>(alloc: Global, id: &'a str, letter: char, help: &'a str) -> Arg<'a>
    ensures rule { rule_of result ≡ rules.letter id.entry.now letter }
    ensures local { result.global ≡ false }
{
    Arg::new(alloc, id)
        .short(letter)
        .action(ArgAction::SetTrue)
        .help(help)
}

/// An option with a text, which is given by its id. Help shows the text by `shown`.
pub(super) fn text<'a>(alloc: Global, id: &'a str, shown: &'a str, help: &'a str) -> Arg<'a>
    ensures rule { rule_of result ≡ rules.text id.entry.now }
    ensures local { result.global ≡ false }
{
    Arg::new(alloc, id).long(id).value_name(shown).help(help)
}

/// A whole number below 2^64. Help shows it by `shown`.
pub(super) fn number<'a>(alloc: Global, id: &'a str, shown: &'a str, help: &'a str) -> Arg<'a>
    ensures rule { rule_of result ≡ rules.whole_number id.entry.now }
    ensures local { result.global ≡ false }
{
    Arg::new(alloc, id)
        .value_name(shown)
        .value_parser(ValueParser::unsigned(0, u64::MAX))
        .help(help)
}

/// A command with one argument more, where there was memory for the command.
pub(super) fn with_argument<'a>(
    command: Result<Command<'a>, AllocError>,
    argument: Arg<'a>,
) -> Result<Command<'a>, AllocError>
    requires { argument.global ≡ false }
    ensures { say.AddsArgument command.entry (rule_of argument.entry) result }
{
    match command {
        Ok(command) => command.arg(argument),
        Err(error) => Err(error),
    }
}
