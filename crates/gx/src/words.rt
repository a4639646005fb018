//! The words of the command line: those that are for the program itself, and the line that the others are.

mod commands;
mod version;

use crate::fault::RunFault;
use crate::run::{Run, Subject, Way};
use commands::{run_line, tell_refusal};
use gx_cli::{CliFault, LineFault, read_line};
use std::alloc::AllocError;
use std::env::Args;
use std::io::{self, ErrorKind};
use std::process::ExitCode;
use version::tell_version;

/// The word in front of a command that asks for the causes of failures.
const EXPLAIN: &str = "--explain";

/// The words in front of a command that ask an import to be done in one way alone, for tests of both.
const WAYS: [(&str, Way); 2] = [("--way=whole", Way::Whole), ("--way=small", Way::Small)];

/// The word that asks what the program is.
const VERSION: &str = "--version";

/// Runs the command of the arguments behind the program's name. One that isn't text is a command line that isn't accepted.
pub(crate) fn run_arguments(rt: &HostRuntime, args: io::Result<Args>) -> ExitCode {
    match collected(rt, args) {
        Ok(args) => run_words(rt, &args),
        Err(error) if error.kind() == ErrorKind::InvalidData => {
            let _ = eprintln!(rt; "error: an argument isn't UTF-8");
            ExitCode::from(2)
        }
        Err(_) => refuse(&Run::new(rt, false), CliFault::OutOfMemory),
    }
}

/// The arguments, each of them text.
fn collected(rt: &HostRuntime, args: io::Result<Args>) -> io::Result<Vec<String>> {
    Ok(args?.collect(rt.alloc())?)
}

/// Runs the command of a line's words, behind those for the program itself, which stand in front.
fn run_words(rt: &HostRuntime, args: &[String]) -> ExitCode {
    let Ok(all) = words_of(rt, args) else {
        return refuse(&Run::new(rt, false), CliFault::OutOfMemory);
    };
    let all = all.as_slice();
    if is_first(all, VERSION) && all.len() == 1 {
        return tell_text(&Run::new(rt, false), tell_version(rt));
    }
    let explains = is_first(all, EXPLAIN);
    let words = all.get(usize::from(explains)..).unwrap_or(&[]);
    let run = Run::new(rt, explains);
    match WAYS.iter().find(|way| is_first(words, way.0)) {
        Some((_, way)) => run_command(&run.by_way(Some(*way)), words.get(1..).unwrap_or(&[])),
        None => run_command(&run, words),
    }
}

/// The words behind the program's name.
fn words_of<'a>(rt: &HostRuntime, args: &'a [String]) -> Result<Vec<&'a str>, AllocError> {
    let mut words = Vec::new(rt.alloc());
    for arg in args.iter().skip(1) {
        words.push(arg.as_str())?;
    }
    Ok(words)
}

fn is_first(words: &[&str], word: &str) -> bool {
    !words.is_empty() && words[0] == word
}

/// Runs the command of a line's words. Help goes to standard output, and why a line isn't accepted to standard error.
fn run_command(run: &Run<'_>, words: &[&str]) -> ExitCode {
    match read_line(run.rt.alloc(), words) {
        Ok(line) => match run_line(run, &line) {
            Ok(status) => ExitCode::from(status),
            Err(fault) => tell_refusal(run, &line, &fault),
        },
        Err(LineFault::OutOfMemory) => refuse(run, CliFault::OutOfMemory),
        Err(LineFault::Status { status: 0, text }) => tell_text(run, print!(run.rt; "{text}")),
        Err(LineFault::Status { status, text }) => {
            let _ = eprint!(run.rt; "{text}");
            ExitCode::from(status)
        }
    }
}

/// The status of a run that only prints a text.
fn tell_text(run: &Run<'_>, printed: io::Result<()>) -> ExitCode {
    match run.want_written(Subject::Output, printed) {
        Ok(()) => ExitCode::SUCCESS,
        Err(fault) => refuse(run, fault),
    }
}

fn refuse(run: &Run<'_>, fault: CliFault) -> ExitCode {
    run.tell(&RunFault::Command(fault), None, None);
    ExitCode::from(1)
}
