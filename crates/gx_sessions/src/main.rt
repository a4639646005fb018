//! Runs the sessions of the files beside it over the commands of `gx_cli`, and prints how many sessions and commands each file
//! has. Names of files may be given. An answer that is wrong is printed, with its file and line, and ends with status 1.
#![tactic(auto)]

mod answer;
mod call;
mod command;
mod folder;
mod notation;
mod pass;
mod reporting;
mod running;
mod serving;
mod shown;
mod store_text;

use notation::{Step, steps_of};
use running::{Wrong, first_wrong};
use std::alloc::AllocError;
use std::hash::RandomState;
use std::process::ExitCode;
use std::{env, fs, io};

fn main(rt: HostRuntime) -> io::Result<ExitCode> {
    let state = RandomState::new(&rt)?;
    let names = file_names(&rt)?;
    let mut is_right = true;
    for name in &names {
        if !run_file(&rt, name.as_str(), state)? {
            is_right = false;
        }
    }
    Ok(ExitCode::from(if is_right { 0 } else { 1 }))
}

/// The names that are given, or those of all files with sessions, in their order.
fn file_names(rt: &HostRuntime) -> io::Result<Vec<String>> {
    let mut names: Vec<String> = env::args(rt)?.collect(rt.alloc())?;
    if names.len() > 1 {
        names.remove(0);
        return Ok(names);
    }
    names.clear();
    for entry in fs::read_dir(rt, ".")? {
        put_name(rt, &mut names, entry?.file_name())?;
    }
    names.sort_unstable();
    Ok(names)
}

/// Puts the name of a file with sessions.
fn put_name(rt: &HostRuntime, names: &mut Vec<String>, name: &str) -> Result<(), AllocError> {
    if name.ends_with(".session") {
        names.push(String::from_str(rt.alloc(), name)?)?;
    }
    Ok(())
}

/// Runs the sessions of a file, and prints how many they are, or the first wrong answer. Answers whether there is none.
fn run_file(rt: &HostRuntime, name: &str, state: RandomState) -> io::Result<bool> {
    let text = fs::read_to_string(rt, name)?;
    let steps = steps_of(rt.alloc(), text.as_str())?;
    match first_wrong(rt.alloc(), &steps, state)? {
        None => {
            print_counts(rt, name, &steps)?;
            Ok(true)
        }
        Some(wrong) => {
            print_wrong(rt, name, &wrong)?;
            Ok(false)
        }
    }
}

fn print_wrong(rt: &HostRuntime, name: &str, wrong: &Wrong<'_>) -> io::Result<()> {
    let (number, command, way) = (wrong.number, wrong.command, wrong.way);
    let (expected, got) = (wrong.expected.as_str(), wrong.got.as_str());
    println!(rt; "{name}:{number}: $ {command}\n({way})")?;
    println!(rt; "expected:\n{expected}got:\n{got}")?;
    Ok(())
}

/// Prints how many sessions and commands a file has.
fn print_counts(rt: &HostRuntime, name: &str, steps: &[Step<'_>]) -> io::Result<()> {
    let sessions = steps.iter().filter(|step| step.begins_session()).count();
    let commands = steps.iter().filter(|step| step.is_command()).count();
    println!(rt; "{name}: sessions: {sessions}, commands: {commands}")?;
    Ok(())
}
