//! Makes the calls of the files beside it on texts, devices, objects, stores, trees, repositories
//! and revisions, and prints how many scripts and calls each file has. Names of files may be given.
//! What comes otherwise is printed, with its file and line, and ends with status 1.
#![tactic(auto)]

mod answers;
mod desk;
mod devices;
mod notation;
mod objects;
mod repositories;
mod revisions;
mod running;
mod stores;
mod texts;
mod trees;

use notation::{Step, put_steps};
use running::{Wrong, first_wrong};
use std::alloc::AllocError;
use std::hash::RandomState;
use std::process::ExitCode;
use std::{env, fs, io};

fn main(rt: HostRuntime) -> io::Result<ExitCode> {
    let state = RandomState::new(&rt)?;
    let mut is_right = true;
    for name in &file_names(&rt)? {
        if !run_file(&rt, name.as_str(), state)? {
            is_right = false;
        }
    }
    Ok(ExitCode::from(if is_right { 0 } else { 1 }))
}

/// The names that are given, or those of all files with calls, in their order.
fn file_names(rt: &HostRuntime) -> io::Result<Vec<String>> {
    let mut names: Vec<String> = env::args(rt)?.collect(rt.alloc())?;
    if names.len() > 1 {
        names.remove(0);
        return Ok(names);
    }
    names.clear();
    for entry in fs::read_dir(rt, ".")? {
        put_name(rt, &mut names, entry?.file_name())?;
    }
    names.sort_unstable();
    Ok(names)
}

/// Puts the name of a file with calls.
fn put_name(rt: &HostRuntime, names: &mut Vec<String>, name: &str) -> Result<(), AllocError> {
    if name.ends_with(".calls") {
        names.push(String::from_str(rt.alloc(), name)?)?;
    }
    Ok(())
}

/// Follows the scripts of a file, and prints how many they are, or what comes otherwise first.
/// Answers whether all comes so.
fn run_file(rt: &HostRuntime, name: &str, state: RandomState) -> io::Result<bool> {
    let text = fs::read_to_string(rt, name)?;
    let mut steps = Vec::new(rt.alloc());
    put_steps(&mut steps, text.as_str())?;
    run_steps(rt, name, &steps, state)
}

/// The same of the steps of a file.
fn run_steps(
    rt: &HostRuntime,
    name: &str,
    steps: &[Step<'_>],
    state: RandomState,
) -> io::Result<bool> {
    let mut got = Vec::new(rt.alloc());
    let wrong = first_wrong(rt.alloc(), steps, state, &mut got)?;
    match wrong {
        None => print_counts(rt, name, steps)?,
        Some(wrong) => print_wrong(rt, name, steps, wrong, &got)?,
    }
    Ok(wrong.is_none())
}

/// Prints how many scripts and calls a file has.
fn print_counts(rt: &HostRuntime, name: &str, steps: &[Step<'_>]) -> io::Result<()> {
    let scripts = match steps.last() {
        Some(step) => step.script,
        None => 0,
    };
    let calls = steps.len().saturating_sub(scripts);
    println!(rt; "{name}: scripts: {scripts}, calls: {calls}")
}

/// Prints what is to come of a step, and what comes.
fn print_wrong(
    rt: &HostRuntime,
    name: &str,
    steps: &[Step<'_>],
    wrong: Wrong,
    got: &[u8],
) -> io::Result<()> {
    let Some(step) = steps.get(wrong.place) else {
        return Ok(());
    };
    let (number, line, nth) = (step.number, step.line, wrong.nth);
    println!(rt; "{name}:{number}: {line}\n(growth {nth} is refused)\nexpected:")?;
    let mut expected = Vec::new(rt.alloc());
    step.put_answer(&mut expected)?;
    print_bytes(rt, &expected)?;
    println!(rt; "got:")?;
    print_bytes(rt, got)
}

/// Prints bytes that are a text, more or less.
fn print_bytes(rt: &HostRuntime, bytes: &[u8]) -> io::Result<()> {
    let text = String::from_utf8_lossy(rt.alloc(), bytes)?;
    println!(rt; "{text}")
}
