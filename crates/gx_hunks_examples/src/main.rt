//! The program `gx_hunks_examples` tells the differences of the pairs of texts on its standard input. Before each pair stands how
//! many bytes its texts have, in a line each, and before what is told of it, in a line, how many bytes that has.
#![tactic(auto)]

use gx_hunks::put_differences;
use gx_text::{cut, decimal};
use std::alloc::{AllocError, Global};
use std::io::{self, Read, Write};
use std::process::ExitCode;

/// Two texts, and what follows them.
#[derive(Drop)]
struct Pair<'a> {
    old: &'a [u8],
    new: &'a [u8],
    rest: &'a [u8],
}

fn main(rt: HostRuntime) -> io::Result<ExitCode> {
    let mut text = Vec::new(rt.alloc());
    rt.stdin().read_to_end(&mut text)?;
    let mut told = Vec::new(rt.alloc());
    let done = tell(rt.alloc(), &mut told, &text);
    rt.stdout().write_all(&told)?;
    Ok(ExitCode::from(if done.is_ok() { 0 } else { 1 }))
}

/// Tells the differences of each pair of a text.
fn tell(alloc: Global, told: &mut Vec<u8>, text: &[u8]) -> Result<(), AllocError> {
    let mut rest = text;
    for _ in 0..u32::MAX {
        let Some(pair) = first_pair(rest) else {
            return Ok(());
        };
        let mut hunks = Vec::new(alloc);
        put_differences(alloc, &mut hunks, pair.old, pair.new)?;
        let length = hunks.len();
        let line = format!(in alloc; "{length}\n")?;
        told.extend_from_slice(line.as_bytes())?;
        told.extend_from_slice(&hunks)?;
        rest = pair.rest;
    }
    Ok(())
}

/// The pair at the front of a text.
fn first_pair(text: &[u8]) -> Option<Pair<'_>> {
    let (old, rest) = cut(text, b'\n')?;
    let (new, rest) = cut(rest, b'\n')?;
    let (old, rest) = rest.split_at_checked(usize::try_from(decimal(old)?).ok()?)?;
    let (new, rest) = rest.split_at_checked(usize::try_from(decimal(new)?).ok()?)?;
    Some(Pair { old, new, rest })
}
