//! The program `gx_bench` measures parts of the work alone. Without an argument it prints how many commands the stream on standard
//! input has, by the reader of commands. With `limit` it hashes standard input once, and writes it: what no import can leave out.
#![tactic(auto)]

ghost use Rattle.std.specs.Prelude.{◌≤◌, ◌-◌, ◌^◌, IfOk};

use gx_command::{CommandFault, CommandReader};
use gx_text::FromRead;
use sha1::Sha1;
use std::alloc::Global;
use std::io::{Read, Stdin, Write};
use std::process::ExitCode;
use std::{env, io};

/// How many bytes are read at once.
const PIECE: usize = 0x1_0000;

fn main(rt: HostRuntime) -> io::Result<ExitCode> {
    let args: Vec<String> = env::args(&rt)?.collect(rt.alloc())?;
    match args.get(1) {
        Some(word) if word.as_str() == "limit" => copy_hashed(&rt),
        _ => print_count(&rt),
    }
}

/// Copies standard input to standard output, and prints its SHA-1 on standard error.
fn copy_hashed(rt: &HostRuntime) -> io::Result<ExitCode> {
    let mut piece = Vec::new(rt.alloc());
    piece.resize(PIECE, 0)?;
    let mut hasher = Sha1::new();
    for _ in 0..u64::MAX {
        let count = rt.stdin().read(&mut piece)?;
        if count == 0 {
            break;
        }
        hasher.update(&piece[..count]);
        rt.stdout().write_all(&piece[..count])?;
    }
    for byte in hasher.finalize() {
        eprint!(rt; "{byte:02x}")?;
    }
    eprintln!(rt)?;
    Ok(ExitCode::from(0))
}

/// Prints how many commands the stream on standard input has.
fn print_count(rt: &HostRuntime) -> io::Result<ExitCode> {
    let mut reader = CommandReader::new(rt.alloc(), FromRead::new(rt.stdin()));
    print_answer(rt, count_commands(&mut reader))
}

/// Prints a count, or why there is none.
fn print_answer(rt: &HostRuntime, answer: Result<u64, CommandFault>) -> io::Result<ExitCode> {
    match answer {
        Ok(count) => {
            println!(rt; "{count}")?;
            Ok(ExitCode::from(0))
        }
        Err(fault) => {
            eprintln!(rt; "gx_bench: {fault}")?;
            Ok(ExitCode::from(1))
        }
    }
}

/// How many commands come, up to the end.
fn count_commands(reader: &mut CommandReader<FromRead<Stdin>, Global>) -> Result<u64, CommandFault>
    requires { reader.old.most ≤ 2 ^ 63 - 1 }
    ensures { IfOk result (λ count. count ≤ reader.old.most) }
{
    let mut count = 0u64;
    while let Some(_command) = reader.next()? {
        count += 1;
    }
    Ok(count)
}
