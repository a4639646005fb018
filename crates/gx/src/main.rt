//! The program `gx`: its words, store files and standard streams around `gx_cli`.
#![tactic(auto)]

mod ancestry;
mod bundling;
mod fault;
mod looks;
mod questions;
mod run;
mod salvaging;
mod stores;
mod streams;
mod words;

use std::env;
use std::process::ExitCode;
use streams::devices::hold_standard_streams;
use words::run_arguments;

fn main(rt: HostRuntime) -> ExitCode {
    let held = hold_standard_streams(&rt);
    let status = run_arguments(&rt, env::args(&rt));
    drop(held);
    status
}
