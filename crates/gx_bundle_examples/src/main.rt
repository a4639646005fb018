//! The program `gx_bundle_examples` writes the growing store on its standard input as a bundle.
#![tactic(auto)]

use gx_at::TextAt;
use gx_bundled::told_by;
use gx_kept::{BundleFault, KeptFault, bundle};
use gx_look::Look;
use gx_object::Sha1Namer;
use gx_text::{IntoWrite, Sink};
use std::alloc::Global;
use std::hash::RandomState;
use std::io::{self, Read};
use std::process::ExitCode;

fn main(rt: HostRuntime) -> io::Result<ExitCode> {
    let mut text = Vec::new(rt.alloc());
    rt.stdin().read_to_end(&mut text)?;
    let state = RandomState::new(&rt)?;
    let mut sink = IntoWrite::new(rt.stdout());
    let written = write_bundle(rt.alloc(), &text, &mut sink, state);
    Ok(ExitCode::from(if written.is_ok() { 0 } else { 1 }))
}

/// Writes the bundle of a growing text, which is read in pieces.
fn write_bundle<W: Sink>(
    alloc: Global,
    text: &[u8],
    sink: &mut W,
    state: RandomState,
) -> Result<(), BundleFault> {
    let piece = 1_000;
    let look = Look::open(alloc, Sha1Namer, TextAt { text, piece })?;
    let listing = look.listing(alloc, state)?;
    let Ok(told) = told_by(alloc, &look, &[], true, false) else {
        return Err(BundleFault::Stopped(KeptFault::OutOfMemory));
    };
    bundle(alloc, &look, &listing, &told.bundled(&look, None), sink)
}
