//! The command that puts a text into a store file's place that another program made, as by the library.

use super::next_text::NextText;
use super::stamp::{read_expected, stamp_text};
use crate::fault::RunFault;
use crate::run::{Run, Subject};
use crate::stores::files::open_text;
use crate::streams::devices::Noted;
use gx_cli::CliFault;
use gx_place::Expected;
use gx_versions::form_of;
use std::hash::RandomState;
use std::io::{ErrorKind, Read};

/// Puts the store of standard input into a store file's place, where that is the one that is expected, in the form of its text. A
/// text that was cut off is no store. The new file's stamp is printed.
pub(crate) fn put(
    run: &Run<'_>,
    file: &str,
    stamp: &str,
    state: RandomState,
) -> Result<(), RunFault> {
    let Some(expected) = read_expected(stamp) else {
        return Err(RunFault::BadStamp);
    };
    let text = read_input(run)?;
    let form = form_of(&text);
    let repo = open_text(run, text, state)?;
    let mut next = match expected {
        Expected::Nothing => NextText::claim_new(run, file)?,
        Expected::Stamped(known) => NextText::claim_known(run, file, known)?,
    };
    next.shape(form);
    let stamp = next.publish_store(&repo)?;
    drop(next);
    let text = stamp_text(run.rt.alloc(), &stamp)?;
    run.want_written(Subject::Output, println!(run.rt; "{text}"))?;
    Ok(())
}

/// The text on standard input.
fn read_input(run: &Run<'_>) -> Result<Vec<u8>, CliFault> {
    let mut text = Vec::new(run.rt.alloc());
    match Noted::input(run).read_to_end(&mut text) {
        Ok(_) => Ok(text),
        Err(error) if error.kind() == ErrorKind::OutOfMemory => Err(CliFault::OutOfMemory),
        Err(_) => Err(CliFault::ReadFailed),
    }
}
