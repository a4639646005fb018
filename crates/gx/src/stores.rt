//! Store files: the commands that make one, or put a next text in its place.

mod appending;
mod before;
mod changed;
mod differing;
mod drop_refs;
pub(crate) mod files;
mod gc;
mod grow;
pub(crate) mod host;
mod import;
pub(crate) mod next_text;
mod objects;
pub(crate) mod process;
mod push;
mod put;
mod set_ref;
mod small;
mod stamp;

use crate::fault::RunFault;
use crate::run::{Run, Subject};
use crate::streams::devices::Noted;
pub(crate) use drop_refs::drop_refs;
pub(crate) use gc::collect;
pub(crate) use grow::grow;
use gx_cli::{CliFault, Repo, lines_from};
use gx_object::Sha1Namer;
use gx_text::FromRead;
use gx_versions::StoreForm;
pub(crate) use import::import;
use next_text::NextText;
pub(crate) use objects::import_objects;
pub(crate) use push::push;
pub(crate) use put::put;
pub(crate) use set_ref::set_ref;
use std::fs::File;
use std::hash::RandomState;

/// Makes an empty store file of a form where there is none.
pub(crate) fn init(
    run: &Run<'_>,
    file: &str,
    form: StoreForm,
    state: RandomState,
) -> Result<(), RunFault> {
    let mut next = NextText::claim_new(run, file)?;
    next.shape(form);
    next.publish_store(&Repo::new(run.rt.alloc(), Sha1Namer, state))?;
    Ok(())
}

/// The lines of a file that an option names.
fn told_lines(run: &Run<'_>, told: &str) -> Result<Vec<Vec<u8>>, CliFault> {
    match File::open(run.rt, told) {
        Ok(opened) => {
            let source = FromRead::new(Noted::new(run, Subject::Told, opened));
            lines_from(run.rt.alloc(), source)
        }
        Err(error) => {
            run.note(Subject::Told, error);
            Err(CliFault::ReadFailed)
        }
    }
}
