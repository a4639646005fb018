//! Store files that are only read.

use super::host::Host;
use crate::run::Run;
use gx_cli::{CliFault, Repo};
use gx_object::Sha1Namer;
use gx_place::{Place, read_file};
use gx_versions::open_store;
use std::alloc::Global;
use std::hash::RandomState;
use std::io;

/// The bytes of a store file, behind the links at the end of its path.
pub(crate) fn read_store(run: &Run<'_>, file: &str) -> Result<Vec<u8>, CliFault> {
    run.want_read(read_linked(&mut Host::new(run, file)))
}

/// The repository of a store's text of any version.
pub(crate) fn open_text(
    run: &Run<'_>,
    store: Vec<u8>,
    state: RandomState,
) -> Result<Repo<Sha1Namer, Global>, CliFault> {
    Ok(open_store(run.rt.alloc(), Sha1Namer, store, state)?)
}

fn read_linked(host: &mut Host<'_>) -> io::Result<Vec<u8>> {
    let alloc = host.run.rt.alloc();
    let place = Place::find(alloc, host, host.file)?;
    let (bytes, _stamp) = read_file(alloc, host, place.store())?;
    Ok(bytes)
}
