//! Store texts of version 1, which are read and no longer written.

use gx_object::{Name, Sha1Namer};
use gx_repo::Repo;
use std::alloc::{AllocError, Global};

/// The text of version 1 of a repository.
pub(crate) fn old_text_of(
    alloc: Global,
    repo: &Repo<Sha1Namer, Global>,
) -> Result<Vec<u8>, AllocError> {
    let mut text = Vec::new(alloc);
    text.extend_from_slice(b"gxstore 1\n")?;
    put_objects(alloc, &mut text, repo)?;
    put_refs(alloc, &mut text, repo)?;
    Ok(text)
}

fn put_objects(
    alloc: Global,
    text: &mut Vec<u8>,
    repo: &Repo<Sha1Namer, Global>,
) -> Result<(), AllocError> {
    let count = repo.store().len();
    put_number(alloc, text, "objects", count)?;
    for place in 0..count {
        if let Some((_, kind, body)) = repo.store().record(place) {
            put_number(alloc, text, kind.word(), body.len())?;
            text.extend_from_slice(body)?;
            text.extend_from_slice(b"\n")?;
        }
    }
    Ok(())
}

fn put_refs(
    alloc: Global,
    text: &mut Vec<u8>,
    repo: &Repo<Sha1Namer, Global>,
) -> Result<(), AllocError> {
    put_number(alloc, text, "refs", repo.refs().count())?;
    for (name, object) in repo.refs() {
        put_ref(text, name, &object)?;
    }
    text.extend_from_slice(b"end\n")
}

fn put_ref(text: &mut Vec<u8>, name: &[u8], object: &Name) -> Result<(), AllocError> {
    text.extend_from_slice(object.hex().as_slice())?;
    text.extend_from_slice(b" ")?;
    text.extend_from_slice(name)?;
    text.extend_from_slice(b"\n")
}

/// Puts a word and a number as a line.
fn put_number(
    alloc: Global,
    text: &mut Vec<u8>,
    word: &str,
    number: usize,
) -> Result<(), AllocError> {
    text.extend_from_slice(format!(in alloc; "{word} {number}\n")?.as_bytes())
}
