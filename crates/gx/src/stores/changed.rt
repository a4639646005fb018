//! Refs that differ, by the lines that list them. Source: githooks(5), "post-receive".

use gx_object::Name;
use gx_ref_lines::RefLines;
use std::alloc::{AllocError, Global};
use std::collections::BTreeSet;

/// A line for each ref that differs, in the byte order of names: the digits of what it held, those of what it holds, and its name.
/// Forty zeros stand for nothing.
pub(super) fn changed_refs(
    alloc: Global,
    before: &RefLines<'_, Global>,
    after: &RefLines<'_, Global>,
) -> Result<Vec<u8>, AllocError> {
    let mut names = BTreeSet::new(alloc);
    for (name, _) in before.refs.iter().chain(after.refs.iter()) {
        names.insert(*name)?;
    }
    let mut lines = Vec::new(alloc);
    for name in names.iter() {
        let (old, new) = (before.find(*name), after.find(*name));
        if old != new {
            put_change(&mut lines, *name, old, new)?;
        }
    }
    Ok(lines)
}

fn put_change(
    lines: &mut Vec<u8>,
    name: &[u8],
    old: Option<Name>,
    new: Option<Name>,
) -> Result<(), AllocError> {
    put_digits(lines, old)?;
    put_digits(lines, new)?;
    lines.extend_from_slice(name)?;
    lines.push(b'\n')?;
    Ok(())
}

/// The digits of an object, or forty zeros, and a space.
fn put_digits(lines: &mut Vec<u8>, object: Option<Name>) -> Result<(), AllocError> {
    match object {
        Some(object) => lines.extend_from_slice(object.hex().as_slice())?,
        None => lines.extend_from_slice(&[b'0'; 40])?,
    }
    lines.push(b' ')?;
    Ok(())
}
