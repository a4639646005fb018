//! A text that is written over.

ghost use Rattle.std.specs.Prelude.{◌≡◌, IfOk};
ghost use Rattle.gx_append.specs.Devices.{written_at};

use std::alloc::{AllocError, Allocator};

/// A text with bytes over what stands at a place and behind its end. Behind the end they stand at it.
pub(crate) fn overwritten<A: Allocator>(
    alloc: A,
    text: &[u8],
    at: u64,
    bytes: &[u8],
) -> Result<Vec<u8, A>, AllocError>
    ensures { IfOk result (λ new. new.items ≡ written_at at bytes.now text.now) }
{
    let (front, rest) = text.split_at((at as usize).min(text.len()));
    let behind = rest.split_at(bytes.len().min(rest.len())).1;
    let mut new = Vec::from_slice(alloc, front)?;
    new.extend_from_slice(bytes)?;
    new.extend_from_slice(behind)?;
    Ok(new)
}
