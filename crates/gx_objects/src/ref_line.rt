//! The line of a ref. Source: git-show-ref(1).

ghost use Rattle.std.specs.Prelude.{◌≡◌, ◌++◌, OnOk};
ghost use Rattle.gx_model.specs.Stores.StoreText.{stored_ref};

use gx_object::Name;
use std::alloc::{AllocError, Allocator};

/// Appends the line of a ref: the digits of its object, a space, and its name. Cost: the line. Source: git-show-ref(1).
pub fn put_ref<A: Allocator>(
    lines: &mut Vec<u8, A>,
    name: &[u8],
    object: &Name,
) -> Result<(), AllocError>
    ensures { OnOk result
        (lines.new.items ≡ lines.old.items ++ stored_ref (name.now, object.now.bytes)) }
{
    lines.extend_from_slice(object.hex().as_slice())?;
    lines.push(b' ')?;
    lines.extend_from_slice(name)?;
    lines.push(b'\n')?;
    Ok(())
}
