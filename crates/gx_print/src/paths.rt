//! Bytes of a stream, as paths are printed. Source: git-ls-files(1), "core.quotePath".

ghost use Rattle.std.specs.Prelude.{◌≡◌, IfOk};
ghost use Rattle.gx_model.specs.Texts.Paths.{printed};

use gx_text::put_printed;
use std::alloc::{AllocError, Allocator};

/// A text as a path is printed.
///
/// Cost: that of `gx_text::put_printed`. Source: git-ls-files(1), "core.quotePath".
pub fn printed_path<A: Allocator + Copy>(alloc: A, text: &[u8]) -> Result<Vec<u8, A>, AllocError>
    ensures { IfOk result (λ shown. shown.items ≡ printed text.now) }
{
    let mut shown = Vec::new(alloc);
    put_printed(&mut shown, text)?;
    Ok(shown)
}
