//! The entries of a tree, one a line. Source: git-ls-tree(1), "OUTPUT FORMAT".

ghost use Rattle.std.specs.Prelude.{◌≡◌, ◌++◌, IfOk, OnOk};
ghost use Rattle.std.specs.List.{flat_map};
ghost use Rattle.gx_print.specs.Listings.{entry_line};

use gx_object::{Mode, Name, TreeEntries};
use gx_rev::put_entry_head;
use gx_text::put_printed;
use std::alloc::{AllocError, Allocator};

/// The lines of a tree's entries.
///
/// Cost: their length, at most four bytes for each of a component's.
pub fn listing<A: Allocator + Copy>(
    alloc: A,
    entries: TreeEntries<'_>,
) -> Result<Vec<u8, A>, AllocError>
    ensures { IfOk result (λ text. text.items ≡ flat_map entry_line entries.entry) }
{
    let mut text = Vec::new(alloc);
    for entry in entries {
        put_line(&mut text, entry.mode, entry.component, &entry.name)?;
    }
    Ok(text)
}

/// Appends the line of what has this mode and this name at a path: a tree's entry at its component, or a file at its whole path.
///
/// Cost: its length, at most four bytes for each of the path's.
pub fn put_line<A: Allocator + Copy>(
    out: &mut Vec<u8, A>,
    mode: Mode,
    path: &[u8],
    name: &Name,
) -> Result<(), AllocError>
    ensures { OnOk result (out.new.items ≡ out.old.items
        ++ entry_line (record { mode = mode; component = path.now; name = name.now.bytes })) }
{
    put_entry_head(out, mode, name)?;
    put_printed(out, path)?;
    Ok(out.push(b'\n')?)
}
