//! What is printed of a tree's entry before its path. Source: git-ls-tree(1), "OUTPUT FORMAT".

ghost use Rattle.std.specs.Prelude.{◌≡◌, ◌++◌, OnOk};
ghost use Rattle.gx_rev.specs.Entries.{entry_head, mode_and_kind};

use gx_object::{Mode, Name};
use std::alloc::{AllocError, Allocator};

/// Appends what stands before an entry's path: its mode in six octal digits, the kind of what it names, the digits of that
/// name, and a TAB.
///
/// Cost: constant. Takes memory for what is appended.
pub fn put_entry_head<A: Allocator>(
    text: &mut Vec<u8, A>,
    mode: Mode,
    name: &Name,
) -> Result<(), AllocError>
    ensures { OnOk result (text.new.items ≡ text.old.items ++ entry_head mode name.now.bytes) }
{
    text.extend_from_slice(mode_and_kind(mode))?;
    text.extend_from_slice(name.hex().as_slice())?;
    text.push(b'\t')?;
    Ok(())
}

/// The mode and the kind, each with a space behind it.
fn mode_and_kind(mode: Mode) -> &'static [u8]
    ensures { result.now ≡ mode_and_kind mode }
{
    match mode {
        Mode::File => b"100644 blob ",
        Mode::Exec => b"100755 blob ",
        Mode::Link => b"120000 blob ",
        Mode::Gitlink => b"160000 commit ",
        Mode::Dir => b"040000 tree ",
    }
}
