//! The lines before the changes of a patch: which path it is of, and which modes and names its files have.
//! Source: git-diff(1), "GENERATING PATCH TEXT WITH -P".

ghost use Rattle.std.specs.Prelude.{◌≡◌, ◌++◌, IfOk, OnOk};
ghost use Rattle.gx_model.specs.Texts.{same_bytes};
ghost use Rattle.gx_differences.specs.Listed.{shown_leaf};
ghost use Rattle.gx_patch.specs.Heads.{both_modes, head_text, label, mode_line, modes_text, names_text, shared_mode, sided};

use gx_diff::name_field;
use gx_differences::FileLeaf;
use gx_export::mode_digits;
use gx_object::Mode;
use gx_text::put_printed;
use std::alloc::{AllocError, Allocator};

/// A path as a side of a patch has it: behind the letter of the side and a slash, and quoted where a path is.
pub(crate) fn sided<A: Allocator + Copy>(
    alloc: A,
    letter: u8,
    path: &[u8],
) -> Result<Vec<u8, A>, AllocError>
    ensures { IfOk result (λ found. found.items ≡ sided letter path.now) }
{
    let mut plain = Vec::new(alloc);
    plain.push(letter)?;
    plain.push(b'/')?;
    plain.extend_from_slice(path)?;
    let mut found = Vec::new(alloc);
    put_printed(&mut found, plain.as_slice())?;
    Ok(found)
}

/// What the changes of a side stand behind: the path as that side has it, or that there is no file.
pub(crate) fn label<'a>(leaf: &Option<FileLeaf>, sided: &'a [u8]) -> &'a [u8]
    ensures { result.now ≡ label (shown_leaf leaf.now) sided.now }
{
    match leaf {
        None => b"/dev/null",
        Some(_) => sided,
    }
}

/// Appends the head of the patch of a path, which both sides have so.
pub(crate) fn put_head<A: Allocator + Copy>(
    text: &mut Vec<u8, A>,
    from: &[u8],
    to: &[u8],
    old: &Option<FileLeaf>,
    new: &Option<FileLeaf>,
) -> Result<(), AllocError>
    ensures { OnOk result (text.new.items ≡ text.old.items
        ++ head_text from.now to.now (shown_leaf old.now) (shown_leaf new.now)) }
{
    text.extend_from_slice(b"diff --git ")?;
    text.extend_from_slice(from)?;
    text.push(b' ')?;
    text.extend_from_slice(to)?;
    text.push(b'\n')?;
    put_modes(text, old, new)?;
    put_names(text, old, new)
}

/// Appends the lines of the modes, where a file is new or gone, or has another mode.
fn put_modes<A: Allocator + Copy>(
    text: &mut Vec<u8, A>,
    old: &Option<FileLeaf>,
    new: &Option<FileLeaf>,
) -> Result<(), AllocError>
    ensures { OnOk result (text.new.items ≡ text.old.items
        ++ modes_text (shown_leaf old.now) (shown_leaf new.now)) }
{
    match old {
        None => match new {
            None => Ok(()),
            Some(new) => put_mode(text, b"new file mode ", new.mode),
        },
        Some(old) => match new {
            None => put_mode(text, b"deleted file mode ", old.mode),
            Some(new) => put_both_modes(text, old.mode, new.mode),
        },
    }
}

/// Appends the lines of two modes, unless they are one.
fn put_both_modes<A: Allocator + Copy>(
    text: &mut Vec<u8, A>,
    old: Mode,
    new: Mode,
) -> Result<(), AllocError>
    ensures { OnOk result (text.new.items ≡ text.old.items ++ both_modes old new) }
{
    if old == new {
        return Ok(());
    }
    put_mode(text, b"old mode ", old)?;
    put_mode(text, b"new mode ", new)
}

/// Appends the line of a mode behind these words.
fn put_mode<A: Allocator + Copy>(
    text: &mut Vec<u8, A>,
    words: &[u8],
    mode: Mode,
) -> Result<(), AllocError>
    ensures { OnOk result (text.new.items ≡ text.old.items ++ mode_line words.now mode) }
{
    text.extend_from_slice(words)?;
    text.extend_from_slice(mode_digits(mode).as_slice())?;
    text.push(b'\n')?;
    Ok(())
}

/// Appends the line of the names, unless they are one.
fn put_names<A: Allocator + Copy>(
    text: &mut Vec<u8, A>,
    old: &Option<FileLeaf>,
    new: &Option<FileLeaf>,
) -> Result<(), AllocError>
    ensures { OnOk result (text.new.items ≡ text.old.items
        ++ names_text (shown_leaf old.now) (shown_leaf new.now)) }
{
    let old_name = name_field(old);
    let new_name = name_field(new);
    if is_same(old_name.as_slice(), new_name.as_slice()) {
        return Ok(());
    }
    text.extend_from_slice(b"index ")?;
    text.extend_from_slice(old_name.as_slice())?;
    text.extend_from_slice(b"..")?;
    text.extend_from_slice(new_name.as_slice())?;
    put_shared_mode(text, old, new)?;
    text.push(b'\n')?;
    Ok(())
}

/// Appends a space and the mode that both files have, where they have one.
fn put_shared_mode<A: Allocator + Copy>(
    text: &mut Vec<u8, A>,
    old: &Option<FileLeaf>,
    new: &Option<FileLeaf>,
) -> Result<(), AllocError>
    ensures { OnOk result (text.new.items ≡ text.old.items
        ++ shared_mode (shown_leaf old.now) (shown_leaf new.now)) }
{
    let Some(old) = old else {
        return Ok(());
    };
    let Some(new) = new else {
        return Ok(());
    };
    if old.mode != new.mode {
        return Ok(());
    }
    text.push(b' ')?;
    text.extend_from_slice(mode_digits(old.mode).as_slice())?;
    Ok(())
}

/// Whether two texts are equal.
pub(crate) fn is_same(old: &[u8], new: &[u8]) -> bool
    ensures { result ≡ same_bytes old.now new.now }
{
    old == new
}
