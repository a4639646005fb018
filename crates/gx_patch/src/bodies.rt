//! The changes of a patch, behind its head. Source: git-diff(1), "GENERATING PATCH TEXT WITH -P".

ghost use Rattle.std.specs.Prelude.{◌≡◌, ◌++◌, OnOk};
ghost use Rattle.gx_model.specs.Texts.{Bytes};
ghost use Rattle.gx_patch.specs.Bodies.{TellsBody, are_binary, binary_line, has_space, label_line};

use crate::heads::is_same;
use gx_hunks::{is_binary, put_differences};
use std::alloc::{AllocError, Allocator};

/// Appends the changes that make a new text of an old one, behind these labels: nothing of equal texts, and of binary ones that
/// they differ.
pub(crate) fn put_body<A: Allocator + Copy>(
    alloc: A,
    text: &mut Vec<u8, A>,
    from: &[u8],
    to: &[u8],
    old: &[u8],
    new: &[u8],
) -> Result<(), AllocError>
    ensures { OnOk result ((body : Bytes) × (text.new.items ≡ text.old.items ++ body)
        × TellsBody from.now to.now old.now new.now body) }
{
    if is_same(old, new) {
        return Ok(());
    }
    if are_binary(old, new) {
        return put_binary(text, from, to);
    }
    put_label(text, b"--- ", from)?;
    put_label(text, b"+++ ", to)?;
    put_differences(alloc, text, old, new)
}

/// Whether one of two texts is binary.
fn are_binary(old: &[u8], new: &[u8]) -> bool
    ensures { result ≡ are_binary old.now new.now }
{
    is_binary(old) || is_binary(new)
}

/// Appends that two binary files differ.
fn put_binary<A: Allocator + Copy>(
    text: &mut Vec<u8, A>,
    from: &[u8],
    to: &[u8],
) -> Result<(), AllocError>
    ensures { OnOk result (text.new.items ≡ text.old.items ++ binary_line from.now to.now) }
{
    text.extend_from_slice(b"Binary files ")?;
    text.extend_from_slice(from)?;
    text.extend_from_slice(b" and ")?;
    text.extend_from_slice(to)?;
    text.extend_from_slice(b" differ\n")?;
    Ok(())
}

/// Appends the line of a side. A TAB ends a label with a space in it.
fn put_label<A: Allocator + Copy>(
    text: &mut Vec<u8, A>,
    words: &[u8],
    label: &[u8],
) -> Result<(), AllocError>
    ensures { OnOk result (text.new.items ≡ text.old.items ++ label_line words.now label.now) }
{
    text.extend_from_slice(words)?;
    text.extend_from_slice(label)?;
    if has_space(label) {
        text.push(b'\t')?;
    }
    text.push(b'\n')?;
    Ok(())
}

fn has_space(label: &[u8]) -> bool
    ensures { result ≡ has_space label.now }
{
    label.contains(&b' ')
}
