//! The differences between two texts.

ghost use Rattle.std.specs.Prelude.{◌≡◌, ◌++◌, OnOk};
ghost use Rattle.gx_model.specs.Texts.{Bytes};
ghost use Rattle.gx_text.specs.Lent.{lent_texts};
ghost use Rattle.gx_hunks.specs.Telling.{Tells};
ghost use Rattle.gx_hunks.specs.Lines.{has_nul, is_binary, text_lines};

use crate::finding::changes;
use crate::hunks::put_hunks;
use crate::lines::lines_of;
use std::alloc::{AllocError, Allocator};

/// How many lines stay before and behind the changes of a hunk.
const CONTEXT: usize = 3;

/// How many bytes are looked at to tell whether a text is binary.
const LOOKED_AT: usize = 8000;

/// Appends the hunks that make a new text of an old one, nothing where they are equal.
///
/// Cost and memory: those of `changes`, and the text. Source: git-diff(1), "GENERATING PATCH TEXT WITH -P".
pub fn put_differences<A: Allocator + Copy>(
    alloc: A,
    text: &mut Vec<u8, A>,
    old: &[u8],
    new: &[u8],
) -> Result<(), AllocError>
    ensures { OnOk result ((told : Bytes) × (text.new.items ≡ text.old.items ++ told)
        × Tells (text_lines old.now) (text_lines new.now) told) }
{
    let old_lines = lines_of(alloc, old)?;
    let new_lines = lines_of(alloc, new)?;
    put_changes(alloc, text, old_lines.as_slice(), new_lines.as_slice())
}

/// Appends the hunks that make new lines of old ones.
fn put_changes<A: Allocator + Copy>(
    alloc: A,
    text: &mut Vec<u8, A>,
    old: &[&[u8]],
    new: &[&[u8]],
) -> Result<(), AllocError>
    ensures { OnOk result ((told : Bytes) × (text.new.items ≡ text.old.items ++ told)
        × Tells (lent_texts old.now) (lent_texts new.now) told) }
{
    let found = changes(alloc, old, new)?;
    put_hunks(text, CONTEXT, old, new, found.as_slice())
}

/// Whether Git takes a text as binary: a NUL is among its first 8,000 bytes. Takes no memory.
///
/// Source: gitattributes(5), "Performing text diffs of binary files", and what git 2.39 looks at.
#[tactic(auto, unfolding(crate::specs::Lines::is_binary))]
pub fn is_binary(text: &[u8]) -> bool
    ensures { result ≡ is_binary text.now }
{
    has_nul(text, LOOKED_AT)
}

/// Whether a NUL is among the first bytes, of which there are so many.
fn has_nul(text: &[u8], count: usize) -> bool
    ensures { result ≡ has_nul count text.now }
{
    let (front, _behind) = text.split_at(usize::min(count, text.len()));
    front.contains(&0)
}
