//! The patch of a path at which two trees differ. Source: git-diff(1), "GENERATING PATCH TEXT WITH -P".

ghost use Rattle.std.specs.Prelude.{◌≡◌, IfSome};
ghost use Rattle.gx_model.specs.Records.HistoryOf.{named_values};
ghost use Rattle.gx_questions.specs.Answers.{IsOfTold, RefusesUntold};
ghost use Rattle.gx_differences.specs.Listed.{HasLeaf, HasLeaves, shown_difference, shown_leaf};
ghost use Rattle.gx_patch.specs.Patches.{IsFilePatch, IsPatch, Puts, PutsFile, is_turned};

use crate::bodies::put_body;
use crate::heads::{label, put_head, sided};
use crate::sides::text_of;
use gx_diff::status_of;
use gx_differences::{Difference, FileLeaf};
use gx_objects::Objects;
use gx_questions::AskFault;
use std::alloc::{AllocError, Allocator};

/// Appends the patch that makes the new file of the old one, at a path at which two trees differ. Where they are of other types,
/// the old one goes and the new one comes. Behind a fault the text has what stood in it, and more.
///
/// OutOfMemory: a growth is refused. ReadFailed: a read failed. Damaged: this is no repository's.
/// Cost: that of `gx_hunks::put_differences`. Memory: both files, six words for each of their lines, and the text.
/// Source: git-diff(1), "GENERATING PATCH TEXT WITH -P", with `--full-index` and `--no-renames`; a hunk has no line of its function.
pub fn put_patch<O: Objects, A: Allocator + Copy>(
    alloc: A,
    objects: &O,
    text: &mut Vec<u8, A>,
    difference: &Difference<A>,
) -> Result<(), AskFault>
    requires held { IfSome (O.told objects.now) (HasLeaves (shown_difference difference.now)) }
    ensures patch { IsOfTold (O.told objects.now) (λ r _. Puts (IsPatch (named_values r.records)
        (shown_difference difference.now)) text.old.items text.new.items) result }
    ensures fault { RefusesUntold (O.told objects.now) result }
{
    let path = difference.path.joined();
    if is_turned(difference) {
        put_file(alloc, objects, text, path, &difference.old, &None)?;
        return put_file(alloc, objects, text, path, &None, &difference.new);
    }
    put_file(alloc, objects, text, path, &difference.old, &difference.new)
}

/// Whether the file of a path has another type.
fn is_turned<A: Allocator>(difference: &Difference<A>) -> bool
    ensures { result ≡ is_turned (shown_difference difference.now) }
{
    status_of(difference) == b'T'
}

/// Appends the patch of one path and the files that stand there before and after.
fn put_file<O: Objects, A: Allocator + Copy>(
    alloc: A,
    objects: &O,
    text: &mut Vec<u8, A>,
    path: &[u8],
    old: &Option<FileLeaf>,
    new: &Option<FileLeaf>,
) -> Result<(), AskFault>
    requires old { IfSome (O.told objects.now) (HasLeaf (shown_leaf old.now)) }
    requires new { IfSome (O.told objects.now) (HasLeaf (shown_leaf new.now)) }
    ensures patch { IsOfTold (O.told objects.now) (λ r _. Puts (IsFilePatch (named_values r.records)
        path.now (shown_leaf old.now) (shown_leaf new.now)) text.old.items text.new.items) result }
    ensures fault { RefusesUntold (O.told objects.now) result }
{
    let mut old_room = Vec::new(alloc);
    let mut new_room = Vec::new(alloc);
    let old_text = text_of(objects, &mut old_room, old)?;
    let new_text = text_of(objects, &mut new_room, new)?;
    put_texts(alloc, text, path, old, new, old_text, new_text)?;
    Ok(())
}

/// Does so where the texts of both files are given.
fn put_texts<A: Allocator + Copy>(
    alloc: A,
    text: &mut Vec<u8, A>,
    path: &[u8],
    old: &Option<FileLeaf>,
    new: &Option<FileLeaf>,
    old_text: &[u8],
    new_text: &[u8],
) -> Result<(), AllocError>
    ensures { PutsFile path.now (shown_leaf old.now) (shown_leaf new.now) old_text.now new_text.now
        text.old.items text.new.items result }
{
    let from = sided(alloc, b'a', path)?;
    let to = sided(alloc, b'b', path)?;
    put_head(text, from.as_slice(), to.as_slice(), old, new)?;
    let (from, to) = (label(old, from.as_slice()), label(new, to.as_slice()));
    put_body(alloc, text, from, to, old_text, new_text)
}
