//! The paths at which two revisions differ, or the patch of them, and whether any differs. Source: git-diff-tree(1).

ghost use Rattle.std.specs.Prelude.{◌≡◌, IfSome, true};
ghost use Rattle.gx_model.specs.declared.objects.Kind.TheVariants as kinds;
ghost use Rattle.gx_model.specs.Records.HistoryOf.{history_of};
ghost use Rattle.gx_rev.specs.Objects.{IsHeldAs};
ghost use Rattle.gx_text.specs.Lent.{lent_texts};
ghost use Rattle.gx_questions.specs.Answers.{IfTold};
ghost use Rattle.gx_differences.specs.Listed.{HasLeaves, HaveLeaves, shown_difference, shown_differences};
ghost use Rattle.gx_told.specs.Differing.{PrintsPatch, PrintsPatches, TellsDiff, TellsFound, TellsText, TellsTrees, differing_words, is_patch};

use crate::ToldFault;
use crate::sending::put_text;
use crate::words::{refused, tree_of_word};
use gx_asks::{DiffForm, DiffOptions};
use gx_diff::{ends_well, retain_asked, text_of};
use gx_differences::{Difference, list};
use gx_object::Name;
use gx_objects::Objects;
use gx_patch::put_patch;
use gx_text::Sink;
use std::alloc::Allocator;

/// Tells at which paths the files of two revisions differ: of all paths, or of those that are asked for. Answers no where
/// something differs and the options ask for that, and yes otherwise.
///
/// `Revision`: the first of both words that isn't a revision, or gives no tree. Nothing went out then.
/// Cost: that of `gx_questions::tree` for both, the entries of the directories that differ, and each path that differs with each
/// that is asked for. Memory: what differs and its text, and the two trees at each level of a path.
/// Source: git-diff-tree(1), `-r`; git-diff(1), `--exit-code`.
pub(crate) fn diff<O: Objects, A: Allocator + Copy, W: Sink>(
    alloc: A,
    objects: &O,
    options: DiffOptions,
    old: &[u8],
    new: &[u8],
    asked: &[&[u8]],
    sink: &mut W,
) -> Result<bool, ToldFault>
    ensures { IfTold (O.told objects.now) (λ r. TellsDiff r options
        (differing_words (O.name_of objects.now) (history_of r) old.now new.now
        (lent_texts asked.now)) (W.taken sink.old) (W.taken sink.new)) result }
{
    let mut room = Vec::new(alloc);
    match tree_of_word(alloc, objects, &mut room, old) {
        Ok(old) => match tree_of_word(alloc, objects, &mut room, new) {
            Ok(new) => diff_trees(alloc, objects, options, old, new, asked, sink),
            Err(fault) => Err(refused(2, fault)),
        },
        Err(fault) => Err(refused(1, fault)),
    }
}

/// Does so for two held trees.
fn diff_trees<O: Objects, A: Allocator + Copy, W: Sink>(
    alloc: A,
    objects: &O,
    options: DiffOptions,
    old: Name,
    new: Name,
    asked: &[&[u8]],
    sink: &mut W,
) -> Result<bool, ToldFault>
    requires old { IfTold (O.told objects.now) (IsHeldAs kinds.Tree) old }
    requires new { IfTold (O.told objects.now) (IsHeldAs kinds.Tree) new }
    ensures { IfTold (O.told objects.now) (λ r. TellsTrees r options (O.name_of objects.now) old new
        (lent_texts asked.now) (W.taken sink.old) (W.taken sink.new)) result }
{
    match list(alloc, objects, Some(old), Some(new)) {
        Ok(found) => {
            let mut found = found;
            retain_asked(&mut found, asked);
            tell_found(alloc, objects, options, found.as_slice(), sink)
        }
        Err(fault) => Err(refused(1, fault)),
    }
}

/// Prints what tells of these paths, and answers.
fn tell_found<O: Objects, A: Allocator + Copy, W: Sink>(
    alloc: A,
    objects: &O,
    options: DiffOptions,
    found: &[Difference<A>],
    sink: &mut W,
) -> Result<bool, ToldFault>
    requires { IfSome (O.told objects.now) (HaveLeaves found.now) }
    ensures { IfTold (O.told objects.now) (λ r. TellsFound r options
        (shown_differences found.now) (W.taken sink.old) (W.taken sink.new)) result }
{
    if is_patch(options.form) {
        tell_patches(alloc, objects, options, found, sink)
    } else {
        print_found(alloc, options, found, sink)
    }
}

fn is_patch(form: DiffForm) -> bool
    ensures { result ≡ is_patch form }
{
    matches!(form, DiffForm::Patch)
}

/// Prints the patches of these paths, and answers.
fn tell_patches<O: Objects, A: Allocator + Copy, W: Sink>(
    alloc: A,
    objects: &O,
    options: DiffOptions,
    found: &[Difference<A>],
    sink: &mut W,
) -> Result<bool, ToldFault>
    requires held { IfSome (O.told objects.now) (HaveLeaves found.now) }
    requires form { is_patch options.form ≡ true }
    ensures { IfTold (O.told objects.now) (λ r. TellsFound r options
        (shown_differences found.now) (W.taken sink.old) (W.taken sink.new)) result }
{
    match print_patches(alloc, objects, found, sink) {
        Ok(()) => Ok(ends_well(options, found)),
        Err(fault) => Err(fault),
    }
}

/// Prints the patch of each of these paths, one at a time.
fn print_patches<O: Objects, A: Allocator + Copy, W: Sink>(
    alloc: A,
    objects: &O,
    found: &[Difference<A>],
    sink: &mut W,
) -> Result<(), ToldFault>
    requires { IfSome (O.told objects.now) (HaveLeaves found.now) }
    ensures { IfTold (O.told objects.now) (λ r. PrintsPatches r
        (shown_differences found.now) (W.taken sink.old) (W.taken sink.new)) result }
{
    for difference in found {
        print_patch(alloc, objects, difference, sink)?;
    }
    Ok(())
}

/// Prints the patch of a path.
fn print_patch<O: Objects, A: Allocator + Copy, W: Sink>(
    alloc: A,
    objects: &O,
    difference: &Difference<A>,
    sink: &mut W,
) -> Result<(), ToldFault>
    requires { IfSome (O.told objects.now) (HasLeaves (shown_difference difference.now)) }
    ensures { IfTold (O.told objects.now) (λ r. PrintsPatch r
        (shown_difference difference.now) (W.taken sink.old) (W.taken sink.new)) result }
{
    let mut text = Vec::new(alloc);
    match put_patch(alloc, objects, &mut text, difference) {
        Ok(()) => put_text(sink, text.as_slice()),
        Err(fault) => Err(refused(1, fault)),
    }
}

/// Prints the text of these paths, in another form than a patch, and answers.
fn print_found<A: Allocator + Copy, W: Sink>(
    alloc: A,
    options: DiffOptions,
    found: &[Difference<A>],
    sink: &mut W,
) -> Result<bool, ToldFault>
    ensures { TellsText options (shown_differences found.now) (W.taken sink.old)
        (W.taken sink.new) result }
{
    match text_of(alloc, options, found) {
        Ok(text) => match put_text(sink, text.as_slice()) {
            Ok(()) => Ok(ends_well(options, found)),
            Err(fault) => Err(fault),
        },
        Err(error) => Err(ToldFault::from(error)),
    }
}
