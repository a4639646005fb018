//! The refs of a store, one a line. Source: git-show-ref(1).

ghost use Rattle.std.specs.Prelude.{IfSome, map};
ghost use Rattle.gx_model.specs.Records.HistoryOf.{history_of};
ghost use Rattle.gx_objects.specs.Answers.{AreRefLines};
ghost use Rattle.gx_print.specs.Stored.{refs_text};
ghost use Rattle.gx_questions.specs.Answers.{IfTold};
ghost use Rattle.gx_ref_filters.specs.Filters.{shown_filter};
ghost use Rattle.gx_text.specs.Lent.{lent_texts};
ghost use Rattle.gx_tips.specs.Tips.{shown_tip};
ghost use Rattle.gx_told.specs.Filtering.{kept_text, shown_text};
ghost use Rattle.gx_told.specs.Printing.{Prints, PrintsText};

use crate::ToldFault;
use crate::sending::put_text;
use crate::words::refused;
use gx_asks::RefFilter;
use gx_objects::{Objects, put_ref};
use gx_ref_filters::kept_refs;
use gx_text::Sink;
use gx_tips::{Tip, tips_of};
use std::alloc::Allocator;

/// Prints each ref: the digits of its object's name, a space, and its own name, in the byte order of names.
///
/// Cost: what is printed. Memory: that of `Objects::ref_lines`.
pub(crate) fn print_refs<O: Objects, A: Allocator + Copy, W: Sink>(
    alloc: A,
    objects: &O,
    sink: &mut W,
) -> Result<(), ToldFault>
    ensures { IfTold (O.told objects.now)
        (λ r. PrintsText (refs_text r) (W.taken sink.old) (W.taken sink.new)) result }
{
    let mut room = Vec::new(alloc);
    match objects.ref_lines(&mut room) {
        Ok(lines) => put_text(sink, lines),
        Err(fault) => Err(ToldFault::from(fault)),
    }
}

/// Prints each ref whose name matches one of the patterns, where there are any, and that passes all filters, as `print_refs` does.
///
/// `Revision`: the revision of the filter with this number isn't one, or gives no commit, or no object for refs that point at
/// it. Nothing is printed then. Cost: that of `gx_tips::tips_of` and `gx_ref_filters::kept_refs`. Memory: that of these, and
/// what is printed.
pub(crate) fn print_kept<O: Objects, A: Allocator + Copy, W: Sink>(
    alloc: A,
    objects: &O,
    filters: &[RefFilter<'_>],
    patterns: &[&str],
    sink: &mut W,
) -> Result<(), ToldFault>
    ensures { IfTold (O.told objects.now) (λ r. Prints (kept_text (O.name_of objects.now)
        (history_of r) (map shown_filter filters.now) (lent_texts patterns.now))
        (W.taken sink.old) (W.taken sink.new)) result }
{
    let mut room = Vec::new(alloc);
    match objects.ref_lines(&mut room) {
        Ok(lines) => print_kept_of(alloc, objects, lines, filters, patterns, sink),
        Err(fault) => Err(ToldFault::from(fault)),
    }
}

/// Prints those refs of these lines, which are those of all refs.
fn print_kept_of<O: Objects, A: Allocator + Copy, W: Sink>(
    alloc: A,
    objects: &O,
    lines: &[u8],
    filters: &[RefFilter<'_>],
    patterns: &[&str],
    sink: &mut W,
) -> Result<(), ToldFault>
    requires lines { IfSome (O.told objects.now) (λ r. AreRefLines r lines) }
    ensures { IfTold (O.told objects.now) (λ r. Prints (kept_text (O.name_of objects.now)
        (history_of r) (map shown_filter filters.now) (lent_texts patterns.now))
        (W.taken sink.old) (W.taken sink.new)) result }
{
    objects.sound_if_told();
    let mut room = Vec::new(alloc);
    let refs = match tips_of(alloc, objects, &mut room, lines) {
        Ok(refs) => refs,
        Err(fault) => return Err(ToldFault::from(fault)),
    };
    match kept_refs(
        alloc,
        objects,
        &mut room,
        refs.as_slice(),
        filters,
        patterns,
    ) {
        Ok(kept) => print_lines(alloc, kept.as_slice(), sink),
        Err(fault) => Err(refused(fault.word as u64, fault.kind)),
    }
}

/// Prints the lines of refs, which are made before they are printed.
fn print_lines<A: Allocator + Copy, W: Sink>(
    alloc: A,
    refs: &[Tip<'_>],
    sink: &mut W,
) -> Result<(), ToldFault>
    ensures { PrintsText (shown_text (map shown_tip refs.now))
        (W.taken sink.old) (W.taken sink.new) result }
{
    let mut text = Vec::new(alloc);
    for tip in refs {
        put_ref(&mut text, tip.name, &tip.object)?;
    }
    put_text(sink, text.as_slice())
}
