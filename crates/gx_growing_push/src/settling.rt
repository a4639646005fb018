//! The refs that a push leaves of those that an import makes. Source: git-push(1), "--delete" and "--atomic".

ghost use Rattle.std.specs.Prelude.{◌≡◌, ◌<◌, IfOk, IfSome, IsTrue, List, length};
ghost use Rattle.std.specs.FinMap.Entries.{is_sorted};
ghost use Rattle.std.specs.List.{AllByRecursion};
ghost use Rattle.gx_growing_push.specs.Settling.{TellsOther, same_lent};
ghost use Rattle.gx_growing_push.specs.Wanting.{IsFree, Leaves};
ghost use Rattle.gx_model.specs.Texts.{Bytes, byte_cmp};
ghost use Rattle.gx_push.specs.Pushes.{are_kept};
ghost use Rattle.gx_push.specs.Wants.{refs_of, shown_wants};
ghost use Rattle.gx_ref_lines.specs.Refs.{shown_refs};
ghost use Rattle.gx_repo.specs.Dropping.{AreIn};

use crate::WholePush;
use crate::wants::{Wants, vanishing};
use gx_growing_import::WholeWay;
use gx_left_refs::{LeftRefs, left_refs};
use gx_object::Name;
use gx_ref_lines::RefLines;
use std::alloc::Allocator;
use std::collections::BTreeSet;

/// The refs that a push leaves, by their lines, of those before an import and behind it.
///
/// `Others`: a ref changed that no line has. Cost: the refs, and a look-up among the lines for each. Memory: the lines that are left.
pub(crate) fn left_by<A: Allocator + Copy>(
    alloc: A,
    before: &RefLines<'_, A>,
    after: &RefLines<'_, A>,
    wants: &Wants<'_, A>,
) -> Result<LeftRefs<A>, WholePush>
    requires free { AllByRecursion IsFree (shown_wants wants.now.list.items) }
    requires names { AreIn wants.now.names (refs_of (shown_wants wants.now.list.items)) }
    ensures { IsTrue (is_sorted byte_cmp (shown_refs after.now.refs.items)) → IfOk result (λ left.
        Leaves (shown_refs before.now.refs.items) (shown_refs after.now.refs.items)
        (shown_wants wants.now.list.items) left.lines.items left.count) }
{
    if !are_others_kept(before.refs.as_slice(), after.refs.as_slice(), &wants.names) {
        return Err(WholePush::Others);
    }
    let names = vanishing(alloc, after, wants.list.as_slice())?;
    match left_refs(alloc, after, names.as_slice()) {
        Ok(left) => Ok(left),
        Err(_) => Err(WholePush::Import(WholeWay::OutOfMemory)),
    }
}

/// Whether the refs that have none of these names are the same at two times.
fn are_others_kept<A: Allocator + Copy>(
    before: &[(&[u8], Name)],
    after: &[(&[u8], Name)],
    names: &BTreeSet<&[u8], A>,
) -> bool
    ensures { (others : List Bytes) → AreIn names.now others
        → result ≡ are_kept others (shown_refs before.now) (shown_refs after.now) }
{
    let mut place = 0;
    for held in after {
        if names.contains(held.0) {
            continue;
        }
        let Some(next) = next_other(before, place, names) else {
            return false;
        };
        if !is_same(&before[next], held) {
            return false;
        }
        place = next + 1;
    }
    next_other(before, place, names).is_none()
}

/// The place of the first ref from a place on that has none of these names.
fn next_other<A: Allocator + Copy>(
    refs: &[(&[u8], Name)],
    from: usize,
    names: &BTreeSet<&[u8], A>,
) -> Option<usize>
    ensures bound { IfSome result (λ place. place < length refs.now) }
    ensures other { (others : List Bytes) → AreIn names.now others
        → TellsOther others refs.now from result }
{
    for place in from..refs.len() {
        if !names.contains(refs[place].0) {
            return Some(place);
        }
    }
    None
}

/// Whether two refs are one.
fn is_same(held: &(&[u8], Name), other: &(&[u8], Name)) -> bool
    ensures { result ≡ same_lent held.now other.now }
{
    held.0 == other.0 && held.1 == other.1
}
