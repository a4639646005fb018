//! The lines of a push, held against refs by their lines. Source: git-push(1), "--force-with-lease".

ghost use Rattle.std.specs.Prelude.{◌≡◌, false, IfOk, IfSome, IsTrue, Ok};
ghost use Rattle.std.specs.FinMap.Entries.{is_sorted};
ghost use Rattle.std.specs.List.{AllByRecursion};
ghost use Rattle.gx_growing_push.specs.Wanting.{IsFree, MayBeAny};
ghost use Rattle.gx_model.specs.Texts.{byte_cmp};
ghost use Rattle.gx_object.specs.Parts.{bytes_if};
ghost use Rattle.gx_push.specs.Calls.{HoldsLine, texts};
ghost use Rattle.gx_push.specs.Pushes.{is_vanishing, vanishing};
ghost use Rattle.gx_push.specs.Wants.{refs_of, shown_want, shown_wants, wants_in};
ghost use Rattle.gx_ref_lines.specs.Refs.{shown_refs};
ghost use Rattle.gx_repo.specs.Dropping.{AreIn};
ghost use Rattle.gx_text.specs.Lent.{lent_texts};

use crate::WholePush;
use gx_object::Name;
use gx_push::{Fate, Want, want_in};
use gx_ref_lines::RefLines;
use std::alloc::{AllocFailed, Allocator};
use std::collections::BTreeSet;

/// What lines want, in their order, and the names of the refs that they tell of.
#[derive(Drop)]
pub(crate) struct Wants<'a, A: Allocator> {
    pub(crate) list: Vec<Want<'a>, A>,
    pub(crate) names: BTreeSet<&'a [u8], A>,
}

/// What these lines want of refs, which are as each line has them, and may change as they do whatever commits there are.
///
/// `Lines`: it isn't so. Cost: a binary search among the refs for each line. Memory: the places of the lines.
pub(crate) fn wants_of<'a, A: Allocator + Copy>(
    alloc: A,
    held: &RefLines<'_, A>,
    lines: &'a [Vec<u8, A>],
) -> Result<Wants<'a, A>, WholePush>
    requires sorted { IsTrue (is_sorted byte_cmp (shown_refs held.now.refs.items)) }
    ensures wanted { IfOk result (λ wants.
        wants_in (shown_refs held.now.refs.items) (texts lines.now)
        ≡ Ok (shown_wants wants.list.items)) }
    ensures free { IfOk result (λ wants. AllByRecursion IsFree (shown_wants wants.list.items)) }
    ensures names { IfOk result (λ wants.
        AreIn wants.names (refs_of (shown_wants wants.list.items))) }
{
    let mut list = Vec::new(alloc);
    let mut names = BTreeSet::new(alloc);
    for line in lines {
        let Some(want) = want_held(held, &names, line.as_slice()) else {
            return Err(WholePush::Lines);
        };
        names.insert(want.name)?;
        list.push(want)?;
    }
    Ok(Wants { list, names })
}

/// What a line wants, where the ref is as the line has it, has none of these names, and doesn't have to move forward.
fn want_held<'a, A: Allocator + Copy>(
    held: &RefLines<'_, A>,
    names: &BTreeSet<&'a [u8], A>,
    line: &'a [u8],
) -> Option<Want<'a>>
    requires sorted { IsTrue (is_sorted byte_cmp (shown_refs held.now.refs.items)) }
    ensures held { IfSome result
        (λ want. HoldsLine (shown_refs held.now.refs.items) names.now line.now (Ok want)) }
    ensures free { IfSome result (λ want. IsFree (shown_want want)) }
{
    let Some(want) = want_in(line) else {
        return None;
    };
    if names.contains(want.name) || moves(want.fate, want.old) {
        return None;
    }
    if held.find(want.name) == want.old {
        Some(want)
    } else {
        None
    }
}

/// Whether a ref has to move forward from an object.
fn moves(fate: Fate, old: Option<Name>) -> bool
    ensures { result ≡ false → MayBeAny fate (bytes_if old) }
{
    match fate {
        Fate::Advance => old.is_some(),
        Fate::Lose | Fate::Vanish => false,
    }
}

/// The names of the refs that are to be removed, and are there.
pub(crate) fn vanishing<'a, A: Allocator + Copy>(
    alloc: A,
    refs: &RefLines<'_, A>,
    wants: &[Want<'a>],
) -> Result<Vec<&'a [u8], A>, AllocFailed<&'a [u8]>>
    ensures { IsTrue (is_sorted byte_cmp (shown_refs refs.now.refs.items))
        → IfOk result (λ names. lent_texts names.items
        ≡ vanishing (shown_refs refs.now.refs.items) (shown_wants wants.now)) }
{
    let mut names = Vec::new(alloc);
    for want in wants {
        if vanishes(refs, want) {
            names.push(want.name)?;
        }
    }
    Ok(names)
}

/// Whether a ref is to be removed, and is there.
fn vanishes<A: Allocator + Copy>(refs: &RefLines<'_, A>, want: &Want<'_>) -> bool
    ensures { IsTrue (is_sorted byte_cmp (shown_refs refs.now.refs.items))
        → result ≡ is_vanishing (shown_refs refs.now.refs.items) (shown_want want.now) }
{
    match want.fate {
        Fate::Vanish => refs.find(want.name).is_some(),
        Fate::Advance | Fate::Lose => false,
    }
}
