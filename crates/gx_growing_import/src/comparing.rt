//! What a repository and a small one of it tell alike.

ghost use Rattle.std.specs.Prelude.{◌≡◌, IfSome, IsTrue, OnOk};
ghost use Rattle.std.specs.FinMap.Entries.{is_sorted};
ghost use Rattle.gx_model.specs.Revisions.Denotation.{ref_names};
ghost use Rattle.gx_model.specs.Texts.{byte_cmp};
ghost use Rattle.gx_growing_import.specs.Alike.{AreAlike, AreSameRefs, IsSameBaseName, IsSameRefIn};
ghost use Rattle.gx_asked.specs.Asking.{texts_of};
ghost use Rattle.gx_ref_lines.specs.Refs.{shown_refs};
ghost use Rattle.gx_stand_ins.specs.declared.bodies.TheConstants.{NONCE};

use crate::WholeWay;
use gx_asked::Asked;
use gx_object::Namer;
use gx_objects::Objects;
use gx_ref_lines::{RefLines, ref_names};
use gx_repo::Repo;
use gx_small_repo::base_given;
use gx_stand_ins::StandIn;
use std::alloc::Allocator;

/// `Differs`, where a base that is asked for gives another object in one than in the other, or another fault, or where a ref that it
/// may stand for, or that is set, holds another object.
pub(crate) fn compare<O: Objects, N: Namer, A: Allocator + Copy>(
    alloc: A,
    objects: &O,
    small: &Repo<StandIn<N>, A>,
    asked: &Asked<A>,
    lines: &RefLines<'_, A>,
) -> Result<(), WholeWay>
    requires nonce { small.now.0.nonce ≡ NONCE }
    requires names { N.name_of small.now.0.namer ≡ O.name_of objects.now }
    requires sorted { IsTrue (is_sorted byte_cmp (shown_refs lines.now.refs.items)) }
    requires lines { IfSome (O.told objects.now)
        (λ whole. shown_refs lines.now.refs.items ≡ whole.refs) }
    ensures alike { IfSome (O.told objects.now)
        (λ whole. OnOk result (AreAlike (O.name_of objects.now) whole small.now.1 asked.now)) }
{
    compare_branches(small, asked, lines)?;
    for base in asked.bases.iter() {
        compare_base(objects, small, base.as_slice())?;
        compare_names(alloc, small, lines, base.as_slice())?;
    }
    Ok(())
}

/// `Differs`, where a branch that is set holds another object in one than in the other.
fn compare_branches<N: Namer, A: Allocator + Copy>(
    small: &Repo<StandIn<N>, A>,
    asked: &Asked<A>,
    lines: &RefLines<'_, A>,
) -> Result<(), WholeWay>
    requires sorted { IsTrue (is_sorted byte_cmp (shown_refs lines.now.refs.items)) }
    ensures same { OnOk result (AreSameRefs (shown_refs lines.now.refs.items) small.now.1.refs
        (texts_of asked.now.branches.keys)) }
{
    for branch in asked.branches.iter() {
        compare_ref(small, lines, branch.as_slice())?;
    }
    Ok(())
}

/// `Differs`, where a ref that a base may stand for holds another object in one than in the other.
fn compare_names<N: Namer, A: Allocator + Copy>(
    alloc: A,
    small: &Repo<StandIn<N>, A>,
    lines: &RefLines<'_, A>,
    base: &[u8],
) -> Result<(), WholeWay>
    requires sorted { IsTrue (is_sorted byte_cmp (shown_refs lines.now.refs.items)) }
    ensures same { OnOk result
        (AreSameRefs (shown_refs lines.now.refs.items) small.now.1.refs (ref_names base.now)) }
{
    for name in ref_names(alloc, base)?.iter() {
        compare_ref(small, lines, name.as_slice())?;
    }
    Ok(())
}

/// `Differs`, where a base gives another object in one than in the other, or another fault.
fn compare_base<O: Objects, N: Namer, A: Allocator + Copy>(
    objects: &O,
    small: &Repo<StandIn<N>, A>,
    base: &[u8],
) -> Result<(), WholeWay>
    requires nonce { small.now.0.nonce ≡ NONCE }
    requires names { N.name_of small.now.0.namer ≡ O.name_of objects.now }
    ensures same { IfSome (O.told objects.now) (λ whole. OnOk result
        (IsSameBaseName (O.name_of objects.now) whole small.now.1 base.now)) }
{
    let held = base_given(objects, base)?;
    if base_given(small, base)? == held {
        Ok(())
    } else {
        Err(WholeWay::Differs)
    }
}

/// `Differs`, where a ref holds another object in one than in the other.
fn compare_ref<N: Namer, A: Allocator + Copy>(
    small: &Repo<StandIn<N>, A>,
    lines: &RefLines<'_, A>,
    name: &[u8],
) -> Result<(), WholeWay>
    requires sorted { IsTrue (is_sorted byte_cmp (shown_refs lines.now.refs.items)) }
    ensures same { OnOk result
        (IsSameRefIn (shown_refs lines.now.refs.items) small.now.1.refs name.now) }
{
    let (_, held) = small.ref_near(0, name);
    if held == lines.find(name) {
        Ok(())
    } else {
        Err(WholeWay::Differs)
    }
}
