//! The refs that a repository has after an import over a small one.

ghost use Rattle.std.specs.Prelude.{◌≡◌, ◌++◌, ◌∷◌, ◌+◌, ◌≤◌, drop, length, take, IfOk, IsTrue, OnOk};
ghost use Rattle.std.specs.FinMap.Entries.{is_sorted, put};
ghost use Rattle.std.specs.List.{flat_map};
ghost use Rattle.gx_model.specs.Records.Publishing.{with_changes};
ghost use Rattle.gx_model.specs.Stores.StoreText.{stored_ref};
ghost use Rattle.gx_model.specs.Texts.{Bytes, byte_cmp};
ghost use Rattle.gx_ref_lines.specs.Refs.{shown_refs};

use gx_object::{Name, Namer};
use gx_objects::put_ref;
use gx_ref_lines::RefLines;
use gx_repo::Repo;
use std::alloc::{AllocError, Allocator};

/// Lines of refs, and how many they are.
#[derive(Drop)]
struct Next<A: Allocator> {
    lines: Vec<u8, A>,
    count: u64,
}

/// The lines of a repository's refs with those of a small one set, in the byte order of their names, and how many they are.
///
/// An error: a growth was refused.
/// Cost: the lines, and a binary search for each ref that is set. Memory: the lines. Source: git-show-ref(1).
pub fn next_refs<N: Namer, A: Allocator + Copy>(
    alloc: A,
    lines: &RefLines<'_, A>,
    small: &Repo<N, A>,
) -> Result<(Vec<u8, A>, u64), AllocError>
    requires sorted { IsTrue (is_sorted byte_cmp (shown_refs lines.now.refs.items)) }
    ensures lines { IfOk result (λ next. next.0.items
        ≡ flat_map stored_ref (with_changes (shown_refs lines.now.refs.items) small.now.1.refs)) }
    ensures count { IfOk result (λ next. next.1
        ≡ length (with_changes (shown_refs lines.now.refs.items) small.now.1.refs)) }
{
    let next = merged(alloc, lines.refs.as_slice(), small)?;
    Ok((next.lines, next.count))
}

/// The lines of refs with those of a small repository set.
fn merged<N: Namer, A: Allocator + Copy>(
    alloc: A,
    refs: &[(&[u8], Name)],
    small: &Repo<N, A>,
) -> Result<Next<A>, AllocError>
    requires sorted { IsTrue (is_sorted byte_cmp (shown_refs refs.now)) }
    ensures lines { IfOk result (λ next. next.lines.items
        ≡ flat_map stored_ref (with_changes (shown_refs refs.now) small.now.1.refs)) }
    ensures count { IfOk result (λ next. next.count
        ≡ length (with_changes (shown_refs refs.now) small.now.1.refs)) }
{
    let mut next = Next {
        lines: Vec::new(alloc),
        count: 0,
    };
    let mut at = 0;
    for (name, object) in small.refs() {
        let rest = &refs[at..];
        let (before, behind) = places_of(rest, name);
        put_all(&mut next, &rest[..before])?;
        put(&mut next, name, &object)?;
        at += behind;
    }
    put_all(&mut next, &refs[at..])?;
    Ok(next)
}

/// How many refs stand before a name, and the place of those behind it.
fn places_of(refs: &[(&[u8], Name)], name: &[u8]) -> (usize, usize)
    requires sorted { IsTrue (is_sorted byte_cmp (shown_refs refs.now)) }
    ensures parts { (object : Bytes) → put byte_cmp name.now object (shown_refs refs.now)
        ≡ shown_refs (take result.0 refs.now)
        ++ (name.now, object) ∷ shown_refs (drop result.1 refs.now) }
    ensures before { result.0 ≤ length refs.now }
    ensures behind { result.1 ≤ length refs.now }
{
    match refs.binary_search_by(|held| held.0.cmp(name)) {
        Ok(place) => (place, place + 1),
        Err(place) => (place, place),
    }
}

/// Puts the lines of refs.
fn put_all<A: Allocator>(next: &mut Next<A>, refs: &[(&[u8], Name)]) -> Result<(), AllocError>
    requires bound { next.old.count ≤ length next.old.lines.items }
    ensures lines { OnOk result (next.new.lines.items
        ≡ next.old.lines.items ++ flat_map stored_ref (shown_refs refs.now)) }
    ensures count { OnOk result (next.new.count ≡ next.old.count + length refs.now) }
    ensures bound { OnOk result (next.new.count ≤ length next.new.lines.items) }
{
    for held in refs {
        put(next, held.0, &held.1)?;
    }
    Ok(())
}

/// Puts the line of a ref.
fn put<A: Allocator>(next: &mut Next<A>, name: &[u8], object: &Name) -> Result<(), AllocError>
    requires bound { next.old.count ≤ length next.old.lines.items }
    ensures lines { OnOk result (next.new.lines.items
        ≡ next.old.lines.items ++ stored_ref (name.now, object.now.bytes)) }
    ensures count { OnOk result (next.new.count ≡ next.old.count + 1) }
    ensures bound { OnOk result (next.new.count ≤ length next.new.lines.items) }
{
    put_ref(&mut next.lines, name, object)?;
    next.count += 1;
    Ok(())
}
