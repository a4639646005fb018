//! Refs without those of some names, as lines. Source: git-update-ref(1), "delete".

ghost use Rattle.std.specs.Prelude.{◌≡◌, ◌+◌, ◌<◌, ◌^◌, length, IfOk, IsTrue};
ghost use Rattle.std.specs.FinMap.Entries.{is_sorted};
ghost use Rattle.std.specs.List.{flat_map};
ghost use Rattle.gx_left_refs.specs.Left.{TellsUnknown, answer_of, not_entered};
ghost use Rattle.gx_model.specs.Stores.StoreText.{stored_ref};
ghost use Rattle.gx_model.specs.Texts.{byte_cmp};
ghost use Rattle.gx_ref_lines.specs.Refs.{shown_refs};
ghost use Rattle.gx_repo.specs.declared.fault.DropFault.TheVariants.{UnknownRef};
ghost use Rattle.gx_repo.specs.Dropping.{AreIn, Drops, HidesNoUnknown, IsAgainstNames, without};
ghost use Rattle.gx_text.specs.Lent.{lent_texts};

use gx_object::Name;
use gx_objects::put_ref;
use gx_ref_lines::RefLines;
use gx_repo::DropFault;
use std::alloc::{AllocError, Allocator};
use std::collections::BTreeSet;

/// Refs that are left: how many they are, and their lines.
#[derive(Drop)]
pub struct LeftRefs<A: Allocator> {
    pub count: u64,
    pub lines: Vec<u8, A>,
}

/// The refs that have none of these names, in their order. All refs stand in the byte order of their names.
///
/// `UnknownRef`: the first name that no ref has, or that is given before. `OutOfMemory`: a growth was refused, and no name is unknown.
/// Cost: for each name a binary search among the refs, and for each ref a look-up among the names. Where a growth is refused, each
/// name is compared with all before it. Memory: the places of the names, and the lines.
/// Source: git-update-ref(1), "delete", and gitglossary(7), "ref".
pub fn left_refs<A: Allocator + Copy>(
    alloc: A,
    held: &RefLines<'_, A>,
    names: &[&[u8]],
) -> Result<LeftRefs<A>, DropFault>
    ensures lines { IfOk result (λ left. left.lines.items ≡ flat_map stored_ref
        (without (lent_texts names.now) (shown_refs held.now.refs.items))) }
    ensures count { IfOk result (λ left. left.count
        ≡ length (without (lent_texts names.now) (shown_refs held.now.refs.items))) }
    ensures dropped { IsTrue (is_sorted byte_cmp (shown_refs held.now.refs.items))
        → Drops (shown_refs held.now.refs.items)
        (without (lent_texts names.now) (shown_refs held.now.refs.items))
        (lent_texts names.now) (answer_of result) }
    ensures unhidden { IsTrue (is_sorted byte_cmp (shown_refs held.now.refs.items))
        → HidesNoUnknown (shown_refs held.now.refs.items)
        (lent_texts names.now) (answer_of result) }
{
    let gone = gone_names(alloc, held, names)?;
    match lines_without(alloc, &gone, held.refs.as_slice()) {
        Ok(left) => Ok(left),
        Err(_) => Err(DropFault::OutOfMemory),
    }
}

/// These names, or the fault of the first that no ref has, or that is given before. Memory is wanting only where there is none.
fn gone_names<'a, A: Allocator + Copy>(
    alloc: A,
    held: &RefLines<'_, A>,
    names: &[&'a [u8]],
) -> Result<BTreeSet<&'a [u8], A>, DropFault>
    ensures gone { IfOk result (λ gone. AreIn gone (lent_texts names.now)) }
    ensures known { IsTrue (is_sorted byte_cmp (shown_refs held.now.refs.items))
        → TellsUnknown (shown_refs held.now.refs.items) (lent_texts names.now) result }
{
    let mut gone = BTreeSet::new(alloc);
    for (place, name) in names.iter().enumerate() {
        if held.find(name).is_none() {
            return Err(unknown(place));
        }
        let Ok(is_new) = gone.insert(*name) else {
            return Err(first_unknown(held, names));
        };
        if !is_new {
            return Err(unknown(place));
        }
    }
    Ok(gone)
}

/// The fault of the first name that no ref has, or that is given before; `OutOfMemory` where there is none. Takes no memory.
fn first_unknown<A: Allocator + Copy>(held: &RefLines<'_, A>, names: &[&[u8]]) -> DropFault
    ensures { IsTrue (is_sorted byte_cmp (shown_refs held.now.refs.items))
        → IsAgainstNames (shown_refs held.now.refs.items) (lent_texts names.now) result }
{
    for (place, name) in names.iter().enumerate() {
        if held.find(name).is_none() || names[..place].contains(name) {
            return unknown(place);
        }
    }
    DropFault::OutOfMemory
}

/// The fault of the name at this place.
fn unknown(place: usize) -> DropFault
    requires { place < 2 ^ 63 }
    ensures { result ≡ UnknownRef (place + 1) }
{
    DropFault::UnknownRef {
        number: place as u64 + 1,
    }
}

/// The refs that have none of the names that are gone.
fn lines_without<A: Allocator + Copy>(
    alloc: A,
    gone: &BTreeSet<&[u8], A>,
    refs: &[(&[u8], Name)],
) -> Result<LeftRefs<A>, AllocError>
    ensures lines { IfOk result (λ left. left.lines.items
        ≡ flat_map stored_ref (not_entered gone.now (shown_refs refs.now))) }
    ensures count { IfOk result (λ left. left.count
        ≡ length (not_entered gone.now (shown_refs refs.now))) }
{
    let mut left = LeftRefs {
        count: 0,
        lines: Vec::new(alloc),
    };
    for (name, object) in refs {
        if !gone.contains(*name) {
            put_ref(&mut left.lines, name, object)?;
            left.count += 1;
        }
    }
    Ok(left)
}
