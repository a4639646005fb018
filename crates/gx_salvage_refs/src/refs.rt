//! The refs that are kept, and those that are lost. Source: git-check-ref-format(1), and gitglossary(7), "ref".

ghost use Rattle.std.specs.Prelude.{◌≡◌, false, map, true, IfNone, IfOk, IfSome, IsTrue, List};
ghost use Rattle.std.specs.List.{AllByRecursion, flat_map, list_all};
ghost use Rattle.gx_model.specs.Records.Publishing.{Ref};
ghost use Rattle.gx_model.specs.Stores.StoreText.{stored_ref};
ghost use Rattle.gx_model.specs.Texts.RefNames.{is_ref_name};
ghost use Rattle.gx_objects.specs.Answers.{AreRefs, SpellsRefs};
ghost use Rattle.gx_ref_lines.specs.Refs.{shown_refs};
ghost use Rattle.gx_repo.specs.Refs.{shown_update};
ghost use Rattle.gx_reached.specs.Damages.{damage_in};
ghost use Rattle.gx_salvage_refs.specs.Parting.{IsKnownDamage, IsLossBy, IsLossOf};
ghost use Rattle.gx_salvage_refs.specs.Salvaging.{ArePartedBy, is_settable};

use crate::Lost;
use gx_object::{Name, Namer};
use gx_objects::LookFault;
use gx_reached::{Bad, Cause, Damage};
use gx_ref_lines::RefLines;
use gx_repo::{RefChange, Repo, is_target};
use std::alloc::{AllocError, Allocator};

/// Refs, parted by whether a repository has what they hold: the changes that set those that are kept, and the others.
#[derive(Drop)]
pub(crate) struct Parted<'a, A: Allocator> {
    pub(crate) kept: Vec<RefChange<'a>, A>,
    pub(crate) lost: Vec<Lost<A>, A>,
}

/// The refs of lines, as changes that set them. Cost and memory: the lines.
pub(crate) fn refs_of<'a, A: Allocator + Copy>(
    alloc: A,
    lines: &'a [u8],
) -> Result<Vec<RefChange<'a>, A>, AllocError>
    requires spelled { SpellsRefs lines.now }
    ensures { IfOk result (λ refs. (given : List Ref) → lines.now ≡ flat_map stored_ref given
        → AreRefs given → map shown_update refs.items ≡ given) }
{
    match RefLines::read(alloc, lines) {
        Ok(read) => changes_of(alloc, read.refs.as_slice()),
        Err(LookFault::OutOfMemory) => Err(AllocError),
        Err(_) => unreachable!(),
    }
}

/// The changes that set refs.
fn changes_of<'a, A: Allocator + Copy>(
    alloc: A,
    refs: &[(&'a [u8], Name)],
) -> Result<Vec<RefChange<'a>, A>, AllocError>
    ensures { IfOk result (λ changes. map shown_update changes.items ≡ shown_refs refs.now) }
{
    let mut changes = Vec::new(alloc);
    for held in refs {
        changes.push(RefChange {
            name: held.0,
            target: held.1,
        })?;
    }
    Ok(changes)
}

/// Parts refs by whether they may hold their objects in a repository.
///
/// Cost: a look-up for each ref. Memory: what is answered.
pub(crate) fn part<'a, N: Namer, A: Allocator + Copy>(
    alloc: A,
    repo: &Repo<N, A>,
    bad: &Bad<A>,
    refs: &[RefChange<'a>],
) -> Result<Parted<'a, A>, AllocError>
    requires names { IsTrue (list_all (λ ref. is_ref_name ref.0) (map shown_update refs.now)) }
    ensures parted { IfOk result
        (λ parted. ArePartedBy repo.now.1.records (map shown_update refs.now)
        (map shown_update parted.kept.items) parted.lost.items) }
    ensures lost { IfOk result (λ parted.
        AllByRecursion (IsLossBy repo.now.1.records bad.now) parted.lost.items) }
{
    let mut kept = Vec::new(alloc);
    let mut lost = Vec::new(alloc);
    for change in refs {
        let Some(damage) = loss_of(repo, bad, change) else {
            kept.push(*change)?;
            continue;
        };
        lost.push(Lost {
            name: Vec::from_slice(alloc, change.name)?,
            target: change.target,
            damage,
        })?;
    }
    Ok(Parted { kept, lost })
}

/// What a ref is lost by, where it is.
fn loss_of<N: Namer, A: Allocator + Copy>(
    repo: &Repo<N, A>,
    bad: &Bad<A>,
    change: &RefChange<'_>,
) -> Option<Damage>
    requires name { IsTrue (is_ref_name change.now.name.now) }
    ensures kept { IfNone result (is_settable repo.now.1.records (shown_update change.now) ≡ true) }
    ensures lost { IfSome result
        (λ _. is_settable repo.now.1.records (shown_update change.now) ≡ false) }
    ensures damage { IfSome result (IsLossOf repo.now.1.records bad.now change.now.target) }
{
    let object = change.target;
    let Some((kind, body)) = repo.store().get(&object) else {
        return Some(known_damage(bad, change));
    };
    if is_target(change.name, kind, body) {
        return None;
    }
    Some(Damage {
        object,
        cause: Cause::WrongKind,
    })
}

/// What is known of an object that isn't held; where nothing is, another stands at its place.
fn known_damage<A: Allocator + Copy>(bad: &Bad<A>, change: &RefChange<'_>) -> Damage
    ensures { IsKnownDamage change.now.target (damage_in bad.now change.now.target.bytes) result }
{
    match bad.damage(&change.target) {
        Some(damage) => damage,
        None => Damage {
            object: change.target,
            cause: Cause::Damaged,
        },
    }
}
