//! Whether refs may be what items tell. Source: gitglossary(7), "ref" and "fast-forward", and git-fetch(1).

ghost use Rattle.std.specs.Prelude.{◌≡◌, IfOk};
ghost use Rattle.std.specs.Option.{option_map};
ghost use Rattle.std.specs.Map.{lookup};
ghost use Rattle.gx_model.specs.Records.Growth.{record_named};
ghost use Rattle.gx_model.specs.Stores.StoreReading.{is_target_of_kind};
ghost use Rattle.gx_model.specs.Texts.{same_bytes};
ghost use Rattle.gx_rev.specs.Parents.{HoldsParents};
ghost use Rattle.gx_wide.specs.Placing.{is_dropped};
ghost use Rattle.gx_taken.specs.Calls.{ChecksRefs, TellsAgainst, shown_commits};
ghost use Rattle.gx_taken.specs.Parts.{ref_offered, shown_ref_items};
ghost use Rattle.gx_taken.specs.Taking.{first_refused, lost_by, move_fault, ref_fault};

use crate::fault::{Refused, TakeFault};
use crate::parts::RefItem;
use gx_object::{Name, Namer};
use gx_repo::{Repo, is_target};
use gx_rev::{Parents, is_ancestor};
use std::alloc::{AllocError, Allocator};

/// Refuses the first ref that may not be what its item tells. Without `force` none may lose a commit.
pub(crate) fn check_refs<N: Namer, A: Allocator + Copy>(
    alloc: A,
    repo: &Repo<N, A>,
    refs: &[RefItem<A>],
    force: bool,
) -> Result<(), TakeFault<A>>
    ensures { ChecksRefs (first_refused force repo.now.1 (shown_ref_items refs.now)) result }
{
    let mut parents = Parents::new(alloc);
    for item in refs {
        let against = against_ref(alloc, repo, &mut parents, item, force)?;
        match against {
            Some(kind) => {
                return Err(TakeFault::Item {
                    number: item.number,
                    kind,
                });
            }
            None => {}
        }
    }
    Ok(())
}

/// What is against a ref. Nothing is against one that is to be dropped.
fn against_ref<N: Namer, A: Allocator + Copy>(
    alloc: A,
    repo: &Repo<N, A>,
    parents: &mut Parents<A>,
    item: &RefItem<A>,
    force: bool,
) -> Result<Option<Refused<A>>, AllocError>
    requires holds { HoldsParents repo.now.1 parents.old }
    ensures holds { HoldsParents repo.now.1 parents.new }
    ensures against { TellsAgainst (ref_fault force repo.now.1 (ref_offered item.now.offered))
        result }
{
    let name = item.offered.name.as_slice();
    let object = item.offered.object;
    if is_none(&object) {
        return Ok(None);
    }
    match may_hold(repo, name, &object) {
        None => Ok(Some(Refused::DanglingRef(Vec::from_slice(alloc, name)?, object))),
        Some(false) => Ok(Some(Refused::WrongKind(Vec::from_slice(alloc, name)?))),
        Some(true) if force => Ok(None),
        Some(true) => against_move(alloc, repo, parents, name, &object),
    }
}

/// Whether a name is that of no object: forty zeros tell it.
pub(crate) fn is_none(object: &Name) -> bool
    ensures { result ≡ is_dropped object.now.bytes }
{
    object.bytes == [0; 20]
}

/// Whether a ref may hold an object that is held.
fn may_hold<N: Namer, A: Allocator + Copy>(
    repo: &Repo<N, A>,
    name: &[u8],
    object: &Name,
) -> Option<bool>
    ensures { result ≡ option_map (λ held. is_target_of_kind name.now held.kind held.body)
        (record_named repo.now.1.records object.now.bytes) }
{
    let (kind, body) = repo.store().get(object)?;
    Some(is_target(name, kind, body))
}

/// What is against the move of a ref to an object: that it loses a commit.
fn against_move<N: Namer, A: Allocator + Copy>(
    alloc: A,
    repo: &Repo<N, A>,
    parents: &mut Parents<A>,
    name: &[u8],
    object: &Name,
) -> Result<Option<Refused<A>>, AllocError>
    requires holds { HoldsParents repo.now.1 parents.old }
    ensures holds { HoldsParents repo.now.1 parents.new }
    ensures against { TellsAgainst (move_fault repo.now.1 (name.now, object.now.bytes)
        (lookup (same_bytes name.now) repo.now.1.refs)) result }
{
    let (_, Some(held)) = repo.ref_near(0, name) else {
        return Ok(None);
    };
    match lost_by(alloc, repo, parents, &held, object)? {
        None => Ok(None),
        Some((old, new)) => {
            let name = Vec::from_slice(alloc, name)?;
            Ok(Some(Refused::NotFastForward(name, old, new)))
        }
    }
}

/// The commits of two objects, where the second one isn't the first and doesn't reach it.
fn lost_by<N: Namer, A: Allocator + Copy>(
    alloc: A,
    repo: &Repo<N, A>,
    parents: &mut Parents<A>,
    was: &Name,
    next: &Name,
) -> Result<Option<(Name, Name)>, AllocError>
    requires holds { HoldsParents repo.now.1 parents.old }
    ensures holds { HoldsParents repo.now.1 parents.new }
    ensures lost { IfOk result (λ lost. option_map shown_commits lost
        ≡ lost_by repo.now.1 was.now.bytes next.now.bytes) }
{
    let Some(old) = repo.peel(was) else {
        return Ok(None);
    };
    let Some(new) = repo.peel(next) else {
        return Ok(None);
    };
    if is_ancestor(alloc, repo, parents, &old, &new)? {
        Ok(None)
    } else {
        Ok(Some((old, new)))
    }
}
