//! Refs that lose no commit where they move. Source: gitglossary(7), "fast-forward".

ghost use Rattle.std.specs.Prelude.{◌≡◌, IfOk};
ghost use Rattle.gx_push.specs.Calls.{TellsLost};
ghost use Rattle.gx_push.specs.Forward.{first_lost, is_forward, is_kept};
ghost use Rattle.gx_push.specs.Wants.{shown_want, shown_wants};
ghost use Rattle.gx_rev.specs.Parents.{HoldsParents};

use crate::fault::{PushFault, RefFault};
use crate::want::{Fate, Want};
use crate::wants::refused;
use gx_object::{Name, Namer};
use gx_repo::Repo;
use gx_rev::{Parents, is_ancestor};
use std::alloc::{AllocError, Allocator};

/// Refuses the first ref that loses commits and may not.
pub(crate) fn want_forward<N: Namer, A: Allocator + Copy>(
    alloc: A,
    repo: &Repo<N, A>,
    wants: &[Want<'_>],
) -> Result<(), PushFault>
    ensures { TellsLost (first_lost repo.now.1 1 (shown_wants wants.now)) result }
{
    let mut parents = Parents::new(alloc);
    for (place, want) in wants.iter().enumerate() {
        if !is_kept(alloc, repo, &mut parents, want)? {
            return Err(refused(place, RefFault::NotFastForward));
        }
    }
    Ok(())
}

/// Whether a ref is what may become of it.
fn is_kept<N: Namer, A: Allocator + Copy>(
    alloc: A,
    repo: &Repo<N, A>,
    parents: &mut Parents<A>,
    want: &Want<'_>,
) -> Result<bool, AllocError>
    requires holds { HoldsParents repo.now.1 parents.old }
    ensures holds { HoldsParents repo.now.1 parents.new }
    ensures kept { IfOk result (λ kept. kept ≡ is_kept repo.now.1 (shown_want want.now)) }
{
    match (want.fate, want.old) {
        (Fate::Advance, Some(old)) => match repo.ref_near(0, want.name).1 {
            Some(new) => is_forward(alloc, repo, parents, &old, &new),
            None => Ok(false),
        },
        _ => Ok(true),
    }
}

/// Whether the commit of the first of two objects is that of the second, or an ancestor of it.
pub(crate) fn is_forward<N: Namer, A: Allocator + Copy>(
    alloc: A,
    repo: &Repo<N, A>,
    parents: &mut Parents<A>,
    old: &Name,
    new: &Name,
) -> Result<bool, AllocError>
    requires holds { HoldsParents repo.now.1 parents.old }
    ensures holds { HoldsParents repo.now.1 parents.new }
    ensures forward { IfOk result
        (λ forward. forward ≡ is_forward repo.now.1 old.now.bytes new.now.bytes) }
{
    let Some(lost) = repo.peel(old) else {
        return Ok(false);
    };
    let Some(tip) = repo.peel(new) else {
        return Ok(false);
    };
    is_ancestor(alloc, repo, parents, &lost, &tip)
}
