//! What can be saved of a store.

ghost use Rattle.std.specs.Prelude.{◌≡◌, ◌≤◌, IfOk, IfSome};
ghost use Rattle.std.specs.List.{AllByRecursion};
ghost use Rattle.gx_objects.specs.Answers.{AreRefLines, SpellsRefs};
ghost use Rattle.gx_salvage_refs.specs.Saved.{body_bytes};
ghost use Rattle.gx_salvage_refs.specs.Salvaging.{ArePartedRefs, IsLostBy, IsSavedOf};

use crate::Salvaged;
use crate::refs::{part, refs_of};
use crate::taking::take_all;
use gx_object::Namer;
use gx_objects::Objects;
use gx_reached::{Bad, reached};
use gx_repo::{PublishFault, Repo};
use std::alloc::{AllocError, Allocator};
use std::hash::RandomState;

/// Saves the refs of these lines whose whole history can be read, into a repository of its objects, and tells what the others
/// are lost by. The lines are those that `ref_lines` answers.
///
/// A read of an object that fails is damage of that object, and so is what can't be a repository's: the rest is still saved.
/// An object that a lost ref reaches is saved, too, where all that it reaches can be read. Objects stand in the order of their
/// places, each behind what it names.
///
/// The bodies of what is saved have so many bytes at most: those of a store's objects aren't longer than its text. From the first object
/// on that would be more they are lost as ones of which a read failed.
///
/// `AllocError`: a growth was refused.
/// Cost: trees, commits and tags are read twice, blobs once, and each is hashed once more where it is added; a look-up for each
/// link. Memory: what is saved, and about a hundred bytes for each object. Source: gitglossary(7), "reachable", and git-fsck(1).
pub fn salvage<O: Objects, N: Namer, A: Allocator + Copy>(
    alloc: A,
    objects: &O,
    lines: &[u8],
    namer: N,
    most: u64,
    state: RandomState,
) -> Result<Salvaged<N, A>, AllocError>
where
    N: Drop,
    requires names { O.name_of objects.now ≡ N.name_of namer }
    requires spelled { SpellsRefs lines.now }
    requires lines { IfSome (O.told objects.now) (λ r. AreRefLines r lines) }
    ensures namer { IfOk result (λ salvaged. salvaged.repo.0 ≡ namer) }
    ensures refs { IfOk result (λ salvaged.
        ArePartedRefs lines.now salvaged.repo.1 salvaged.lost.items) }
    ensures lost { IfOk result (λ salvaged.
        AllByRecursion (IsLostBy (N.name_of namer) salvaged.repo.1.records) salvaged.lost.items) }
    ensures saved { IfSome (O.told objects.now) (λ r. IfOk result (λ salvaged.
        IsSavedOf r salvaged.repo.1 salvaged.lost.items)) }
    ensures within { IfOk result (λ salvaged. body_bytes salvaged.repo.1.records ≤ most) }
{
    objects.sound_if_told();
    let mut repo = Repo::new(alloc, namer, state);
    let mut bad = Bad::new(alloc);
    let refs = refs_of(alloc, lines)?;
    let order = reached(alloc, objects, refs.as_slice(), &mut bad)?;
    take_all(alloc, objects, order, most, &mut repo, &mut bad)?;
    let parted = part(alloc, &repo, &bad, refs.as_slice())?;
    match repo.publish(parted.kept.as_slice()) {
        Ok(()) => Ok(Salvaged {
            repo,
            lost: parted.lost,
        }),
        Err(fault) => match fault {
            PublishFault::OutOfMemory => Err(AllocError),
            _ => unreachable!(),
        },
    }
}
