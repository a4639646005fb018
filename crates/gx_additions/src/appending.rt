//! Appending what a segment brings.

ghost use Rattle.std.specs.Prelude.{◌≡◌, ◌≢◌, ◌+◌, ◌<◌, ◌≤◌, List, IfErr, IsErrOf, OnOk};
ghost use Rattle.sha2.specs.Sha256.{sha256};
ghost use Rattle.gx_model.specs.Texts.{Bytes};
ghost use Rattle.gx_model.specs.Histories.{Records};
ghost use Rattle.gx_model.specs.Objects.{ForEachNamer};
ghost use Rattle.gx_model.specs.Laws.RepositoryLaws.{with_refs};
ghost use Rattle.gx_append.specs.Appending.{IsDurable, IsGrowth, IsReadAs, IsReadAsEither};
ghost use Rattle.gx_append.specs.Devices.{LeavesOnly, most_faults};
ghost use Rattle.gx_additions.specs.Additions as additions;
ghost use Rattle.gx_additions.specs.Additions.{GivesRefs};
ghost use Rattle.gx_additions.specs.Faults.{IsOfDevice, IsUnwritten};
ghost use Rattle.gx_additions.specs.NewObjects.{GivesAdditions, GivesObjects};
ghost use Rattle.gx_additions.specs.declared.fault.AdditionFault.TheVariants.{OutOfMemory, ReadFailed};

use crate::fault::AdditionFault;
use crate::objects::{new_additions, new_objects};
use crate::refs::refs_alone;
use crate::slot::Addition;
use gx_append::{Device, append};
use gx_growing_parts::Ending;
use gx_object::Namer;
use gx_repo::Repo;
use gx_store::Store;
use std::alloc::Allocator;

/// Appends to a growing text, which has an ending, what a repository has more: its objects, of which the text holds the first ones,
/// so many, and its refs in place of the text's.
///
/// The new run takes in the last live ones while the last has at most twice as many rows as the new one has so far. Whatever a stop
/// of the machine leaves is read as the repository before, or as this one. `OutOfMemory` and `ReadFailed` leave the device as it was,
/// and `Unwritten` the text, whose file is then cut back to its end where that can be done.
/// Cost: the new objects and the refs, the rows that are taken in, which are sorted, and three syncs. Memory: at most twice the
/// segment, and its rows a few times. Source: this project's own format.
pub fn append_objects<D: Device, N: Namer, A: Allocator + Copy>(
    alloc: A,
    device: &mut D,
    ending: Ending<'_>,
    repo: &Repo<N, A>,
    held: usize,
) -> Result<(), AdditionFault>
    ensures reads { (old : Records)
        → GivesObjects (N.name_of repo.now.0) (D.text device.old) ending.entry old repo.now.1 held
        → LeavesOnly D.moment D.left_since D.may_leave device.old device.new
        (IsReadAsEither (N.name_of repo.now.0) sha256 old repo.now.1) }
    ensures read { OnOk result ((old : Records)
        → GivesObjects (N.name_of repo.now.0) (D.text device.old) ending.entry old repo.now.1 held
        → IsDurable (D.text device.new) (D.may_leave device.new)
        (IsReadAs (N.name_of repo.now.0) sha256 repo.now.1)) }
    ensures unwritten { IfErr result (λ fault. IsUnwritten fault → (old : Records)
        → GivesObjects (N.name_of repo.now.0) (D.text device.old) ending.entry old repo.now.1 held
        → LeavesOnly D.moment D.left_since D.may_leave device.old device.new
        (IsReadAs (N.name_of repo.now.0) sha256 old)) }
    ensures cut { IfErr result (λ fault. IsUnwritten fault → (old : Records)
        → GivesObjects (N.name_of repo.now.0) (D.text device.old) ending.entry old repo.now.1 held
        → D.faults device.new ≤ D.faults device.old + 1 → D.faults device.new < most_faults
        → additions.IsCutBack (N.name_of repo.now.0) (D.text device.old) (D.text device.new)
        ending.entry.ends old) }
    ensures cause { IfErr result (λ fault. IsOfDevice fault → (old : Records)
        → GivesObjects (N.name_of repo.now.0) (D.text device.old) ending.entry old repo.now.1 held
        → D.faults device.new < most_faults → D.faults device.old < D.faults device.new) }
    ensures memory { IsErrOf result OutOfMemory → device.new ≡ device.old }
    ensures unread { IsErrOf result ReadFailed → device.new ≡ device.old }
{
    repo.sound();
    let added = new_objects(alloc, device, ending, repo, held)?;
    append_addition(device, ending, &added)
}

/// Appends to a growing text, which has an ending, the objects of a store, none of which it holds, and gives it other refs, so many
/// of them, by their lines. How many objects it holds is how many rows are taken in at most.
///
/// The new run takes in live ones as that of `append_objects` does. Whatever a stop of the machine leaves is read as the repository
/// before, or as the one with these objects and refs. Each fault leaves what it leaves there.
/// Cost: the store's objects and the lines, the rows that are taken in, which are sorted, and three syncs. Memory: at most twice the
/// segment, and its rows a few times. Source: this project's own format.
pub fn append_additions<D: Device, N: Namer, A: Allocator + Copy>(
    alloc: A,
    device: &mut D,
    ending: Ending<'_>,
    held: u64,
    store: &Store<N, A>,
    count: u64,
    refs: &[u8],
) -> Result<(), AdditionFault>
    ensures reads { ForEachNamer (λ name. (old new : Records)
        → GivesAdditions name (D.text device.old) ending.entry store.now.1 count refs.now old new
        → LeavesOnly D.moment D.left_since D.may_leave device.old device.new
        (IsReadAsEither name sha256 old new)) }
    ensures read { OnOk result (ForEachNamer (λ name. (old new : Records)
        → GivesAdditions name (D.text device.old) ending.entry store.now.1 count refs.now old new
        → IsDurable (D.text device.new) (D.may_leave device.new)
        (IsReadAs name sha256 new))) }
    ensures unwritten { IfErr result (λ fault. IsUnwritten fault → ForEachNamer (λ name.
        (old new : Records)
        → GivesAdditions name (D.text device.old) ending.entry store.now.1 count refs.now old new
        → LeavesOnly D.moment D.left_since D.may_leave device.old device.new
        (IsReadAs name sha256 old))) }
    ensures cut { IfErr result (λ fault. IsUnwritten fault → ForEachNamer (λ name.
        (old new : Records)
        → GivesAdditions name (D.text device.old) ending.entry store.now.1 count refs.now old new
        → D.faults device.new ≤ D.faults device.old + 1 → D.faults device.new < most_faults
        → additions.IsCutBack name (D.text device.old) (D.text device.new)
        ending.entry.ends old)) }
    ensures cause { IfErr result (λ fault. IsOfDevice fault → ForEachNamer (λ name.
        (old new : Records)
        → GivesAdditions name (D.text device.old) ending.entry store.now.1 count refs.now old new
        → D.faults device.new < most_faults → D.faults device.old < D.faults device.new)) }
    ensures memory { IsErrOf result OutOfMemory → device.new ≡ device.old }
    ensures unread { IsErrOf result ReadFailed → device.new ≡ device.old }
{
    let added = new_additions(alloc, device, ending, held, store, count, refs)?;
    append_addition(device, ending, &added)
}

/// Gives a growing text, which has an ending, other refs, so many of them, by their lines.
///
/// Whatever a stop of the machine leaves is read as the repository before, or with these refs. `OutOfMemory` leaves the device as it
/// was, and `Unwritten` the text, whose file is then cut back to its end where that can be done. Nothing is read.
/// Cost: the lines, which are hashed, and three syncs. Memory: the segment. Source: this project's own format.
pub fn append_refs<D: Device, A: Allocator + Copy>(
    alloc: A,
    device: &mut D,
    ending: Ending<'_>,
    count: u64,
    refs: &[u8],
) -> Result<(), AdditionFault>
    ensures reads { ForEachNamer (λ name. (repository : Records) (named : List (Bytes × Bytes))
        → GivesRefs name (D.text device.old) ending.entry count refs.now repository named
        → LeavesOnly D.moment D.left_since D.may_leave device.old device.new
        (IsReadAsEither name sha256 repository (with_refs repository named))) }
    ensures read { OnOk result (ForEachNamer (λ name.
        (repository : Records) (named : List (Bytes × Bytes))
        → GivesRefs name (D.text device.old) ending.entry count refs.now repository named
        → IsDurable (D.text device.new) (D.may_leave device.new)
        (IsReadAs name sha256 (with_refs repository named)))) }
    ensures unwritten { IfErr result (λ fault. IsUnwritten fault → ForEachNamer (λ name.
        (repository : Records) (named : List (Bytes × Bytes))
        → GivesRefs name (D.text device.old) ending.entry count refs.now repository named
        → LeavesOnly D.moment D.left_since D.may_leave device.old device.new
        (IsReadAs name sha256 repository))) }
    ensures cut { IfErr result (λ fault. IsUnwritten fault → ForEachNamer (λ name.
        (repository : Records) (named : List (Bytes × Bytes))
        → GivesRefs name (D.text device.old) ending.entry count refs.now repository named
        → D.faults device.new ≤ D.faults device.old + 1 → D.faults device.new < most_faults
        → additions.IsCutBack name (D.text device.old) (D.text device.new)
        ending.entry.ends repository)) }
    ensures cause { IfErr result (λ fault. IsOfDevice fault → ForEachNamer (λ name.
        (repository : Records) (named : List (Bytes × Bytes))
        → GivesRefs name (D.text device.old) ending.entry count refs.now repository named
        → D.faults device.new < most_faults → D.faults device.old < D.faults device.new)) }
    ensures memory { IsErrOf result OutOfMemory → device.new ≡ device.old }
    ensures no_read { IfErr result (λ fault. fault ≢ ReadFailed) }
{
    let added = refs_alone(alloc, ending, count, refs)?;
    append_addition(device, ending, &added)
}

/// Appends a segment to a growing text that has an ending, with the slot that leads to the segment.
fn append_addition<D: Device, A: Allocator>(
    device: &mut D,
    ending: Ending<'_>,
    added: &Addition<A>,
) -> Result<(), AdditionFault>
    ensures reads { ForEachNamer (λ name. (repository new : Records)
        → IsGrowth name sha256 (D.text device.old)
        ending.entry.is_first ending.entry.ends added.now.segment.items
        added.now.slot.items repository new
        → LeavesOnly D.moment D.left_since D.may_leave device.old device.new
        (IsReadAsEither name sha256 repository new)) }
    ensures read { OnOk result (ForEachNamer (λ name. (repository new : Records)
        → IsGrowth name sha256 (D.text device.old)
        ending.entry.is_first ending.entry.ends added.now.segment.items
        added.now.slot.items repository new
        → IsDurable (D.text device.new) (D.may_leave device.new)
        (IsReadAs name sha256 new))) }
    ensures unwritten { IfErr result (λ fault. IsUnwritten fault → ForEachNamer (λ name.
        (repository new : Records)
        → IsGrowth name sha256 (D.text device.old)
        ending.entry.is_first ending.entry.ends added.now.segment.items
        added.now.slot.items repository new
        → LeavesOnly D.moment D.left_since D.may_leave device.old device.new
        (IsReadAs name sha256 repository))) }
    ensures cut { IfErr result (λ fault. IsUnwritten fault → ForEachNamer (λ name.
        (repository new : Records)
        → IsGrowth name sha256 (D.text device.old)
        ending.entry.is_first ending.entry.ends added.now.segment.items
        added.now.slot.items repository new
        → D.faults device.new ≤ D.faults device.old + 1 → D.faults device.new < most_faults
        → additions.IsCutBack name (D.text device.old) (D.text device.new)
        ending.entry.ends repository)) }
    ensures cause { IfErr result (λ fault. ForEachNamer (λ name. (repository new : Records)
        → IsGrowth name sha256 (D.text device.old)
        ending.entry.is_first ending.entry.ends added.now.segment.items
        added.now.slot.items repository new
        → D.faults device.new < most_faults → D.faults device.old < D.faults device.new)) }
    ensures fault { IfErr result IsOfDevice }
{
    let segment = added.segment.as_slice();
    let slot = added.slot.as_slice();
    match append(device, ending.is_first, ending.ends, segment, slot) {
        Ok(()) => Ok(()),
        Err(fault) => Err(AdditionFault::Append(fault)),
    }
}
