//! The best common ancestors of commits: those that no other common ancestor has behind it.

ghost use Rattle.std.specs.Prelude.{◌≡◌, IfSome, map};
ghost use Rattle.gx_model.specs.declared.objects.Kind.TheVariants as kinds;
ghost use Rattle.gx_model.specs.Revisions.Ranges.{reaches};
ghost use Rattle.gx_objects.specs.Answers.{OnlyUntold, Tells};
ghost use Rattle.gx_print.specs.Logs.{AreCommits};
ghost use Rattle.gx_ranges.specs.Fronts.{AreTips};
ghost use Rattle.gx_rev.specs.Objects.{IsHeldAs, commit_at};
ghost use Rattle.gx_merge_base.specs.Bases.{AreBases, is_common};
ghost use Rattle.gx_merge_base.specs.Fronts.{AreBestOf, IsFront, reached_by_all};

use crate::fronts::{front_of, parents_behind};
use crate::meetings::meet;
use gx_object::Name;
use gx_objects::{LookFault, Objects};
use gx_ranges::{is_reached, listed, place_of};
use std::alloc::Allocator;
use std::collections::BTreeMap;
use std::slice;

/// The names of the best common ancestors of commits, the newest put first. A commit counts among its own ancestors.
///
/// With `octopus` those are common that are ancestors of all of them, and otherwise those of the first and of any of the others.
/// OutOfMemory: a growth is refused. ReadFailed: a read failed. Damaged: this is no repository.
/// Cost: the bodies of the commits that aren't common and are reached, and of those that stand as far back as these; a look-up for
/// each of their parents. With `octopus` so much for each of the others. Memory: the places that are still to be visited, and the
/// names. What is in the room before and after stands for nothing.
/// Source: git-merge-base(1).
pub fn merge_bases<O: Objects, A: Allocator + Copy>(
    alloc: A,
    objects: &O,
    octopus: bool,
    commits: &[Name],
    room: &mut Vec<u8, A>,
) -> Result<Vec<Name, A>, LookFault>
    requires held { IfSome (O.told objects.now) (λ r. AreCommits r commits.now) }
    ensures bases { Tells (O.told objects.now)
        (λ r bases. AreBases octopus commits.now r bases.items) result }
    ensures fault { OnlyUntold (O.told objects.now) result }
{
    objects.sound_if_told();
    let common = common_of(alloc, objects, octopus, commits, room)?;
    best_of(alloc, objects, common, room)
}

/// Whether a commit is another, or one of its ancestors.
///
/// OutOfMemory: a growth is refused. ReadFailed: a read failed. Damaged: this is no repository.
/// Cost: the bodies of those commits that the descendant reaches and that stand behind the ancestor, and a look-up for each of their
/// parents. Memory: the places that are still to be visited. What is in the room before and after stands for nothing.
/// Source: git-merge-base(1), `--is-ancestor`.
pub fn is_ancestor<O: Objects, A: Allocator + Copy>(
    alloc: A,
    objects: &O,
    ancestor: &Name,
    descendant: &Name,
    room: &mut Vec<u8, A>,
) -> Result<bool, LookFault>
    requires ancestor { IfSome (O.told objects.now) (λ r. IsHeldAs kinds.Commit r ancestor.now) }
    requires descendant { IfSome (O.told objects.now)
        (λ r. IsHeldAs kinds.Commit r descendant.now) }
    ensures answer { Tells (O.told objects.now) (λ r is_one.
        is_one ≡ reaches (commit_at r descendant.now) (commit_at r ancestor.now)) result }
    ensures fault { OnlyUntold (O.told objects.now) result }
{
    objects.sound_if_told();
    let mut front = front_of(alloc, objects, slice::from_ref(descendant))?;
    let place = place_of(objects, ancestor)?;
    is_reached(objects, &mut front, place, room)
}

/// Commits that together reach the common ancestors.
fn common_of<O: Objects, A: Allocator + Copy>(
    alloc: A,
    objects: &O,
    octopus: bool,
    commits: &[Name],
    room: &mut Vec<u8, A>,
) -> Result<BTreeMap<u64, Name, A>, LookFault>
    requires held { IfSome (O.told objects.now) (λ r. AreCommits r commits.now) }
    ensures common { Tells (O.told objects.now) (λ r common. IsFront (O.stands objects.now)
        (is_common octopus (map (commit_at r) commits.now)) r common.entries) result }
    ensures fault { OnlyUntold (O.told objects.now) result }
{
    objects.sound_if_told();
    let Some((first, others)) = commits.split_first() else {
        return Ok(BTreeMap::new(alloc));
    };
    let mut lefts = front_of(alloc, objects, slice::from_ref(first))?;
    if octopus {
        return common_to_all(alloc, objects, lefts, others, room);
    }
    let mut rights = front_of(alloc, objects, others)?;
    meet(alloc, objects, &mut lefts, &mut rights, room)
}

/// Commits that together reach what a front and each of several commits reach.
fn common_to_all<O: Objects, A: Allocator + Copy>(
    alloc: A,
    objects: &O,
    front: BTreeMap<u64, Name, A>,
    commits: &[Name],
    room: &mut Vec<u8, A>,
) -> Result<BTreeMap<u64, Name, A>, LookFault>
    requires tips { IfSome (O.told objects.now) (AreTips (O.stands objects.now) front.entries) }
    requires held { IfSome (O.told objects.now) (λ r. AreCommits r commits.now) }
    ensures common { Tells (O.told objects.now) (λ r common. IsFront (O.stands objects.now)
        (reached_by_all r front.entries commits.now) r common.entries) result }
    ensures fault { OnlyUntold (O.told objects.now) result }
{
    objects.sound_if_told();
    let mut common = front;
    for commit in commits {
        let mut rights = front_of(alloc, objects, slice::from_ref(commit))?;
        common = meet(alloc, objects, &mut common, &mut rights, room)?;
    }
    Ok(common)
}

/// The names of those of a front's commits that no other of them reaches, the newest put first.
fn best_of<O: Objects, A: Allocator + Copy>(
    alloc: A,
    objects: &O,
    common: BTreeMap<u64, Name, A>,
    room: &mut Vec<u8, A>,
) -> Result<Vec<Name, A>, LookFault>
    requires tips { IfSome (O.told objects.now) (AreTips (O.stands objects.now) common.entries) }
    ensures best { Tells (O.told objects.now)
        (λ r best. AreBestOf common.entries r best.items) result }
    ensures fault { OnlyUntold (O.told objects.now) result }
{
    objects.sound_if_told();
    let behind = parents_behind(alloc, objects, &common, room)?;
    listed(alloc, objects, common, behind, room)
}
