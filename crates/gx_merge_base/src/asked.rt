//! What is asked of the ancestors of commits that revisions give.

ghost use Rattle.gx_merge_base.specs.Asked.{AnswersAncestry, AnswersBases};

use crate::bases::{is_ancestor, merge_bases};
use crate::words::commits_of;
use gx_object::Name;
use gx_objects::Objects;
use gx_ranges::RangeFault;
use gx_rev::Revision;
use std::alloc::Allocator;

/// The names of the best common ancestors of the commits that revisions give, the newest put first. A commit counts among its own
/// ancestors.
///
/// With `octopus` those are common that are ancestors of all of them, and otherwise those of the first and of any of the others.
/// The first revision that is refused is answered with its number, from 1, and its fault. OutOfMemory: a growth is refused.
/// ReadFailed: a read failed. Damaged: this is no repository.
/// Cost: that of `commits_of` and of `merge_bases`. Memory: the names, the places that are still to be visited, and the room for
/// one object.
/// Source: git-merge-base(1).
pub fn bases_asked<O: Objects, A: Allocator + Copy>(
    alloc: A,
    objects: &O,
    octopus: bool,
    revisions: &[Revision<A>],
) -> Result<Vec<Name, A>, RangeFault>
    ensures { AnswersBases (O.name_of objects.now) (O.told objects.now) octopus
        revisions.now result }
{
    let mut room = Vec::new(alloc);
    let commits = commits_of(alloc, objects, &mut room, revisions)?;
    let bases = merge_bases(alloc, objects, octopus, commits.as_slice(), &mut room)?;
    Ok(bases)
}

/// Whether the commit of the first revision is that of the second, or one of its ancestors. Of fewer than two it isn't so.
///
/// The faults are those of `bases_asked`. Cost: that of `commits_of` and of `is_ancestor`. Memory: the places that are still to be
/// visited, and the room for one object.
/// Source: git-merge-base(1), `--is-ancestor`.
pub fn ancestry_asked<O: Objects, A: Allocator + Copy>(
    alloc: A,
    objects: &O,
    revisions: &[Revision<A>],
) -> Result<bool, RangeFault>
    ensures { AnswersAncestry (O.name_of objects.now) (O.told objects.now) revisions.now result }
{
    let mut room = Vec::new(alloc);
    let commits = commits_of(alloc, objects, &mut room, revisions)?;
    let names = commits.as_slice();
    if names.len() < 2 {
        return Ok(false);
    }
    let answer = is_ancestor(alloc, objects, &names[0], &names[1], &mut room)?;
    Ok(answer)
}
