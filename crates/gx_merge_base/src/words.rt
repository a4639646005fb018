//! The commits that words give as revisions.

ghost use Rattle.std.specs.Prelude.{◌≡◌};
ghost use Rattle.gx_ranges.specs.Answers.{refused_at};
ghost use Rattle.gx_merge_base.specs.Words.{GivesCommits};

use gx_object::Name;
use gx_objects::Objects;
use gx_questions::{AskFault, commit};
use gx_ranges::RangeFault;
use gx_rev::Revision;
use std::alloc::Allocator;

/// The commit that each revision gives after peeling, in their order.
///
/// The first that is refused is answered with its number, from 1, and its fault. OutOfMemory: a growth is refused. ReadFailed: a
/// read failed. Damaged: this is no repository.
/// Cost: that of `gx_questions::commit` for each. Memory: the names, and the room for one object. What is in the room before and
/// after stands for nothing.
/// Source: gitrevisions(7), "Specifying Revisions".
pub fn commits_of<O: Objects, A: Allocator + Copy>(
    alloc: A,
    objects: &O,
    room: &mut Vec<u8, A>,
    revisions: &[Revision<A>],
) -> Result<Vec<Name, A>, RangeFault>
    ensures { GivesCommits (O.name_of objects.now) (O.told objects.now) revisions.now result }
{
    let mut commits = Vec::new(alloc);
    for (place, revision) in revisions.iter().enumerate() {
        let commit = match commit(objects, room, revision) {
            Ok(commit) => commit,
            Err(kind) => return Err(refused(place + 1, kind)),
        };
        if commits.push(commit).is_err() {
            return Err(refused(0, AskFault::OutOfMemory));
        }
    }
    Ok(commits)
}

/// The fault of a revision. Want of memory, a failed read and damage are of none.
fn refused(word: usize, kind: AskFault) -> RangeFault
    ensures { result ≡ refused_at word kind }
{
    match kind {
        AskFault::Revision(_) => RangeFault { word, kind },
        _ => RangeFault { word: 0, kind },
    }
}
