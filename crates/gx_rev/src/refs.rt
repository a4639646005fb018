//! What the refs of a repository reach.

ghost use Rattle.std.specs.Prelude.{◌≡◌, IfOk};
ghost use Rattle.gx_model.specs.Revisions.Ranges.{no_commit};
ghost use Rattle.gx_rev.specs.Reached.{is_wanted, reached_marks};
ghost use Rattle.gx_rev.specs.Tips.{AreTips};

use crate::reached::{mark, spread, unmarked};
use gx_object::Namer;
use gx_repo::Repo;
use std::alloc::{AllocError, Allocator};

/// Marks of the commits that the refs of a repository reach, by the places of the records.
///
/// Cost: the number of records and of refs, and for each commit that is reached its body and a look-up for each of its
/// parents. Takes a byte for each record. Source: gitglossary(7), "reachable".
pub fn reached_from_refs<N: Namer, A: Allocator + Copy>(
    alloc: A,
    repo: &Repo<N, A>,
) -> Result<Vec<bool, A>, AllocError>
    ensures { IfOk result (λ marks. marks.items ≡ reached_marks repo.now.1) }
{
    let mut marks = unmarked(alloc, repo)?;
    mark_all(repo, &mut marks);
    Ok(marks)
}

/// Marks what refs reach.
fn mark_all<N: Namer, A: Allocator + Copy>(repo: &Repo<N, A>, marks: &mut [bool])
    requires { AreTips repo.now.1 no_commit marks.old }
    ensures { marks.new ≡ reached_marks repo.now.1 }
{
    mark_refs(repo, marks);
    spread(repo, marks);
}

/// Marks the commits that refs hold, and those of their tags.
fn mark_refs<N: Namer, A: Allocator + Copy>(repo: &Repo<N, A>, marks: &mut [bool])
    requires { AreTips repo.now.1 no_commit marks.old }
    ensures { AreTips repo.now.1 (is_wanted repo.now.1) marks.new }
{
    for (_, object) in repo.refs() {
        if let Some(commit) = repo.peel(&object) {
            mark(repo, marks, &commit);
        }
    }
}
