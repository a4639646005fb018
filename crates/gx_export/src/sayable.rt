//! Whether a stream can say the commits that are to go out.

ghost use Rattle.std.specs.Prelude.{◌≡◌, ◌∷◌, [], Bool};
ghost use Rattle.gx_model.specs.Histories.Marks.{IsAt, marks_of};
ghost use Rattle.gx_model.specs.Histories.Values.{Commit};
ghost use Rattle.gx_model.specs.Laws.RepositoryLaws.{values_of};
ghost use Rattle.gx_export.specs.Branches.{picked};
ghost use Rattle.gx_export.specs.ChangedParts.{AreCommitMarks};
ghost use Rattle.gx_export.specs.Sayable.{TellsSayable};

use crate::ExportFault;
use gx_object::Namer;
use gx_repo::Repo;
use gx_rev::{name_at, view_of};
use std::alloc::Allocator;

/// Looks whether a stream can say the commits that are marked. `Unsupported` where one has a header but that of an encoding.
///
/// Cost: for each of them two look-ups and its body. Takes no memory. Source: git-fast-import(1), "commit".
pub(crate) fn check_sayable<N: Namer, A: Allocator + Copy>(
    repo: &Repo<N, A>,
    marks: &[bool],
) -> Result<(), ExportFault>
    requires { AreCommitMarks repo.now.1 marks.now }
    ensures { (test : Commit → Bool) → marks.now ≡ marks_of test (values_of repo.now.1)
        → TellsSayable (picked test (values_of repo.now.1)) result }
{
    for place in 0..marks.len() {
        if marks[place] {
            check_commit(repo, place)?;
        }
    }
    Ok(())
}

/// Looks whether a stream can say the commit at a place.
fn check_commit<N: Namer, A: Allocator + Copy>(
    repo: &Repo<N, A>,
    place: usize,
) -> Result<(), ExportFault>
    requires { (made : Commit) × IsAt repo.now.1 place made }
    ensures { (made : Commit) → IsAt repo.now.1 place made → TellsSayable (made ∷ []) result }
{
    repo.sound();
    let commit = name_at(repo, place);
    let view = view_of(repo, &commit);
    if view.has_encoding_alone() {
        Ok(())
    } else {
        Err(ExportFault::Unsupported)
    }
}
