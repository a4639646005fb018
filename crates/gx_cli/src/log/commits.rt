//! Which commits are listed, by their names.

ghost use Rattle.std.specs.Prelude.{◌≡◌, ◌&&◌, ◌||◌, Bool, IfOk, OnOk, length, map};
ghost use Rattle.gx_export.specs.ChangedParts.{AreEither};
ghost use Rattle.gx_model.specs.Histories.Marks.{marks_of};
ghost use Rattle.gx_model.specs.Histories.Values.{Commit};
ghost use Rattle.gx_model.specs.Laws.RepositoryLaws.{values_of};
ghost use Rattle.gx_model.specs.Records.HistoryOf.{history_of};
ghost use Rattle.gx_rev.specs.Views.{shown_range};
ghost use Rattle.gx_rev.specs.Objects.{commit_at};
ghost use Rattle.gx_rev.specs.Reached.{is_wanted};
ghost use Rattle.gx_print.specs.Logs.{AreCommits, commits_logged};
ghost use Rattle.gx_cli.specs.Logs.{ListsMarked};
ghost use Rattle.gx_print.specs.Stored.{all_words};
ghost use Rattle.gx_cli.specs.Words.{GivesWords};

use crate::CliFault;
use crate::words::refused;
use gx_object::{Name, Namer};
use gx_repo::Repo;
use gx_rev::{Range, names_marked, reached_from_refs, walked};
use std::alloc::{AllocError, Allocator};

/// The names of the commits that range words list, the last made first. With `refs` the commits of all refs are listed, too.
pub(super) fn names_listed<N: Namer, A: Allocator + Copy>(
    alloc: A,
    repo: &Repo<N, A>,
    ranges: &[Range<A>],
    refs: bool,
) -> Result<Vec<Name, A>, CliFault>
    ensures commits { GivesWords (λ names. map (commit_at repo.now.1) names.items) result
        (all_words (commits_logged (N.name_of repo.now.0) (history_of repo.now.1) refs
        (map shown_range ranges.now))) }
    ensures held { IfOk result (λ names. AreCommits repo.now.1 names.items) }
{
    repo.sound();
    match walked(alloc, repo, ranges) {
        Ok((included, excluded)) => {
            let mut included = included;
            let marks = included.as_mut_slice();
            let names = names_of_marks(alloc, repo, refs, marks, excluded.as_slice())?;
            Ok(names)
        }
        Err(fault) => Err(refused(fault.word as u64, fault.kind)),
    }
}

/// The names of the commits that are marked as included and not as excluded, the last made first.
fn names_of_marks<N: Namer, A: Allocator + Copy>(
    alloc: A,
    repo: &Repo<N, A>,
    refs: bool,
    included: &mut [bool],
    excluded: &[bool],
) -> Result<Vec<Name, A>, AllocError>
    requires included { length included.old ≡ length (values_of repo.now.1) }
    requires excluded { length excluded.now ≡ length (values_of repo.now.1) }
    ensures { IfOk result (ListsMarked N.name_of repo.now refs included.old excluded.now) }
{
    include_refs(alloc, repo, refs, included)?;
    let names = names_marked(alloc, repo, included, excluded)?;
    Ok(names)
}

/// Marks what refs reach, where that is asked for.
fn include_refs<N: Namer, A: Allocator + Copy>(
    alloc: A,
    repo: &Repo<N, A>,
    refs: bool,
    marks: &mut [bool],
) -> Result<(), AllocError>
    requires { length marks.old ≡ length (values_of repo.now.1) }
    ensures long { length marks.new ≡ length marks.old }
    ensures marked { OnOk result ((test : Commit → Bool) → marks.old
        ≡ marks_of test (values_of repo.now.1)
        → marks.new ≡ marks_of (λ made. test made || (refs && is_wanted repo.now.1 made))
        (values_of repo.now.1)) }
{
    if !refs {
        return Ok(());
    }
    let reached = reached_from_refs(alloc, repo)?;
    add_marks(marks, reached.as_slice());
    Ok(())
}

/// Marks besides what is marked in another list.
fn add_marks(marks: &mut [bool], others: &[bool])
    requires { length marks.old ≡ length others.now }
    ensures long { length marks.new ≡ length marks.old }
    ensures either { AreEither marks.new marks.old others.now }
{
    for place in 0..marks.len() {
        if others[place] {
            marks[place] = true;
        }
    }
}
