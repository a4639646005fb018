//! What names a commit. Source: git-fast-import(1), "from".

ghost use Rattle.std.specs.Prelude.{◌≡◌};
ghost use Rattle.gx_model.specs.Replay.{names_itself};
ghost use Rattle.gx_command.specs.Views.{shown_commit_ish};
ghost use Rattle.gx_rev.specs.FirstParents.{AreFirstParents};
ghost use Rattle.gx_import.specs.Objects.{branch_object};
ghost use Rattle.gx_import.specs.Calls.{NamesCommit, NamesCommitIsh, ShowsRevision};

use crate::ImportKind;
use crate::object::{Object, commit_in};
use crate::tables::Tables;
use gx_command::CommitIsh;
use gx_object::{Kind, Name, Namer};
use gx_repo::Repo;
use gx_rev::{FirstParents, Revision, Shown};
use std::alloc::Allocator;

/// The object that a commit-ish names: a branch's commit, a mark's object, or what a revision gives over the published refs.
pub(crate) fn object_named<N: Namer, A: Allocator + Copy>(
    repo: &Repo<N, A>,
    tables: &Tables<A>,
    commit_ish: &CommitIsh<A>,
) -> Result<Object, ImportKind>
    ensures { NamesCommitIsh N.name_of repo.now tables.now commit_ish.now result }
{
    let mut first_parents = FirstParents::new(tables.alloc);
    object_named_with(repo, tables, &mut first_parents, commit_ish)
}

/// The same, where revisions share walks along first parents.
fn object_named_with<N: Namer, A: Allocator + Copy>(
    repo: &Repo<N, A>,
    tables: &Tables<A>,
    first_parents: &mut FirstParents<A>,
    commit_ish: &CommitIsh<A>,
) -> Result<Object, ImportKind>
    requires walk { AreFirstParents repo.now.1 first_parents.old }
    ensures walk { AreFirstParents repo.now.1 first_parents.new }
    ensures names { NamesCommitIsh N.name_of repo.now tables.now commit_ish.now result }
{
    match commit_ish {
        CommitIsh::Mark(number) => tables.marks.object(*number),
        CommitIsh::Text(text) => match tables.branches.get(text.as_slice()) {
            Some(tip) => branch_object(tip.commit),
            None => revision_object(tables.alloc, repo, first_parents, text.as_slice()),
        },
    }
}

/// A branch's commit.
fn branch_object(commit: Option<Name>) -> Result<Object, ImportKind>
    ensures { result ≡ branch_object commit }
{
    match commit {
        Some(name) => Ok(Object {
            kind: Kind::Commit,
            name,
        }),
        None => Err(ImportKind::EmptyBranch),
    }
}

/// What a revision gives.
fn revision_object<N: Namer, A: Allocator + Copy>(
    alloc: A,
    repo: &Repo<N, A>,
    first_parents: &mut FirstParents<A>,
    text: &[u8],
) -> Result<Object, ImportKind>
    requires walk { AreFirstParents repo.now.1 first_parents.old }
    ensures walk { AreFirstParents repo.now.1 first_parents.new }
    ensures shows { ShowsRevision N.name_of repo.now text.now result }
{
    repo.sound();
    let revision = Revision::read(alloc, text)?;
    match revision.eval_with(repo, first_parents)? {
        Shown::Object(kind, name) => Ok(Object { kind, name }),
        Shown::Submodule(_) => Err(ImportKind::WrongKind),
    }
}

/// The commit that a command of a branch names, which may not be the branch itself. A tag is peeled.
pub(crate) fn committed_for<N: Namer, A: Allocator + Copy>(
    repo: &Repo<N, A>,
    tables: &Tables<A>,
    branch: &[u8],
    commit_ish: &CommitIsh<A>,
) -> Result<Name, ImportKind>
    ensures { NamesCommit N.name_of repo.now tables.now branch.now commit_ish.now result }
{
    let mut first_parents = FirstParents::new(tables.alloc);
    committed_with(repo, tables, &mut first_parents, branch, commit_ish)
}

/// The same, where the revisions of one command share walks along first parents.
pub(crate) fn committed_with<N: Namer, A: Allocator + Copy>(
    repo: &Repo<N, A>,
    tables: &Tables<A>,
    first_parents: &mut FirstParents<A>,
    branch: &[u8],
    commit_ish: &CommitIsh<A>,
) -> Result<Name, ImportKind>
    requires walk { AreFirstParents repo.now.1 first_parents.old }
    ensures walk { AreFirstParents repo.now.1 first_parents.new }
    ensures names { NamesCommit N.name_of repo.now tables.now branch.now commit_ish.now result }
{
    if is_itself(branch, commit_ish) {
        return Err(ImportKind::FromItself);
    }
    let object = object_named_with(repo, tables, first_parents, commit_ish)?;
    commit_in(repo, object)
}

/// Whether a commit-ish is the name of the branch.
fn is_itself<A: Allocator + Copy>(branch: &[u8], commit_ish: &CommitIsh<A>) -> bool
    ensures { result ≡ names_itself branch.now (shown_commit_ish commit_ish.now) }
{
    match commit_ish {
        CommitIsh::Mark(_) => false,
        CommitIsh::Text(text) => branch == text.as_slice(),
    }
}
