//! The files that a commit starts from.

ghost use Rattle.gx_model.specs.Records.{parts_of_commit};
ghost use Rattle.std.specs.Prelude.{◌≡◌, Some, IfOk, IfErr};
ghost use Rattle.gx_model.specs.declared.objects.Kind.TheVariants as kinds;
ghost use Rattle.gx_tree.specs.Loaded.{AreLoaded};
ghost use Rattle.gx_tree.specs.Named.{IsAtHome};
ghost use Rattle.gx_rev.specs.Objects.{IsHeldAs, commit_at};
ghost use Rattle.gx_model.specs.declared.faults.Fault.TheVariants.{OutOfMemory};
ghost use Rattle.gx_import.specs.Standing.{GivesFilesAtHome, HasFilesOf, HasTipsAtHome, KeepsStanding, TipsStayAtHome};
ghost use Rattle.gx_import.specs.Calls.{GivesStartingFiles, IsSomeCommit};

use crate::ImportKind;
use crate::branches::{files_at, take_files};
use crate::tables::Tables;
use gx_object::{Name, Namer};
use gx_repo::Repo;
use gx_rev::view_of;
use gx_tree::{LoadedTrees, PathTree};
use std::alloc::Allocator;

/// The files of the first parent: those at hand where its branch or another stands there, and otherwise those of its
/// tree. There are none without a first parent.
///
/// Cost: the logarithm of the number of branches; or else that of the directories that were not loaded before.
pub(crate) fn starting_files<N: Namer, A: Allocator + Copy>(
    repo: &Repo<N, A>,
    tables: &mut Tables<A>,
    branch: &[u8],
    first: Option<Name>,
) -> Result<PathTree<A>, ImportKind>
    requires stands { IsSomeCommit N.name_of repo.now tables.now first }
    requires homes { HasTipsAtHome N.name_of repo.now tables.now }
    ensures tables { KeepsStanding N.name_of repo.now tables.old tables.new }
    ensures files { GivesStartingFiles N.name_of repo.now tables.old first result }
    ensures homes { TipsStayAtHome N.name_of repo.now tables.old tables.new }
    ensures home { GivesFilesAtHome N.name_of repo.now tables.old result }
    ensures fault { IfErr result (λ fault. fault ≡ OutOfMemory) }
{
    repo.sound();
    let Some(commit) = first else {
        return Ok(PathTree::empty(tables.alloc));
    };
    match take_files(&mut tables.branches, branch, &commit) {
        Some(files) => Ok(files),
        None => other_files(repo, tables, &commit),
    }
}

/// The files of a commit: those at hand where another branch has them, which are shared, and otherwise those of its tree.
fn other_files<N: Namer, A: Allocator + Copy>(
    repo: &Repo<N, A>,
    tables: &mut Tables<A>,
    commit: &Name,
) -> Result<PathTree<A>, ImportKind>
    requires stands { IsSomeCommit N.name_of repo.now tables.now (Some commit.now) }
    requires homes { HasTipsAtHome N.name_of repo.now tables.now }
    ensures tables { KeepsStanding N.name_of repo.now tables.old tables.new }
    ensures files { GivesStartingFiles N.name_of repo.now tables.old (Some commit.now) result }
    ensures homes { TipsStayAtHome N.name_of repo.now tables.old tables.new }
    ensures home { GivesFilesAtHome N.name_of repo.now tables.old result }
    ensures fault { IfErr result (λ fault. fault ≡ OutOfMemory) }
{
    repo.sound();
    match files_at(&tables.branches, &tables.at_hand, commit) {
        Some(files) => Ok(files.duplicate()?),
        None => loaded_files(tables.alloc, repo, commit, &mut tables.loaded),
    }
}

/// The files of a commit, from its tree. Trees that are loaded already are shared.
fn loaded_files<N: Namer, A: Allocator + Copy>(
    alloc: A,
    repo: &Repo<N, A>,
    commit: &Name,
    loaded: &mut LoadedTrees<A>,
) -> Result<PathTree<A>, ImportKind>
    requires commit { IsHeldAs kinds.Commit repo.now.1 commit.now }
    requires loaded { AreLoaded (N.name_of repo.now.0) repo.now.1.records loaded.old }
    ensures files { IfOk result
        (HasFilesOf (N.name_of repo.now.0) (commit_at repo.now.1 commit.now)) }
    ensures home { IfOk result (IsAtHome (N.name_of repo.now.0) repo.now.1.records) }
    ensures loaded { AreLoaded (N.name_of repo.now.0) repo.now.1.records loaded.new }
    ensures fault { IfErr result (λ fault. fault ≡ OutOfMemory) }
{
    let tree = tree_of(repo, commit);
    Ok(PathTree::load_among(alloc, repo.store(), &tree, loaded)?)
}

/// The tree of a held commit.
fn tree_of<N: Namer, A: Allocator + Copy>(repo: &Repo<N, A>, commit: &Name) -> Name
    requires { IsHeldAs kinds.Commit repo.now.1 commit.now }
    ensures { result.bytes
        ≡ (parts_of_commit (N.name_of repo.now.0) (commit_at repo.now.1 commit.now)).tree }
{
    view_of(repo, commit).tree()
}
