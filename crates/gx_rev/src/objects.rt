//! Held objects by their names: their kinds and bodies, their commits and parents, their trees, and their tags.

ghost use Rattle.std.specs.Prelude.{◌≡◌, ◌<◌, IfOk, Some, length};
ghost use Rattle.gx_model.specs.declared.objects.Kind.TheVariants as kinds;
ghost use Rattle.gx_model.specs.Laws.RepositoryLaws.{values_of};
ghost use Rattle.gx_model.specs.Revisions.Denotation.{commit_in, files_in, nth_ancestor, nth_parent};
ghost use Rattle.gx_model.specs.Records.{body_of, entries, kind_of, named_map, parts_of_commit};
ghost use Rattle.gx_rev.specs.Objects.{IsHeld, IsHeldAs, body_in_place, commit_at, entries_at, files_at, parts_of_tag_value, value_at};
ghost use Rattle.gx_rev.specs.RevFaults.{fault_of};
ghost use Rattle.gx_model.specs.Faults.{Gives, NeedsNoMemory};

use crate::RevFault;
use gx_object::{
    CommitView, Kind, Name, Namer, TagView, TreeEntries, decode_commit, decode_tag, held_tree,
};
use gx_repo::Repo;
use std::alloc::Allocator;

/// The kind of a held object.
pub(crate) fn kind_of<N: Namer, A: Allocator + Copy>(repo: &Repo<N, A>, name: &Name) -> Kind
    requires { IsHeld repo.now.1 name.now }
    ensures { result ≡ kind_of (N.name_of repo.now.0) (value_at repo.now.1 name.now) }
{
    let Some((kind, _)) = repo.store().get(name) else {
        unreachable!();
    };
    kind
}

/// The body of a held object.
///
/// Cost: a look-up. Takes no memory.
pub fn body_of<'a, N: Namer, A: Allocator + Copy>(repo: &'a Repo<N, A>, name: &Name) -> &'a [u8]
    requires { IsHeld repo.now.1 name.now }
    ensures { result.now ≡ body_of (N.name_of repo.now.0) (value_at repo.now.1 name.now) }
{
    let Some((_, body)) = repo.store().get(name) else {
        unreachable!();
    };
    body
}

/// The body of the object at a place among the records.
///
/// Cost: constant. Takes no memory.
pub fn body_at<N: Namer, A: Allocator + Copy>(repo: &Repo<N, A>, place: usize) -> &[u8]
    requires { place < length (values_of repo.now.1) }
    ensures { body_in_place (N.name_of repo.now.0) repo.now.1 place ≡ Some result.now }
{
    let Some((_, _, bytes)) = repo.store().record(place) else {
        unreachable!();
    };
    bytes
}

/// The commit that a held commit is, or that a held tag names.
pub(crate) fn commit_of<N: Namer, A: Allocator + Copy>(
    repo: &Repo<N, A>,
    name: &Name,
) -> Result<Name, RevFault>
    requires { IsHeld repo.now.1 name.now }
    ensures commit { Gives fault_of (commit_at repo.now.1) result
        (commit_in (value_at repo.now.1 name.now)) }
    ensures held { IfOk result (IsHeldAs kinds.Commit repo.now.1) }
    ensures memory { NeedsNoMemory RevFault.OutOfMemory result }
{
    match repo.peel(name) {
        Some(commit) => Ok(commit),
        None => Err(RevFault::WrongKind),
    }
}

/// The body of a held commit.
///
/// Cost: a look-up, and the body's length. Takes no memory.
pub fn view_of<'a, N: Namer, A: Allocator + Copy>(
    repo: &'a Repo<N, A>,
    commit: &Name,
) -> CommitView<'a>
    requires { IsHeldAs kinds.Commit repo.now.1 commit.now }
    ensures { result ≡ parts_of_commit (N.name_of repo.now.0) (commit_at repo.now.1 commit.now) }
{
    repo.sound();
    let body = body_of(repo, commit);
    let Ok(view) = decode_commit(body) else {
        unreachable!();
    };
    view
}

/// The entries of a held tree, in the order of its body.
///
/// Cost: a look-up; each entry is read where it is asked for. Takes no memory.
pub fn entries_of<'a, N: Namer, A: Allocator + Copy>(
    repo: &'a Repo<N, A>,
    tree: &Name,
) -> TreeEntries<'a>
    requires { IsHeldAs kinds.Tree repo.now.1 tree.now }
    ensures entries { result ≡ entries_at repo.now.1 tree.now }
    ensures files { result ≡ entries (N.name_of repo.now.0)
        (named_map (N.name_of repo.now.0) (files_at repo.now.1 tree.now)) }
{
    let Some((_, body)) = repo.store().get(tree) else {
        unreachable!();
    };
    held_tree(body)
}

/// The parts of a held tag's body. Of an object of another kind, none.
///
/// Cost: a look-up, and a tag's length. Takes no memory.
pub fn tag_of<'a, N: Namer, A: Allocator + Copy>(
    repo: &'a Repo<N, A>,
    name: &Name,
) -> Option<TagView<'a>>
    requires { IsHeld repo.now.1 name.now }
    ensures { result ≡ parts_of_tag_value (N.name_of repo.now.0) (value_at repo.now.1 name.now) }
{
    let Some((kind, body)) = repo.store().get(name) else {
        unreachable!();
    };
    match kind {
        Kind::Tag => decode_tag(body).ok(),
        Kind::Blob | Kind::Tree | Kind::Commit => None,
    }
}

/// The nth parent of a held commit, and the commit where n is 0.
pub(crate) fn parent_of<N: Namer, A: Allocator + Copy>(
    repo: &Repo<N, A>,
    commit: &Name,
    number: u64,
) -> Result<Name, RevFault>
    requires { IsHeldAs kinds.Commit repo.now.1 commit.now }
    ensures parent { Gives fault_of (commit_at repo.now.1) result
        (nth_parent number (commit_at repo.now.1 commit.now)) }
    ensures held { IfOk result (IsHeldAs kinds.Commit repo.now.1) }
    ensures memory { NeedsNoMemory RevFault.OutOfMemory result }
{
    repo.sound();
    if number == 0 {
        return Ok(*commit);
    }
    match view_of(repo, commit).parent((number - 1) as usize) {
        Some(parent) => Ok(parent),
        None => Err(RevFault::NoParent),
    }
}

/// The commit that is n first parents up from a held one.
pub(crate) fn ancestor_of<N: Namer, A: Allocator + Copy>(
    repo: &Repo<N, A>,
    commit: &Name,
    number: u64,
) -> Result<Name, RevFault>
    requires { IsHeldAs kinds.Commit repo.now.1 commit.now }
    ensures ancestor { Gives fault_of (commit_at repo.now.1) result
        (nth_ancestor number (commit_at repo.now.1 commit.now)) }
    ensures held { IfOk result (IsHeldAs kinds.Commit repo.now.1) }
    ensures memory { NeedsNoMemory RevFault.OutOfMemory result }
{
    let mut ancestor = *commit;
    let mut left = number;
    while left > 0 {
        ancestor = parent_of(repo, &ancestor, 1)?;
        left -= 1;
    }
    Ok(ancestor)
}

/// The tree that a held object is, or that of its commit.
pub(crate) fn tree_of<N: Namer, A: Allocator + Copy>(
    repo: &Repo<N, A>,
    name: &Name,
) -> Result<Name, RevFault>
    requires { IsHeld repo.now.1 name.now }
    ensures files { Gives fault_of (files_at repo.now.1) result
        (files_in (value_at repo.now.1 name.now)) }
    ensures held { IfOk result (IsHeldAs kinds.Tree repo.now.1) }
    ensures memory { NeedsNoMemory RevFault.OutOfMemory result }
{
    repo.sound();
    match kind_of(repo, name) {
        Kind::Blob => Err(RevFault::WrongKind),
        Kind::Tree => Ok(*name),
        Kind::Commit | Kind::Tag => {
            let commit = commit_of(repo, name)?;
            Ok(view_of(repo, &commit).tree())
        }
    }
}
