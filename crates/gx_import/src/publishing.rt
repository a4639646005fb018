//! What an import publishes. Source: git-fast-import(1), "force", and gitglossary(7), "fast-forward".

ghost use Rattle.std.specs.Prelude.{◌≡◌, List, [], ◌∷◌, is_some, map, Some, None, IfErr, IfOk, IfSome, OnOk, OnErr};
ghost use Rattle.std.specs.List.{filter};
ghost use Rattle.std.specs.Map.{lookup};
ghost use Rattle.std.specs.Option.{option_map};
ghost use Rattle.gx_model.specs.Records.Publishing.{Ref, changes_fault, with_changes};
ghost use Rattle.gx_model.specs.Texts.{same_bytes};
ghost use Rattle.gx_repo.specs.Refs.{shown_update};
ghost use Rattle.gx_rev.specs.Parents.{HoldsParents};
ghost use Rattle.gx_import.specs.Calls.{IsCommitIfAny, KeepsTipsAtHome, TellsForward, TellsMovable};
ghost use Rattle.gx_import.specs.Publishing.{PublishesInEach, TellsFastForward, published_count};
ghost use Rattle.gx_import.specs.Losing.{TellsLossInEach, TellsLossOf, TellsWhoLoses};
ghost use Rattle.gx_import.specs.RefChanges.{Appends, AppendsMoved, IsHeldByRef, branch_changes, branch_then, due_tags, is_at, is_due_by, moved_of};
ghost use Rattle.gx_import.specs.Standing.{StandsForSome};
ghost use Rattle.gx_model.specs.declared.faults.Fault.TheVariants.{OutOfMemory};

use crate::branches::{Tip, count_published, is_published, set_published};
use crate::table::Table;
use crate::tables::Tables;
use crate::{ImportKind, RefLoss};
use gx_model::repository_laws::histories_of_records;
use gx_object::{Name, Namer};
use gx_repo::{PublishFault, RefChange, Repo};
use gx_rev::{Parents, is_ancestor};
use std::alloc::{AllocError, Allocator};

/// Publishes the branches with a commit, and then the tags. `NotFastForward` tells the first branch that would lose a commit.
pub(crate) fn publish<N: Namer, A: Allocator + Copy>(
    repo: &mut Repo<N, A>,
    tables: &mut Tables<A>,
    loss: &mut Option<RefLoss<A>>,
) -> Result<(), ImportKind>
    requires stands { StandsForSome N.name_of repo.now tables.now }
    requires blank { loss.now ≡ None }
    ensures homes { KeepsTipsAtHome tables.old tables.new result }
    ensures namer { repo.new.0 ≡ repo.old.0 }
    ensures records { repo.new.1.records ≡ repo.old.1.records }
    ensures unchanged { OnErr result (repo.new ≡ repo.old) }
    ensures published { PublishesInEach N.name_of repo.old repo.new tables.old tables.new result }
    ensures loss { TellsLossInEach N.name_of repo.old tables.old result loss.new }
{
    histories_of_records();
    repo.sound();
    tables.branches.sorted();
    tables.tags.sorted();
    let Some(changes) = changes(repo, tables, loss)? else {
        return Err(ImportKind::NotFastForward);
    };
    publish_all(repo, changes.as_slice())?;
    drop(changes);
    set_published(&mut tables.branches);
    Ok(())
}

/// How many refs were published, each name once, where all tags were: the branches that were published with a commit, and the
/// tags whose refs are none of these.
///
/// Cost: the number of branches, and for each tag a search among them. Takes no memory.
pub(crate) fn published_refs<A: Allocator + Copy>(tables: &Tables<A>) -> u64
    ensures { result ≡ published_count tables.now }
{
    let mut count = count_published(&tables.branches) as u64;
    for (name, _) in tables.tags.iter() {
        if !is_published(&tables.branches, name.as_slice()) {
            count += 1;
        }
    }
    count
}

/// The refs to be set: the branches with a commit that their refs don't hold already, and then the tags that are to be set
/// behind them. None where a published branch loses a commit, which is told, and `force` was not asked for.
fn changes<'a, N: Namer, A: Allocator + Copy>(
    repo: &Repo<N, A>,
    tables: &'a Tables<A>,
    loss: &mut Option<RefLoss<A>>,
) -> Result<Option<Vec<RefChange<'a>, A>>, AllocError>
    requires stands { StandsForSome N.name_of repo.now tables.now }
    requires blank { loss.now ≡ None }
    ensures forward { TellsFastForward N.name_of repo.now tables.now is_some result }
    ensures changes { IfOk result (λ changes. IfSome changes (λ given.
        map shown_update given.items ≡ moved_of repo.now.1.refs tables.now)) }
    ensures loss { TellsWhoLoses N.name_of repo.now tables.now is_some result loss.new }
{
    let mut changes = Vec::new(tables.alloc);
    if !append_branches(&mut changes, repo, tables, loss)? {
        return Ok(None);
    }
    append_tags(&mut changes, repo, tables)?;
    Ok(Some(changes))
}

/// Appends the branches with a commit that their refs don't hold already, and answers whether none of them loses a commit,
/// or `force` was asked for. The first that loses one is told.
fn append_branches<'a, N: Namer, A: Allocator + Copy>(
    changes: &mut Vec<RefChange<'a>, A>,
    repo: &Repo<N, A>,
    tables: &'a Tables<A>,
    loss: &mut Option<RefLoss<A>>,
) -> Result<bool, AllocError>
    requires stands { StandsForSome N.name_of repo.now tables.now }
    requires blank { loss.now ≡ None }
    ensures forward { TellsFastForward N.name_of repo.now tables.now
        (λ is_forward. is_forward) result }
    ensures appended { AppendsMoved repo.now.1.refs (branch_changes tables.now.branches)
        changes.old changes.new result }
    ensures loss { TellsWhoLoses N.name_of repo.now tables.now
        (λ is_forward. is_forward) result loss.new }
{
    repo.sound();
    let mut place = 0;
    let mut parents = Parents::new(tables.alloc);
    for (name, tip) in tables.branches.iter() {
        let (next, object) = repo.ref_near(place, name.as_slice());
        place = next;
        if !append_branch(
            changes,
            repo,
            tables,
            &mut parents,
            name.as_slice(),
            object,
            tip.commit,
        )? {
            *loss = loss_of(tables.alloc, repo, name.as_slice(), object, tip.commit)?;
            return Ok(false);
        }
    }
    Ok(true)
}

/// What a branch loses that would move from this object to this commit: None where there is no such ref or no commit.
fn loss_of<N: Namer, A: Allocator + Copy>(
    alloc: A,
    repo: &Repo<N, A>,
    name: &[u8],
    object: Option<Name>,
    commit: Option<Name>,
) -> Result<Option<RefLoss<A>>, AllocError>
    requires target { IfSome object (IsHeldByRef repo.now.1) }
    requires commit { IsCommitIfAny N.name_of repo.now commit }
    ensures { TellsLossOf N.name_of repo.now name.now object commit result }
{
    repo.sound();
    let Some(object) = object else {
        return Ok(None);
    };
    let Some(new) = commit else {
        return Ok(None);
    };
    let Some(old) = repo.peel(&object) else {
        return Ok(None);
    };
    let name = Vec::from_slice(alloc, name)?;
    Ok(Some(RefLoss { name, old, new }))
}

/// Appends a branch, where it has a commit, and its ref doesn't hold this object. It isn't appended where it loses a commit,
/// unless `force` was asked for: this is answered.
fn append_branch<'a, N: Namer, A: Allocator + Copy>(
    changes: &mut Vec<RefChange<'a>, A>,
    repo: &Repo<N, A>,
    tables: &Tables<A>,
    parents: &mut Parents<A>,
    name: &'a [u8],
    object: Option<Name>,
    commit: Option<Name>,
) -> Result<bool, AllocError>
    requires holds { HoldsParents repo.now.1 parents.old }
    requires target { IfSome object (IsHeldByRef repo.now.1) }
    requires commit { IsCommitIfAny N.name_of repo.now commit }
    ensures holds { HoldsParents repo.now.1 parents.new }
    ensures forward { TellsMovable N.name_of repo.now tables.now.is_forced object commit result }
    ensures appended { (refs : List Ref)
        → option_map (λ held. held.bytes) object ≡ lookup (same_bytes name.now) refs
        → AppendsMoved refs (branch_then name.now commit []) changes.old changes.new result }
{
    repo.sound();
    let Some(target) = commit else {
        return Ok(true);
    };
    // most branches stand still between two checkpoints
    if is_at(object, target) {
        return Ok(true);
    }
    if !tables.is_forced && !is_forward(tables.alloc, repo, parents, object, target)? {
        return Ok(false);
    }
    changes.push(RefChange { name, target })?;
    Ok(true)
}

/// Whether what a ref holds is an ancestor of a commit, or there is no such ref.
fn is_forward<N: Namer, A: Allocator + Copy>(
    alloc: A,
    repo: &Repo<N, A>,
    parents: &mut Parents<A>,
    object: Option<Name>,
    new: Name,
) -> Result<bool, AllocError>
    requires holds { HoldsParents repo.now.1 parents.old }
    requires target { IfSome object (IsHeldByRef repo.now.1) }
    requires commit { IsCommitIfAny N.name_of repo.now (Some new) }
    ensures holds { HoldsParents repo.now.1 parents.new }
    ensures forward { TellsForward N.name_of repo.now object (Some new) result }
{
    let Some(object) = object else {
        return Ok(true);
    };
    let Some(old) = repo.peel(&object) else {
        unreachable!();
    };
    is_ancestor(alloc, repo, parents, &old, &new)
}

/// Whether what a ref holds is this object.
fn is_at(held: Option<Name>, object: Name) -> bool
    ensures { result ≡ is_at (option_map (λ n. n.bytes) held) object.bytes }
{
    match held {
        Some(held) => held == object,
        None => false,
    }
}

/// Appends the tags that are to be set behind the branches.
fn append_tags<'a, N: Namer, A: Allocator + Copy>(
    changes: &mut Vec<RefChange<'a>, A>,
    repo: &Repo<N, A>,
    tables: &'a Tables<A>,
) -> Result<(), AllocError>
    ensures { OnOk result (Appends (due_tags repo.now.1.refs tables.now) changes.old changes.new) }
{
    let mut place = 0;
    for (name, object) in tables.tags.iter() {
        let (next, held) = repo.ref_near(place, name.as_slice());
        place = next;
        append_tag(changes, &tables.branches, name.as_slice(), held, *object)?;
    }
    Ok(())
}

/// Appends a tag, where it is to be set.
fn append_tag<'a, A: Allocator + Copy>(
    changes: &mut Vec<RefChange<'a>, A>,
    branches: &Table<Tip<A>, A>,
    name: &'a [u8],
    held: Option<Name>,
    target: Name,
) -> Result<(), AllocError>
    ensures { OnOk result (Appends
        (filter (is_due_by branches.now (option_map (λ n. n.bytes) held))
        ((name.now, target.bytes) ∷ []))
        changes.old changes.new) }
{
    if is_due(branches, name, held, target) {
        changes.push(RefChange { name, target })?;
    }
    Ok(())
}

/// Whether a tag is to be set: its ref doesn't hold it already, or a branch of its name is set before it.
fn is_due<A: Allocator + Copy>(
    branches: &Table<Tip<A>, A>,
    name: &[u8],
    held: Option<Name>,
    target: Name,
) -> bool
    ensures { result ≡ is_due_by branches.now (option_map (λ n. n.bytes) held)
        (name.now, target.bytes) }
{
    // most tags stand still between two checkpoints
    if !is_at(held, target) {
        return true;
    }
    branches.get(name).is_some()
}

/// Sets these refs, whose names and objects are good.
fn publish_all<N: Namer, A: Allocator + Copy>(
    repo: &mut Repo<N, A>,
    changes: &[RefChange<'_>],
) -> Result<(), ImportKind>
    requires { changes_fault repo.now.1.records (map shown_update changes.now) ≡ None }
    ensures namer { repo.new.0 ≡ repo.old.0 }
    ensures records { repo.new.1.records ≡ repo.old.1.records }
    ensures refs { OnOk result (repo.new.1.refs
        ≡ with_changes repo.old.1.refs (map shown_update changes.now)) }
    ensures unchanged { OnErr result (repo.new ≡ repo.old) }
    ensures fault { IfErr result (λ fault. fault ≡ OutOfMemory) }
{
    match repo.publish(changes) {
        Ok(()) => Ok(()),
        Err(fault) => match fault {
            PublishFault::OutOfMemory => Err(ImportKind::OutOfMemory),
            _ => unreachable!(),
        },
    }
}
