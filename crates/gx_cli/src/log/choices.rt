//! Which of the listed commits are chosen, and in which order. Source: git-rev-list(1), "Commit Limiting".

ghost use Rattle.std.specs.Prelude.{◌≡◌, IfOk, drop};
ghost use Rattle.gx_print.specs.Logs.{AreCommits, limited, skipped, turned};
ghost use Rattle.gx_cli.specs.Logs.{AreChosen, AreKept};

use crate::{CommitFilter, LogOptions};
use gx_object::{Name, Namer};
use gx_print::passes;
use gx_repo::Repo;
use gx_rev::view_of;
use std::alloc::{AllocError, Allocator};

/// The names of the commits that the options choose of these, in their order.
pub(super) fn names_chosen<N: Namer, A: Allocator + Copy>(
    alloc: A,
    repo: &Repo<N, A>,
    options: LogOptions,
    names: &[Name],
) -> Result<Vec<Name, A>, AllocError>
    requires { AreCommits repo.now.1 names.now }
    ensures { IfOk result (λ chosen. AreChosen N.name_of repo.now options
        names.now chosen.items) }
{
    let kept = names_kept(alloc, repo, options.only, names)?;
    let mut chosen = Vec::from_slice(alloc, behind(kept.as_slice(), options.skip))?;
    arrange(&mut chosen, options);
    Ok(chosen)
}

/// The names of the commits that are kept of these.
fn names_kept<N: Namer, A: Allocator + Copy>(
    alloc: A,
    repo: &Repo<N, A>,
    only: CommitFilter,
    names: &[Name],
) -> Result<Vec<Name, A>, AllocError>
    requires { AreCommits repo.now.1 names.now }
    ensures { IfOk result (λ kept. AreKept N.name_of repo.now only names.now kept.items) }
{
    let mut kept = Vec::new(alloc);
    for name in names {
        if !passes(only, &view_of(repo, name)) {
            continue;
        }
        kept.push(*name)?;
    }
    Ok(kept)
}

/// What stands behind so many names.
fn behind(names: &[Name], skip: Option<u64>) -> &[Name]
    ensures { result.now ≡ skipped skip names.now }
{
    match skip {
        Some(count) => behind_some(names, count as usize),
        None => names,
    }
}

/// What stands behind so many names, of which there may be fewer.
fn behind_some(names: &[Name], count: usize) -> &[Name]
    ensures { result.now ≡ drop count names.now }
{
    if count < names.len() {
        &names[count..]
    } else {
        &[]
    }
}

/// Keeps so many names at most, and then turns them round, as the options ask.
fn arrange<A: Allocator>(names: &mut Vec<Name, A>, options: LogOptions)
    ensures { names.new.items
        ≡ turned options.reverse (limited options.max_count names.old.items) }
{
    limit(names, options.max_count);
    turn(names, options.reverse);
}

/// Keeps so many of the first names at most.
fn limit<A: Allocator>(names: &mut Vec<Name, A>, max_count: Option<u64>)
    ensures { names.new.items ≡ limited max_count names.old.items }
{
    if let Some(most) = max_count {
        names.truncate(most as usize);
    }
}

/// Turns the names round where that is asked for.
fn turn<A: Allocator>(names: &mut Vec<Name, A>, reverse: bool)
    ensures { names.new.items ≡ turned reverse names.old.items }
{
    if reverse {
        names.reverse();
    }
}
