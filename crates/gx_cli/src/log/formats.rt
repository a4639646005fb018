//! Commits, printed one after the other, each in its format.

ghost use Rattle.std.specs.Prelude.{◌++◌, map};
ghost use Rattle.std.specs.List.{flat_map};
ghost use Rattle.gx_model.specs.declared.objects.Kind.TheVariants as kinds;
ghost use Rattle.gx_rev.specs.Objects.{IsHeldAs, commit_at};
ghost use Rattle.gx_cli.specs.Sending.{PrintsText};
ghost use Rattle.gx_print.specs.Logs.{AreCommits, commits_text, count_text, entries_text, next_entry};
ghost use Rattle.gx_cli.specs.Logs.{entry_at};

use crate::sending::put_text;
use crate::{CliFault, LogOptions};
use gx_object::{Name, Namer};
use gx_print::{gap, put_commit, put_count};
use gx_repo::Repo;
use gx_rev::{body_of, view_of};
use gx_text::Sink;
use std::alloc::Allocator;

/// Prints held commits, or how many they are.
pub(super) fn print_chosen<N: Namer, A: Allocator + Copy, W: Sink>(
    alloc: A,
    repo: &Repo<N, A>,
    options: LogOptions,
    names: &[Name],
    sink: &mut W,
) -> Result<(), CliFault>
    requires { AreCommits repo.now.1 names.now }
    ensures { PrintsText (commits_text (N.name_of repo.now.0) options
        (map (commit_at repo.now.1) names.now))
        (W.taken sink.old) (W.taken sink.new) result }
{
    if options.count {
        print_count(alloc, names.len() as u64, sink)
    } else {
        print_commits(alloc, repo, options, names, sink)
    }
}

/// Prints how many commits there are.
fn print_count<A: Allocator + Copy, W: Sink>(
    alloc: A,
    count: u64,
    sink: &mut W,
) -> Result<(), CliFault>
    ensures { PrintsText (count_text count) (W.taken sink.old) (W.taken sink.new) result }
{
    let mut text = Vec::new(alloc);
    put_count(&mut text, count)?;
    put_text(sink, text.as_slice())
}

/// Prints held commits, one after the other, in their format.
fn print_commits<N: Namer, A: Allocator + Copy, W: Sink>(
    alloc: A,
    repo: &Repo<N, A>,
    options: LogOptions,
    names: &[Name],
    sink: &mut W,
) -> Result<(), CliFault>
    requires { AreCommits repo.now.1 names.now }
    ensures { PrintsText (entries_text (N.name_of repo.now.0) options
        (map (commit_at repo.now.1) names.now))
        (W.taken sink.old) (W.taken sink.new) result }
{
    let Some((first, others)) = names.split_first() else {
        return Ok(());
    };
    let mut text = Vec::new(alloc);
    print_commit(repo, options, b"", first, &mut text, sink)?;
    print_others(repo, options, others, &mut text, sink)
}

/// Prints the commits behind the first.
fn print_others<N: Namer, A: Allocator + Copy, W: Sink>(
    repo: &Repo<N, A>,
    options: LogOptions,
    names: &[Name],
    text: &mut Vec<u8, A>,
    sink: &mut W,
) -> Result<(), CliFault>
    requires { AreCommits repo.now.1 names.now }
    ensures { PrintsText (flat_map (next_entry (N.name_of repo.now.0) options)
        (map (commit_at repo.now.1) names.now))
        (W.taken sink.old) (W.taken sink.new) result }
{
    for name in names {
        print_commit(repo, options, gap(options.format), name, text, sink)?;
    }
    Ok(())
}

/// Prints a text, and behind it a held commit, whose own text is made in place of the one before.
fn print_commit<N: Namer, A: Allocator + Copy, W: Sink>(
    repo: &Repo<N, A>,
    options: LogOptions,
    before: &[u8],
    commit: &Name,
    text: &mut Vec<u8, A>,
    sink: &mut W,
) -> Result<(), CliFault>
    requires { IsHeldAs kinds.Commit repo.now.1 commit.now }
    ensures { PrintsText (before.now ++ entry_at N.name_of repo.now options commit.now)
        (W.taken sink.old) (W.taken sink.new) result }
{
    repo.sound();
    let view = view_of(repo, commit);
    text.clear();
    put_commit(text, options, commit, body_of(repo, commit), &view)?;
    put_text(sink, before)?;
    put_text(sink, text.as_slice())
}
