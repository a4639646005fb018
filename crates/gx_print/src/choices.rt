//! Which commits are kept, by their parts, and how many they are. Source: git-rev-list(1), "Commit Limiting", and `--count`.

ghost use Rattle.std.specs.Prelude.{◌≡◌, ◌++◌, OnOk};
ghost use Rattle.gx_print.specs.Choices.{is_of_kind, is_of_time, is_since, is_until, made_at, passes};
ghost use Rattle.gx_print.specs.Logs.{count_text};

use crate::identities::seconds_in;
use gx_asks::CommitFilter;
use gx_object::CommitView;
use gx_text::decimal;
use itoa::Buffer;
use std::alloc::{AllocError, Allocator};

/// Whether a commit of these parts is kept. Takes no memory.
///
/// Cost: the length of its committer.
/// Source: git-rev-list(1), `--merges`, `--no-merges`, `--since-as-filter` and `--until`.
pub fn passes(only: CommitFilter, view: &CommitView<'_>) -> bool
    ensures { result ≡ passes only view.now }
{
    is_of_kind(only, view.parent_count() > 1) && is_of_time(only, made_at(view.committer()))
}

/// Whether merges are kept, or other commits.
fn is_of_kind(only: CommitFilter, merge: bool) -> bool
    ensures { result ≡ is_of_kind only merge }
{
    if merge { !only.no_merges } else { !only.merges }
}

/// Whether a commit of this time is kept.
fn is_of_time(only: CommitFilter, seconds: u64) -> bool
    ensures { result ≡ is_of_time only seconds }
{
    is_since(only.since, seconds) && is_until(only.until, seconds)
}

/// Whether a time is not before the first one.
fn is_since(first: Option<u64>, seconds: u64) -> bool
    ensures { result ≡ is_since first seconds }
{
    match first {
        Some(first) => first <= seconds,
        None => true,
    }
}

/// Whether a time is not after the last one.
fn is_until(last: Option<u64>, seconds: u64) -> bool
    ensures { result ≡ is_until last seconds }
{
    match last {
        Some(last) => seconds <= last,
        None => true,
    }
}

/// The seconds of a committer.
fn made_at(committer: &[u8]) -> u64
    ensures { result ≡ made_at committer.now }
{
    decimal(seconds_in(committer)).unwrap_or(0)
}

/// Appends how many commits there are, and an LF.
///
/// Memory: the text. Source: git-rev-list(1), `--count`.
pub fn put_count<A: Allocator + Copy>(out: &mut Vec<u8, A>, count: u64) -> Result<(), AllocError>
    ensures { OnOk result (out.new.items ≡ out.old.items ++ count_text count) }
{
    let mut digits = Buffer::new();
    out.extend_from_slice(digits.format(count).as_bytes())?;
    Ok(out.push(b'\n')?)
}
