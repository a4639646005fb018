//! The refs of a tail, which are looked at where they stand. Source: this project's own format, and git-check-ref-format(1).
ghost use Rattle.std.specs.Prelude.{◌≡◌, None};
ghost use Rattle.std.specs.Option.{option_map};
ghost use Rattle.gx_model.specs.Faults.{NeedsNoMemory};
ghost use Rattle.gx_model.specs.Records.Growth.{record_named};
ghost use Rattle.gx_model.specs.Stores.StoreReading.{is_target, next_ref, next_refs};
ghost use Rattle.gx_lines.specs.Reads.{Reads};
ghost use Rattle.gx_text.specs.Lent.{lent_pair};
ghost use Rattle.gx_growing_segments.specs.Seen.{name_and_rest, refs_at};

use gx_file::{is_after, read_ref};
use gx_lines::FileFault;
use gx_object::{Name, Namer};
use gx_repo::{Repo, is_target};
use std::alloc::Allocator;

/// Looks at the refs that come next, so many of them, and answers what follows them. None is set.
pub(crate) fn check_refs<'a, N: Namer, A: Allocator + Copy>(
    repo: &Repo<N, A>,
    count: u64,
    text: &'a [u8],
) -> Result<&'a [u8], FileFault>
    ensures refs { Reads (λ rest. (refs_at repo.now.1.records count text.now, rest.now)) result
        (next_refs count repo.now.1.records None text.now) }
    ensures memory { NeedsNoMemory FileFault.OutOfMemory result }
{
    let mut rest = text;
    let mut last: Option<&[u8]> = None;
    for _ in 0..count {
        let (name, behind) = check_ref(repo, last, rest)?;
        last = Some(name);
        rest = behind;
    }
    Ok(rest)
}

/// The name of the ref that comes next, and what follows it.
fn check_ref<'a, N: Namer, A: Allocator + Copy>(
    repo: &Repo<N, A>,
    last: Option<&[u8]>,
    text: &'a [u8],
) -> Result<(&'a [u8], &'a [u8]), FileFault>
    ensures one { Reads lent_pair result (name_and_rest
        (next_ref repo.now.1.records (option_map (λ last. last.now) last.entry) text.now)) }
    ensures memory { NeedsNoMemory FileFault.OutOfMemory result }
{
    let (change, rest) = read_ref(text)?;
    if !may_hold(repo, change.name, &change.target) {
        return Err(FileFault::BadRef);
    }
    if !is_after(last, change.name) {
        return Err(FileFault::RefOrder);
    }
    Ok((change.name, rest))
}

/// Whether a ref may hold this: a commit, or a tag whose own name makes the ref's.
fn may_hold<N: Namer, A: Allocator + Copy>(repo: &Repo<N, A>, name: &[u8], target: &Name) -> bool
    ensures { result ≡ is_target name.now (record_named repo.now.1.records target.now.bytes) }
{
    match repo.store().get(target) {
        Some((kind, body)) => is_target(name, kind, body),
        None => false,
    }
}
