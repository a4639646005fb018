//! The refs of a store text. Source: this project's own format, and git-check-ref-format(1).
ghost use Rattle.std.specs.Prelude.{◌≡◌, [], None, map};
ghost use Rattle.std.specs.Option.{option_map};
ghost use Rattle.gx_model.specs.Stores.StoreReading.{is_after, ref_line};
ghost use Rattle.gx_repo.specs.Refs.{shown_update};
ghost use Rattle.gx_lines.specs.Reads.{Reads};
ghost use Rattle.gx_model.specs.Faults.{NeedsNoMemory};
ghost use Rattle.gx_file.specs.Gathering.{Gathers, first_ref, gathered, shown_change};
ghost use Rattle.gx_file.specs.Reading.{ReadsRefs};
ghost use Rattle.gx_file.specs.Wanting.{RunsOutAmongRefs, RunsOutBehind, WantsWhere};

use crate::FileFault;
use crate::faults::refs_fault;
use gx_lines::read_line;
use gx_object::{Name, Namer};
use gx_repo::{PublishFault, RefChange, Repo};
use gx_text::{cut, is_ref_name};
use std::alloc::Allocator;

/// Sets the refs that come next in a repository that has none, so many of them, and answers what follows them.
///
/// The faults are those of `read_text` for refs. Cost: the refs are looked at once, and each object that one holds is looked up
/// once. Memory: the refs. Source: git-check-ref-format(1).
pub fn read_refs<'a, N: Namer, A: Allocator + Copy>(
    alloc: A,
    repo: &mut Repo<N, A>,
    count: u64,
    text: &'a [u8],
) -> Result<&'a [u8], FileFault>
    requires none { repo.now.1.refs ≡ [] }
    ensures namer { repo.new.0 ≡ repo.old.0 }
    ensures records { repo.new.1.records ≡ repo.old.1.records }
    ensures refs { ReadsRefs repo.old.1 repo.new.1 count text.now result }
    ensures memory { WantsWhere result (RunsOutAmongRefs repo.old.1.records count text.now) }
{
    let mut changes = Vec::new(alloc);
    let gathered = gather(&mut changes, count, text);
    match repo.publish(changes.as_slice()) {
        Ok(()) => gathered,
        Err(PublishFault::OutOfMemory) => {
            // the refs have a fault besides, where they end before their number
            let _rest = gathered?;
            Err(FileFault::OutOfMemory)
        }
        Err(fault) => Err(refs_fault(fault)),
    }
}

/// Gathers the changes that set the refs up to the first whose line or order is bad, that one with them where its line is
/// good. What they hold isn't looked up.
fn gather<'a, A: Allocator + Copy>(
    changes: &mut Vec<RefChange<'a>, A>,
    count: u64,
    text: &'a [u8],
) -> Result<&'a [u8], FileFault>
    requires { changes.now.items ≡ [] }
    ensures refs { Gathers (gathered count None text.now)
        (map shown_update changes.new.items) result }
    ensures memory { WantsWhere result
        (RunsOutBehind count text.now (map shown_update changes.new.items)) }
{
    let mut rest = text;
    let mut last: Option<&[u8]> = None;
    for _ in 0..count {
        let (change, after) = read_ref(rest)?;
        changes.push(change)?;
        if !is_after(last, change.name) {
            return Err(FileFault::RefOrder);
        }
        last = Some(change.name);
        rest = after;
    }
    Ok(rest)
}

/// The change that sets the ref in the first line, and what follows the line.
///
/// `Truncated`: no LF stands in the text. `BadRef`: the line isn't as written. Cost: the line. Takes no memory. Source:
/// git-check-ref-format(1).
#[tactic(auto, unfolding(crate::specs::Gathering::first_ref))]
pub fn read_ref(text: &[u8]) -> Result<(RefChange<'_>, &[u8]), FileFault>
    ensures change { Reads shown_change result (first_ref text.now) }
    ensures memory { NeedsNoMemory FileFault.OutOfMemory result }
{
    let (line, rest) = read_line(text)?;
    let Some((name, target)) = ref_line(line) else {
        return Err(FileFault::BadRef);
    };
    Ok((RefChange { name, target }, rest))
}

/// Whether a name is greater than the one before, where there is one. Cost: the names. Takes no memory. Source: this project's
/// own format.
pub fn is_after(last: Option<&[u8]>, name: &[u8]) -> bool
    ensures { result ≡ is_after (option_map (λ last. last.now) last.entry) name.now }
{
    match last {
        Some(last) => last < name,
        None => true,
    }
}

/// The name of a ref and its object.
#[tactic(auto, unfolding(gx_model::specs::Objects::Naming::lower_name_in))]
fn ref_line(line: &[u8]) -> Option<(&[u8], Name)>
    ensures { option_map (λ ref. (ref.0.now, ref.1.bytes)) result ≡ ref_line line.now }
{
    let (digits, name) = cut(line, b' ')?;
    let target = Name::read_lower(digits)?;
    if is_ref_name(name) {
        Some((name, target))
    } else {
        None
    }
}
