//! Reading a whole store text. Source: this project's own format.
ghost use Rattle.std.specs.Prelude.{◌≡◌, [], Err, IfErr, IfOk, OnOk};
ghost use Rattle.gx_model.specs.Faults.{NeedsNoMemory};
ghost use Rattle.gx_model.specs.Stores.StoreReading.{after_magic, store_of, stored_count};
ghost use Rattle.gx_model.specs.Stores.StoreText.{IsStoreText};
ghost use Rattle.gx_lines.specs.Reads.{Reads};
ghost use Rattle.gx_file.specs.Reading.{RefusesOthers};
ghost use Rattle.gx_file.specs.TextEnds.{EndsWith};
ghost use Rattle.gx_file.specs.Wanting.{HasHead, RunsOut, WantsWhere};

use crate::FileFault;
use crate::records::read_records;
use crate::refs::read_refs;
use gx_lines::{read_count, read_end, read_magic};
use gx_model::store_laws::stores_are_read;
use gx_object::Namer;
use gx_repo::{OutOfMemory, Repo, Text};
use std::alloc::Allocator;
use std::hash::RandomState;

/// The repository of a store text of version 1 or 2, every claim of which is checked: the form of its lines, each body,
/// link and name, and each ref. The text of the repository in that version is the one that was read.
///
/// The first fault from the front is answered, with the causes that [`FileFault`] gives. A text that is refused, but for
/// want of memory, is that of no sound repository. Where the copy is refused, a fault of the head comes first.
/// Cost: that of `read_text`, and a copy of the text. Memory: that of it, and the copy.
pub fn read<N: Namer + Drop, A: Allocator + Copy>(
    alloc: A,
    namer: N,
    text: &[u8],
    state: RandomState,
) -> Result<Repo<N, A>, FileFault>
    ensures namer { IfOk result (λ repo. repo.0 ≡ namer) }
    ensures store { Reads (λ repo. repo.1) result (store_of (N.name_of namer) text.now) }
    ensures text { IfOk result (λ repo. IsStoreText text.now repo.1) }
    ensures refused { RefusesOthers (N.name_of namer) text.now result }
    ensures memory { WantsWhere result (HasHead text.now) }
{
    match copied(alloc, text) {
        Ok(copy) => read_text(alloc, namer, copy, state),
        Err(_) => {
            check_head(&namer, text)?;
            Err(FileFault::OutOfMemory)
        }
    }
}

/// A copy of a text, to be shared.
fn copied<A: Allocator + Copy>(alloc: A, text: &[u8]) -> Result<Text<A>, OutOfMemory>
    ensures { IfOk result (λ copy. copy ≡ text.now) }
{
    let copy = Vec::from_slice(alloc, text)?;
    Text::new(alloc, copy)
}

/// Answers the first fault of a text's head.
#[tactic(auto, unfolding(gx_model::specs::Stores::StoreReading::store_of))]
fn check_head<N: Namer>(namer: &N, text: &[u8]) -> Result<(), FileFault>
    ensures head { OnOk result (HasHead text.now) }
    ensures fault { IfErr result (λ fault. store_of (N.name_of namer.now) text.now ≡ Err fault) }
    ensures refused { RefusesOthers (N.name_of namer.now) text.now result }
    ensures memory { NeedsNoMemory FileFault.OutOfMemory result }
{
    stores_are_read();
    let (_version, rest) = read_magic(text)?;
    let _objects = read_count(b"objects", rest)?;
    Ok(())
}

/// Does what `read` does, but takes no copy of the text: the repository shares it, and each record is a range of it.
///
/// The faults are those of `read`, in the same order. `OutOfMemory` hides none before the place where a growth is refused:
/// at a record that was read whole and has its name, or at the refs.
/// Cost: one pass over the text, each body hashed once, and that of a record that is refused twice; a look-up for each link.
/// Memory: the text for as long as one of its records is held;
/// and what a record takes beside its body, and the refs that were read, whatever numbers the text states.
pub fn read_text<N: Namer + Drop, A: Allocator + Copy>(
    alloc: A,
    namer: N,
    text: Text<A>,
    state: RandomState,
) -> Result<Repo<N, A>, FileFault>
    ensures namer { IfOk result (λ repo. repo.0 ≡ namer) }
    ensures store { Reads (λ repo. repo.1) result (store_of (N.name_of namer) text) }
    ensures text { IfOk result (λ repo. IsStoreText text repo.1) }
    ensures refused { RefusesOthers (N.name_of namer) text result }
    ensures memory { WantsWhere result (RunsOut (N.name_of namer) text) }
{
    stores_are_read();
    read_store(alloc, namer, &text, text.as_slice(), state)
}

/// The repository of what is left of a store text.
fn read_store<N: Namer + Drop, A: Allocator + Copy>(
    alloc: A,
    namer: N,
    whole: &Text<A>,
    text: &[u8],
    state: RandomState,
) -> Result<Repo<N, A>, FileFault>
    requires left { EndsWith whole.now text.now }
    ensures namer { IfOk result (λ repo. repo.0 ≡ namer) }
    ensures store { Reads (λ repo. repo.1) result (store_of (N.name_of namer) text.now) }
    ensures memory { WantsWhere result (RunsOut (N.name_of namer) text.now) }
{
    let mut repo = Repo::new(alloc, namer, state);
    read_into(alloc, &mut repo, whole, text)?;
    Ok(repo)
}

/// Reads what is left of a store text into a repository that holds nothing, line by line.
#[tactic(auto, unfolding(gx_model::specs::Stores::StoreReading::store_of))]
fn read_into<N: Namer, A: Allocator + Copy>(
    alloc: A,
    repo: &mut Repo<N, A>,
    whole: &Text<A>,
    text: &[u8],
) -> Result<(), FileFault>
    requires left { EndsWith whole.now text.now }
    requires empty { repo.old.1 ≡ record { records = []; refs = [] } }
    ensures namer { repo.new.0 ≡ repo.old.0 }
    ensures store { Reads (λ _. repo.new.1) result (store_of (N.name_of repo.old.0) text.now) }
    ensures memory { WantsWhere result (RunsOut (N.name_of repo.old.0) text.now) }
{
    let (version, rest) = read_magic(text)?;
    let (objects, rest) = read_count(b"objects", rest)?;
    let rest = read_records(repo, whole, version, objects, rest)?;
    let (refs, rest) = read_count(b"refs", rest)?;
    let rest = read_refs(alloc, repo, refs, rest)?;
    read_end(rest)
}
