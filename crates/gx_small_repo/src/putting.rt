//! Objects that are put into a small repository. Source: Pro Git, "Git Objects".

ghost use Rattle.std.specs.Prelude.{◌≡◌, IfOk, OnOk};
ghost use Rattle.gx_model.specs.declared.objects.Mode.TheVariants.{File};
ghost use Rattle.gx_small_repo.specs.Small.{IsBodyOfTold, IsHeldByTold, IsNotOfDamage, IsSmallOfTold, PutsAs, TellsDamage};
ghost use Rattle.gx_stand_ins.specs.declared.bodies.TheConstants.{NONCE};

use crate::SmallFault;
use gx_object::{CommitView, Entry, Kind, Mode, Name, Namer, decode_commit, decode_tree};
use gx_objects::Objects;
use gx_repo::Repo;
use gx_stand_ins::{StandIn, blob_body, commit_body};
use gx_text::MOST_BYTES;
use std::alloc::Allocator;
use std::collections::BTreeSet;

/// Where objects come from: a repository, and which blobs a stream brings.
#[derive(Drop)]
pub(crate) struct Origin<'a, O, A: Allocator> {
    pub(crate) alloc: A,
    pub(crate) objects: &'a O,
    pub(crate) brought: &'a BTreeSet<Name, A>,
}

/// Puts an object of this kind, and before it what it names.
pub(crate) fn put_object<O: Objects, N: Namer, A: Allocator + Copy>(
    origin: &Origin<'_, O, A>,
    repo: &mut Repo<StandIn<N>, A>,
    kind: Kind,
    name: &Name,
) -> Result<(), SmallFault>
    requires nonce { repo.now.0.nonce ≡ NONCE }
    requires small { IsSmallOfTold (O.told origin.now.objects.now) repo.now.1 }
    ensures small { OnOk result (IsSmallOfTold (O.told origin.now.objects.now) repo.new.1) }
    ensures namer { repo.new.0 ≡ repo.old.0 }
    ensures fault { TellsDamage (O.told origin.now.objects.now) result }
{
    match kind {
        Kind::Blob | Kind::Tag => put_own(origin, repo, kind, name),
        Kind::Tree => put_tree(origin, repo, name, MOST_BYTES),
        Kind::Commit => put_commit(origin, repo, name),
    }
}

/// Puts a commit with its tree: itself where its parents are held, and else what stands for it.
fn put_commit<O: Objects, N: Namer, A: Allocator + Copy>(
    origin: &Origin<'_, O, A>,
    repo: &mut Repo<StandIn<N>, A>,
    name: &Name,
) -> Result<(), SmallFault>
    requires nonce { repo.now.0.nonce ≡ NONCE }
    requires small { IsSmallOfTold (O.told origin.now.objects.now) repo.now.1 }
    ensures small { OnOk result (IsSmallOfTold (O.told origin.now.objects.now) repo.new.1) }
    ensures namer { repo.new.0 ≡ repo.old.0 }
    ensures fault { TellsDamage (O.told origin.now.objects.now) result }
{
    let mut room = Vec::new(origin.alloc);
    let body = body_of(origin.objects, &mut room, Kind::Commit, name)?;
    let view = decode_commit(body)?;
    let root = view.tree();
    put_tree(origin, repo, &root, MOST_BYTES)?;
    if are_parents_held(repo, &view) {
        return put(repo, Kind::Commit, body, name);
    }
    let stand_in = commit_body(origin.alloc, root, name)?;
    put(repo, Kind::Commit, stand_in.as_slice(), name)
}

/// Puts a tree, and before it what stands below it. Its paths have at most so many bytes.
#[cycle(trees)]
fn put_tree<O: Objects, N: Namer, A: Allocator + Copy>(
    origin: &Origin<'_, O, A>,
    repo: &mut Repo<StandIn<N>, A>,
    name: &Name,
    most: usize,
) -> Result<(), SmallFault>
    requires nonce { repo.now.0.nonce ≡ NONCE }
    requires small { IsSmallOfTold (O.told origin.now.objects.now) repo.now.1 }
    ensures small { OnOk result (IsSmallOfTold (O.told origin.now.objects.now) repo.new.1) }
    ensures namer { repo.new.0 ≡ repo.old.0 }
    ensures fault { TellsDamage (O.told origin.now.objects.now) result }
{
    if is_held(repo, name) {
        return Ok(());
    }
    let mut room = Vec::new(origin.alloc);
    let body = body_of(origin.objects, &mut room, Kind::Tree, name)?;
    origin.objects.sound_if_told();
    let entries = decode_tree(body)?;
    for entry in entries {
        put_entry(origin, repo, &entry, most)?;
    }
    put(repo, Kind::Tree, body, name)
}

/// Puts what an entry names, which isn't a submodule's commit. Its paths have at most so many bytes.
#[cycle(trees)]
fn put_entry<O: Objects, N: Namer, A: Allocator + Copy>(
    origin: &Origin<'_, O, A>,
    repo: &mut Repo<StandIn<N>, A>,
    entry: &Entry<'_>,
    most: usize,
) -> Result<(), SmallFault>
    requires nonce { repo.now.0.nonce ≡ NONCE }
    requires held { IsHeldByTold (O.told origin.now.objects.now) entry.now.mode entry.now.name }
    requires small { IsSmallOfTold (O.told origin.now.objects.now) repo.now.1 }
    ensures small { OnOk result (IsSmallOfTold (O.told origin.now.objects.now) repo.new.1) }
    ensures namer { repo.new.0 ≡ repo.old.0 }
    ensures fault { TellsDamage (O.told origin.now.objects.now) result }
{
    match entry.mode {
        Mode::Gitlink => Ok(()),
        Mode::File | Mode::Exec | Mode::Link => put_blob(origin, repo, &entry.name),
        Mode::Dir => {
            let used = entry.component.len();
            if used >= most {
                return Err(SmallFault::NotTaken);
            }
            put_tree(origin, repo, &entry.name, most - used - 1)
        }
    }
}

/// Puts a blob: with its own bytes where the stream brings it, and else what stands for it.
fn put_blob<O: Objects, N: Namer, A: Allocator + Copy>(
    origin: &Origin<'_, O, A>,
    repo: &mut Repo<StandIn<N>, A>,
    name: &Name,
) -> Result<(), SmallFault>
    requires nonce { repo.now.0.nonce ≡ NONCE }
    requires held { IsHeldByTold (O.told origin.now.objects.now) File name.now }
    requires small { IsSmallOfTold (O.told origin.now.objects.now) repo.now.1 }
    ensures small { OnOk result (IsSmallOfTold (O.told origin.now.objects.now) repo.new.1) }
    ensures namer { repo.new.0 ≡ repo.old.0 }
    ensures fault { TellsDamage (O.told origin.now.objects.now) result }
{
    if is_held(repo, name) {
        return Ok(());
    }
    if origin.brought.contains(name) {
        return put_own(origin, repo, Kind::Blob, name);
    }
    put(repo, Kind::Blob, &blob_body(name), name)
}

/// Puts an object of this kind itself.
fn put_own<O: Objects, N: Namer, A: Allocator + Copy>(
    origin: &Origin<'_, O, A>,
    repo: &mut Repo<StandIn<N>, A>,
    kind: Kind,
    name: &Name,
) -> Result<(), SmallFault>
    requires nonce { repo.now.0.nonce ≡ NONCE }
    requires small { IsSmallOfTold (O.told origin.now.objects.now) repo.now.1 }
    ensures small { OnOk result (IsSmallOfTold (O.told origin.now.objects.now) repo.new.1) }
    ensures namer { repo.new.0 ≡ repo.old.0 }
    ensures fault { TellsDamage (O.told origin.now.objects.now) result }
{
    let mut room = Vec::new(origin.alloc);
    let body = body_of(origin.objects, &mut room, kind, name)?;
    put(repo, kind, body, name)
}

/// The body of an object of this kind, lent from where it stands or from the room.
fn body_of<'a, O: Objects, A: Allocator + Copy>(
    objects: &'a O,
    room: &'a mut Vec<u8, A>,
    kind: Kind,
    name: &Name,
) -> Result<&'a [u8], SmallFault>
    ensures held { IfOk result
        (λ body. IsBodyOfTold (O.told objects.now) kind name.now.bytes body.now) }
    ensures fault { TellsDamage (O.told objects.now) result }
{
    match objects.object(name, room)? {
        Some(object) if object.kind == kind => Ok(object.body),
        _ => Err(SmallFault::NotTaken),
    }
}

/// Puts a record that is to have a name.
fn put<N: Namer, A: Allocator + Copy>(
    repo: &mut Repo<StandIn<N>, A>,
    kind: Kind,
    body: &[u8],
    name: &Name,
) -> Result<(), SmallFault>
    requires nonce { repo.now.0.nonce ≡ NONCE }
    ensures put { OnOk result (PutsAs (N.name_of repo.old.0.namer) repo.old.1 repo.new.1
        name.now.bytes kind body.now) }
    ensures namer { repo.new.0 ≡ repo.old.0 }
    ensures fault { IsNotOfDamage result }
{
    if repo.add_record(kind, body)? == *name {
        Ok(())
    } else {
        Err(SmallFault::NotTaken)
    }
}

/// Whether an object of this name is held.
fn is_held<N: Namer, A: Allocator + Copy>(repo: &Repo<StandIn<N>, A>, name: &Name) -> bool {
    repo.store().place(name).is_some()
}

/// Whether all parents of a commit are held.
fn are_parents_held<N: Namer, A: Allocator + Copy>(
    repo: &Repo<StandIn<N>, A>,
    view: &CommitView<'_>,
) -> bool {
    for place in 0..view.parent_count() {
        match view.parent(place) {
            Some(parent) if is_held(repo, &parent) => {}
            _ => return false,
        }
    }
    true
}
