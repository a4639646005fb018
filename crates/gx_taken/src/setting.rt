//! Refs that are dropped and set as items tell, in order. Source: git-update-ref(1), "--stdin".

ghost use Rattle.std.specs.Prelude.{◌≡◌, Bool, IfOk, None, OnOk, [], map};
ghost use Rattle.gx_model.specs.Laws.RepositoryLaws.{with_refs};
ghost use Rattle.gx_model.specs.Records.Publishing.{changes_fault, with_changes};
ghost use Rattle.gx_repo.specs.Dropping.{unknown_behind, without};
ghost use Rattle.gx_repo.specs.Refs.{shown_update};
ghost use Rattle.gx_text.specs.Lent.{lent_texts};
ghost use Rattle.gx_taken.specs.Parts.{shown_ref_items};
ghost use Rattle.gx_taken.specs.Setting.{HaveRefNames, IsTurned};
ghost use Rattle.gx_taken.specs.Taking.{first_refused, with_all_told};

use crate::checking::is_none;
use crate::parts::RefItem;
use gx_object::Namer;
use gx_repo::{DropFault, OutOfMemory, PublishFault, RefChange, Repo};
use std::alloc::{AllocError, Allocator};
use std::collections::BTreeSet;

/// What comes of all items: the refs to be dropped, which are there, and then those to be set.
#[derive(Drop)]
struct Turns<'a, A: Allocator> {
    dropped: Vec<&'a [u8], A>,
    changes: Vec<RefChange<'a>, A>,
}

/// Makes the refs what items tell, against none of which there is anything. The last item of a ref wins.
pub(crate) fn set_refs<N: Namer, A: Allocator + Copy>(
    alloc: A,
    repo: &mut Repo<N, A>,
    refs: &[RefItem<A>],
) -> Result<(), OutOfMemory>
    requires names { HaveRefNames (shown_ref_items refs.now) }
    requires free { (force : Bool)
        × (first_refused force repo.old.1 (shown_ref_items refs.now) ≡ None) }
    ensures namer { repo.new.0 ≡ repo.old.0 }
    ensures set { OnOk result (repo.new.1
        ≡ with_refs repo.old.1 (with_all_told repo.old.1.refs (shown_ref_items refs.now))) }
{
    let turns = turns_of(alloc, repo, refs)?;
    drop_all(repo, turns.dropped.as_slice())?;
    publish_all(repo, turns.changes.as_slice())
}

/// What comes of these items. They are looked at from the last one on: what stands before a ref is dropped counts for nothing.
fn turns_of<'a, N: Namer, A: Allocator + Copy>(
    alloc: A,
    repo: &Repo<N, A>,
    refs: &'a [RefItem<A>],
) -> Result<Turns<'a, A>, AllocError>
    requires names { HaveRefNames (shown_ref_items refs.now) }
    requires free { (force : Bool)
        × (first_refused force repo.now.1 (shown_ref_items refs.now) ≡ None) }
    ensures { IfOk result (λ turns. IsTurned repo.now.1 (shown_ref_items refs.now)
        (lent_texts turns.dropped.items) (map shown_update turns.changes.items)) }
{
    repo.sound();
    let mut seen = BTreeSet::new(alloc);
    let mut dropped = Vec::new(alloc);
    let mut changes = Vec::new(alloc);
    let mut place = refs.len();
    while place > 0 {
        place -= 1;
        let offered = &refs[place].offered;
        let (name, target) = (offered.name.as_slice(), offered.object);
        if seen.contains(name) {
            continue;
        }
        if !is_none(&target) {
            changes.push(RefChange { name, target })?;
            continue;
        }
        seen.insert(name)?;
        if repo.ref_near(0, name).1.is_some() {
            dropped.push(name)?;
        }
    }
    changes.reverse();
    Ok(Turns { dropped, changes })
}

/// Drops these refs, which are there.
fn drop_all<N: Namer, A: Allocator + Copy>(
    repo: &mut Repo<N, A>,
    names: &[&[u8]],
) -> Result<(), OutOfMemory>
    requires { unknown_behind repo.old.1.refs [] (lent_texts names.now) ≡ None }
    ensures namer { repo.new.0 ≡ repo.old.0 }
    ensures dropped { OnOk result (repo.new.1
        ≡ with_refs repo.old.1 (without (lent_texts names.now) repo.old.1.refs)) }
{
    match repo.drop_refs(names) {
        Ok(()) => Ok(()),
        Err(DropFault::OutOfMemory) => Err(AllocError),
        Err(DropFault::UnknownRef { .. }) => unreachable!(),
    }
}

/// Sets these refs, whose names and objects are good.
fn publish_all<N: Namer, A: Allocator + Copy>(
    repo: &mut Repo<N, A>,
    changes: &[RefChange<'_>],
) -> Result<(), OutOfMemory>
    requires { changes_fault repo.old.1.records (map shown_update changes.now) ≡ None }
    ensures namer { repo.new.0 ≡ repo.old.0 }
    ensures set { OnOk result (repo.new.1
        ≡ with_refs repo.old.1 (with_changes repo.old.1.refs (map shown_update changes.now))) }
{
    match repo.publish(changes) {
        Ok(()) => Ok(()),
        Err(PublishFault::OutOfMemory) => Err(AllocError),
        Err(PublishFault::BadRefName) => unreachable!(),
        Err(PublishFault::UnknownObject) => unreachable!(),
        Err(PublishFault::WrongKind) => unreachable!(),
    }
}
