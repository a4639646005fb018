//! The small repository over which an import runs.

ghost use Rattle.std.specs.Prelude.{◌≡◌, IfOk, IsTrue, OnOk};
ghost use Rattle.std.specs.FinMap.Entries.{is_sorted};
ghost use Rattle.gx_model.specs.Texts.{byte_cmp};
ghost use Rattle.gx_ref_lines.specs.Refs.{shown_refs};
ghost use Rattle.gx_small_repo.specs.Small.{AreOf, AreRefsOfTold, IsNotOfDamage, IsSmallOfTold, StayAmong, TellsDamage};
ghost use Rattle.gx_stand_ins.specs.declared.bodies.TheConstants.{NONCE};

use crate::SmallFault;
use crate::putting::{Origin, put_object};
use crate::wanted::Wanted;
use gx_asked::Asked;
use gx_object::Namer;
use gx_objects::Objects;
use gx_ref_lines::RefLines;
use gx_repo::{RefChange, Repo};
use gx_stand_ins::{NONCE, StandIn};
use std::alloc::Allocator;
use std::hash::RandomState;

/// A small repository of what a stream's texts ask of a whole one, with the refs that they may stand for and those that are set.
///
/// Each of its objects is one of the whole one, or stands for a blob or a commit of it, under that one's name; each of its refs
/// is one of the whole one's.
/// ReadFailed: a read failed. Damaged: what is asked tells no repository. TooMany: the texts lead to more than 4,096 commits.
/// NotTaken: an object isn't held as what it is to be, or isn't taken as the one that it is.
/// Cost: the trees of the commits that the texts name, and of those that the branches hold. Memory: these, and 36 bytes a blob.
pub fn small_repository<O: Objects, N: Namer + Copy, A: Allocator + Copy>(
    alloc: A,
    namer: N,
    objects: &O,
    asked: &Asked<A>,
    lines: &RefLines<'_, A>,
    state: RandomState,
) -> Result<Repo<StandIn<N>, A>, SmallFault>
    ensures namer { IfOk result (λ repo. repo.0 ≡ record { namer = namer; nonce = NONCE }) }
    ensures small { AreRefsOfTold (O.told objects.now) (shown_refs lines.now.refs.items)
        → IfOk result (λ repo. IsSmallOfTold (O.told objects.now) repo.1) }
    ensures fault { TellsDamage (O.told objects.now) result }
{
    let wanted = Wanted::of(alloc, objects, asked, lines)?;
    let origin = Origin {
        alloc,
        objects,
        brought: &asked.brought,
    };
    let stand_in = StandIn {
        namer,
        nonce: NONCE,
    };
    let mut repo = Repo::new(alloc, stand_in, state);
    put_wanted(&origin, &mut repo, &wanted)?;
    objects.sound_if_told();
    set_refs(alloc, &mut repo, &wanted, lines)?;
    Ok(repo)
}

/// Puts the objects that are wanted.
fn put_wanted<O: Objects, N: Namer, A: Allocator + Copy>(
    origin: &Origin<'_, O, A>,
    repo: &mut Repo<StandIn<N>, A>,
    wanted: &Wanted<A>,
) -> Result<(), SmallFault>
    requires nonce { repo.now.0.nonce ≡ NONCE }
    requires small { IsSmallOfTold (O.told origin.now.objects.now) repo.now.1 }
    ensures small { OnOk result (IsSmallOfTold (O.told origin.now.objects.now) repo.new.1) }
    ensures namer { repo.new.0 ≡ repo.old.0 }
    ensures fault { TellsDamage (O.told origin.now.objects.now) result }
{
    for (_, (kind, name)) in wanted.objects.iter() {
        put_object(origin, repo, *kind, name)?;
    }
    Ok(())
}

/// Sets the refs that are wanted and held.
fn set_refs<N: Namer, A: Allocator + Copy>(
    alloc: A,
    repo: &mut Repo<StandIn<N>, A>,
    wanted: &Wanted<A>,
    lines: &RefLines<'_, A>,
) -> Result<(), SmallFault>
    ensures namer { repo.new.0 ≡ repo.old.0 }
    ensures records { repo.new.1.records ≡ repo.old.1.records }
    ensures refs { OnOk result (IsTrue (is_sorted byte_cmp (shown_refs lines.now.refs.items))
        → StayAmong (shown_refs lines.now.refs.items) repo.old.1.refs repo.new.1.refs) }
    ensures fault { IsNotOfDamage result }
{
    let mut changes = Vec::new(alloc);
    for name in wanted.refs.iter() {
        add_change(&mut changes, lines, name.as_slice())?;
    }
    repo.publish(changes.as_slice())?;
    Ok(())
}

/// Adds the change that sets a ref as it is held, where it is.
fn add_change<'a, A: Allocator + Copy>(
    changes: &mut Vec<RefChange<'a>, A>,
    lines: &RefLines<'_, A>,
    name: &'a [u8],
) -> Result<(), SmallFault>
    ensures kept { OnOk result (AreOf (shown_refs lines.now.refs.items) changes.old.items
        → AreOf (shown_refs lines.now.refs.items) changes.new.items) }
    ensures fault { IsNotOfDamage result }
{
    let Some(target) = lines.find(name) else {
        return Ok(());
    };
    changes.push(RefChange { name, target })?;
    Ok(())
}
