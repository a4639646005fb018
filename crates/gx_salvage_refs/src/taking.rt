//! Objects that are taken over into a repository, each behind what it names.

ghost use Rattle.std.specs.Prelude.{◌≡◌, ◌+◌, ◌≤◌, [], length, IfErr, IfOk, IfSome, None, OnErr, OnOk};
ghost use Rattle.gx_model.specs.Records.Growth.{record_named};
ghost use Rattle.gx_objects.specs.Answers.{IsHeldThere, IsNamedAs, OnlyUntold, StandsIfTold, Tells};
ghost use Rattle.gx_repo.specs.declared.fault.AddFault.TheVariants.{OutOfMemory};
ghost use Rattle.gx_reached.specs.Damages.{AreDamages, IsBad, KeepsBad, damage_in};
ghost use Rattle.gx_reached.specs.Reaching.{IsVisited};
ghost use Rattle.gx_salvage_refs.specs.Saved.{AreOf, KeepsSaved, body_bytes};
ghost use Rattle.gx_salvage_refs.specs.Taking.{AreUnsaved, FindsDamage, IsReady, Settles, SettlesAll, TellsRefusal, is_settled};

use gx_object::{Kind, Name, Namer};
use gx_objects::{LookFault, Object, Objects};
use gx_reached::{Bad, Cause, Damage, cause_of, links_of};
use gx_repo::{AddFault, Repo};
use std::alloc::{AllocError, Allocator};

/// Takes over the objects at these places, the last one first, whose bodies have so many bytes at most. Those that can't be taken over
/// are entered as bad, and so are those from the first on that would be more.
///
/// Cost: the bodies, each hashed by where it stands and by where it goes, and a look-up for each link. Memory: what the
/// repository holds of them.
pub(crate) fn take_all<O: Objects, N: Namer, A: Allocator + Copy>(
    alloc: A,
    objects: &O,
    visited: Vec<(u64, Name), A>,
    most: u64,
    repo: &mut Repo<N, A>,
    bad: &mut Bad<A>,
) -> Result<(), AllocError>
    requires names { O.name_of objects.now ≡ N.name_of repo.old.0 }
    requires empty { repo.old.1 ≡ record { records = []; refs = [] } }
    requires visited { IfSome (O.told objects.now) (λ r.
        IsVisited r (O.stands objects.now) (IsBad bad.old) (IsBad bad.old) [] visited.items) }
    requires bad { AreDamages (O.name_of objects.now) (O.told objects.now) bad.old }
    ensures namer { repo.new.0 ≡ repo.old.0 }
    ensures refs { repo.new.1.refs ≡ [] }
    ensures bad { OnOk result (AreUnsaved (O.name_of objects.now) (O.told objects.now)
        repo.new.1.records bad.new) }
    ensures settled { IfSome (O.told objects.now) (λ r. OnOk result
        (SettlesAll r visited.items bad.old repo.new.1.records bad.new)) }
    ensures within { OnOk result (body_bytes repo.new.1.records ≤ most) }
{
    objects.sound_if_told();
    let mut left = visited;
    let mut bytes = most;
    let mut room = Vec::new(alloc);
    while let Some((place, name)) = left.pop() {
        take(
            alloc, objects, place, &name, repo, bad, &mut bytes, &mut room,
        )?;
    }
    Ok(())
}

/// Takes over the object at a place, unless it is bad, or its body has more bytes than these.
fn take<O: Objects, N: Namer, A: Allocator + Copy>(
    alloc: A,
    objects: &O,
    place: u64,
    name: &Name,
    repo: &mut Repo<N, A>,
    bad: &mut Bad<A>,
    bytes: &mut u64,
    room: &mut Vec<u8, A>,
) -> Result<(), AllocError>
    requires names { O.name_of objects.now ≡ N.name_of repo.old.0 }
    requires there { StandsIfTold (O.told objects.now) (O.stands objects.now) name.now.bytes place }
    requires ready { IfSome (O.told objects.now) (λ r. AreOf r repo.old.1.records
        × IsReady r repo.old.1.records bad.old name.now.bytes) }
    requires bad { AreUnsaved (O.name_of objects.now) (O.told objects.now)
        repo.old.1.records bad.old }
    ensures namer { repo.new.0 ≡ repo.old.0 }
    ensures refs { repo.new.1.refs ≡ repo.old.1.refs }
    ensures bad { OnOk result (AreUnsaved (O.name_of objects.now) (O.told objects.now)
        repo.new.1.records bad.new) }
    ensures keeps { KeepsSaved repo.old.1.records repo.new.1.records }
    ensures keeps_bad { OnOk result (KeepsBad bad.old bad.new) }
    ensures settles { IfSome (O.told objects.now) (λ r. OnOk result
        (Settles r name.now.bytes repo.new.1.records bad.new)) }
    ensures within { OnOk result (body_bytes repo.new.1.records + bytes.new
        ≤ body_bytes repo.old.1.records + bytes.old) }
{
    objects.sound_if_told();
    if is_settled(repo, bad, name) {
        return Ok(());
    }
    match read_within(objects, place, name, bytes, room) {
        Ok(object) => add(alloc, objects, name, object, repo, bad),
        Err(fault) => bad.enter_itself(name, cause_of(fault)?),
    }
}

/// The object at a place, whose body's bytes are taken off these. Where it has more, that is as a read that fails, and so is each one
/// behind it, unread: what a store tells has no more bytes than it.
fn read_within<'a, O: Objects, A: Allocator + Copy>(
    objects: &'a O,
    place: u64,
    name: &Name,
    bytes: &mut u64,
    room: &'a mut Vec<u8, A>,
) -> Result<Object<'a>, LookFault>
    requires there { StandsIfTold (O.told objects.now) (O.stands objects.now) name.now.bytes place }
    ensures held { Tells (O.told objects.now) (IsHeldThere name.now.bytes) result }
    ensures named { IfOk result (IsNamedAs (O.name_of objects.now) name.now.bytes) }
    ensures fault { OnlyUntold (O.told objects.now) result }
    ensures within { IfOk result (λ object. length object.body.now + bytes.new ≤ bytes.old) }
    ensures less { OnErr result (bytes.new ≤ bytes.old) }
{
    if *bytes == 0 {
        return Err(LookFault::ReadFailed);
    }
    let object = objects.object_at(place, name, room)?;
    match bytes.checked_sub(object.body.len() as u64) {
        Some(left) => {
            *bytes = left;
            Ok(object)
        }
        None => {
            *bytes = 0;
            Err(LookFault::ReadFailed)
        }
    }
}

/// Whether an object is held, or known not to be saved.
fn is_settled<N: Namer, A: Allocator + Copy>(repo: &Repo<N, A>, bad: &Bad<A>, name: &Name) -> bool
    ensures { result ≡ is_settled repo.now.1.records bad.now name.now.bytes }
{
    if bad.damage(name).is_some() {
        return true;
    }
    repo.store().get(name).is_some()
}

/// Adds an object under its name, which isn't held, or enters it as bad.
fn add<O: Objects, N: Namer, A: Allocator + Copy>(
    alloc: A,
    objects: &O,
    name: &Name,
    object: Object<'_>,
    repo: &mut Repo<N, A>,
    bad: &mut Bad<A>,
) -> Result<(), AllocError>
    requires named { N.name_of repo.old.0 object.kind object.body.now ≡ name.now.bytes }
    requires names { O.name_of objects.now ≡ N.name_of repo.old.0 }
    requires unheld { record_named repo.old.1.records name.now.bytes ≡ None }
    requires fresh { damage_in bad.old name.now.bytes ≡ None }
    requires ready { IfSome (O.told objects.now) (λ r. AreOf r repo.old.1.records
        × IsReady r repo.old.1.records bad.old name.now.bytes
        × IsHeldThere name.now.bytes r object) }
    requires bad { AreUnsaved (O.name_of objects.now) (O.told objects.now)
        repo.old.1.records bad.old }
    ensures namer { repo.new.0 ≡ repo.old.0 }
    ensures refs { repo.new.1.refs ≡ repo.old.1.refs }
    ensures bad { OnOk result (AreUnsaved (O.name_of objects.now) (O.told objects.now)
        repo.new.1.records bad.new) }
    ensures keeps { KeepsSaved repo.old.1.records repo.new.1.records }
    ensures keeps_bad { OnOk result (KeepsBad bad.old bad.new) }
    ensures settles { IfSome (O.told objects.now) (λ r. OnOk result
        (Settles r name.now.bytes repo.new.1.records bad.new)) }
    ensures within { OnOk result (body_bytes repo.new.1.records
        ≤ body_bytes repo.old.1.records + length object.entry.body.now) }
{
    objects.sound_if_told();
    repo.sound();
    match repo.add_record(object.kind, object.body) {
        Ok(_) => Ok(()),
        Err(fault) => {
            let cause = cause_of_refusal(fault)?;
            let own = Damage {
                object: *name,
                cause,
            };
            let damage = damage_of(alloc, own, object.kind, object.body, bad)?;
            bad.enter(name, damage)
        }
    }
}

/// What an object that is refused is lost by: the first of its links that is bad, or itself where none is.
fn damage_of<A: Allocator + Copy>(
    alloc: A,
    own: Damage,
    kind: Kind,
    body: &[u8],
    bad: &Bad<A>,
) -> Result<Damage, AllocError>
    ensures { IfOk result (FindsDamage bad.now own kind body.now) }
{
    let links = links_of(alloc, kind, body)?;
    for link in links.as_slice() {
        if let Some(damage) = bad.damage(&link.name) {
            return Ok(damage);
        }
    }
    Ok(own)
}

/// Why an object that a repository refuses isn't saved: want of memory is no damage.
fn cause_of_refusal(fault: AddFault) -> Result<Cause, AllocError>
    ensures cause { IfOk result (TellsRefusal fault) }
    ensures memory { IfErr result (λ _. fault ≡ OutOfMemory) }
{
    match fault {
        AddFault::OutOfMemory => Err(AllocError),
        AddFault::Dangling => Ok(Cause::Dangling),
        AddFault::BadObject | AddFault::DuplicateObject => Ok(Cause::BadObject),
    }
}
