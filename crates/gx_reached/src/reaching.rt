//! What the refs of a store reach, the newest object first: what an object names stands before it.

ghost use Rattle.std.specs.Prelude.{◌≡◌, [], map, Err, IfErr, IfOk, IfSome, OnOk};
ghost use Rattle.std.specs.List.{AllByRecursion};
ghost use Rattle.gx_model.specs.Texts.{Bytes};
ghost use Rattle.gx_objects.specs.declared.fault.LookFault.TheVariants as faults;
ghost use Rattle.gx_reached.specs.Damages.{AreDamages, IsBad, KeepsBad};
ghost use Rattle.gx_reached.specs.Links.{shown_link};
ghost use Rattle.gx_reached.specs.Reaching.{AddsAll, AddsLinks, Among, AreBelow, Falls, IsBefore, IsLed, IsPlaced, IsStep, IsVisited, OnlyAdds, OnlyAddsLinks, StandsSomewhere, TellsCause, TellsPlace, targets_of, tip_links};

use crate::{Bad, Cause, Link, links_of};
use gx_object::Name;
use gx_objects::{LookFault, Objects};
use gx_repo::RefChange;
use std::alloc::{AllocError, Allocator};
use std::collections::BTreeMap;

/// The objects that refs reach, with their places, the one that stands last put first. Those that can't be read are entered as
/// bad.
///
/// `AllocError`: a growth was refused.
/// Cost: the bodies of the trees, commits and tags, and a look-up for each link. Memory: the places and names, and the links of
/// one object. Source: gitglossary(7), "reachable".
pub fn reached<O: Objects, A: Allocator + Copy>(
    alloc: A,
    objects: &O,
    refs: &[RefChange<'_>],
    bad: &mut Bad<A>,
) -> Result<Vec<(u64, Name), A>, AllocError>
    requires tips { IfSome (O.told objects.now) (λ r.
        AllByRecursion (λ tip. StandsSomewhere r (O.stands objects.now) tip.target.bytes)
        refs.now) }
    requires bad { AreDamages (O.name_of objects.now) (O.told objects.now) bad.old }
    ensures bad { OnOk result (AreDamages (O.name_of objects.now) (O.told objects.now) bad.new) }
    ensures keeps { OnOk result (KeepsBad bad.old bad.new) }
    ensures falls { IfOk result (λ order. Falls order.items) }
    ensures led { IfOk result (λ order. (called : Bytes) → Among order.items called →
        IsLed (O.name_of objects.now) (targets_of refs.now) called) }
    ensures visited { IfSome (O.told objects.now) (λ r. IfOk result (λ order.
        IsVisited r (O.stands objects.now) (IsBad bad.new) (IsBad bad.new)
        (targets_of refs.now) order.items)) }
{
    objects.sound_if_told();
    let mut front = BTreeMap::new(alloc);
    add_tips(objects, refs, &mut front, bad)?;
    let mut order = Vec::new(alloc);
    let mut room = Vec::new(alloc);
    while let Some((place, link)) = front.pop_last() {
        order.push((place, link.name))?;
        add_links(alloc, objects, place, &link, &mut front, bad, &mut room)?;
    }
    Ok(order)
}

/// Adds the objects that refs hold.
fn add_tips<O: Objects, A: Allocator + Copy>(
    objects: &O,
    refs: &[RefChange<'_>],
    front: &mut BTreeMap<u64, Link, A>,
    bad: &mut Bad<A>,
) -> Result<(), AllocError>
    requires tips { IfSome (O.told objects.now) (λ r.
        AllByRecursion (λ tip. StandsSomewhere r (O.stands objects.now) tip.target.bytes)
        refs.now) }
    requires none { front.old.entries ≡ [] }
    requires bad { AreDamages (O.name_of objects.now) (O.told objects.now) bad.old }
    ensures bad { OnOk result (AreDamages (O.name_of objects.now) (O.told objects.now) bad.new) }
    ensures keeps { OnOk result (KeepsBad bad.old bad.new) }
    ensures only { OnOk result
        (OnlyAdds (tip_links refs.now) front.old.entries front.new.entries) }
    ensures adds { IfSome (O.told objects.now) (λ r. OnOk result (AddsAll r (O.stands objects.now)
        (tip_links refs.now) front.old.entries front.new.entries bad.new)) }
{
    objects.sound_if_told();
    for change in refs {
        let name = change.target;
        let Some(place) = place_of(objects, &name, bad)? else {
            continue;
        };
        front.insert(
            place,
            Link {
                name,
                is_blob: false,
            },
        )?;
    }
    Ok(())
}

/// Adds what the object at a place names. A blob isn't read for that.
fn add_links<O: Objects, A: Allocator + Copy>(
    alloc: A,
    objects: &O,
    place: u64,
    link: &Link,
    front: &mut BTreeMap<u64, Link, A>,
    bad: &mut Bad<A>,
    room: &mut Vec<u8, A>,
) -> Result<(), AllocError>
    requires step { IfSome (O.told objects.now)
        (λ r. IsStep r (O.stands objects.now) (place, link.now)) }
    requires steps { IfSome (O.told objects.now) (λ r.
        AllByRecursion (IsStep r (O.stands objects.now)) front.old.entries) }
    requires bad { AreDamages (O.name_of objects.now) (O.told objects.now) bad.old }
    ensures bad { OnOk result (AreDamages (O.name_of objects.now) (O.told objects.now) bad.new) }
    ensures keeps { OnOk result (KeepsBad bad.old bad.new) }
    ensures below { OnOk result
        (AreBelow place front.old.entries → AreBelow place front.new.entries) }
    ensures only { OnOk result (OnlyAddsLinks (O.name_of objects.now)
        link.now.name.bytes front.old.entries front.new.entries) }
    ensures adds { IfSome (O.told objects.now) (λ r. OnOk result (AddsLinks r (O.stands objects.now)
        link.now.name.bytes front.old.entries front.new.entries bad.new)) }
{
    objects.sound_if_told();
    if link.is_blob {
        return Ok(());
    }
    match objects.object_at(place, &link.name, room) {
        Ok(object) => {
            let links = links_of(alloc, object.kind, object.body)?;
            add_before(objects, place, links.as_slice(), front, bad)
        }
        Err(fault) => bad.enter_itself(&link.name, cause_of(fault)?),
    }
}

/// Adds those of links that stand before a place.
fn add_before<O: Objects, A: Allocator + Copy>(
    objects: &O,
    limit: u64,
    links: &[Link],
    front: &mut BTreeMap<u64, Link, A>,
    bad: &mut Bad<A>,
) -> Result<(), AllocError>
    requires before { IfSome (O.told objects.now) (λ r.
        AllByRecursion (λ link. IsBefore r (O.stands objects.now) limit (shown_link link))
        links.now) }
    requires steps { IfSome (O.told objects.now) (λ r.
        AllByRecursion (IsStep r (O.stands objects.now)) front.old.entries) }
    requires bad { AreDamages (O.name_of objects.now) (O.told objects.now) bad.old }
    ensures bad { OnOk result (AreDamages (O.name_of objects.now) (O.told objects.now) bad.new) }
    ensures keeps { OnOk result (KeepsBad bad.old bad.new) }
    ensures below { OnOk result
        (AreBelow limit front.old.entries → AreBelow limit front.new.entries) }
    ensures only { OnOk result
        (OnlyAdds (map shown_link links.now) front.old.entries front.new.entries) }
    ensures adds { IfSome (O.told objects.now) (λ r. OnOk result (AddsAll r (O.stands objects.now)
        (map shown_link links.now) front.old.entries front.new.entries bad.new)) }
{
    objects.sound_if_told();
    for link in links {
        let Some(place) = place_of(objects, &link.name, bad)? else {
            continue;
        };
        if place < limit {
            front.insert(place, *link)?;
        }
    }
    Ok(())
}

/// The place of an object. Where it has none, or that can't be told, the object is entered as bad.
fn place_of<O: Objects, A: Allocator + Copy>(
    objects: &O,
    name: &Name,
    bad: &mut Bad<A>,
) -> Result<Option<u64>, AllocError>
    requires stands { IfSome (O.told objects.now) (λ r.
        StandsSomewhere r (O.stands objects.now) name.now.bytes) }
    requires bad { AreDamages (O.name_of objects.now) (O.told objects.now) bad.old }
    ensures bad { OnOk result (AreDamages (O.name_of objects.now) (O.told objects.now) bad.new) }
    ensures keeps { OnOk result (KeepsBad bad.old bad.new) }
    ensures place { IfSome (O.told objects.now) (λ r. IfOk result
        (IsPlaced r (O.stands objects.now) name.now.bytes bad.new)) }
{
    let found = place_or_cause(objects.place(name))?;
    match found {
        Ok(place) => Ok(Some(place)),
        Err(cause) => {
            bad.enter_itself(name, cause)?;
            Ok(None)
        }
    }
}

/// The place of an object by what is answered of it, or why the object isn't saved.
fn place_or_cause(answer: Result<Option<u64>, LookFault>) -> Result<Result<u64, Cause>, AllocError>
    ensures told { IfOk result (TellsPlace answer) }
    ensures memory { IfErr result (λ _. answer ≡ Err faults.OutOfMemory) }
{
    match answer {
        Ok(Some(place)) => Ok(Ok(place)),
        Ok(None) => Ok(Err(Cause::Missing)),
        Err(fault) => Ok(Err(cause_of(fault)?)),
    }
}

/// Why an object that can't be read isn't saved: want of memory is no damage.
///
/// `AllocError`: a growth was refused. Takes no memory itself.
pub fn cause_of(fault: LookFault) -> Result<Cause, AllocError>
    ensures cause { IfOk result (TellsCause fault) }
    ensures memory { IfErr result (λ _. fault ≡ faults.OutOfMemory) }
{
    match fault {
        LookFault::OutOfMemory => Err(AllocError),
        LookFault::ReadFailed => Ok(Cause::ReadFailed),
        LookFault::Damaged => Ok(Cause::Damaged),
    }
}
