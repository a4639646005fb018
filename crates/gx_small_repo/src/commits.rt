//! Commits of a repository by their places, and what leads to them.

ghost use Rattle.gx_small_repo.specs.Small.{TellsDamage};

use crate::SmallFault;
use gx_object::{Kind, Name, decode_commit, decode_tag};
use gx_objects::Objects;
use std::alloc::Allocator;
use std::collections::BTreeMap;

/// The first place in a map that doesn't stand in another.
pub(crate) fn first_without<A: Allocator + Copy>(
    places: &BTreeMap<u64, Name, A>,
    others: &BTreeMap<u64, Name, A>,
) -> Option<u64> {
    for (place, _) in places.iter() {
        if !others.contains_key(place) {
            return Some(*place);
        }
    }
    None
}

/// Enters a commit at its place, where it has one.
pub(crate) fn enter<O: Objects, A: Allocator + Copy>(
    places: &mut BTreeMap<u64, Name, A>,
    objects: &O,
    commit: &Name,
) -> Result<(), SmallFault>
    ensures fault { TellsDamage (O.told objects.now) result }
{
    if let Some(place) = objects.place(commit)? {
        places.insert(place, *commit)?;
    }
    Ok(())
}

/// Enters the parents of a commit at their places.
pub(crate) fn enter_parents<O: Objects, A: Allocator + Copy>(
    places: &mut BTreeMap<u64, Name, A>,
    objects: &O,
    room: &mut Vec<u8, A>,
    commit: &Name,
) -> Result<(), SmallFault>
    ensures fault { TellsDamage (O.told objects.now) result }
{
    let Some(object) = objects.object(commit, room)? else {
        return Ok(());
    };
    let view = decode_commit(object.body)?;
    for place in 0..view.parent_count() {
        if let Some(parent) = view.parent(place) {
            enter(places, objects, &parent)?;
        }
    }
    Ok(())
}

/// The commit that an object is, or that it names as a tag.
pub(crate) fn peeled<O: Objects, A: Allocator + Copy>(
    objects: &O,
    room: &mut Vec<u8, A>,
    name: &Name,
) -> Result<Option<Name>, SmallFault>
    ensures fault { TellsDamage (O.told objects.now) result }
{
    let Some(object) = objects.object(name, room)? else {
        return Ok(None);
    };
    match object.kind {
        Kind::Commit => Ok(Some(*name)),
        Kind::Tag => Ok(Some(decode_tag(object.body)?.object())),
        Kind::Blob | Kind::Tree => Ok(None),
    }
}
