//! What refs reach in a history of which one object can't be read.

use crate::histories::{REFS, Row};
use crate::holed::Holed;
use gx_object::Name;
use gx_reached::{Bad, Damage, reached};
use std::alloc::Global;

/// The objects that are reached, the newest first, and those that are bad.
pub(crate) fn followed(
    alloc: Global,
    holed: &Holed<'_>,
) -> Option<(Vec<(u64, Name)>, Bad<Global>)> {
    let mut bad = Bad::new(alloc);
    let order = reached(alloc, holed, &REFS, &mut bad).ok()?;
    Some((order, bad))
}

/// Whether all objects but the last one are reached, the newest first, and none is bad.
pub(crate) fn all_reached(alloc: Global, holed: &Holed<'_>) -> Option<bool> {
    let (order, bad) = followed(alloc, holed)?;
    for number in 0..12 {
        let (name, _kind, _body) = holed.repo.store().record(number)?;
        let (place, reached) = *order.as_slice().get(11 - number)?;
        if place != number as u64 || reached != name || bad.damage(&name).is_some() {
            return Some(false);
        }
    }
    Some(order.len() == 12)
}

/// Whether the object that can't be read is bad by this damage of its own, where it is asked for.
pub(crate) fn is_bad(
    alloc: Global,
    holed: &Holed<'_>,
    row: &Row<'_>,
    damage: &Damage,
) -> Option<bool> {
    let (_order, bad) = followed(alloc, holed)?;
    let is_bad = if holed.fault.is_none() {
        row.bad.0
    } else {
        row.bad.1
    };
    let own = if is_bad { Some(*damage) } else { None };
    Some(bad.damage(&holed.hole) == own)
}
