//! What is salvaged of a history of which one object can't be read.

use crate::histories::{ROWS, Row};
use crate::holed::Holed;
use gx_object::Sha1Namer;
use gx_objects::Objects;
use gx_reached::Damage;
use gx_salvage_refs::{Lost, Salvaged, salvage};
use std::alloc::Global;
use std::hash::RandomState;

/// What is salvaged.
pub(crate) fn salvaged(
    alloc: Global,
    holed: &Holed<'_>,
    state: RandomState,
) -> Option<Salvaged<Sha1Namer, Global>> {
    let mut room = Vec::new(alloc);
    let Ok(lines) = holed.ref_lines(&mut room) else {
        return None;
    };
    salvage(alloc, holed, lines, Sha1Namer, u64::MAX, state).ok()
}

/// Whether refs are lost by this damage alone, and they and the lines of those that are saved are the row's. What can't be read
/// isn't held.
pub(crate) fn is_told(
    alloc: Global,
    saved: &Salvaged<Sha1Namer, Global>,
    row: &Row<'_>,
    damage: &Damage,
) -> Option<bool> {
    let mut told = Vec::new(alloc);
    for lost in saved.lost.as_slice() {
        put_lost(&mut told, lost, damage)?;
    }
    let mut room = Vec::new(alloc);
    let Ok(lines) = saved.repo.ref_lines(&mut room) else {
        return None;
    };
    told.extend_from_slice(lines).ok()?;
    Some(told.as_slice() == row.told && saved.repo.store().place(&damage.object).is_none())
}

/// Puts the line of a ref that is lost by this damage.
fn put_lost(told: &mut Vec<u8>, lost: &Lost<Global>, damage: &Damage) -> Option<()> {
    if lost.damage != *damage {
        return None;
    }
    told.extend_from_slice(lost.name.as_slice()).ok()?;
    told.push(b'\n').ok()
}

/// Whether all objects but the last one are saved, in their order.
pub(crate) fn all_saved(saved: &Salvaged<Sha1Namer, Global>) -> bool {
    for number in 0..12 {
        let row = &ROWS[number];
        match saved.repo.store().record(number) {
            Some((_name, kind, body)) => {
                if kind != row.kind || body != row.body {
                    return false;
                }
            }
            None => return false,
        }
    }
    saved.repo.store().len() == 12
}
