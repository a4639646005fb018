//! What is appended to the empty text, and what stands in it where a call fails.

use crate::texts::{EMPTY, ENDING, TWICE};
use crate::told::{Outcome, Told, answered};
use gx_additions::{AdditionFault, append_refs, refs_alone};
use gx_append::append;
use gx_disk::{Disk, Plan};
use std::alloc::Global;

/// A disk with the empty text, of which calls fail as a plan says.
pub(crate) fn empty(alloc: Global, plan: Plan) -> Option<Disk<Global>> {
    Disk::new(alloc, EMPTY, plan).ok()
}

/// Appends a segment of no objects and no refs to the empty text.
pub(crate) fn append_nothing(alloc: Global, disk: &mut Disk<Global>) -> Option<Told> {
    let added = refs_alone(alloc, ENDING, 0, b"").ok()?;
    let segment = added.segment.as_slice();
    let slot = added.slot.as_slice();
    match append(disk, true, 262, segment, slot) {
        Ok(()) => Some(Told::Appended),
        Err(fault) => Some(answered(Err(AdditionFault::Append(fault)))),
    }
}

/// Gives the empty text no refs.
fn give_no_refs(alloc: Global, disk: &mut Disk<Global>) -> Option<Told> {
    Some(answered(append_refs(alloc, disk, ENDING, 0, b"")))
}

/// Whether the text has the segment, by six calls.
fn is_twice(disk: &Disk<Global>) -> bool {
    disk.text() == TWICE && disk.calls().len() == 6
}

#[test]
fn segment_is_appended_by_six_calls(rt: HostRuntime) {
    let Some(mut disk) = empty(rt.alloc(), Plan::NONE) else {
        return assert!(rt; false);
    };
    assert!(rt; append_nothing(rt.alloc(), &mut disk) == Some(Told::Appended));
    assert!(rt; is_twice(&disk));
}

#[test]
fn refs_are_given_by_the_same_calls(rt: HostRuntime) {
    let Some(mut disk) = empty(rt.alloc(), Plan::NONE) else {
        return assert!(rt; false);
    };
    assert!(rt; give_no_refs(rt.alloc(), &mut disk) == Some(Told::Appended));
    assert!(rt; is_twice(&disk));
}

/// Whether the text has the front of the empty one up to its second slot, and what it has behind that.
fn is_kept(text: &[u8]) -> bool {
    text.get(..119) == EMPTY.get(..119) && text.get(225..262) == EMPTY.get(225..)
}

/// What is answered where calls fail as a plan says, how long the text is then, and whether it is kept.
fn outcome(alloc: Global, plan: Plan) -> Option<Outcome> {
    let mut disk = empty(alloc, plan)?;
    let told = append_nothing(alloc, &mut disk);
    let text = disk.text();
    Some((told, text.len(), is_kept(text)))
}

/// What comes of it where no call is done from one on, for each call.
const UNDONE: [Outcome; 6] = [
    (Some(Told::Unwritten), 262, true),
    (Some(Told::Unwritten), 262, true),
    (Some(Told::Unwritten), 298, true),
    (Some(Told::Unwritten), 298, true),
    (Some(Told::Unsettled), 298, true),
    (Some(Told::Unsettled), 298, false),
];

#[test]
fn text_is_kept_where_no_call_is_done_from_one_on(rt: HostRuntime) {
    for call in 0..6usize {
        let plan = Plan {
            done: call as u64,
            failing: u64::MAX,
            front: 0,
        };
        assert!(rt; outcome(rt.alloc(), plan) == Some(UNDONE[call]), "{call}");
    }
}

/// How much of the call that fails is written.
const FRONTS: [usize; 5] = [0, 1, 35, 36, 106];

/// What is answered where one call fails alone, how long the text is then, and for each front whether it is kept: for each call. The
/// file is cut back, unless the byte is to be written that picks the slot.
const FAILED: [(Told, usize, [bool; 5]); 6] = [
    (Told::Unwritten, 262, [true; 5]),
    (Told::Unwritten, 262, [true; 5]),
    (Told::Unwritten, 262, [true; 5]),
    (Told::Unwritten, 262, [true; 5]),
    (Told::Unsettled, 298, [true, false, false, false, false]),
    (Told::Unsettled, 298, [false; 5]),
];

#[test]
fn text_is_cut_back_where_one_call_fails(rt: HostRuntime) {
    for call in 0..6usize {
        let (told, len, is_kept) = FAILED[call];
        for front in 0..5usize {
            let plan = Plan {
                done: call as u64,
                failing: 1,
                front: FRONTS[front],
            };
            let made = outcome(rt.alloc(), plan);
            assert!(rt;
                made == Some((Some(told), len, is_kept[front])),
                "{call} {front}"
            );
        }
    }
}
