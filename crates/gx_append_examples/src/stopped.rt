//! What a stop of the machine leaves while a segment is appended: what is read as before, or as after.

use crate::appended::{append_nothing, empty};
use crate::growing::{append_grown, committed, is_read_as};
use crate::texts::{EMPTY, TWICE};
use crate::told::Told;
use gx_disk::{Disk, Fate, Plan};
use std::alloc::Global;
use std::hash::RandomState;

/// What a stop leaves after so many of six calls, which have these two fates in turn.
fn left(
    alloc: Global,
    disk: &Disk<Global>,
    calls: usize,
    even: Fate,
    odd: Fate,
) -> Option<Vec<u8>> {
    let fates = [even, odd, even, odd, even, odd];
    disk.stopped(alloc, fates.get(..calls)?).ok()
}

/// Whether the slot that is picked is that of the first text, and its bytes stand up to its end, or those of the second.
fn is_before_or_after(text: &[u8]) -> bool {
    if text.get(10) == Some(&b'a') {
        return text.get(12..118) == EMPTY.get(12..118) && text.get(226..262) == EMPTY.get(226..);
    }
    text.get(119..225) == TWICE.get(119..225) && text.get(226..298) == TWICE.get(226..)
}

/// A fate by its number, below 512: writes that are lost, done, cut off, or spoiled in the front or by any first byte.
fn fate(number: usize) -> Fate {
    match number {
        0 => Fate::Lost,
        1 => Fate::Done,
        2..128 => Fate::Front(number - 2),
        128..256 => Fate::Spoiled {
            count: number - 128,
            byte: 0,
        },
        _ => Fate::Spoiled {
            count: 1,
            byte: (number % 256) as u8,
        },
    }
}

/// Whether a stop leaves the text before or the one after.
fn is_right(alloc: Global, disk: &Disk<Global>, calls: usize, even: usize, odd: usize) -> bool {
    match left(alloc, disk, calls, fate(even), fate(odd)) {
        Some(left) => is_before_or_after(left.as_slice()),
        None => false,
    }
}

#[test]
fn stop_leaves_the_text_before_or_after(rt: HostRuntime) {
    let Some(mut disk) = empty(rt.alloc(), Plan::NONE) else {
        return assert!(rt; false);
    };
    assert!(rt; append_nothing(rt.alloc(), &mut disk) == Some(Told::Appended));
    for calls in 0..7 {
        for number in 0..512 {
            for other in [0, 1, 20, 60, 150, 300] {
                assert!(rt; is_right(rt.alloc(), &disk, calls, number, other));
                assert!(rt; is_right(rt.alloc(), &disk, calls, other, number));
            }
        }
    }
}

/// Whether a stop leaves what is read as the commit, or as what it has grown to.
fn is_either(
    alloc: Global,
    disk: &Disk<Global>,
    calls: usize,
    fates: (Fate, Fate),
    state: RandomState,
) -> bool {
    match left(alloc, disk, calls, fates.0, fates.1) {
        Some(left) => {
            let left = left.as_slice();
            is_read_as(alloc, left, false, state) || is_read_as(alloc, left, true, state)
        }
        None => false,
    }
}

/// What becomes of a write.
const FATES: [Fate; 5] = [
    Fate::Lost,
    Fate::Done,
    Fate::Front(1),
    Fate::Front(200),
    Fate::Spoiled {
        count: 60,
        byte: b'1',
    },
];

#[test]
fn stop_leaves_the_repository_before_or_after(rt: HostRuntime) {
    let Ok(state) = RandomState::new(&rt) else {
        return assert!(rt; false);
    };
    let Some(mut disk) = committed(rt.alloc(), Plan::NONE, state) else {
        return assert!(rt; false);
    };
    assert!(rt; append_grown(rt.alloc(), &mut disk, state) == Some(Told::Appended));
    for even in FATES {
        for odd in FATES {
            for calls in 0..7 {
                assert!(rt; is_either(rt.alloc(), &disk, calls, (even, odd), state));
            }
        }
    }
}
