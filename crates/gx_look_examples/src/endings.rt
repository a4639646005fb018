//! How growing texts end, as who appends to them has to know.

use crate::damaged::two_with;
use crate::looks::look_into;
use crate::texts::EMPTY;
use gx_growing_parts::Run;
use std::alloc::Global;

/// The run of the first of two segments.
const FIRST: Run = Run {
    place: 402,
    count: 3,
    digest: *b"\x35\x54\xf6\xdf\x20\x9e\x80\x48\x06\x70\x67\xb1\x5c\xa1\xd0\x35\
\xe4\x96\xf5\xcb\xdf\xe3\x3d\x8d\x12\x2b\x99\x05\x31\xd0\x81\x51",
};

/// The run of the second.
const SECOND: Run = Run {
    place: 789,
    count: 2,
    digest: *b"\xea\x57\x31\x4c\x49\x92\x98\x10\xe1\xab\xfe\xbe\x2b\x6e\xe8\x48\
\xab\xd7\x76\x98\xa4\xb4\x74\x98\x2b\xc4\x9b\xde\x6d\x7e\x23\xb5",
};

fn is_run(run: &Run, told: &Run) -> bool {
    run.place == told.place && run.count == told.count && run.digest == told.digest
}

/// Whether these are the live runs, and no other.
fn are_runs(runs: &[Run], told: &[Run]) -> bool {
    for (run, told) in runs.iter().zip(told) {
        if !is_run(run, told) {
            return false;
        }
    }
    runs.len() == told.len()
}

/// Whether a text picks its first slot, or its second, has so many bytes up to its end, and these live runs.
fn ends_so(alloc: Global, text: &[u8], is_first: bool, ends: u64, runs: &[Run]) -> bool {
    let Ok(look) = look_into(alloc, text, 1_000) else {
        return false;
    };
    let ending = look.ending();
    ending.is_first == is_first && ending.ends == ends && are_runs(ending.runs, runs)
}

#[test]
fn empty_text_ends_with_its_tail(rt: HostRuntime) {
    assert!(rt; ends_so(rt.alloc(), EMPTY, true, 262, &[]));
}

/// Bytes that pick a slot of two segments: whether it is the first, where the text ends then, and its live runs, whatever stands
/// behind.
const PICKED: [(&[u8], bool, u64, &[Run]); 2] = [
    (b"a", true, 665, &[FIRST]),
    (b"b", false, 1_215, &[FIRST, SECOND]),
];

#[test]
fn texts_of_segments_end_with_the_slot_that_is_picked(rt: HostRuntime) {
    for (byte, is_first, ends, runs) in PICKED {
        let Some(text) = two_with(rt.alloc(), 10, byte) else {
            return assert!(rt; false);
        };
        assert!(rt; ends_so(rt.alloc(), text.as_slice(), is_first, ends, runs));
    }
}
