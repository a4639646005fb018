//! What files of marks tell, and what is written of marks.

use gx_marks::{Mark, MarksFault, read_marks, write_marks};
use gx_object::Name;
use gx_text::{Growing, Held};
use std::alloc::Global;

/// What `git fast-import --export-marks` wrote for the blobs `hi` and `ho`.
const WRITTEN: &[u8] = b":1 45b983be36b73c0788dc9cbcb76cbb80fc7bb057
:18 ab4a98190cf776b43cb0fe57cef231fb93fd07e6
";

const HI: &[u8] = b"45b983be36b73c0788dc9cbcb76cbb80fc7bb057";

const HO: &[u8] = b"ab4a98190cf776b43cb0fe57cef231fb93fd07e6";

fn is(mark: Mark, number: u64, digits: &[u8]) -> bool {
    mark.number == number && Some(mark.name) == Name::read(digits)
}

/// Whether a text tells just these marks.
fn tells(alloc: Global, text: &[u8], wanted: &[(u64, &[u8])]) -> bool {
    let Ok(marks) = read_marks(alloc, text) else {
        return false;
    };
    for (mark, (number, digits)) in marks.iter().zip(wanted) {
        if !is(*mark, *number, digits) {
            return false;
        }
    }
    marks.len() == wanted.len()
}

/// Whether this line is the first that tells no mark.
fn is_bad_at(alloc: Global, text: &[u8], line: usize) -> bool {
    match read_marks(alloc, text) {
        Ok(_) => false,
        Err(fault) => fault == MarksFault::BadLine(line),
    }
}

#[test]
fn lines_tell_marks_in_their_order(rt: HostRuntime) {
    let alloc = rt.alloc();
    assert!(rt; tells(alloc, b"", &[]));
    assert!(rt; tells(alloc, WRITTEN, &[(1, HI), (18, HO)]));
    assert!(rt;
        tells(
            alloc,
            b":2 AB4A98190CF776B43CB0FE57CEF231FB93FD07E6\r\n:01 45b983be36b73c0788dc9cbcb76cbb80fc7bb057\n",
            &[(2, HO), (1, HI)],
        )
    );
    assert!(rt;
        tells(
            alloc,
            b":1 45b983be36b73c0788dc9cbcb76cbb80fc7bb057\n:1 ab4a98190cf776b43cb0fe57cef231fb93fd07e6\n",
            &[(1, HI), (1, HO)],
        )
    );
}

#[test]
fn first_bad_line_is_told(rt: HostRuntime) {
    let alloc = rt.alloc();
    assert!(rt; is_bad_at(alloc, b"\n", 1));
    assert!(rt; is_bad_at(alloc, &WRITTEN[..WRITTEN.len() - 1], 2));
    assert!(rt; is_bad_at(alloc, b":0 45b983be36b73c0788dc9cbcb76cbb80fc7bb057\n", 1));
    assert!(rt;
        is_bad_at(
            alloc,
            b":1 45b983be36b73c0788dc9cbcb76cbb80fc7bb057\n\n:1 ab4a98190cf776b43cb0fe57cef231fb93fd07e6\n",
            2,
        )
    );
    assert!(rt; is_bad_at(alloc, b":1 45b983be36b73c0788dc9cbcb76cbb80fc7bb0577\n", 1));
}

/// Whether the marks of this text are written as it.
fn comes_back(alloc: Global, text: &[u8]) -> bool {
    let Ok(marks) = read_marks(alloc, text) else {
        return false;
    };
    let mut sink = Growing::new(alloc);
    write_marks(&marks, &mut sink).is_ok() && sink.into_bytes().as_slice() == text
}

/// Whether a sink with this room fails for the marks of this text, and has taken a front of it.
fn is_cut_at(alloc: Global, text: &[u8], room: usize) -> bool {
    let Ok(marks) = read_marks(alloc, text) else {
        return false;
    };
    let Ok(mut sink) = Held::new(alloc, room) else {
        return false;
    };
    write_marks(&marks, &mut sink).is_err() && text.get(..room) == Some(sink.bytes())
}

#[test]
fn marks_are_written_as_git_writes_them(rt: HostRuntime) {
    assert!(rt; comes_back(rt.alloc(), WRITTEN));
}

#[test]
fn sink_that_fails_has_a_front(rt: HostRuntime) {
    assert!(rt; is_cut_at(rt.alloc(), WRITTEN, 50));
}
