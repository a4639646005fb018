use super::*;
use gx_devices::Allowed;
use std::alloc::Global;
use std::cell::Cell;

/// Whether these items are read of a text in pieces of 7 bytes, of which the pull behind so many fails, and then the failure alone.
fn is_failure_kept(alloc: Global, text: &[u8], pulls: u64, items: &[u8]) -> bool {
    let pulls = Cell::new(pulls);
    let source = Allowed {
        bytes: Bytes::new(text, 7, false),
        pulls: &pulls,
    };
    let mut reader = ItemReader::new(alloc, source);
    told(&mut reader, items) == Some((Some(StreamFault::ReadFailed), true))
}

#[test]
fn failed_read_is_no_end(rt: HostRuntime) {
    let heap = Heap::new(rt.alloc(), 0);
    for count in 0..MIXED.len() {
        let told = told_of(&heap, &MIXED[..count], 7, true, MIXED_ITEMS);
        assert!(rt;
            matches!(told, Some((Some(StreamFault::ReadFailed), _))),
            "{count}"
        );
    }
    let alloc = rt.alloc();
    assert!(rt; is_failure_kept(alloc, b"blob\ndata 3\na\nb\n", 3, b"[blob]<a\nb>"));
    assert!(rt; is_failure_kept(alloc, b"blob\ndata 3\nabcblob\n", 2, b"[blob]"));
    assert!(rt; is_failure_kept(alloc, b"progress a\nprogress b\n", 2, b"[progress a]"));
    assert!(rt; is_failure_kept(alloc, b"progress a\n", 0, b""));
}

/// How many growths are refused, one after the other, until the mixed stream is read; none where another answer came.
fn refused_growths(heap: &Heap) -> Option<u64> {
    for nth in 1..100u64 {
        heap.arm(nth);
        let (end, is_whole) = told_of(heap, MIXED, 5, false, MIXED_ITEMS)?;
        if heap.is_waiting() {
            return (is_whole && end.is_none()).then_some(nth - 1);
        }
        if end != Some(StreamFault::OutOfMemory) {
            return None;
        }
    }
    None
}

#[test]
fn refused_growth_is_out_of_memory(rt: HostRuntime) {
    let heap = Heap::new(rt.alloc(), 0);
    assert!(rt; refused_growths(&heap).unwrap_or(0) > 1);
}
