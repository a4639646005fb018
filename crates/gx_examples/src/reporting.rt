//! Imports that report the refs that they change, of which each growth is refused in turn.

use crate::texts::text;
use gx_cli::{CliFault, Explanation, Features, import_store_reporting};
use gx_devices::Refusing;
use gx_file::FileFault;
use gx_import::ImportKind;
use gx_object::Sha1Namer;
use gx_text::{Bytes, Held};
use std::alloc::{Allocator, Global};
use std::hash::RandomState;

/// Whether an import into a store, with its report, is refused for want of memory, of which this growth is to be refused; none where
/// it is answered otherwise. The store's text is there before, and so is the sink, where the growths are counted.
fn is_refused_at<'a, B: Allocator>(
    heap: &'a Refusing<B>,
    nth: u64,
    state: RandomState,
) -> Option<bool> {
    let store = Vec::from_slice(heap, text("first")).ok()?;
    let mut sink = Held::new(heap, 64).ok()?;
    let source = Bytes::new(text("tagged"), 7, false);
    let none = Features::none();
    heap.arm(nth);
    let (left, report) = import_store_reporting(
        heap,
        Sha1Namer,
        store,
        source,
        &mut sink,
        none,
        state,
        &mut Explanation::none(),
    );
    heap.arm(0);
    is_refused(left.is_some(), report.err())
}

/// Whether a fault refuses an import that leaves something or nothing; none where it can't.
fn is_refused(is_left: bool, fault: Option<CliFault>) -> Option<bool> {
    match fault {
        None if is_left => Some(false),
        Some(fault) if !is_left && is_memory(fault) => Some(true),
        _ => None,
    }
}

/// Whether memory ran out, in the import or beside it.
fn is_memory(fault: CliFault) -> bool {
    match fault {
        CliFault::OutOfMemory => true,
        CliFault::Import(fault) => fault.kind == ImportKind::OutOfMemory,
        CliFault::Store(fault) => fault == FileFault::OutOfMemory,
        _ => false,
    }
}

/// How many growths are refused before an import succeeds; none where one is answered otherwise.
fn refused_growths(alloc: Global, state: RandomState) -> u64 {
    for nth in 1..200u64 {
        let heap = Refusing::new(alloc, 0);
        match is_refused_at(&heap, nth, state) {
            Some(true) => {}
            Some(false) => return nth - 1,
            None => return 0,
        }
    }
    0
}

#[test]
fn refused_growth_of_a_report_leaves_nothing(rt: HostRuntime) {
    match RandomState::new(&rt) {
        Ok(state) => assert!(rt; refused_growths(rt.alloc(), state) > 20),
        Err(_) => assert!(rt; false),
    }
}
