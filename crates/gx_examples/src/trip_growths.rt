//! Trips of which each growth is refused in turn.

use crate::texts::text;
use crate::trips::{Made, have_same_refs, tripped};
use gx_cli::{CliFault, ExportForm, Reply};
use gx_devices::Refusing;
use gx_import::ImportKind;
use gx_text::Held;
use std::alloc::{Allocator, Global};
use std::hash::RandomState;
use std::test::Fail;

#[test]
fn each_refused_growth_of_a_trip_is_out_of_memory(rt: HostRuntime) -> Result<(), Fail> {
    let state = RandomState::new(&rt)?;
    for form in [ExportForm::FullTree, ExportForm::Changes { done: true }] {
        assert!(rt; refused_growths(rt.alloc(), form, state) >= 100);
    }
    Ok(())
}

/// How many growths are refused before a trip succeeds; none where one is answered otherwise.
fn refused_growths(alloc: Global, form: ExportForm, state: RandomState) -> u64 {
    for nth in 1..3000u64 {
        match is_refused_at(alloc, nth, form, state) {
            Some(true) => {}
            Some(false) => return nth - 1,
            None => return 0,
        }
    }
    0
}

/// Whether a trip, or its file alone, is refused for want of memory of which this growth is to be refused; none where it is
/// answered otherwise.
fn is_refused_at(alloc: Global, nth: u64, form: ExportForm, state: RandomState) -> Option<bool> {
    let heap = Refusing::new(alloc, 0);
    match Held::new(&heap, 64) {
        Ok(mut sink) => is_trip_refused(&heap, &mut sink, nth, form, state),
        Err(_) => None,
    }
}

/// The same, with a sink for what it prints.
fn is_trip_refused<'a, B: Allocator>(
    heap: &'a Refusing<B>,
    sink: &mut Held<&'a Refusing<B>>,
    nth: u64,
    form: ExportForm,
    state: RandomState,
) -> Option<bool> {
    heap.arm(nth);
    let tripped = tripped(heap, text("two branches"), "a f", form, sink, state);
    let is_waiting = heap.is_waiting();
    heap.arm(0);
    match &tripped {
        Some(tripped) => is_refused(tripped, is_waiting),
        None if is_waiting => None,
        None => Some(true),
    }
}

/// Whether a trip, or a part of its reply alone, is refused for want of memory; none where it is answered otherwise. One that
/// succeeds, at which a growth is still waited for, has its reply, and the same refs twice.
fn is_refused<A: Allocator + Copy>(tripped: &Made<A>, is_waiting: bool) -> Option<bool> {
    let is_right = match &tripped.trip {
        Ok(trip) => match &trip.reply {
            Some(reply) if is_waiting => {
                is_whole_reply(reply) && have_same_refs(&tripped.first, &trip.again)
            }
            Some(reply) => lacks_memory(reply),
            None => false,
        },
        Err(CliFault::OutOfMemory) => !is_waiting,
        Err(CliFault::Import(fault)) => !is_waiting && fault.kind == ImportKind::OutOfMemory,
        Err(_) => false,
    };
    if is_right { Some(!is_waiting) } else { None }
}

/// Whether each part of a question is answered.
fn is_whole_reply<A: Allocator + Copy>(reply: &Reply<A>) -> bool {
    matches!(reply.file, Ok(_)) && matches!(reply.commit, Ok(_)) && matches!(reply.listed, Ok(_))
}

/// Whether memory ran out for a part of a question.
fn lacks_memory<A: Allocator + Copy>(reply: &Reply<A>) -> bool {
    matches!(reply.file, Err(CliFault::OutOfMemory))
        || matches!(reply.commit, Err(CliFault::OutOfMemory))
        || matches!(reply.listed, Err(CliFault::OutOfMemory))
}
