//! What a handle holds goes to a call, and back.

ghost use Rattle.std.specs.Prelude.{◌≡◌, Some, true};
ghost use Rattle.gx_c.specs.Answers.{status_of};
ghost use Rattle.gx_c.specs.Calls.{Closes, Takes};

use crate::held::{keep, none, take};
use crate::opened::Opened;
use crate::store::Store;
use std::alloc::Global;
use std::mem::replace;

/// Takes what a handle holds, and leaves it closed; nothing of one that isn't open.
#[tactic(auto, using(crate::proofs::Handles::of_closed, crate::proofs::Handles::of_open))]
pub(crate) fn taken(alloc: Global, store: &mut Store) -> Option<Box<Opened>>
    ensures { Takes store.old store.new result }
{
    if !store.is_open {
        return None;
    }
    let was = replace(store, closed());
    Some(take(alloc, was.held))
}

/// A handle that isn't open.
pub(crate) fn closed() -> Store
    ensures { Closes result }
{
    Store {
        is_open: false,
        held: none(),
    }
}

/// Has a handle hold this, and answers the status of its last call.
pub(crate) fn put_back(store: &mut Store, opened: Box<Opened>) -> u32
    ensures open { store.new.is_open ≡ true }
    ensures held { store.new.held.value ≡ Some opened.value }
    ensures status { result ≡ status_of opened.value.answer.why }
{
    let status = opened.answer.why.status();
    *store = Store {
        is_open: true,
        held: keep(opened),
    };
    status
}
