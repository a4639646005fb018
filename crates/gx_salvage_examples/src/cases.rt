//! Each object of a history in turn can't be read.

use crate::histories::{ROWS, history};
use crate::holed::{ANSWERS, Holed};
use crate::reaching::{all_reached, followed, is_bad};
use crate::salvaged::{all_saved, is_told, salvaged};
use gx_object::Sha1Namer;
use gx_objects::LookFault;
use gx_reached::{Cause, Damage};
use gx_repo::Repo;
use std::alloc::Global;
use std::hash::RandomState;

/// Whether the object at a place is bad as its row says where so much is answered of it, and whether refs are lost and saved so.
fn is_case(
    alloc: Global,
    repo: &Repo<Sha1Namer, Global>,
    place: usize,
    answer: (Option<LookFault>, Cause),
    state: RandomState,
) -> Option<(bool, bool)> {
    let row = ROWS.get(place)?;
    let holed = Holed::at(repo, place, answer.0)?;
    let damage = Damage {
        object: holed.hole,
        cause: answer.1,
    };
    let is_bad = is_bad(alloc, &holed, row, &damage)?;
    let saved = salvaged(alloc, &holed, state)?;
    Some((is_bad, is_told(alloc, &saved, row, &damage)?))
}

#[test]
fn what_reaches_an_object_that_is_not_read_is_lost_by_it(rt: HostRuntime) {
    let Ok(state) = RandomState::new(&rt) else {
        return assert!(rt; false);
    };
    let Some(repo) = history(rt.alloc(), state) else {
        return assert!(rt; false);
    };
    for place in 0..ROWS.len() {
        for answer in ANSWERS {
            let case = is_case(rt.alloc(), &repo, place, answer, state);
            assert!(rt; case == Some((true, true)), "{place}");
        }
    }
}

/// Whether all is reached and saved where the one object is missing that no ref reaches.
fn is_whole(alloc: Global, state: RandomState) -> Option<(bool, bool)> {
    let repo = history(alloc, state)?;
    let holed = Holed::at(&repo, 12, None)?;
    let saved = salvaged(alloc, &holed, state)?;
    Some((all_reached(alloc, &holed)?, all_saved(&saved)))
}

#[test]
fn history_that_can_be_read_is_reached_and_saved_in_its_order(rt: HostRuntime) {
    match RandomState::new(&rt) {
        Ok(state) => assert!(rt; is_whole(rt.alloc(), state) == Some((true, true))),
        Err(_) => assert!(rt; false),
    }
}

/// Whether want of memory at the object at a place ends what follows refs, and what salvages them.
fn wants_memory(
    alloc: Global,
    repo: &Repo<Sha1Namer, Global>,
    place: usize,
    state: RandomState,
) -> Option<(bool, bool)> {
    let holed = Holed::at(repo, place, Some(LookFault::OutOfMemory))?;
    let ends = followed(alloc, &holed).is_none();
    Some((ends, salvaged(alloc, &holed, state).is_none()))
}

#[test]
fn want_of_memory_is_no_damage(rt: HostRuntime) {
    let Ok(state) = RandomState::new(&rt) else {
        return assert!(rt; false);
    };
    let Some(repo) = history(rt.alloc(), state) else {
        return assert!(rt; false);
    };
    for place in 0..12 {
        let wants = wants_memory(rt.alloc(), &repo, place, state);
        assert!(rt; wants == Some((ROWS[place].bad.1, true)), "{place}");
    }
}
