//! Objects that are appended, and what is read of the text then.

use crate::growing::{
    add_blobs, append_blobs, append_grown, append_to, committed, count_runs, disk_with, hold,
    is_read_as, is_read_back, repository,
};
use crate::told::{Outcome, Told, answered};
use gx_additions::append_objects;
use gx_disk::{Disk, Plan};
use gx_growing_parts::{Ending, Run};
use gx_object::Sha1Namer;
use gx_repo::Repo;
use std::alloc::Global;
use std::hash::RandomState;

/// What is appended: blobs from a number to another, and a ref that holds the commit; and how many live runs the text has then, and
/// how many bytes.
#[derive(Drop)]
struct Step {
    blobs: (u8, u8),
    name: &'static [u8],
    runs: usize,
    len: usize,
}

/// To the text of the commit: eighteen blobs, one, two, none, and ten.
const STEPS: [Step; 5] = [
    Step {
        blobs: (0, 18),
        name: b"refs/heads/main",
        runs: 1,
        len: 2_337,
    },
    Step {
        blobs: (18, 19),
        name: b"refs/heads/main",
        runs: 2,
        len: 2_685,
    },
    Step {
        blobs: (19, 21),
        name: b"refs/heads/main",
        runs: 2,
        len: 3_139,
    },
    Step {
        blobs: (21, 21),
        name: b"refs/heads/next",
        runs: 2,
        len: 3_434,
    },
    Step {
        blobs: (21, 31),
        name: b"refs/heads/next",
        runs: 1,
        len: 5_115,
    },
];

/// Does a step, and answers how many live runs the text has then, and how many bytes, if all is read back.
fn grown_by(
    alloc: Global,
    disk: &mut Disk<Global>,
    repo: &mut Repo<Sha1Namer, Global>,
    step: &Step,
    state: RandomState,
) -> Option<(usize, usize)> {
    let held = repo.store().len();
    add_blobs(repo, step.blobs.0, step.blobs.1)?;
    hold(repo, step.name)?;
    if append_to(alloc, disk, repo, held)? != Told::Appended {
        return None;
    }
    let text = disk.text();
    if is_read_back(alloc, text, repo, state)? {
        Some((count_runs(alloc, text)?, text.len()))
    } else {
        None
    }
}

/// How many steps leave the text as they say, up to the first that doesn't.
fn right_steps(alloc: Global, state: RandomState) -> Option<usize> {
    let mut repo = repository(alloc, false, state)?;
    let mut disk = disk_with(alloc, &repo, Plan::NONE)?;
    for (number, step) in STEPS.iter().enumerate() {
        let grown = grown_by(alloc, &mut disk, &mut repo, step, state);
        if grown != Some((step.runs, step.len)) {
            return Some(number);
        }
    }
    Some(STEPS.len())
}

#[test]
fn runs_of_few_rows_are_taken_in(rt: HostRuntime) {
    let Ok(state) = RandomState::new(&rt) else {
        return assert!(rt; false);
    };
    assert!(rt; right_steps(rt.alloc(), state) == Some(STEPS.len()));
}

/// How much of the call that fails is written.
const FRONTS: [usize; 4] = [0, 1, 100, 1_000];

/// What is answered where one call fails, how long the text is then, and for each front whether it is read as what has grown: for each
/// call.
const FAILED: [(Told, usize, [bool; 4]); 6] = [
    (Told::Unwritten, 677, [false; 4]),
    (Told::Unwritten, 677, [false; 4]),
    (Told::Unwritten, 677, [false; 4]),
    (Told::Unwritten, 677, [false; 4]),
    (Told::Unsettled, 1_220, [false, true, true, true]),
    (Told::Unsettled, 1_220, [true; 4]),
];

/// What is answered where calls fail as a plan says, how long the text is then, and whether it is read as it is to be.
fn outcome(alloc: Global, plan: Plan, has_grown: bool, state: RandomState) -> Option<Outcome> {
    let mut disk = committed(alloc, plan, state)?;
    let told = append_grown(alloc, &mut disk, state);
    let text = disk.text();
    Some((told, text.len(), is_read_as(alloc, text, has_grown, state)))
}

#[test]
fn text_is_the_one_before_or_after_where_one_call_fails(rt: HostRuntime) {
    let Ok(state) = RandomState::new(&rt) else {
        return assert!(rt; false);
    };
    for call in 0..6usize {
        let (told, len, has_grown) = FAILED[call];
        for front in 0..4usize {
            let plan = Plan {
                done: call as u64,
                failing: 1,
                front: FRONTS[front],
            };
            let made = outcome(rt.alloc(), plan, has_grown[front], state);
            assert!(rt; made == Some((Some(told), len, true)), "{call} {front}");
        }
    }
}

/// What is answered where a store of new objects is appended, how long the text is then, and whether it is read as what has grown.
fn outcome_of_store(alloc: Global, state: RandomState) -> Option<Outcome> {
    let mut disk = committed(alloc, Plan::NONE, state)?;
    let told = append_blobs(alloc, &mut disk, state);
    let text = disk.text();
    Some((told, text.len(), is_read_as(alloc, text, true, state)))
}

#[test]
fn store_of_new_objects_is_appended(rt: HostRuntime) {
    let Ok(state) = RandomState::new(&rt) else {
        return assert!(rt; false);
    };
    let made = outcome_of_store(rt.alloc(), state);
    assert!(rt; made == Some((Some(Told::Appended), 1_220, true)));
}

/// What is answered where the text of a disk is said to have such a live run.
fn with_run(
    alloc: Global,
    disk: &mut Disk<Global>,
    place: u64,
    count: u64,
    state: RandomState,
) -> Option<Told> {
    let repo = repository(alloc, true, state)?;
    let run = Run {
        place,
        count,
        digest: [0; 32],
    };
    let ending = Ending {
        is_first: true,
        ends: 677,
        runs: &[run],
    };
    Some(answered(append_objects(alloc, disk, ending, &repo, 2)))
}

/// What is answered where the text of the commit is said to have such a live run, and how many calls were made.
fn calls_with_run(
    alloc: Global,
    place: u64,
    count: u64,
    state: RandomState,
) -> Option<(Option<Told>, usize)> {
    let mut disk = committed(alloc, Plan::NONE, state)?;
    let told = with_run(alloc, &mut disk, place, count, state);
    Some((told, disk.calls().len()))
}

/// Live runs, and what is answered: those that end behind the text can't be read, and too long ones aren't.
const RUNS: [(u64, u64, Told, usize); 3] = [
    (100_000, 2, Told::ReadFailed, 0),
    (u64::MAX, 1, Told::ReadFailed, 0),
    (0, u64::MAX, Told::Appended, 6),
];

#[test]
fn run_behind_the_end_is_not_read(rt: HostRuntime) {
    let Ok(state) = RandomState::new(&rt) else {
        return assert!(rt; false);
    };
    for (place, count, told, calls) in RUNS {
        let made = calls_with_run(rt.alloc(), place, count, state);
        assert!(rt; made == Some((Some(told), calls)), "{place}");
    }
}
