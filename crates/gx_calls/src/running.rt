//! The scripts of a file, each followed anew for each growth that is refused.

use crate::answers::Room;
use crate::desk::Desk;
use crate::notation::{Part, Step};
use gx_devices::{Refusing, ShortNamer};
use gx_object::{Namer, Sha1Namer};
use std::alloc::{AllocError, Global};
use std::hash::RandomState;

/// The place of a step of which something else comes, and the growth that is refused to it; 0 where
/// none is.
#[derive(Clone, Copy)]
pub(crate) struct Wrong {
    pub(crate) place: usize,
    pub(crate) nth: u64,
}

/// What comes of a script.
#[derive(Clone, Copy)]
enum Outcome {
    Done,
    /// A growth was refused, and the call with it.
    Refused,
    Wrong(Wrong),
}

/// Follows each script of a file's steps. What comes otherwise first is told, and put.
pub(crate) fn first_wrong(
    alloc: Global,
    steps: &[Step<'_>],
    state: RandomState,
    got: &mut Vec<u8>,
) -> Result<Option<Wrong>, AllocError> {
    for (place, step) in steps.iter().enumerate() {
        if let Some(wrong) = wrong_of(alloc, steps, (place, step), state, got)? {
            return Ok(Some(wrong));
        }
    }
    Ok(None)
}

/// Follows the script of a title, or that of a tried call once for each of its growths.
fn wrong_of(
    alloc: Global,
    steps: &[Step<'_>],
    (place, step): (usize, &Step<'_>),
    state: RandomState,
    got: &mut Vec<u8>,
) -> Result<Option<Wrong>, AllocError> {
    let (least, most) = match step.part {
        Part::Title => (0, 0),
        Part::Tried(least, most) => (least, most),
        _ => return Ok(None),
    };
    for nth in 1..200u64 {
        match followed(alloc, steps, (place, step), nth, state, got)? {
            Outcome::Refused => {}
            Outcome::Wrong(wrong) => return Ok(Some(wrong)),
            Outcome::Done if least < nth && nth - 1 <= most => return Ok(None),
            Outcome::Done => {
                got.extend_from_slice(b"another number of refused growths")?;
                return Ok(Some(Wrong { place, nth }));
            }
        }
    }
    Ok(None)
}

/// Follows the script of the step at a place, whose call is refused the growth with this number.
/// The answer that comes otherwise is put.
fn followed(
    alloc: Global,
    steps: &[Step<'_>],
    (place, tried): (usize, &Step<'_>),
    nth: u64,
    state: RandomState,
    got: &mut Vec<u8>,
) -> Result<Outcome, AllocError> {
    let heap = Refusing::new(alloc, 0);
    let mut room = Room {
        alloc,
        heap: &heap,
        nth,
        answer: Vec::new(alloc),
    };
    let ways = (tried.script, place);
    let outcome = if tried.has_short_names {
        followed_by(&mut room, ShortNamer, steps, ways, state)?
    } else {
        followed_by(&mut room, Sha1Namer, steps, ways, state)?
    };
    if let Outcome::Wrong(_) = outcome {
        got.extend_from_slice(&room.answer)?;
    }
    Ok(outcome)
}

/// The same, where objects are named so.
fn followed_by<'a, N: Namer + Copy + Drop>(
    room: &mut Room<'a>,
    namer: N,
    steps: &[Step<'_>],
    ways: (usize, usize),
    state: RandomState,
) -> Result<Outcome, AllocError> {
    let mut desk = Desk::new(room.heap, namer, state);
    follow(&mut desk, room, steps, ways)
}

/// Does the steps of a script that are wanted: of the tried calls the one at this place alone.
fn follow<'a, N: Namer + Copy + Drop>(
    desk: &mut Desk<'a, N>,
    room: &mut Room<'a>,
    steps: &[Step<'_>],
    (script, tried): (usize, usize),
) -> Result<Outcome, AllocError> {
    let nth = room.nth;
    let mut is_refused = false;
    let mut is_behind = false;
    for (place, step) in steps.iter().enumerate() {
        if step.is_tried() {
            is_behind = place == tried;
        }
        if step.is_wanted(script, place == tried, is_refused, is_behind) {
            room.nth = if place == tried { nth } else { 0 };
            let was_refused = is_refused_at(desk, room, step)?;
            if !is_answered(room, step, was_refused)? {
                let nth = room.nth;
                return Ok(Outcome::Wrong(Wrong { place, nth }));
            }
            is_refused = is_refused || was_refused;
        }
    }
    Ok(if is_refused {
        Outcome::Refused
    } else {
        Outcome::Done
    })
}

/// Makes the call of a step. Answers whether a growth was refused to it.
fn is_refused_at<'a, N: Namer + Copy + Drop>(
    desk: &mut Desk<'a, N>,
    room: &mut Room<'a>,
    step: &Step<'_>,
) -> Result<bool, AllocError> {
    let mut given = Vec::new(room.alloc);
    step.put_given(&mut given)?;
    room.answer.clear();
    desk.make(room, step.word, &given);
    let is_refused = room.nth > 0 && !room.heap.is_waiting();
    room.heap.arm(0);
    Ok(is_refused)
}

/// Whether a step's call, to which a growth was refused or not, was answered as it is to be.
fn is_answered(room: &Room<'_>, step: &Step<'_>, is_refused: bool) -> Result<bool, AllocError> {
    if is_refused {
        return Ok(room.answer.as_slice() == b"OutOfMemory".as_slice());
    }
    let mut wanted = Vec::new(room.alloc);
    step.put_answer(&mut wanted)?;
    Ok(room.answer.as_slice() == wanted.as_slice())
}
