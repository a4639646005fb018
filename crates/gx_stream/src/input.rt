//! What came from a source, and the items in it.

ghost use Rattle.std.specs.Prelude.{◌≡◌, ◌<◌, ◌≤◌, ◌+◌, ◌-◌, ◌^◌, length, take, drop, true, None, IsTrue, IfOk, OnOk, OnErr};
ghost use Rattle.std.specs.Vec.{vec_capacity};
ghost use Rattle.gx_stream.specs.Input.{IsSound, FitsState, IsLonger, IsFoundWithin, FindsNext, GivesBlock, Looks, is_whole, Takes, KeepsInput, KeepsRest, KeepsStream, IsRefused, LeavesFewer, answer_at, is_full, shown_input, shown_over, shown_stream, text_of, pulls_left, state_of};
ghost use Rattle.gx_stream.specs.Places.{IsWithin, bytes_at};
ghost use Rattle.gx_stream.specs.Reading.{AnswersAs};
ghost use Rattle.gx_stream.specs.declared.input.State.TheVariants.{Open};

use crate::fault::StreamFault;
use crate::places::{Found, Place, Scan, find_item};
use crate::pulls::{SourceState, pull_piece};
use gx_text::{PIECE, Source};
use std::alloc::{AllocError, Allocator};
use std::mem;

/// From this length on a block is given away with the memory that it stands in. A shorter one is copied: new memory would
/// cost more than that.
const LARGE: usize = 1 << 20;

/// What is known of the text: more of it may come, or it came whole and may fail at its end, or the last answer was given:
/// the end, or a fault.
#[derive(Clone, Copy, Drop)]
pub(crate) enum State {
    Open,
    Ended(bool),
    Over(Option<StreamFault>),
}

/// What came from a source: the first `came` bytes of the text. Those from `at` on aren't read yet, and at most `room` may
/// still come. Behind them is room for a piece, which a pull writes to. It is cleared once.
#[derive(Drop)]
pub(crate) struct Input<R: Source, A: Allocator> {
    pub(crate) source: R,
    pub(crate) text: Vec<u8, A>,
    pub(crate) came: usize,
    pub(crate) at: usize,
    pub(crate) scan: Scan,
    pub(crate) room: usize,
    pub(crate) state: State,
}

impl<R: Source, A: Allocator + Copy> Input<R, A> {
    /// Takes the next item and answers where it stands in the text, or takes the end or a fault.
    pub(crate) fn take_next(&mut self) -> Found
        requires { IsSound self.old }
        ensures sound { IsSound self.new }
        ensures within { IsFoundWithin (text_of self.new) result }
        ensures answers { AnswersAs
            (shown_input self.old (R.coming self.old.source))
            (shown_input self.new (R.coming self.new.source))
            (answer_at (text_of self.new) result) }
    {
        let Ok(found) = self.find_next() else {
            self.state = State::Over(Some(StreamFault::OutOfMemory));
            return Found::End(Some(StreamFault::OutOfMemory));
        };
        take(&mut self.at, &mut self.state, found);
        self.scan = Scan::from_line(self.at);
        found
    }

    /// Takes the next item where it is a block, and gives that away. Whatever else comes next stays. Where there is no memory,
    /// nothing more comes, and what stands here is let go.
    pub(crate) fn take_block(&mut self) -> Result<Option<Vec<u8, A>>, StreamFault>
        requires { IsSound self.old }
        ensures sound { IsSound self.new }
        ensures gives { GivesBlock
            (shown_input self.old (R.coming self.old.source))
            (shown_input self.new (R.coming self.new.source))
            result }
    {
        let Ok(found) = self.find_next() else {
            self.refuse();
            return Err(StreamFault::OutOfMemory);
        };
        let Found::Data(place) = found else {
            return Ok(None);
        };
        self.at = place.next;
        self.scan = Scan::from_line(self.at);
        let Ok(bytes) = self.part_with(place) else {
            self.refuse();
            return Err(StreamFault::OutOfMemory);
        };
        Ok(Some(bytes))
    }

    /// Where the next item stands, which stays, or how the items end.
    /// More bytes are pulled only where no whole item is left.
    fn find_next(&mut self) -> Result<Found, AllocError>
        requires { IsSound self.old }
        ensures sound { IsSound self.new }
        ensures keeps { OnOk result (KeepsInput R.coming self.old self.new) }
        ensures found { IfOk result (λ found. FindsNext self.new found) }
        ensures refused { OnErr result
            ((shown_over self.old.state ≡ None) × (is_full self.new ≡ true)) }
    {
        loop {
            let came = &self.text[..self.came];
            let found = look(came, &mut self.at, &mut self.scan, self.state);
            if is_whole(self.state, found) {
                return Ok(found);
            }
            self.pull_wanted()?;
        }
    }

    /// A copy of a block, or for a large one the memory that it stands in. What isn't read yet stays, in new memory then.
    fn part_with(&mut self, place: Place) -> Result<Vec<u8, A>, AllocError>
        requires sound { IsSound self.old }
        requires within { IsWithin (text_of self.old) place }
        ensures bytes { IfOk result (λ bytes. bytes.items ≡ bytes_at (text_of self.old) place) }
        ensures sound { OnOk result (IsSound self.new) }
        ensures keeps { OnOk result (KeepsRest R.coming self.old self.new) }
        ensures room { self.new.room ≡ self.old.room }
    {
        let alloc = *self.text.allocator();
        let came = &self.text[..self.came];
        if place.end - place.start < LARGE {
            return Vec::from_slice(alloc, &came[place.start..place.end]);
        }
        let rest = Vec::from_slice(alloc, &came[self.at..])?;
        self.came = rest.len();
        self.at = 0;
        self.scan = Scan::from_line(0);
        let mut bytes = mem::replace(&mut self.text, rest);
        cut_to(&mut bytes, place);
        Ok(bytes)
    }

    /// Is over for want of memory, and lets go of what it has.
    fn refuse(&mut self)
        requires { self.old.room ≤ 2 ^ 63 - 1 }
        ensures sound { IsSound self.new }
        ensures refused { IsRefused self.new }
    {
        self.text = Vec::new(*self.text.allocator());
        self.came = 0;
        self.at = 0;
        self.scan = Scan::from_line(0);
        self.state = State::Over(Some(StreamFault::OutOfMemory));
    }

    /// Pulls one piece, and more of them while a block is known to have more bytes than came.
    fn pull_wanted(&mut self) -> Result<(), AllocError>
        requires sound { IsSound self.old }
        requires open { self.old.state ≡ Open }
        ensures sound { IsSound self.new }
        ensures keeps { OnOk result (KeepsInput R.coming self.old self.new) }
        ensures fewer { OnOk result (LeavesFewer self.old self.new) }
        ensures refused { OnErr result (is_full self.new ≡ true) }
    {
        self.pull()?;
        while is_open(self.state) && self.came <= self.scan.wanted {
            self.pull()?;
        }
        Ok(())
    }

    /// Pulls one piece, behind what isn't read yet.
    fn pull(&mut self) -> Result<(), AllocError>
        requires sound { IsSound self.old }
        requires open { self.old.state ≡ Open }
        ensures sound { IsSound self.new }
        ensures keeps { OnOk result (KeepsInput R.coming self.old self.new) }
        ensures fewer { OnOk result (LeavesFewer self.old self.new) }
        ensures refused { OnErr result (is_full self.new ≡ true) }
        ensures unpulled { OnErr result (self.new.source ≡ self.old.source) }
    {
        remove_front(&mut self.text, &mut self.came, self.at);
        self.scan = self.scan.without(self.at);
        self.at = 0;
        make_room(&mut self.text, self.came)?;
        self.state = pull_behind(
            &mut self.source,
            &mut self.text,
            &mut self.came,
            &mut self.room,
        );
        Ok(())
    }
}

/// What the text goes on with, as far as it came. The place moves past comments.
fn look(text: &[u8], at: &mut usize, scan: &mut Scan, state: State) -> Found
    requires within { at.old ≤ length text.now }
    requires scan { FitsState text.now state at.old scan.old }
    ensures looks { Looks text.now state at.old at.new result }
    ensures scan { FitsState text.now state at.new scan.new }
{
    match state {
        State::Open => find_item(text, at, scan, true),
        State::Ended(fails) => {
            *scan = Scan::from_line(*at);
            find_item(text, at, scan, fails)
        }
        State::Over(last) => Found::End(last),
    }
}

/// Whether more of the text may come.
fn is_open(state: State) -> bool
    ensures { IsTrue result → state ≡ Open }
{
    matches!(state, State::Open)
}

/// Whether nothing that may still come plays a part in it.
fn is_whole(state: State, found: Found) -> bool
    ensures { result ≡ is_whole state found }
{
    match state {
        State::Open => match found {
            Found::Line(_) | Found::Data(_) | Found::End(Some(StreamFault::BadNumber)) => true,
            Found::End(_) => false,
        },
        State::Ended(_) | State::Over(_) => true,
    }
}

/// Moves past an item, or stays at the end or a fault.
fn take(at: &mut usize, state: &mut State, found: Found)
    ensures { Takes at.old state.old found at.new state.new }
{
    match found {
        Found::Line(place) | Found::Data(place) => *at = place.next,
        Found::End(last) => *state = State::Over(last),
    }
}

/// Takes so many bytes from the front of those that came.
fn remove_front(text: &mut [u8], came: &mut usize, count: usize)
    requires { (count ≤ came.old) × (came.old ≤ length text.old) }
    ensures rest { take came.new text.new ≡ drop count (take came.old text.old) }
    ensures came { came.new + count ≡ came.old }
    ensures len { length text.new ≡ length text.old }
{
    if count > 0 {
        text.copy_within(count..*came, 0);
        *came -= count;
    }
}

/// Cuts a text to what stands at a place in it.
fn cut_to<A: Allocator>(text: &mut Vec<u8, A>, place: Place)
    requires { (place.start ≤ place.end) × (place.end ≤ length text.old.items) }
    ensures { text.new.items ≡ drop place.start (take place.end text.old.items) }
{
    text.truncate(place.end);
    text.rotate_left(place.start);
    text.truncate(place.end - place.start);
    text.shrink_to_fit();
}

/// Makes room for a piece behind so many bytes, where there is none.
/// This comes before the pull: where it is refused nothing is pulled, so no read that failed is taken for it.
fn make_room<A: Allocator>(text: &mut Vec<u8, A>, came: usize) -> Result<(), AllocError>
    requires { (came ≤ length text.old.items) × (came ≤ 2 ^ 63 - 1) }
    ensures same { take came text.new.items ≡ take came text.old.items }
    ensures len { length text.old.items ≤ length text.new.items }
    ensures made { OnOk result (came + 65536 ≤ length text.new.items) }
    ensures refused { OnErr result (vec_capacity text.new < came + 65536) }
{
    let wanted = came + PIECE;
    if text.len() < wanted {
        text.reserve(wanted - text.len())?;
        text.resize(wanted, 0)?;
    }
    Ok(())
}

/// Pulls a piece to behind what came. Answers what is known of the text then.
fn pull_behind<R: Source>(
    source: &mut R,
    text: &mut [u8],
    came: &mut usize,
    room: &mut usize,
) -> State
    requires { came.old + 65536 ≤ length text.old }
    ensures len { length text.new ≡ length text.old }
    ensures longer { IsLonger (take came.old text.old) (take came.new text.new) }
    ensures within { (came.new ≤ length text.new) × (came.new + room.new ≤ came.old + room.old) }
    ensures keeps { KeepsStream
        (shown_stream Open room.old (R.coming source.old) (take came.old text.old))
        (shown_stream result room.new (R.coming source.new) (take came.new text.new)) }
    ensures goes_on { shown_over result ≡ None }
    ensures fewer { pulls_left result room.new < pulls_left Open room.old }
{
    let piece = &mut text[*came..*came + PIECE];
    let (state, count) = pull_piece(source, piece, room);
    *came += count;
    state_of(state)
}

/// What is known of a text by what is known of its source.
fn state_of(state: SourceState) -> State
    ensures { result ≡ state_of state }
{
    match state {
        SourceState::Open => State::Open,
        SourceState::Ended => State::Ended(false),
        SourceState::Failed => State::Ended(true),
    }
}
