//! Range words as texts.

ghost use Rattle.std.specs.Prelude.{◌≡◌, ◌≤◌, ◌-◌, Ok, length};
ghost use Rattle.std.specs.Option.{option_map};
ghost use Rattle.gx_model.specs.Faults.{Gives, NeedsNoMemory, ◌>>=◌ as ◌and_then◌};
ghost use Rattle.gx_model.specs.Revisions.{cut_dots, digits_last, dotted, minus_of, minus_or_alone, number_or_one, pair_of, range_of, revision_of, side_of, undotted, without_parent};
ghost use Rattle.gx_rev.specs.RevFaults.{FaultsComeFirst, fault_of};
ghost use Rattle.gx_rev.specs.Ranges.{ReadsRange, one_sided, parent_number, two_sided};
ghost use Rattle.gx_rev.specs.Views.{shown_range};

use crate::fault::both;
use crate::suffix::number_or_one;
use crate::{RevFault, Revision};
use memchr::memmem;
use std::alloc::Allocator;

/// A range word: commits to list with their ancestors, and commits to leave out with theirs.
/// Source: gitrevisions(7), "Specifying Ranges".
#[derive(Drop)]
pub enum Range<A: Allocator> {
    /// `r`.
    WithAncestors(Revision<A>),
    /// `^r`.
    WithoutAncestors(Revision<A>),
    /// `a..b`.
    Between(Revision<A>, Revision<A>),
    /// `a...b`.
    Apart(Revision<A>, Revision<A>),
    /// `r^@`.
    AllParents(Revision<A>),
    /// `r^!`.
    Alone(Revision<A>),
    /// `r^-n`.
    WithoutOne(Revision<A>, u64),
}

impl<A: Allocator + Copy> Range<A> {
    /// The range word that a text gives: a pair where it has `..` or `...`, of which a side that is left out is HEAD;
    /// otherwise the first of `^r`, `r^@`, `r^!`, `r^-n` and `r` whose shape it has.
    ///
    /// BadRevision for `..` and `...` alone and for `r^-0`, and otherwise the first fault of a revision, from the left.
    /// OutOfMemory where there is none and a growth is refused.
    /// Cost: the length. Takes memory for the revisions. Source: gitrevisions(7), "Specifying Ranges".
    #[tactic(auto, unfolding(gx_model::specs::Revisions::range_of))]
    pub fn read(alloc: A, text: &[u8]) -> Result<Range<A>, RevFault>
        ensures range { Gives fault_of shown_range result (range_of text.now) }
        ensures first { FaultsComeFirst result (range_of text.now) }
    {
        match cut_dots(text) {
            Some((left, right)) => read_dotted(alloc, left, right),
            None => read_undotted(alloc, text),
        }
    }
}

/// What stands before the first `..`, and what follows it.
fn cut_dots(text: &[u8]) -> Option<(&[u8], &[u8])>
    ensures { option_map (λ p. (p.0.now, p.1.now)) result ≡ cut_dots text.now }
{
    let at = memmem::find(text, b"..")?;
    Some((&text[..at], &text[at + 2..]))
}

/// The pair at both sides of two dots, or of three.
fn read_dotted<A: Allocator + Copy>(
    alloc: A,
    left: &[u8],
    right: &[u8],
) -> Result<Range<A>, RevFault>
    ensures { ReadsRange result (dotted left.now right.now) }
{
    match right.strip_prefix(b".") {
        Some(right) => read_pair(alloc, left, right, true),
        None => read_pair(alloc, left, right, false),
    }
}

/// The pair of two revisions, of which one may be left out: `a...b` where it is apart, and otherwise `a..b`.
fn read_pair<A: Allocator + Copy>(
    alloc: A,
    left: &[u8],
    right: &[u8],
    is_apart: bool,
) -> Result<Range<A>, RevFault>
    ensures { ReadsRange result (pair_of (two_sided is_apart) left.now right.now) }
{
    if left.is_empty() && right.is_empty() {
        return Err(RevFault::BadRevision);
    }
    let (a, b) = both(read_side(alloc, left), read_side(alloc, right))?;
    if is_apart {
        Ok(Range::Apart(a, b))
    } else {
        Ok(Range::Between(a, b))
    }
}

/// A revision, and HEAD where it is left out.
fn read_side<A: Allocator + Copy>(alloc: A, text: &[u8]) -> Result<Revision<A>, RevFault>
    ensures revision { Gives fault_of (λ r. r) result (side_of text.now) }
    ensures first { FaultsComeFirst result (side_of text.now) }
{
    if text.is_empty() {
        Revision::read(alloc, b"HEAD")
    } else {
        Revision::read(alloc, text)
    }
}

/// The first of `^r`, `r^@`, `r^!`, `r^-n` and `r` whose shape the text has.
fn read_undotted<A: Allocator + Copy>(alloc: A, text: &[u8]) -> Result<Range<A>, RevFault>
    ensures { ReadsRange result (undotted text.now) }
{
    if let Some(text) = text.strip_prefix(b"^") {
        return read_alone(alloc, text, Shape::WithoutAncestors);
    }
    if let Some(text) = text.strip_suffix(b"^@") {
        return read_alone(alloc, text, Shape::AllParents);
    }
    if let Some(text) = text.strip_suffix(b"^!") {
        return read_alone(alloc, text, Shape::Alone);
    }
    read_last(alloc, text)
}

/// `r^-n` where the text has that shape, and otherwise a revision.
fn read_last<A: Allocator + Copy>(alloc: A, text: &[u8]) -> Result<Range<A>, RevFault>
    ensures { ReadsRange result (minus_or_alone text.now (minus_of text.now)) }
{
    match cut_minus(text) {
        Some((text, digits)) => read_without_one(alloc, text, digits),
        None => read_alone(alloc, text, Shape::WithAncestors),
    }
}

/// The shape of a word of one revision and nothing else.
#[derive(Drop)]
enum Shape {
    WithAncestors,
    WithoutAncestors,
    AllParents,
    Alone,
}

/// The word of this shape, of the revision that a text gives.
fn read_alone<A: Allocator + Copy>(
    alloc: A,
    text: &[u8],
    shape: Shape,
) -> Result<Range<A>, RevFault>
    ensures { ReadsRange result (revision_of text.now and_then λ r. Ok (one_sided shape r)) }
{
    let revision = Revision::read(alloc, text)?;
    match shape {
        Shape::WithAncestors => Ok(Range::WithAncestors(revision)),
        Shape::WithoutAncestors => Ok(Range::WithoutAncestors(revision)),
        Shape::AllParents => Ok(Range::AllParents(revision)),
        Shape::Alone => Ok(Range::Alone(revision)),
    }
}

/// What stands before a `^-` and digits at the end, and these digits.
fn cut_minus(text: &[u8]) -> Option<(&[u8], &[u8])>
    ensures { option_map (λ p. (p.0.now, p.1.now)) result ≡ minus_of text.now }
{
    let digits = digits_start(text);
    let front = text[..digits].strip_suffix(b"^-")?;
    Some((front, &text[digits..]))
}

/// Where the digits at the end begin.
fn digits_start(text: &[u8]) -> usize
    ensures within { result ≤ length text.now }
    ensures digits { result ≡ length text.now - digits_last text.now }
{
    let mut start = text.len();
    while start > 0 && text[start - 1].is_ascii_digit() {
        start -= 1;
    }
    start
}

fn read_without_one<A: Allocator + Copy>(
    alloc: A,
    text: &[u8],
    digits: &[u8],
) -> Result<Range<A>, RevFault>
    ensures { ReadsRange result (revision_of text.now
        and_then λ r. number_or_one digits.now and_then λ n. without_parent r n) }
{
    let (revision, number) = both(Revision::read(alloc, text), parent_number(digits))?;
    Ok(Range::WithoutOne(revision, number))
}

/// The number of a parent, from 1, in decimal; and 1 where it is left out.
fn parent_number(digits: &[u8]) -> Result<u64, RevFault>
    ensures number { Gives fault_of (λ n. n) result (parent_number digits.now) }
    ensures memory { NeedsNoMemory RevFault.OutOfMemory result }
{
    let number = number_or_one(digits)?;
    if number == 0 {
        return Err(RevFault::BadRevision);
    }
    Ok(number)
}
