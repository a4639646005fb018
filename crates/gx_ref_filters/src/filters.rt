//! The refs that pass filters and match patterns. Source: git-for-each-ref(1).

ghost use Rattle.std.specs.Prelude.{◌≡◌, IfOk, IfSome, map};
ghost use Rattle.std.specs.List.{filter};
ghost use Rattle.gx_model.specs.Records.HistoryOf.{history_of};
ghost use Rattle.gx_model.specs.Revisions.Denotation.{value_denoted};
ghost use Rattle.gx_questions.specs.Answers.{Answers, IsOfTold};
ghost use Rattle.gx_ranges.specs.Answers.{refused_at};
ghost use Rattle.gx_rev.specs.Objects.{IsHeld, value_at};
ghost use Rattle.gx_asks.specs.declared.question.RefTest.TheVariants.{PointsAt};
ghost use Rattle.gx_ref_filters.specs.Filters.{FindsKept, Passes, PassesBy, PassesGiven, reached_test, reaching_test, shown_filter, test_by};
ghost use Rattle.gx_ref_filters.specs.Patterns.{is_named};
ghost use Rattle.gx_text.specs.Lent.{lent_texts};
ghost use Rattle.gx_tips.specs.Tips.{AreAllRefs, AreTips};

use crate::passing::{pointing_at, reached_from, reaching};
use crate::patterns::is_named;
use gx_asks::{RefFilter, RefTest};
use gx_object::Name;
use gx_objects::Objects;
use gx_questions::{AskFault, commit, eval};
use gx_ranges::RangeFault;
use gx_rev::{RevFault, Revision, Shown};
use gx_tips::Tip;
use std::alloc::{AllocError, Allocator};

/// Those of all refs whose names match one of the patterns, where there are any, and that pass all filters.
///
/// The first filter whose revision is refused is answered with its number, from 1, and the fault of its revision: that of
/// [`commit`] or, where refs are to point at it, that of what isn't an object. OutOfMemory: a growth is refused. ReadFailed: a read
/// failed. Damaged: this is no repository.
/// Cost: that of each revision; for `Merged` the bodies of the commits that its commit reaches and that stand behind the oldest of
/// the refs' commits; for `Contains` those of the commits that the refs reach and that stand behind its commit; a look-up for each of
/// their parents. Memory: the refs, and for `Contains` a pair of places for each of these parents.
/// Source: git-for-each-ref(1).
pub fn kept_refs<'t, O: Objects, A: Allocator + Copy>(
    alloc: A,
    objects: &O,
    room: &mut Vec<u8, A>,
    refs: &[Tip<'t>],
    filters: &[RefFilter<'_>],
    patterns: &[&str],
) -> Result<Vec<Tip<'t>, A>, RangeFault>
    requires refs { IfSome (O.told objects.now)
        (λ r. AreAllRefs (O.stands objects.now) r refs.now) }
    ensures { FindsKept (O.name_of objects.now) (O.stands objects.now) (O.told objects.now)
        (map shown_filter filters.now) (lent_texts patterns.now) result }
{
    let mut kept = match named(alloc, refs, patterns) {
        Ok(kept) => kept,
        Err(fault) => return Err(RangeFault::from(AskFault::from(fault))),
    };
    for (place, filter) in filters.iter().enumerate() {
        match passing(alloc, objects, room, kept.as_slice(), filter) {
            Ok(passed) => kept = passed,
            Err(kind) => return Err(refused(place + 1, kind)),
        }
    }
    Ok(kept)
}

/// The refs whose names match.
fn named<'t, A: Allocator + Copy>(
    alloc: A,
    refs: &[Tip<'t>],
    patterns: &[&str],
) -> Result<Vec<Tip<'t>, A>, AllocError>
    ensures found { IfOk result (λ found. found.items
        ≡ filter (λ tip. is_named (lent_texts patterns.now) tip.name.now) refs.now) }
{
    let mut found = Vec::new(alloc);
    for tip in refs {
        if is_named(patterns, tip.name) {
            found.push(*tip)?;
        }
    }
    Ok(found)
}

/// The refs that pass a filter.
fn passing<'t, O: Objects, A: Allocator + Copy>(
    alloc: A,
    objects: &O,
    room: &mut Vec<u8, A>,
    refs: &[Tip<'t>],
    filter: &RefFilter<'_>,
) -> Result<Vec<Tip<'t>, A>, AskFault>
    requires refs { IfSome (O.told objects.now) (AreTips (O.stands objects.now) refs.now) }
    ensures { Passes (O.name_of objects.now) (O.stands objects.now) (O.told objects.now)
        (shown_filter filter.now) refs.now result }
{
    let revision = Revision::read(alloc, filter.revision.as_bytes())?;
    passing_by(alloc, objects, room, refs, filter.test, &revision)
}

/// The refs that pass a test by what a revision gives.
fn passing_by<'t, O: Objects, A: Allocator + Copy>(
    alloc: A,
    objects: &O,
    room: &mut Vec<u8, A>,
    refs: &[Tip<'t>],
    test: RefTest,
    revision: &Revision<A>,
) -> Result<Vec<Tip<'t>, A>, AskFault>
    requires refs { IfSome (O.told objects.now) (AreTips (O.stands objects.now) refs.now) }
    ensures { PassesBy (O.name_of objects.now) (O.stands objects.now) (O.told objects.now)
        test revision.now refs.now result }
{
    match test {
        RefTest::PointsAt => pointing(alloc, objects, room, refs, revision),
        RefTest::Contains => containing(alloc, objects, room, refs, revision, true),
        RefTest::NoContains => containing(alloc, objects, room, refs, revision, false),
        RefTest::Merged => merged(alloc, objects, room, refs, revision, true),
        RefTest::NoMerged => merged(alloc, objects, room, refs, revision, false),
    }
}

/// The refs that point at the object of a revision.
fn pointing<'t, O: Objects, A: Allocator + Copy>(
    alloc: A,
    objects: &O,
    room: &mut Vec<u8, A>,
    refs: &[Tip<'t>],
    revision: &Revision<A>,
) -> Result<Vec<Tip<'t>, A>, AskFault>
    requires refs { IfSome (O.told objects.now) (AreTips (O.stands objects.now) refs.now) }
    ensures { PassesGiven (O.stands objects.now) (O.told objects.now)
        (λ r. test_by (O.name_of objects.now) (history_of r) PointsAt revision.now)
        refs.now result }
{
    let object = object(objects, room, revision)?;
    Ok(pointing_at(alloc, objects, refs, &object)?)
}

/// The refs whose commits reach that of a revision, or the others.
fn containing<'t, O: Objects, A: Allocator + Copy>(
    alloc: A,
    objects: &O,
    room: &mut Vec<u8, A>,
    refs: &[Tip<'t>],
    revision: &Revision<A>,
    so: bool,
) -> Result<Vec<Tip<'t>, A>, AskFault>
    requires refs { IfSome (O.told objects.now) (AreTips (O.stands objects.now) refs.now) }
    ensures { PassesGiven (O.stands objects.now) (O.told objects.now)
        (λ r. reaching_test (O.name_of objects.now) (history_of r) so revision.now)
        refs.now result }
{
    let commit = commit(objects, room, revision)?;
    Ok(reaching(alloc, objects, room, refs, &commit, so)?)
}

/// The refs whose commits that of a revision reaches, or the others.
fn merged<'t, O: Objects, A: Allocator + Copy>(
    alloc: A,
    objects: &O,
    room: &mut Vec<u8, A>,
    refs: &[Tip<'t>],
    revision: &Revision<A>,
    so: bool,
) -> Result<Vec<Tip<'t>, A>, AskFault>
    requires refs { IfSome (O.told objects.now) (AreTips (O.stands objects.now) refs.now) }
    ensures { PassesGiven (O.stands objects.now) (O.told objects.now)
        (λ r. reached_test (O.name_of objects.now) (history_of r) so revision.now)
        refs.now result }
{
    let commit = commit(objects, room, revision)?;
    Ok(reached_from(alloc, objects, room, refs, &commit, so)?)
}

/// The object of a revision, which is no submodule.
fn object<O: Objects, A: Allocator + Copy>(
    objects: &O,
    room: &mut Vec<u8, A>,
    revision: &Revision<A>,
) -> Result<Name, AskFault>
    ensures value { Answers (O.told objects.now) value_at
        (λ r. value_denoted (O.name_of objects.now) (history_of r) revision.now) result }
    ensures held { IsOfTold (O.told objects.now) IsHeld result }
{
    match eval(objects, room, revision)? {
        Shown::Object(_, name) => Ok(name),
        Shown::Submodule(_) => Err(AskFault::Revision(RevFault::WrongKind)),
    }
}

/// The fault of a filter. Want of memory, a failed read and damage are of none.
fn refused(number: usize, kind: AskFault) -> RangeFault
    ensures { result ≡ refused_at number kind }
{
    match kind {
        AskFault::Revision(_) => RangeFault { word: number, kind },
        _ => RangeFault { word: 0, kind },
    }
}
