//! The commits that refs hold, and those of their tags.

ghost use Rattle.std.specs.Prelude.{◌≡◌, IfSome, Ok};
ghost use Rattle.std.specs.Option.{option_map};
ghost use Rattle.gx_model.specs.declared.objects.Kind.TheVariants as kinds;
ghost use Rattle.gx_model.specs.Revisions.Denotation.{commit_in};
ghost use Rattle.gx_objects.specs.Answers.{OnlyUntold, Tells};
ghost use Rattle.gx_questions.specs.Answers.{IsOfTold, RefusesUntold};
ghost use Rattle.gx_ranges.specs.Fronts.{Adds, AreTips};
ghost use Rattle.gx_ranges.specs.Refs.{IsPeeled, first_ref};
ghost use Rattle.gx_rev.specs.Objects.{IsHeldAs, commit_at, value_at};
ghost use Rattle.gx_rev.specs.Reached.{is_wanted};

use crate::fronts::add;
use gx_object::Name;
use gx_objects::{LookFault, Objects};
use gx_questions::{AskFault, commit_of};
use gx_text::cut;
use std::alloc::Allocator;
use std::collections::BTreeMap;

/// Adds the commits of all refs.
///
/// Cost: a line for each ref, its object and a look-up of the commit's place. Takes memory for the lines.
pub(crate) fn add_refs<O: Objects, A: Allocator + Copy>(
    alloc: A,
    objects: &O,
    front: &mut BTreeMap<u64, Name, A>,
    room: &mut Vec<u8, A>,
) -> Result<(), AskFault>
    requires tips { IfSome (O.told objects.now) (AreTips (O.stands objects.now) front.old.entries) }
    ensures adds { IsOfTold (O.told objects.now) (λ r _. Adds (O.stands objects.now)
        (is_wanted r) front.old.entries front.new.entries r) result }
    ensures fault { RefusesUntold (O.told objects.now) result }
{
    objects.sound_if_told();
    let mut lines = Vec::new(alloc);
    let mut rest = objects.ref_lines(&mut lines)?;
    while !rest.is_empty() {
        let Some((object, _, behind)) = cut_ref(rest) else {
            return Err(AskFault::Damaged);
        };
        let commit = peeled(objects, &object, room)?;
        add(objects, front, &commit)?;
        rest = behind;
    }
    Ok(())
}

/// The object and the name of the ref in the first line, and what follows the line.
///
/// Cost: the line. Takes no memory. Source: git-show-ref(1).
#[tactic(auto, unfolding(crate::specs::Refs::first_ref))]
pub fn cut_ref(text: &[u8]) -> Option<(Name, &[u8], &[u8])>
    ensures { option_map (λ cut. ((cut.1.now, cut.0.bytes), cut.2.now)) result
        ≡ first_ref text.now }
{
    let (line, rest) = cut(text, b'\n')?;
    let (digits, name) = cut(line, b' ')?;
    let object = Name::read_lower(digits)?;
    Some((object, name, rest))
}

/// The commit that the object of a ref is, or that its tag names.
///
/// OutOfMemory: the room can't grow. ReadFailed: a read failed. Damaged: this is no repository.
/// Cost: the object. What is in the room before and after stands for nothing. Source: gitrevisions(7), "<rev>^{}".
pub fn peeled<O: Objects, A: Allocator + Copy>(
    objects: &O,
    name: &Name,
    room: &mut Vec<u8, A>,
) -> Result<Name, LookFault>
    requires peels { IfSome (O.told objects.now) (IsPeeled name.now) }
    ensures commit { Tells (O.told objects.now) (λ r commit.
        commit_in (value_at r name.now) ≡ Ok (commit_at r commit)) result }
    ensures held { Tells (O.told objects.now) (IsHeldAs kinds.Commit) result }
    ensures fault { OnlyUntold (O.told objects.now) result }
{
    match commit_of(objects, room, name) {
        Ok(commit) => Ok(commit),
        Err(AskFault::OutOfMemory) => Err(LookFault::OutOfMemory),
        Err(AskFault::ReadFailed) => Err(LookFault::ReadFailed),
        Err(AskFault::Damaged | AskFault::Revision(_)) => Err(LookFault::Damaged),
    }
}
