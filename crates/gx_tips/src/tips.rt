//! The refs of a store, with the commits that they hold.

ghost use Rattle.std.specs.Prelude.{IfSome};
ghost use Rattle.gx_objects.specs.Answers.{AreRefLines, OnlyUntold, Tells};
ghost use Rattle.gx_tips.specs.Tips.{AreAllRefs};

use gx_object::Name;
use gx_objects::{LookFault, Objects};
use gx_ranges::{cut_ref, peeled, place_of};
use std::alloc::Allocator;

/// A ref with its object, and the commit that this is or that its tag names, with where that stands.
#[derive(Clone, Copy, Debug, PartialEq, Eq, Drop)]
pub struct Tip<'a> {
    pub name: &'a [u8],
    pub object: Name,
    pub commit: Name,
    pub place: u64,
}

/// The refs of these lines, which are those of all refs.
///
/// OutOfMemory: a growth is refused. ReadFailed: a read failed. Damaged: this is no repository.
/// Cost: for each its line, its object, and a look-up of its commit's place. Takes memory for the refs. What is in the room
/// before and after stands for nothing.
/// Source: git-show-ref(1), and gitrevisions(7), "<rev>^{}".
pub fn tips_of<'a, O: Objects, A: Allocator + Copy>(
    alloc: A,
    objects: &O,
    room: &mut Vec<u8, A>,
    lines: &'a [u8],
) -> Result<Vec<Tip<'a>, A>, LookFault>
    requires lines { IfSome (O.told objects.now) (λ r. AreRefLines r lines) }
    ensures tips { Tells (O.told objects.now) (λ r found.
        AreAllRefs (O.stands objects.now) r found.items) result }
    ensures fault { OnlyUntold (O.told objects.now) result }
{
    objects.sound_if_told();
    let mut tips = Vec::new(alloc);
    let mut rest = lines;
    while !rest.is_empty() {
        let Some((object, name, behind)) = cut_ref(rest) else {
            return Err(LookFault::Damaged);
        };
        let commit = peeled(objects, &object, room)?;
        let place = place_of(objects, &commit)?;
        tips.push(Tip {
            name,
            object,
            commit,
            place,
        })?;
        rest = behind;
    }
    Ok(tips)
}
