//! What an export of range words sends: which refs it sets, and which commits go out.

ghost use Rattle.std.specs.Prelude.{IfSome, map};
ghost use Rattle.gx_objects.specs.Answers.{OnlyUntold, Tells};
ghost use Rattle.gx_rev.specs.Views.{shown_range};
ghost use Rattle.gx_tips.specs.Spans.{AreHeld};
ghost use Rattle.gx_changes.specs.Sending.{FindsSent, IsFoundIn};

use crate::ChangesFault;
use gx_object::Name;
use gx_objects::{LookFault, Objects};
use gx_rev::Range;
use gx_tips::{Spans, Tip, tips_of};
use std::alloc::Allocator;

/// The refs whose commits range words include or exclude, and the commits that some word includes and none excludes, the newest
/// put first.
#[derive(Drop)]
pub(crate) struct Sent<'a, A: Allocator> {
    pub(crate) refs: Vec<Tip<'a>, A>,
    pub(crate) commits: Vec<Name, A>,
}

/// Those of range words. The lines of refs go to `lines`. What is in the room before and after stands for nothing.
pub(crate) fn find_sent<'a, O: Objects, A: Allocator + Copy>(
    alloc: A,
    objects: &'a O,
    room: &mut Vec<u8, A>,
    lines: &'a mut Vec<u8, A>,
    words: &[Range<A>],
) -> Result<Sent<'a, A>, ChangesFault>
    ensures { FindsSent (O.name_of objects.now) (O.stands objects.now) (O.told objects.now)
        (map shown_range words.now) result }
{
    let spans = Spans::of_words(alloc, objects, room, words)?;
    Ok(found_in(alloc, objects, room, lines, spans)?)
}

/// Those of spans.
fn found_in<'a, O: Objects, A: Allocator + Copy>(
    alloc: A,
    objects: &'a O,
    room: &mut Vec<u8, A>,
    lines: &'a mut Vec<u8, A>,
    spans: Spans<A>,
) -> Result<Sent<'a, A>, LookFault>
    requires spans { IfSome (O.told objects.now) (AreHeld (O.stands objects.now) spans) }
    ensures found { Tells (O.told objects.now) (IsFoundIn (O.stands objects.now) spans) result }
    ensures fault { OnlyUntold (O.told objects.now) result }
{
    let all = tips_of(alloc, objects, room, objects.ref_lines(lines)?)?;
    let refs = spans.reached(alloc, objects, room, &all)?;
    let commits = spans.listed(alloc, objects, room)?;
    Ok(Sent { refs, commits })
}
