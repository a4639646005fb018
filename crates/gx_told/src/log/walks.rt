//! What is printed of the commits that a walk lists, each as it is found. Source: git-log(1), "PRETTY FORMATS".

ghost use Rattle.std.specs.Prelude.{◌≡◌, ◌++◌, IfErr, IfOk, false, true};
ghost use Rattle.gx_model.specs.Objects.{IsCommitText};
ghost use Rattle.gx_objects.specs.Answers.{OnlyUntold, Tells};
ghost use Rattle.gx_objects.specs.declared.fault.LookFault.TheVariants as look;
ghost use Rattle.gx_print.specs.Logs.{entry_of_parts};
ghost use Rattle.gx_questions.specs.Answers.{IfTold};
ghost use Rattle.gx_ranges.specs.Listings.{AreTipsOf};
ghost use Rattle.gx_told.specs.Choosing.{AreSoMany, AreTaken, counted};
ghost use Rattle.gx_told.specs.Logging.{PrintsTaken, PrintsWalk};
ghost use Rattle.gx_told.specs.Printing.{PrintsText};

use super::choices::Choice;
use super::commits::print_commits;
use crate::ToldFault;
use crate::sending::put_text;
use gx_asks::LogOptions;
use gx_object::{CommitView, Name};
use gx_objects::{LookFault, Objects};
use gx_print::{gap, put_commit, put_count};
use gx_ranges::CommitWalk;
use gx_text::Sink;
use std::alloc::Allocator;

/// Prints those of the commits that a walk still lists that are chosen, or how many they are.
pub(super) fn print_chosen<O: Objects, A: Allocator + Copy, W: Sink>(
    alloc: A,
    objects: &O,
    options: LogOptions,
    walk: &mut CommitWalk<A>,
    room: &mut Vec<u8, A>,
    sink: &mut W,
) -> Result<(), ToldFault>
    requires { IfTold (O.told objects.now) (AreTipsOf (O.stands objects.now)) walk.old }
    ensures { IfTold (O.told objects.now) (PrintsWalk (O.name_of objects.now)
        (O.stands objects.now) options walk.old (W.taken sink.old) (W.taken sink.new)) result }
{
    if options.count {
        print_count(alloc, objects, options, walk, room, sink)
    } else if options.reverse {
        print_turned(alloc, objects, options, walk, room, sink)
    } else {
        print_walk(alloc, objects, options, walk, room, sink)
    }
}

/// Prints how many commits there are.
fn print_count<O: Objects, A: Allocator + Copy, W: Sink>(
    alloc: A,
    objects: &O,
    options: LogOptions,
    walk: &mut CommitWalk<A>,
    room: &mut Vec<u8, A>,
    sink: &mut W,
) -> Result<(), ToldFault>
    requires tips { IfTold (O.told objects.now) (AreTipsOf (O.stands objects.now)) walk.old }
    requires count { options.count ≡ true }
    ensures { IfTold (O.told objects.now) (PrintsWalk (O.name_of objects.now)
        (O.stands objects.now) options walk.old (W.taken sink.old) (W.taken sink.new)) result }
{
    let count = count_taken(objects, Choice::of(options), walk, room)?;
    let mut text = Vec::new(alloc);
    put_count(&mut text, count)?;
    put_text(sink, text.as_slice())
}

/// How many commits are still to be taken.
///
/// OutOfMemory: a growth is refused, or they are 2^64.
fn count_taken<O: Objects, A: Allocator + Copy>(
    objects: &O,
    choice: Choice,
    walk: &mut CommitWalk<A>,
    room: &mut Vec<u8, A>,
) -> Result<u64, LookFault>
    requires { IfTold (O.told objects.now) (AreTipsOf (O.stands objects.now)) walk.old }
    ensures count { Tells (O.told objects.now) (AreSoMany (O.name_of objects.now)
        (O.stands objects.now) walk.old choice) result }
    ensures fault { OnlyUntold (O.told objects.now) result }
{
    let mut choice = choice;
    let mut count = 0;
    while !choice.is_done() {
        let Some((_name, found)) = walk.next(objects, room)? else {
            return Ok(count);
        };
        count = counted(count, choice.takes(&found.1))?;
    }
    Ok(count)
}

/// How many there are, with one that is taken or not.
fn counted(count: u64, taken: bool) -> Result<u64, LookFault>
    ensures more { IfOk result (λ more. more ≡ counted count taken) }
    ensures fault { IfErr result (λ fault. fault ≡ look.OutOfMemory) }
{
    if !taken {
        return Ok(count);
    }
    match count.checked_add(1) {
        Some(more) => Ok(more),
        None => Err(LookFault::OutOfMemory),
    }
}

/// Prints the commits, the last one first.
fn print_turned<O: Objects, A: Allocator + Copy, W: Sink>(
    alloc: A,
    objects: &O,
    options: LogOptions,
    walk: &mut CommitWalk<A>,
    room: &mut Vec<u8, A>,
    sink: &mut W,
) -> Result<(), ToldFault>
    requires tips { IfTold (O.told objects.now) (AreTipsOf (O.stands objects.now)) walk.old }
    requires entries { options.count ≡ false }
    requires reverse { options.reverse ≡ true }
    ensures { IfTold (O.told objects.now) (PrintsWalk (O.name_of objects.now)
        (O.stands objects.now) options walk.old (W.taken sink.old) (W.taken sink.new)) result }
{
    let mut names = names_taken(alloc, objects, Choice::of(options), walk, room)?;
    names.reverse();
    print_commits(alloc, objects, options, names.as_slice(), sink)
}

/// The names of the commits that are still to be taken.
fn names_taken<O: Objects, A: Allocator + Copy>(
    alloc: A,
    objects: &O,
    choice: Choice,
    walk: &mut CommitWalk<A>,
    room: &mut Vec<u8, A>,
) -> Result<Vec<Name, A>, LookFault>
    requires { IfTold (O.told objects.now) (AreTipsOf (O.stands objects.now)) walk.old }
    ensures names { Tells (O.told objects.now) (λ r names. AreTaken (O.name_of objects.now)
        (O.stands objects.now) walk.old choice r names.items) result }
    ensures fault { OnlyUntold (O.told objects.now) result }
{
    let mut choice = choice;
    let mut names = Vec::new(alloc);
    while !choice.is_done() {
        let Some((name, found)) = walk.next(objects, room)? else {
            return Ok(names);
        };
        if !choice.takes(&found.1) {
            continue;
        }
        names.push(name)?;
    }
    Ok(names)
}

/// Prints the commits, one after the other, in their format.
fn print_walk<O: Objects, A: Allocator + Copy, W: Sink>(
    alloc: A,
    objects: &O,
    options: LogOptions,
    walk: &mut CommitWalk<A>,
    room: &mut Vec<u8, A>,
    sink: &mut W,
) -> Result<(), ToldFault>
    requires { IfTold (O.told objects.now) (AreTipsOf (O.stands objects.now)) walk.old }
    ensures { IfTold (O.told objects.now) (PrintsTaken (O.name_of objects.now)
        (O.stands objects.now) options walk.old (W.taken sink.old) (W.taken sink.new)) result }
{
    objects.sound_if_told();
    let mut choice = Choice::of(options);
    let mut text = Vec::new(alloc);
    let mut between: &[u8] = b"";
    while !choice.is_done() {
        let Some((name, found)) = walk.next(objects, room)? else {
            return Ok(());
        };
        if !choice.takes(&found.1) {
            continue;
        }
        print_listed(options, between, &name, found.0, &found.1, &mut text, sink)?;
        between = gap(options.format);
    }
    Ok(())
}

/// Prints a text, and behind it a commit, whose own text is made in place of the one before.
fn print_listed<A: Allocator + Copy, W: Sink>(
    options: LogOptions,
    before: &[u8],
    name: &Name,
    body: &[u8],
    view: &CommitView<'_>,
    text: &mut Vec<u8, A>,
    sink: &mut W,
) -> Result<(), ToldFault>
    requires { IsCommitText view.now body.now }
    ensures { PrintsText (before.now ++ entry_of_parts options name.now.bytes view.now)
        (W.taken sink.old) (W.taken sink.new) result }
{
    text.clear();
    put_commit(text, options, name, body, view)?;
    put_text(sink, before)?;
    put_text(sink, text.as_slice())
}
