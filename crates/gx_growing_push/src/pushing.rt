//! Pushes over small repositories. Source: git-push(1), "--force-with-lease", "--force", "--delete" and "--atomic", and
//! git-fast-import(1).

ghost use Rattle.std.specs.Prelude.{◌≡◌, IfOk, IfSome, List, OnOk};
ghost use Rattle.gx_growing_push.specs.Pushing.{PushesTold};
ghost use Rattle.gx_growing_push.specs.Wanting.{HoldLines, IsFree, Leaves};
ghost use Rattle.gx_model.specs.Records.Publishing.{Ref};
ghost use Rattle.gx_model.specs.Stores.StoreText.{stored_ref};
ghost use Rattle.gx_objects.specs.Answers.{AreRefs};
ghost use Rattle.gx_push.specs.Calls.{texts};
ghost use Rattle.gx_push.specs.Wants.{refs_of, shown_wants};
ghost use Rattle.gx_repo.specs.Dropping.{AreIn};
ghost use Rattle.gx_ref_lines.specs.Refs.{shown_refs};
ghost use Rattle.std.specs.List.{AllByRecursion, flat_map};

use crate::WholePush;
use crate::settling::left_by;
use crate::wants::{Wants, wants_of};
use gx_growing_import::{Features, Imported, import_over};
use gx_left_refs::LeftRefs;
use gx_object::Namer;
use gx_objects::Objects;
use gx_ref_lines::RefLines;
use std::alloc::Allocator;
use std::hash::RandomState;

/// Looks at the lines of a push, whose stream wasn't read yet: whether the refs are as they have them, and may change as they do
/// whatever commits there are. Each line is as `gx_push::push` reads it.
///
/// `WholePush` tells why that isn't so, or isn't known. Cost: the refs, and a binary search among them for each line. Memory: their
/// lines and places.
pub fn look_at_lines<O: Objects, A: Allocator + Copy>(
    alloc: A,
    objects: &O,
    lines: &[Vec<u8, A>],
) -> Result<(), WholePush>
    ensures { IfSome (O.told objects.now)
        (λ whole. OnOk result (HoldLines whole.refs (texts lines.now))) }
{
    objects.sound_if_told();
    let mut room = Vec::new(alloc);
    let held = RefLines::read(alloc, objects.ref_lines(&mut room)?)?;
    wants_of(alloc, &held, lines)?;
    Ok(())
}

/// Imports a stream into what holds objects and refs, as a push: what that is to have then has the refs that the lines of the push
/// leave. It is done over a small repository, as `gx_growing_import::import_over` does it, and each line is as `gx_push::push` reads
/// it. With `done` the stream has to end with that command.
///
/// `WholePush` tells why it isn't done so. Then nothing is known of what the push comes to.
/// Cost: that of the import, and of a few look-ups for each ref and each line. Memory: that of the import, and the lines of the refs.
pub fn push_over<O: Objects, N: Namer + Copy, A: Allocator + Copy>(
    alloc: A,
    namer: N,
    objects: &O,
    lines: &[Vec<u8, A>],
    stream: &[u8],
    fails: bool,
    done: bool,
    state: RandomState,
) -> Result<Imported<N, A>, WholePush>
    requires names { O.name_of objects.now ≡ N.name_of namer }
    ensures namer { IfOk result (λ given. given.objects.0 ≡ namer) }
    ensures pushed { IfOk result (λ given.
        PushesTold (N.name_of namer) done (texts lines.now) (O.told objects.now) stream.now fails
        given.objects.1 given.refs.items given.ref_count given.progress.items given.report) }
{
    objects.sound_if_told();
    let mut room = Vec::new(alloc);
    let before = RefLines::read(alloc, objects.ref_lines(&mut room)?)?;
    let wants = wants_of(alloc, &before, lines)?;
    let features = Features { done, force: true };
    let made = import_over(alloc, namer, objects, stream, fails, features, state)?;
    let left = left_of(alloc, &before, &made.refs, &wants)?;
    Ok(Imported {
        refs: left.lines,
        ref_count: left.count,
        ..made
    })
}

/// The refs that a push leaves of those that an import makes, by their lines.
fn left_of<A: Allocator + Copy>(
    alloc: A,
    before: &RefLines<'_, A>,
    made: &[u8],
    wants: &Wants<'_, A>,
) -> Result<LeftRefs<A>, WholePush>
    requires free { AllByRecursion IsFree (shown_wants wants.now.list.items) }
    requires names { AreIn wants.now.names (refs_of (shown_wants wants.now.list.items)) }
    ensures { (named : List Ref) → made.now ≡ flat_map stored_ref named → AreRefs named
        → IfOk result (λ left. Leaves (shown_refs before.now.refs.items) named
        (shown_wants wants.now.list.items) left.lines.items left.count) }
{
    let after = RefLines::read(alloc, made)?;
    left_by(alloc, before, &after, wants)
}
