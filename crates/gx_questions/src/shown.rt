//! What a revision shows.

ghost use Rattle.std.specs.Prelude.{Some};
ghost use Rattle.gx_model.specs.declared.objects.Kind.TheVariants as kinds;
ghost use Rattle.gx_model.specs.Faults.{◌>>=◌ as ◌and_then◌};
ghost use Rattle.gx_model.specs.Records.HistoryOf.{history_of};
ghost use Rattle.gx_model.specs.Revisions.{revision_of};
ghost use Rattle.gx_model.specs.Revisions.Denotation.{all_suffixed, base_value, commit_denoted, denoted, files_in, shown_at, value_denoted};
ghost use Rattle.gx_rev.specs.Answers.{IsNamed, shown_by};
ghost use Rattle.gx_rev.specs.Objects.{IsHeld, IsHeldAs, commit_at, files_at, value_at};
ghost use Rattle.gx_questions.specs.Answers.{Answers, IfTold, IsOfTold, NeedsNothing, NeverUnread, TextFaultsComeFirst};

use crate::AskFault;
use crate::base::eval_base;
use crate::objects::{commit_of, kind_of, tree_of};
use crate::places::walk_down;
use crate::suffix::eval_all;
use gx_object::Name;
use gx_objects::Objects;
use gx_rev::{RevFault, Revision, Shown, shown_as};
use gx_text::TreePath;
use std::alloc::Allocator;

/// What a text shows as a revision: it is read, and evaluated.
///
/// The faults are those of `Revision::read`, and then those of `eval`. Cost and memory: those of both.
/// Source: gitrevisions(7), "Specifying Revisions".
pub fn eval_text<O: Objects, A: Allocator + Copy>(
    alloc: A,
    objects: &O,
    room: &mut Vec<u8, A>,
    text: &[u8],
) -> Result<Shown, AskFault>
    ensures shown { Answers (O.told objects.now) shown_by (λ r. revision_of text.now
        and_then denoted (O.name_of objects.now) (history_of r)) result }
    ensures named { IsOfTold (O.told objects.now) (IsNamed (O.name_of objects.now)) result }
    ensures text { TextFaultsComeFirst result (revision_of text.now) }
    ensures sure { NeverUnread (O.sure objects.now) result }
{
    eval(objects, room, &Revision::read(alloc, text)?)
}

/// What a revision shows.
///
/// UnknownRef, UnknownObject and Ambiguous are of its base, NoParent and WrongKind of a suffix; WrongKind and NoSuchPath of
/// its path. OutOfMemory: the room can't grow. ReadFailed: a read failed. Damaged: this is no repository.
/// Cost: a look-up for the base; one or two objects for a suffix, but for `~n` n of them; a tree for each component of the
/// path, and where there is none, the object. Memory: the room, for one object at a time.
/// Source: gitrevisions(7), "Specifying Revisions".
pub fn eval<O: Objects, A: Allocator + Copy, B: Allocator + Copy>(
    objects: &O,
    room: &mut Vec<u8, A>,
    revision: &Revision<B>,
) -> Result<Shown, AskFault>
    ensures shown { Answers (O.told objects.now) shown_by
        (λ r. denoted (O.name_of objects.now) (history_of r) revision.now) result }
    ensures named { IsOfTold (O.told objects.now) (IsNamed (O.name_of objects.now)) result }
    ensures sure { NeedsNothing (O.sure objects.now) result }
{
    objects.sound_if_told();
    let object = eval_front(objects, room, revision)?;
    match revision.path() {
        None => Ok(Shown::Object(kind_of(objects, room, &object)?, object)),
        Some(path) => show_path(objects, room, &object, path),
    }
}

/// The name of the tree that a revision gives as `^{tree}` does: a tree itself, or that of the commit that it peels to.
/// What gives none is WrongKind.
///
/// The faults, the cost and the memory are those of `eval`. Source: gitrevisions(7), on tree-ish.
pub fn tree<O: Objects, A: Allocator + Copy, B: Allocator + Copy>(
    objects: &O,
    room: &mut Vec<u8, A>,
    revision: &Revision<B>,
) -> Result<Name, AskFault>
    ensures files { Answers (O.told objects.now) files_at (λ r. value_denoted
        (O.name_of objects.now) (history_of r) revision.now and_then files_in) result }
    ensures held { IsOfTold (O.told objects.now) (IsHeldAs kinds.Tree) result }
    ensures sure { NeedsNothing (O.sure objects.now) result }
{
    let object = eval_object(objects, room, revision)?;
    tree_of(objects, room, &object)
}

/// The name of the commit that a revision gives after peeling. What gives none is WrongKind.
///
/// The faults, the cost and the memory are those of `eval`. Source: gitrevisions(7), on commit-ish.
pub fn commit<O: Objects, A: Allocator + Copy, B: Allocator + Copy>(
    objects: &O,
    room: &mut Vec<u8, A>,
    revision: &Revision<B>,
) -> Result<Name, AskFault>
    ensures commit { Answers (O.told objects.now) commit_at
        (λ r. commit_denoted (O.name_of objects.now) (history_of r) revision.now) result }
    ensures held { IsOfTold (O.told objects.now) (IsHeldAs kinds.Commit) result }
    ensures sure { NeedsNothing (O.sure objects.now) result }
{
    let object = eval_object(objects, room, revision)?;
    commit_of(objects, room, &object)
}

/// The name of the object that a revision shows, which is no submodule. Its body isn't read.
fn eval_object<O: Objects, A: Allocator + Copy, B: Allocator + Copy>(
    objects: &O,
    room: &mut Vec<u8, A>,
    revision: &Revision<B>,
) -> Result<Name, AskFault>
    ensures value { Answers (O.told objects.now) value_at
        (λ r. value_denoted (O.name_of objects.now) (history_of r) revision.now) result }
    ensures held { IsOfTold (O.told objects.now) IsHeld result }
    ensures sure { NeedsNothing (O.sure objects.now) result }
{
    let object = eval_front(objects, room, revision)?;
    let Some(path) = revision.path() else {
        return Ok(object);
    };
    match show_path(objects, room, &object, path)? {
        Shown::Object(_, name) => Ok(name),
        Shown::Submodule(_) => Err(AskFault::Revision(RevFault::WrongKind)),
    }
}

/// What the base and the suffixes of a revision give, from left to right.
fn eval_front<O: Objects, A: Allocator + Copy, B: Allocator + Copy>(
    objects: &O,
    room: &mut Vec<u8, A>,
    revision: &Revision<B>,
) -> Result<Name, AskFault>
    ensures value { Answers (O.told objects.now) value_at
        (λ r. base_value (O.name_of objects.now) (history_of r) revision.now.base
        and_then λ v. all_suffixed v revision.now.suffixes) result }
    ensures held { IsOfTold (O.told objects.now) IsHeld result }
    ensures sure { NeedsNothing (O.sure objects.now) result }
{
    let base = eval_base(objects, revision.base())?;
    eval_all(objects, room, &base, revision.suffixes())
}

/// What a path shows in the tree of a held object.
fn show_path<O: Objects, A: Allocator + Copy, B: Allocator + Copy>(
    objects: &O,
    room: &mut Vec<u8, A>,
    object: &Name,
    path: &TreePath<B>,
) -> Result<Shown, AskFault>
    requires held { IfTold (O.told objects.now) IsHeld object.now }
    ensures shown { Answers (O.told objects.now) shown_by
        (λ r. shown_at (value_at r object.now) (Some path.now)) result }
    ensures named { IsOfTold (O.told objects.now) (IsNamed (O.name_of objects.now)) result }
    ensures sure { NeedsNothing (O.sure objects.now) result }
{
    objects.sound_if_told();
    let tree = tree_of(objects, room, object)?;
    match walk_down(objects, room, &tree, path)? {
        None => Err(AskFault::Revision(RevFault::NoSuchPath)),
        Some((mode, name)) => Ok(shown_as(mode, name)),
    }
}
