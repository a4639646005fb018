//! Objects that are held, by their names: their kinds and bodies, their commits and parents, and their trees.

ghost use Rattle.std.specs.Prelude.{◌≡◌, IfOk};
ghost use Rattle.gx_model.specs.declared.objects.Kind.TheVariants as kinds;
ghost use Rattle.gx_model.specs.Objects.{IsCommitText, tree_text};
ghost use Rattle.gx_model.specs.Records.{kind_of};
ghost use Rattle.gx_model.specs.Revisions.Denotation.{commit_in, files_in, nth_ancestor, nth_parent};
ghost use Rattle.gx_objects.specs.Answers.{IsNamedAs};
ghost use Rattle.gx_rev.specs.Objects.{IsHeld, IsHeldAs, commit_at, files_at, value_at};
ghost use Rattle.gx_questions.specs.Answers.{Answers, IfTold, IsOfTold, NeedsNothing, RefusesUntold};
ghost use Rattle.gx_questions.specs.Objects.{AreEntriesAt, IsCommitAt, IsObjectAt};

use crate::AskFault;
use gx_object::{CommitView, Kind, Name, TreeEntries, decode_commit, decode_tag, decode_tree};
use gx_objects::{Object, Objects};
use gx_rev::RevFault;
use std::alloc::Allocator;

/// The object of a name that is held, lent from where it stands or from the room.
///
/// OutOfMemory: the room can't grow. ReadFailed: a read failed. Damaged: this is no repository's.
/// Cost and memory: those of `Objects::object`. Source: gitglossary(7), "object name".
pub fn body<'a, O: Objects, A: Allocator + Copy>(
    objects: &'a O,
    name: &Name,
    room: &'a mut Vec<u8, A>,
) -> Result<Object<'a>, AskFault>
    requires held { IfTold (O.told objects.now) IsHeld name.now }
    ensures object { IsOfTold (O.told objects.now)
        (IsObjectAt (O.name_of objects.now) name.now) result }
    ensures named { IfOk result (IsNamedAs (O.name_of objects.now) name.now.bytes) }
    ensures fault { RefusesUntold (O.told objects.now) result }
    ensures sure { NeedsNothing (O.sure objects.now) result }
{
    objects.sound_if_told();
    match objects.object(name, room)? {
        Some(object) => Ok(object),
        None => Err(AskFault::Damaged),
    }
}

/// The body and the parts of a held commit.
///
/// Faults, cost and memory: those of `body`, and Damaged where this is no commit. Source: gitglossary(7), "commit object".
pub fn commit_in<'a, O: Objects, A: Allocator + Copy>(
    objects: &'a O,
    name: &Name,
    room: &'a mut Vec<u8, A>,
) -> Result<(&'a [u8], CommitView<'a>), AskFault>
    requires held { IfTold (O.told objects.now) (IsHeldAs kinds.Commit) name.now }
    ensures commit { IsOfTold (O.told objects.now)
        (IsCommitAt (O.name_of objects.now) name.now) result }
    ensures named { IfOk result
        (λ found. O.name_of objects.now kinds.Commit found.0.now ≡ name.now.bytes) }
    ensures text { IfOk result (λ found. IsCommitText found.1 found.0.now) }
    ensures fault { RefusesUntold (O.told objects.now) result }
    ensures sure { NeedsNothing (O.sure objects.now) result }
{
    objects.sound_if_told();
    let object = body(objects, name, room)?;
    match object.kind {
        Kind::Commit => Ok((object.body, decode_commit(object.body)?)),
        Kind::Blob | Kind::Tree | Kind::Tag => Err(AskFault::Damaged),
    }
}

/// The entries of a held tree, in the order of its body.
///
/// Faults, cost and memory: those of `body`, and Damaged where this is no tree. Source: gitglossary(7), "tree object".
pub fn entries<'a, O: Objects, A: Allocator + Copy>(
    objects: &'a O,
    tree: &Name,
    room: &'a mut Vec<u8, A>,
) -> Result<TreeEntries<'a>, AskFault>
    requires held { IfTold (O.told objects.now) (IsHeldAs kinds.Tree) tree.now }
    ensures entries { IsOfTold (O.told objects.now)
        (AreEntriesAt (O.name_of objects.now) tree.now) result }
    ensures named { IfOk result
        (λ found. O.name_of objects.now kinds.Tree (tree_text found) ≡ tree.now.bytes) }
    ensures fault { RefusesUntold (O.told objects.now) result }
    ensures sure { NeedsNothing (O.sure objects.now) result }
{
    objects.sound_if_told();
    let object = body(objects, tree, room)?;
    match object.kind {
        Kind::Tree => Ok(decode_tree(object.body)?),
        Kind::Blob | Kind::Commit | Kind::Tag => Err(AskFault::Damaged),
    }
}

/// The kind of a held object.
pub(crate) fn kind_of<O: Objects, A: Allocator + Copy>(
    objects: &O,
    room: &mut Vec<u8, A>,
    name: &Name,
) -> Result<Kind, AskFault>
    requires held { IfTold (O.told objects.now) IsHeld name.now }
    ensures kind { IsOfTold (O.told objects.now)
        (λ r kind. kind ≡ kind_of (O.name_of objects.now) (value_at r name.now)) result }
    ensures fault { RefusesUntold (O.told objects.now) result }
    ensures sure { NeedsNothing (O.sure objects.now) result }
{
    Ok(body(objects, name, room)?.kind)
}

/// The commit that a held commit is, or that a held tag names. What is neither is WrongKind.
///
/// Faults, cost and memory: those of `body`. Source: gitrevisions(7), on `^{}`.
pub fn commit_of<O: Objects, A: Allocator + Copy>(
    objects: &O,
    room: &mut Vec<u8, A>,
    name: &Name,
) -> Result<Name, AskFault>
    requires held { IfTold (O.told objects.now) IsHeld name.now }
    ensures commit { Answers (O.told objects.now) commit_at
        (λ r. commit_in (value_at r name.now)) result }
    ensures held { IsOfTold (O.told objects.now) (IsHeldAs kinds.Commit) result }
    ensures sure { NeedsNothing (O.sure objects.now) result }
{
    objects.sound_if_told();
    let object = body(objects, name, room)?;
    match object.kind {
        Kind::Commit => Ok(*name),
        Kind::Tag => Ok(decode_tag(object.body)?.object()),
        Kind::Blob | Kind::Tree => Err(AskFault::Revision(RevFault::WrongKind)),
    }
}

/// The nth parent of a held commit, and the commit where n is 0. What has fewer is NoParent.
///
/// Other faults, cost and memory: those of `commit_in`. Source: gitrevisions(7), on `^n`.
pub fn parent_of<O: Objects, A: Allocator + Copy>(
    objects: &O,
    room: &mut Vec<u8, A>,
    commit: &Name,
    number: u64,
) -> Result<Name, AskFault>
    requires held { IfTold (O.told objects.now) (IsHeldAs kinds.Commit) commit.now }
    ensures parent { Answers (O.told objects.now) commit_at
        (λ r. nth_parent number (commit_at r commit.now)) result }
    ensures held { IsOfTold (O.told objects.now) (IsHeldAs kinds.Commit) result }
    ensures sure { NeedsNothing (O.sure objects.now) result }
{
    objects.sound_if_told();
    if number == 0 {
        return Ok(*commit);
    }
    let (_, view) = commit_in(objects, commit, room)?;
    match view.parent((number - 1) as usize) {
        Some(parent) => Ok(parent),
        None => Err(AskFault::Revision(RevFault::NoParent)),
    }
}

/// The commit that is n first parents up from a held one.
pub(crate) fn ancestor_of<O: Objects, A: Allocator + Copy>(
    objects: &O,
    room: &mut Vec<u8, A>,
    commit: &Name,
    number: u64,
) -> Result<Name, AskFault>
    requires held { IfTold (O.told objects.now) (IsHeldAs kinds.Commit) commit.now }
    ensures ancestor { Answers (O.told objects.now) commit_at
        (λ r. nth_ancestor number (commit_at r commit.now)) result }
    ensures held { IsOfTold (O.told objects.now) (IsHeldAs kinds.Commit) result }
    ensures sure { NeedsNothing (O.sure objects.now) result }
{
    let mut ancestor = *commit;
    let mut left = number;
    while left > 0 {
        ancestor = parent_of(objects, room, &ancestor, 1)?;
        left -= 1;
    }
    Ok(ancestor)
}

/// The tree that a held object is, or that of its commit.
pub(crate) fn tree_of<O: Objects, A: Allocator + Copy>(
    objects: &O,
    room: &mut Vec<u8, A>,
    name: &Name,
) -> Result<Name, AskFault>
    requires held { IfTold (O.told objects.now) IsHeld name.now }
    ensures files { Answers (O.told objects.now) files_at
        (λ r. files_in (value_at r name.now)) result }
    ensures held { IsOfTold (O.told objects.now) (IsHeldAs kinds.Tree) result }
    ensures sure { NeedsNothing (O.sure objects.now) result }
{
    objects.sound_if_told();
    let object = body(objects, name, room)?;
    match object.kind {
        Kind::Blob => Err(AskFault::Revision(RevFault::WrongKind)),
        Kind::Tree => Ok(*name),
        Kind::Commit => Ok(decode_commit(object.body)?.tree()),
        Kind::Tag => {
            let commit = decode_tag(object.body)?.object();
            let (_, view) = commit_in(objects, &commit, room)?;
            Ok(view.tree())
        }
    }
}
