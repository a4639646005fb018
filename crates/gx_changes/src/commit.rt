//! One commit by what differs from its first parent, after the blobs that weren't written yet.

ghost use Rattle.std.specs.Prelude.{◌≡◌, ◌++◌, suc, IfSome, List, length};
ghost use Rattle.gx_model.specs.declared.objects.Kind.{Kind};
ghost use Rattle.gx_model.specs.declared.objects.Kind.TheVariants as kinds;
ghost use Rattle.gx_model.specs.Changes.{named_in, with_changes};
ghost use Rattle.gx_model.specs.Histories.Values.{Value};
ghost use Rattle.gx_model.specs.Histories.{Records};
ghost use Rattle.gx_model.specs.Objects.{IsNamer};
ghost use Rattle.gx_model.specs.Records.Sound.{IsSound};
ghost use Rattle.gx_model.specs.Texts.{Bytes};
ghost use Rattle.gx_object.specs.Parts.{bytes_if};
ghost use Rattle.gx_questions.specs.Answers.{IsOfTold, RefusesUntold};
ghost use Rattle.gx_rev.specs.Objects.{IsHeldAs, commit_at};
ghost use Rattle.gx_export.specs.ChangedParts.{lines_on, one_on};
ghost use Rattle.gx_export.specs.Compared.{tree_if};
ghost use Rattle.gx_export.specs.Parts.{commits_called};
ghost use Rattle.gx_export.specs.Texts.{head_items, items_of, parents_by, root_items};
ghost use Rattle.gx_sending.specs.Faults.{IsOnTheWay};
ghost use Rattle.gx_sending.specs.Files.{AreShown, contents_at};
ghost use Rattle.gx_sending.specs.Marks.{Adds, HasWritten, IsWritten};
ghost use Rattle.gx_changes.specs.Commits.{HoldsParents, IsPartsOf, OfItsParts};

use gx_differences::{Differences, compare};
use gx_export::{parent_word, write_commit_head, write_parent, write_root};
use gx_object::{CommitView, Name};
use gx_objects::Objects;
use gx_questions::{AskFault, commit_in};
use gx_sending::{SendFault, Written, write_blobs, write_differences};
use gx_text::Sink;
use std::alloc::Allocator;

/// Writes a held commit to a branch, its blobs first. What is in the room before and after stands for nothing.
pub(crate) fn write_commit<O: Objects, A: Allocator + Copy, W: Sink>(
    alloc: A,
    objects: &O,
    room: &mut Vec<u8, A>,
    written: &mut Written<'_, W, A>,
    branch: &[u8],
    commit: &Name,
) -> Result<(), SendFault>
    requires held { IfSome (O.told objects.now) (λ r. IsHeldAs kinds.Commit r commit.now) }
    requires written { IfSome (O.told objects.now) (IsWritten written.old) }
    ensures adds { IfSome (O.told objects.now) (λ r. (ws : List Value) → HasWritten r ws written.old
        → Adds (with_changes ws (commit_at r commit.now)) (items_of (one_on (O.name_of objects.now)
        branch.now ws (commit_at r commit.now))) written.old written.new result r) }
    ensures fault { IsOnTheWay (O.told objects.now) result }
{
    objects.sound_if_told();
    let mut body = Vec::new(alloc);
    let (_, view) = commit_in(objects, commit, &mut body)?;
    let found = own_changes(alloc, objects, room, &view)?;
    write_blobs(objects, room, written, &found.files)?;
    write_lines(alloc, written, branch, &view, &found)?;
    written.mark(commit)
}

/// What differs between the files of a held commit and those of its first parent.
fn own_changes<O: Objects, A: Allocator + Copy>(
    alloc: A,
    objects: &O,
    room: &mut Vec<u8, A>,
    commit: &CommitView<'_>,
) -> Result<Differences<A>, AskFault>
    requires { IfSome (O.told objects.now) (IsPartsOf (O.name_of objects.now) commit.now) }
    ensures found { IsOfTold (O.told objects.now)
        (OfItsParts (O.name_of objects.now) commit.now) result }
    ensures fault { RefusesUntold (O.told objects.now) result }
{
    objects.sound_if_told();
    let base = tree_of(objects, room, commit.parent(0))?;
    compare(alloc, objects, base, Some(commit.tree()))
}

/// The tree of a held commit, where there is one.
fn tree_of<O: Objects, A: Allocator + Copy>(
    objects: &O,
    room: &mut Vec<u8, A>,
    commit: Option<Name>,
) -> Result<Option<Name>, AskFault>
    requires { IfSome (O.told objects.now) (λ r. IfSome commit (IsHeldAs kinds.Commit r)) }
    ensures tree { IsOfTold (O.told objects.now)
        (λ r tree. bytes_if tree ≡ tree_if (O.name_of objects.now) r commit) result }
    ensures fault { RefusesUntold (O.told objects.now) result }
{
    let Some(commit) = commit else {
        return Ok(None);
    };
    let (_, view) = commit_in(objects, &commit, room)?;
    Ok(Some(view.tree()))
}

/// Writes the lines of a commit whose blobs were written.
fn write_lines<A: Allocator + Copy, W: Sink>(
    alloc: A,
    written: &mut Written<'_, W, A>,
    branch: &[u8],
    commit: &CommitView<'_>,
    found: &Differences<A>,
) -> Result<(), SendFault>
    ensures { (name : Kind → Bytes → Bytes) (r : Records) (ws : List Value)
        → HasWritten r ws written.old
        → AreShown name ws r found.now.files.items
        → HoldsParents r commit.now
        → Adds ws (root_items branch.now (length commit.now.parents)
        ++ lines_on branch.now (named_in name ws) ws commit.now.text
        (commits_called r commit.now.parents) found.now.gone.items
        (contents_at r found.now.files.items)) written.old written.new result r }
{
    write_head(written, branch, commit)?;
    write_parents(written, commit)?;
    write_differences(alloc, written, found)
}

/// Writes the lines of a commit up to its message, under the next mark.
fn write_head<A: Allocator + Copy, W: Sink>(
    written: &mut Written<'_, W, A>,
    branch: &[u8],
    commit: &CommitView<'_>,
) -> Result<(), SendFault>
    ensures { (r : Records) (ws : List Value)
        → HasWritten r ws written.old
        → Adds ws (root_items branch.now (length commit.now.parents)
        ++ head_items branch.now (suc (length ws)) commit.now.text) written.old
        written.new result r }
{
    write_root(&mut written.output, branch, commit)?;
    let mark = written.next_mark();
    write_commit_head(&mut written.output, branch, mark, commit)?;
    Ok(())
}

/// Writes the lines of a commit's parents.
fn write_parents<A: Allocator + Copy, W: Sink>(
    written: &mut Written<'_, W, A>,
    commit: &CommitView<'_>,
) -> Result<(), SendFault>
    ensures { (name : Kind → Bytes → Bytes) (r : Records) (ws : List Value)
        → IsNamer name
        → IsSound name r
        → HasWritten r ws written.old
        → HoldsParents r commit.now
        → Adds ws (parents_by (named_in name ws) (commits_called r commit.now.parents))
        written.old written.new result r }
{
    for number in 0..commit.parent_count() {
        if let Some(parent) = commit.parent(number) {
            let named = written.commit_ish(&parent);
            write_parent(&mut written.output, parent_word(number), named)?;
        }
    }
    Ok(())
}
