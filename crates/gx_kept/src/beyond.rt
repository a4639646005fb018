//! Marks of the objects that refs or HEAD reach and other objects don't, by their numbers. Source: git-rev-list(1), `--objects`.

ghost use Rattle.std.specs.Prelude.{◌≡◌, ◌++◌, false, length, replicate, IfOk, IfSome, OnOk};
ghost use Rattle.gx_model.specs.Pruning.{is_reachable};
ghost use Rattle.gx_object.specs.Commits.{bytes_of_names};
ghost use Rattle.gx_object.specs.Parts.{bytes_if};
ghost use Rattle.gx_objects.specs.Answers.{OnlyUntold, SpellsRefs, Tells};
ghost use Rattle.gx_repo.specs.Pruning.{marks_by, tips_of};
ghost use Rattle.gx_listed.specs.Listings.{ListsIfTold};
ghost use Rattle.gx_kept.specs.Marking.{without_marks};
ghost use Rattle.gx_kept.specs.Telling.{OfRefs, SpellsRefsOf, head_refs, is_sent};

use crate::Bundled;
use crate::marking::{mark_names, mark_tips, spread};
use gx_listed::Listing;
use gx_object::Name;
use gx_objects::{LookFault, Objects};
use std::alloc::Allocator;

/// Which of the objects that are listed go out with a bundle: its refs or its HEAD reach them, and what its reader has doesn't. A name
/// that no object has reaches none.
///
/// OutOfMemory: a growth was refused. ReadFailed: a read failed. Damaged: this is no repository.
/// Cost: the refs, the names, and for each tree, commit and tag that either reach its body, and a look-up for each object that it
/// names. No blob is read. Memory: two bytes for each object, and one body. Source: git-rev-list(1), `--objects`.
pub(crate) fn marks_beyond<O: Objects, A: Allocator + Copy>(
    alloc: A,
    objects: &O,
    listing: &Listing<A>,
    bundled: &Bundled<'_>,
) -> Result<Vec<bool, A>, LookFault>
    requires listed { ListsIfTold (O.told objects.now) (O.stands objects.now) listing.now }
    requires spelled { SpellsRefs bundled.now.refs.now }
    requires held { IfSome (O.told objects.now) (SpellsRefsOf bundled.now.refs.now) }
    ensures count { IfOk result (λ marks. length marks.items ≡ length listing.now) }
    ensures marks { Tells (O.told objects.now) (λ r marks. OfRefs bundled.now.refs.now
        (λ refs. marks.items ≡ marks_by (is_sent bundled.now refs r) r.records)) result }
    ensures fault { OnlyUntold (O.told objects.now) result }
{
    let mut marks = marks_wanted(alloc, objects, listing, bundled.refs, bundled.head)?;
    let reached = marks_reached(alloc, objects, listing, b"", bundled.had)?;
    unmark(&mut marks, reached.as_slice());
    Ok(marks)
}

/// Which of the objects that are listed HEAD reaches, or the refs of these lines.
fn marks_wanted<O: Objects, A: Allocator + Copy>(
    alloc: A,
    objects: &O,
    listing: &Listing<A>,
    refs: &[u8],
    head: Option<Name>,
) -> Result<Vec<bool, A>, LookFault>
    requires listed { ListsIfTold (O.told objects.now) (O.stands objects.now) listing.now }
    requires spelled { SpellsRefs refs.now }
    requires held { IfSome (O.told objects.now) (SpellsRefsOf refs.now) }
    ensures count { IfOk result (λ marks. length marks.items ≡ length listing.now) }
    ensures marks { Tells (O.told objects.now) (λ r marks. OfRefs refs.now (λ refs. marks.items
        ≡ marks_by (is_reachable (head_refs (bytes_if head) ++ refs) r.records) r.records)) result }
    ensures fault { OnlyUntold (O.told objects.now) result }
{
    let Some(called) = head else {
        return marks_reached(alloc, objects, listing, refs, &[]);
    };
    marks_reached(alloc, objects, listing, refs, &[called])
}

/// Which of the objects that are listed the refs of these lines reach, or the objects of these names.
fn marks_reached<O: Objects, A: Allocator + Copy>(
    alloc: A,
    objects: &O,
    listing: &Listing<A>,
    refs: &[u8],
    names: &[Name],
) -> Result<Vec<bool, A>, LookFault>
    requires listed { ListsIfTold (O.told objects.now) (O.stands objects.now) listing.now }
    requires spelled { SpellsRefs refs.now }
    requires held { IfSome (O.told objects.now) (SpellsRefsOf refs.now) }
    ensures count { IfOk result (λ marks. length marks.items ≡ length listing.now) }
    ensures marks { Tells (O.told objects.now) (λ r marks. OfRefs refs.now (λ refs. marks.items
        ≡ marks_by (is_reachable (refs ++ tips_of (bytes_of_names names.now)) r.records)
        r.records)) result }
    ensures fault { OnlyUntold (O.told objects.now) result }
{
    let count = listing.len();
    let mut marks = vec![in alloc; false; count]?;
    mark_reached(alloc, objects, listing, &mut marks, refs, names)?;
    Ok(marks)
}

/// Marks what the refs of these lines reach, or the objects of these names, where nothing is marked.
fn mark_reached<O: Objects, A: Allocator + Copy>(
    alloc: A,
    objects: &O,
    listing: &Listing<A>,
    marks: &mut [bool],
    refs: &[u8],
    names: &[Name],
) -> Result<(), LookFault>
    requires listed { ListsIfTold (O.told objects.now) (O.stands objects.now) listing.now }
    requires spelled { SpellsRefs refs.now }
    requires held { IfSome (O.told objects.now) (SpellsRefsOf refs.now) }
    requires none { marks.old ≡ replicate (length listing.now) false }
    ensures same_room { length marks.new ≡ length marks.old }
    ensures marks { IfSome (O.told objects.now) (λ r. OnOk result (OfRefs refs.now (λ refs.
        marks.new ≡ marks_by (is_reachable (refs ++ tips_of (bytes_of_names names.now)) r.records)
        r.records))) }
    ensures fault { OnlyUntold (O.told objects.now) result }
{
    objects.sound_if_told();
    mark_tips(listing, marks, refs)?;
    mark_names(listing, marks, names);
    let mut room = Vec::new(alloc);
    spread(objects, listing, marks, &mut room)
}

/// Takes the marks away that stand in another list, too.
fn unmark(marks: &mut [bool], others: &[bool])
    requires { length others.now ≡ length marks.old }
    ensures same_room { length marks.new ≡ length marks.old }
    ensures left { marks.new ≡ without_marks marks.old others.now }
{
    for number in 0..others.len() {
        if others[number] {
            marks[number] = false;
        }
    }
}
