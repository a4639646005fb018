//! Marks of the objects that refs reach, by their numbers: what an object names stands before it, so one pass from the newest object
//! on spreads them. Source: git-prune(1), and gitglossary(7), "reachable".

ghost use Rattle.std.specs.Prelude.{◌≡◌, ◌<◌, ◌≤◌, false, length, replicate, IfErr, IfOk, IfSome, OnOk};
ghost use Rattle.gx_object.specs.Commits.{bytes_of_names};
ghost use Rattle.gx_objects.specs.Answers.{OnlyUntold, SpellsRefs, Tells};
ghost use Rattle.gx_objects.specs.declared.fault.LookFault.TheVariants.{Damaged};
ghost use Rattle.gx_repo.specs.Pruning.{Spreads, is_kept_beside, marks_by};
ghost use Rattle.gx_listed.specs.Listings.{ListsIfTold};
ghost use Rattle.gx_kept.specs.Marking.{MarksHeld, MarksTips, RefusesTips, SpreadsAt};

use crate::links::{mark_below, mark_links};
use gx_file::read_ref;
use gx_listed::Listing;
use gx_object::{Kind, Name};
use gx_objects::{LookFault, Objects};
use std::alloc::Allocator;

/// Which of the objects that are listed refs reach, or the objects of these names, which reach themselves. A name that no object has
/// marks none.
///
/// OutOfMemory: a growth was refused. ReadFailed: a read failed. Damaged: this is no repository.
/// Cost: the refs, the names, and for each tree, commit and tag that is reached its body, and a look-up for each object that it names.
/// No blob is read. Memory: a byte for each object, and one body. Source: git-prune(1), and gitglossary(7), "reachable".
pub(crate) fn marks_of<O: Objects, A: Allocator + Copy>(
    alloc: A,
    objects: &O,
    listing: &Listing<A>,
    kept: &[Name],
) -> Result<Vec<bool, A>, LookFault>
    requires listed { ListsIfTold (O.told objects.now) (O.stands objects.now) listing.now }
    ensures count { IfOk result (λ marks. length marks.items ≡ length listing.now) }
    ensures marks { Tells (O.told objects.now) (λ r marks. marks.items
        ≡ marks_by (is_kept_beside (bytes_of_names kept.now) r) r.records) result }
    ensures fault { OnlyUntold (O.told objects.now) result }
{
    let count = listing.len();
    let mut marks = vec![in alloc; false; count]?;
    mark_kept(alloc, objects, listing, &mut marks, kept)?;
    Ok(marks)
}

/// Marks what refs and the objects of these names reach, where nothing is marked.
fn mark_kept<O: Objects, A: Allocator + Copy>(
    alloc: A,
    objects: &O,
    listing: &Listing<A>,
    marks: &mut [bool],
    kept: &[Name],
) -> Result<(), LookFault>
    requires listed { ListsIfTold (O.told objects.now) (O.stands objects.now) listing.now }
    requires none { marks.old ≡ replicate (length listing.now) false }
    ensures same_room { length marks.new ≡ length marks.old }
    ensures marks { IfSome (O.told objects.now) (λ r. OnOk result
        (marks.new ≡ marks_by (is_kept_beside (bytes_of_names kept.now) r) r.records)) }
    ensures fault { OnlyUntold (O.told objects.now) result }
{
    objects.sound_if_told();
    let mut room = Vec::new(alloc);
    mark_tips(listing, marks, objects.ref_lines(&mut room)?)?;
    mark_names(listing, marks, kept);
    spread(objects, listing, marks, &mut room)
}

/// Marks the objects that refs hold, of which these are the lines. `Damaged` where one isn't listed.
pub(crate) fn mark_tips<A: Allocator + Copy>(
    listing: &Listing<A>,
    marks: &mut [bool],
    lines: &[u8],
) -> Result<(), LookFault>
    requires lines { SpellsRefs lines.now }
    requires long { length marks.old ≡ length listing.now }
    ensures same_room { length marks.new ≡ length marks.old }
    ensures marks { MarksTips listing.now lines.now marks.old marks.new result }
    ensures refused { RefusesTips listing.now lines.now result }
    ensures fault { IfErr result (λ fault. fault ≡ Damaged) }
{
    let mut rest = lines;
    while let Ok((change, behind)) = read_ref(rest) {
        mark_below(listing, marks, listing.len(), &change.target)?;
        rest = behind;
    }
    Ok(())
}

/// Marks the objects of these names, where they are listed.
pub(crate) fn mark_names<A: Allocator + Copy>(
    listing: &Listing<A>,
    marks: &mut [bool],
    names: &[Name],
)
    requires long { length marks.old ≡ length listing.now }
    ensures same_room { length marks.new ≡ length marks.old }
    ensures marks { MarksHeld listing.now (bytes_of_names names.now) marks.old marks.new }
{
    for name in names {
        if let Some(number) = listing.number(name) {
            marks[number] = true;
        }
    }
}

/// Marks what the marked objects reach.
pub(crate) fn spread<O: Objects, A: Allocator + Copy>(
    objects: &O,
    listing: &Listing<A>,
    marks: &mut [bool],
    room: &mut Vec<u8, A>,
) -> Result<(), LookFault>
    requires listed { ListsIfTold (O.told objects.now) (O.stands objects.now) listing.now }
    requires long { length marks.old ≡ length listing.now }
    ensures same_room { length marks.new ≡ length marks.old }
    ensures spreads { IfSome (O.told objects.now) (λ r. OnOk result (Spreads r.records marks.old marks.new)) }
    ensures fault { OnlyUntold (O.told objects.now) result }
{
    let mut left = marks.len();
    while left > 0 {
        left -= 1;
        if marks[left] {
            mark_named_by(objects, listing, left, marks, room)?;
        }
    }
    Ok(())
}

/// Marks what the object of a number names. A blob names nothing, and isn't read.
fn mark_named_by<O: Objects, A: Allocator + Copy>(
    objects: &O,
    listing: &Listing<A>,
    number: usize,
    marks: &mut [bool],
    room: &mut Vec<u8, A>,
) -> Result<(), LookFault>
    requires listed { ListsIfTold (O.told objects.now) (O.stands objects.now) listing.now }
    requires long { length marks.old ≡ length listing.now }
    requires within { number < length listing.now }
    ensures same_room { length marks.new ≡ length marks.old }
    ensures marks { IfSome (O.told objects.now) (λ r. OnOk result
        (SpreadsAt r.records number marks.old marks.new)) }
    ensures fault { OnlyUntold (O.told objects.now) result }
{
    objects.sound_if_told();
    let Some((name, standing)) = listing.get(number) else {
        unreachable!();
    };
    if standing.kind == Kind::Blob {
        return Ok(());
    }
    let object = objects.object_at(standing.place, &name, room)?;
    mark_links(listing, marks, number, object.kind, object.body)
}
