//! Marks of what an object names, which stands before it. Source: gitglossary(7), "reachable".

ghost use Rattle.std.specs.Prelude.{◌≡◌, ◌≤◌, ◌∷◌, [], length, IfErr};
ghost use Rattle.gx_model.specs.declared.objects.Kind.TheVariants as kinds;
ghost use Rattle.gx_model.specs.Pruning.{links_of};
ghost use Rattle.gx_objects.specs.declared.fault.LookFault.TheVariants.{Damaged};
ghost use Rattle.gx_kept.specs.Marking.{IsBelow, MarksListed, RefusesOthers};

use gx_listed::Listing;
use gx_object::{Kind, Mode, Name, decode_commit, decode_tag, decode_tree};
use gx_objects::LookFault;
use std::alloc::Allocator;

/// Marks what an object of this kind and body names. `Damaged` where the body isn't a canonical one, or names an object whose number
/// isn't below the limit.
///
/// Cost: the body, and a look-up for each object that it names. Takes no memory.
pub(crate) fn mark_links<A: Allocator + Copy>(
    listing: &Listing<A>,
    marks: &mut [bool],
    limit: usize,
    kind: Kind,
    body: &[u8],
) -> Result<(), LookFault>
    requires within { limit ≤ length marks.old }
    ensures same_room { length marks.new ≡ length marks.old }
    ensures marks { MarksListed listing.now (links_of kind body.now) marks.old marks.new result }
    ensures refused { RefusesOthers listing.now limit kind body.now result }
    ensures fault { IfErr result (λ fault. fault ≡ Damaged) }
{
    match kind {
        Kind::Blob => Ok(()),
        Kind::Tree => mark_entries(listing, marks, limit, body),
        Kind::Commit => mark_tree_and_parents(listing, marks, limit, body),
        Kind::Tag => mark_tagged(listing, marks, limit, body),
    }
}

/// Marks what the entries of a tree name. A gitlink names no object.
fn mark_entries<A: Allocator + Copy>(
    listing: &Listing<A>,
    marks: &mut [bool],
    limit: usize,
    body: &[u8],
) -> Result<(), LookFault>
    requires within { limit ≤ length marks.old }
    ensures same_room { length marks.new ≡ length marks.old }
    ensures marks { MarksListed listing.now (links_of kinds.Tree body.now) marks.old marks.new result }
    ensures refused { RefusesOthers listing.now limit kinds.Tree body.now result }
    ensures fault { IfErr result (λ fault. fault ≡ Damaged) }
{
    let Ok(entries) = decode_tree(body) else {
        return Err(LookFault::Damaged);
    };
    for entry in entries {
        if entry.mode != Mode::Gitlink {
            mark_below(listing, marks, limit, &entry.name)?;
        }
    }
    Ok(())
}

/// Marks the tree and the parents of a commit.
fn mark_tree_and_parents<A: Allocator + Copy>(
    listing: &Listing<A>,
    marks: &mut [bool],
    limit: usize,
    body: &[u8],
) -> Result<(), LookFault>
    requires within { limit ≤ length marks.old }
    ensures same_room { length marks.new ≡ length marks.old }
    ensures marks { MarksListed listing.now (links_of kinds.Commit body.now) marks.old marks.new result }
    ensures refused { RefusesOthers listing.now limit kinds.Commit body.now result }
    ensures fault { IfErr result (λ fault. fault ≡ Damaged) }
{
    let Ok(commit) = decode_commit(body) else {
        return Err(LookFault::Damaged);
    };
    mark_below(listing, marks, limit, &commit.tree())?;
    for number in 0..commit.parent_count() {
        let Some(parent) = commit.parent(number) else {
            unreachable!();
        };
        mark_below(listing, marks, limit, &parent)?;
    }
    Ok(())
}

/// Marks the object of a tag.
fn mark_tagged<A: Allocator + Copy>(
    listing: &Listing<A>,
    marks: &mut [bool],
    limit: usize,
    body: &[u8],
) -> Result<(), LookFault>
    requires within { limit ≤ length marks.old }
    ensures same_room { length marks.new ≡ length marks.old }
    ensures marks { MarksListed listing.now (links_of kinds.Tag body.now) marks.old marks.new result }
    ensures refused { RefusesOthers listing.now limit kinds.Tag body.now result }
    ensures fault { IfErr result (λ fault. fault ≡ Damaged) }
{
    let Ok(tag) = decode_tag(body) else {
        return Err(LookFault::Damaged);
    };
    mark_below(listing, marks, limit, &tag.object())
}

/// Marks the object of this name. `Damaged` where its number isn't below the limit, or it has none.
pub(crate) fn mark_below<A: Allocator + Copy>(
    listing: &Listing<A>,
    marks: &mut [bool],
    limit: usize,
    name: &Name,
) -> Result<(), LookFault>
    requires within { limit ≤ length marks.old }
    ensures same_room { length marks.new ≡ length marks.old }
    ensures marks { MarksListed listing.now (name.now.bytes ∷ []) marks.old marks.new result }
    ensures refused { IfErr result (λ _. IsBelow listing.now limit name.now.bytes → ⊥) }
    ensures fault { IfErr result (λ fault. fault ≡ Damaged) }
{
    let Some(number) = listing.number(name) else {
        return Err(LookFault::Damaged);
    };
    if limit <= number {
        return Err(LookFault::Damaged);
    }
    marks[number] = true;
    Ok(())
}
