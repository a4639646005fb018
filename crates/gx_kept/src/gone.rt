//! How much goes where objects aren't marked.

ghost use Rattle.std.specs.Prelude.{◌≡◌, ◌+◌, length, List};
ghost use Rattle.std.specs.List.{filter};
ghost use Rattle.gx_model.specs.Histories.{Record};
ghost use Rattle.gx_repo.specs.Pruning.{weight};
ghost use Rattle.gx_store.specs.Marked.{marked};
ghost use Rattle.gx_listed.specs.Listings.{HaveHeads};

use gx_listed::Listing;
use gx_repo::Pruned;
use std::alloc::Allocator;

/// How many of the objects aren't marked, and how many bytes their bodies have. Takes no memory.
pub(crate) fn gone<A: Allocator + Copy>(listing: &Listing<A>, marks: &[bool]) -> Pruned
    requires { length marks.now ≡ length listing.now }
    ensures objects { result.objects + length (marked marks.now listing.now) ≡ length listing.now }
    ensures bytes { (records : List Record) → HaveHeads listing.now records
        → result.bytes + weight (marked marks.now records) ≡ weight records }
{
    let mut objects = 0;
    let mut bytes = 0;
    for number in 0..listing.len() {
        if !marks[number] {
            let Some((_, standing)) = listing.get(number) else {
                unreachable!();
            };
            objects += 1;
            bytes += standing.length as u128;
        }
    }
    Pruned { objects, bytes }
}

/// How many marks there are. Takes no memory.
pub(crate) fn count_marks(marks: &[bool]) -> usize
    ensures { result ≡ length (filter (λ mark. mark) marks.now) }
{
    let mut count = 0;
    for mark in marks {
        if *mark {
            count += 1;
        }
    }
    count
}
