//! What two walks both come to, as they go down together.

ghost use Rattle.std.specs.Prelude.{◌&&◌, IfSome};
ghost use Rattle.gx_objects.specs.Answers.{OnlyUntold, Tells};
ghost use Rattle.gx_ranges.specs.Fronts.{AreTips, lead_to};
ghost use Rattle.gx_merge_base.specs.Fronts.{IsFront};

use gx_object::Name;
use gx_objects::{LookFault, Objects};
use gx_ranges::{add_parents, is_reached};
use std::alloc::Allocator;
use std::collections::BTreeMap;

/// Commits that together reach what both of two fronts reach.
///
/// Where the walk from the left comes to a common one, it doesn't go on; nor does it where a common one reaches it.
/// Cost: the bodies of the commits that only one of the fronts reaches, and of those that stand as far back as these and are
/// reached from common ones; a look-up for each of their parents. Takes memory for the places that are still to be visited.
/// Source: git-merge-base(1).
pub(crate) fn meet<O: Objects, A: Allocator + Copy>(
    alloc: A,
    objects: &O,
    lefts: &mut BTreeMap<u64, Name, A>,
    rights: &mut BTreeMap<u64, Name, A>,
    room: &mut Vec<u8, A>,
) -> Result<BTreeMap<u64, Name, A>, LookFault>
    requires lefts { IfSome (O.told objects.now)
        (AreTips (O.stands objects.now) lefts.old.entries) }
    requires rights { IfSome (O.told objects.now)
        (AreTips (O.stands objects.now) rights.old.entries) }
    ensures common { Tells (O.told objects.now) (λ r common. IsFront (O.stands objects.now)
        (λ c. lead_to r lefts.old.entries c && lead_to r rights.old.entries c)
        r common.entries) result }
    ensures fault { OnlyUntold (O.told objects.now) result }
{
    objects.sound_if_told();
    let mut common = BTreeMap::new(alloc);
    let mut met = BTreeMap::new(alloc);
    while !rights.is_empty() {
        let Some((place, commit)) = lefts.pop_last() else {
            return Ok(common);
        };
        if is_reached(objects, &mut met, place, room)? {
            continue;
        }
        if !is_reached(objects, rights, place, room)? {
            add_parents(objects, lefts, place, &commit, room)?;
            continue;
        }
        rights.remove(&place);
        common.insert(place, commit)?;
        met.insert(place, commit)?;
    }
    Ok(common)
}
