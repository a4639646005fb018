//! The commits that range words exclude. Source: gitrevisions(7), "Specifying Ranges".

ghost use Rattle.std.specs.Prelude.{◌≡◌, IfErr, IfOk, map};
ghost use Rattle.gx_objects.specs.declared.fault.LookFault.TheVariants.{OutOfMemory};
ghost use Rattle.gx_rev.specs.Views.{shown_range};
ghost use Rattle.gx_bundled.specs.Excluded.{FindsExcluded, items_if};

use gx_object::Name;
use gx_objects::{LookFault, Objects};
use gx_ranges::{RangeFault, add_words};
use gx_rev::Range;
use std::alloc::Allocator;
use std::collections::BTreeMap;

/// The names of commits that together reach what words exclude. What is in the room before and after stands for nothing.
pub(crate) fn excluded<O: Objects, A: Allocator + Copy>(
    alloc: A,
    objects: &O,
    room: &mut Vec<u8, A>,
    words: &[Range<A>],
) -> Result<Vec<Name, A>, RangeFault>
    ensures { FindsExcluded (O.name_of objects.now) (O.told objects.now)
        (map shown_range words.now) (items_if result) }
{
    let mut wanted = BTreeMap::new(alloc);
    let mut unwanted = BTreeMap::new(alloc);
    add_words(alloc, objects, room, words, &mut wanted, &mut unwanted)?;
    Ok(names_in(alloc, &unwanted)?)
}

/// The commits of a front, in the order of their places.
fn names_in<A: Allocator + Copy>(
    alloc: A,
    front: &BTreeMap<u64, Name, A>,
) -> Result<Vec<Name, A>, LookFault>
    ensures names { IfOk result (λ names. names.items ≡ map (λ tip. tip.1) front.now.entries) }
    ensures memory { IfErr result (λ fault. fault ≡ OutOfMemory) }
{
    let mut names = Vec::new(alloc);
    for (_, commit) in front.iter() {
        names.push(*commit)?;
    }
    Ok(names)
}
