//! Bundles, part by part. Source: gitformat-bundle(5).

ghost use Rattle.std.specs.Prelude.{◌≡◌, ◌++◌, ◌∷◌, ◌^◌, ◌<◌, ◌≤◌, [], length, IfErr, IfOk, IfSome, IsTrue};
ghost use Rattle.std.specs.List.{filter, flat_map};
ghost use Rattle.sha1.specs.Sha1.{Holds};
ghost use Rattle.gx_model.specs.Objects.{is_name};
ghost use Rattle.gx_object.specs.Commits.{bytes_of_names};
ghost use Rattle.gx_object.specs.Parts.{bytes_if};
ghost use Rattle.gx_objects.specs.Answers.{SpellsRefs, StandsIfTold};
ghost use Rattle.gx_listed.specs.Listings.{ListsIfTold};
ghost use Rattle.gx_store.specs.Marked.{marked};
ghost use Rattle.gx_file.specs.Sending.{Sent};
ghost use Rattle.gx_pack.specs.Bundles.{had_line};
ghost use Rattle.gx_kept.specs.Faults.{IsOnTheWay};
ghost use Rattle.gx_kept.specs.declared.bundle_fault.BundleFault.TheVariants.{Unsupported};
ghost use Rattle.gx_kept.specs.BundleFaults.{IsStopped};
ghost use Rattle.gx_kept.specs.Bundling.{NamesBundle, NamesPack, SendsObjects, SendsPackOf, WritesObject, WritesObjects, WritesPack};
ghost use Rattle.gx_kept.specs.Telling.{AreNames, HasTooMany, IsReadAs, IsReadAsPack, SendsBundled, SendsHead, SendsMarked, SendsPacked, SpellsRefsOf, TellsNames, head_line};

use crate::beyond::marks_beyond;
use crate::gone::count_marks;
use crate::{BundleFault, Bundled, KeptFault};
use gx_file::{send_all, send_text};
use gx_listed::Listing;
use gx_object::Name;
use gx_objects::Objects;
use gx_pack::Pack;
use gx_text::{Failed, Sink};
use std::alloc::Allocator;

/// Sends a bundle of refs, and of HEAD where that is told, with the objects that they reach, but for what its reader has, in the order
/// in which they are listed. Whatever the objects are, no body goes out that hasn't the name under which it is listed.
///
/// Unsupported: 2^32 objects or more would go out, and nothing did. Stopped by OutOfMemory: a growth was refused. ReadFailed: a read
/// failed. Damaged: this is no repository. WriteFailed: the sink failed. What went out by then is a front of the bundle.
/// Cost: the bundle's length, of which each byte is digested once, and the bodies of trees, commits and tags that its refs, its
/// HEAD or what its reader has reach a second time. Memory: two bytes for each object that is listed, and one body.
/// Source: git-bundle(1), gitformat-bundle(5), and gitformat-pack(5).
pub fn bundle<O: Objects, A: Allocator + Copy, W: Sink>(
    alloc: A,
    objects: &O,
    listing: &Listing<A>,
    bundled: &Bundled<'_>,
    sink: &mut W,
) -> Result<(), BundleFault>
    requires listed { ListsIfTold (O.told objects.now) (O.stands objects.now) listing.now }
    requires spelled { SpellsRefs bundled.now.refs.now }
    requires held { IfSome (O.told objects.now) (SpellsRefsOf bundled.now.refs.now) }
    ensures text { IfSome (O.told objects.now)
        (SendsBundled bundled.now (W.taken sink.old) (W.taken sink.new) result) }
    ensures read { IfSome (O.told objects.now) (IsReadAs bundled.now result) }
    ensures named { NamesBundle (O.name_of objects.now) listing.now
        (W.taken sink.old) (W.taken sink.new) result }
    ensures many { IfSome (O.told objects.now) (HasTooMany bundled.now result) }
    ensures fault { IsStopped (O.told objects.now) result }
{
    let marks = marks_beyond(alloc, objects, listing, bundled)?;
    let count = count_sent(marks.as_slice())?;
    send_bundle(
        alloc,
        objects,
        listing,
        bundled,
        marks.as_slice(),
        count,
        sink,
    )?;
    Ok(())
}

/// Sends the pack of such a bundle alone.
///
/// The faults, the cost and the memory are those of [`bundle`]. Source: gitformat-pack(5).
pub fn pack<O: Objects, A: Allocator + Copy, W: Sink>(
    alloc: A,
    objects: &O,
    listing: &Listing<A>,
    bundled: &Bundled<'_>,
    sink: &mut W,
) -> Result<(), BundleFault>
    requires listed { ListsIfTold (O.told objects.now) (O.stands objects.now) listing.now }
    requires spelled { SpellsRefs bundled.now.refs.now }
    requires held { IfSome (O.told objects.now) (SpellsRefsOf bundled.now.refs.now) }
    ensures text { IfSome (O.told objects.now)
        (SendsPacked bundled.now (W.taken sink.old) (W.taken sink.new) result) }
    ensures read { IfSome (O.told objects.now) (IsReadAsPack bundled.now result) }
    ensures named { NamesPack (O.name_of objects.now) listing.now
        (W.taken sink.old) (W.taken sink.new) result }
    ensures many { IfSome (O.told objects.now) (HasTooMany bundled.now result) }
    ensures fault { IsStopped (O.told objects.now) result }
{
    let marks = marks_beyond(alloc, objects, listing, bundled)?;
    let count = count_sent(marks.as_slice())?;
    send_pack(alloc, objects, listing, marks.as_slice(), count, sink)?;
    Ok(())
}

/// How many of these marks stand. Unsupported: more than a pack can tell. Takes no memory.
fn count_sent(marks: &[bool]) -> Result<u32, BundleFault>
    ensures count { IfOk result (λ count. count ≡ length (filter (λ mark. mark) marks.now)) }
    ensures few { IfOk result (λ _. length (filter (λ mark. mark) marks.now) < 2 ^ 32) }
    ensures many { IfErr result (λ fault. (fault ≡ Unsupported)
        × (2 ^ 32 ≤ length (filter (λ mark. mark) marks.now))) }
{
    let count = count_marks(marks);
    if count > u32::MAX as usize {
        return Err(BundleFault::Unsupported);
    }
    Ok(count as u32)
}

/// Sends the bundle that tells this, of the objects that are marked, of which there are so many.
fn send_bundle<O: Objects, A: Allocator + Copy, W: Sink>(
    alloc: A,
    objects: &O,
    listing: &Listing<A>,
    bundled: &Bundled<'_>,
    marks: &[bool],
    count: u32,
    sink: &mut W,
) -> Result<(), KeptFault>
    requires listed { ListsIfTold (O.told objects.now) (O.stands objects.now) listing.now }
    requires spelled { SpellsRefs bundled.now.refs.now }
    requires long { length marks.now ≡ length listing.now }
    requires count { count ≡ length (marked marks.now listing.now) }
    ensures text { IfSome (O.told objects.now) (SendsMarked bundled.now marks.now
        (W.taken sink.old) (W.taken sink.new) result) }
    ensures names { IfOk result (λ _. TellsNames bundled.now) }
    ensures named { SendsObjects (O.name_of objects.now) (marked marks.now listing.now)
        (W.taken sink.old) (W.taken sink.new) result }
    ensures fault { IsOnTheWay (O.told objects.now) result }
{
    send_head(sink, bundled)?;
    send_pack(alloc, objects, listing, marks, count, sink)
}

/// Sends what stands before the pack.
fn send_head<W: Sink>(sink: &mut W, bundled: &Bundled<'_>) -> Result<(), Failed>
    ensures text { SendsHead bundled.now (W.taken sink.old) (W.taken sink.new) result }
    ensures names { IfOk result (λ _. TellsNames bundled.now) }
{
    send_text(sink, b"# v2 git bundle\n")?;
    send_had(sink, bundled.had)?;
    send_refs(sink, bundled.head, bundled.refs)
}

/// Sends a line for each of these objects, which the bundle's reader has.
fn send_had<W: Sink>(sink: &mut W, had: &[Name]) -> Result<(), Failed>
    ensures text { Sent (flat_map had_line (bytes_of_names had.now))
        (W.taken sink.old) (W.taken sink.new) result }
    ensures names { IfOk result (λ _. AreNames had.now) }
{
    for name in had {
        let digits = name.hex();
        send_all(sink, &[b"-", digits.as_slice(), b" \n"])?;
    }
    Ok(())
}

/// Sends the lines of refs, behind that of HEAD, and the empty one that ends them.
fn send_refs<W: Sink>(sink: &mut W, head: Option<Name>, lines: &[u8]) -> Result<(), Failed>
    ensures text { Sent ((head_line (bytes_if head) ++ lines.now) ++ 10 ∷ [])
        (W.taken sink.old) (W.taken sink.new) result }
    ensures names { IfSome head (λ called. IsTrue (is_name called.bytes)) }
{
    let Some(head) = head else {
        return send_all(sink, &[lines, b"\n"]);
    };
    let digits = head.hex();
    send_all(sink, &[digits.as_slice(), b" HEAD\n", lines, b"\n"])
}

/// Sends the pack of the objects that are marked, of which there are so many.
fn send_pack<O: Objects, A: Allocator + Copy, W: Sink>(
    alloc: A,
    objects: &O,
    listing: &Listing<A>,
    marks: &[bool],
    count: u32,
    sink: &mut W,
) -> Result<(), KeptFault>
    requires listed { ListsIfTold (O.told objects.now) (O.stands objects.now) listing.now }
    requires long { length marks.now ≡ length listing.now }
    requires count { count ≡ length (marked marks.now listing.now) }
    ensures text { SendsPackOf (O.name_of objects.now) (O.told objects.now) listing.now marks.now
        (W.taken sink.old) (W.taken sink.new) result }
    ensures fault { IsOnTheWay (O.told objects.now) result }
{
    let mut room = Vec::new(alloc);
    let mut pack = Pack::new(sink);
    let written = write_pack(objects, listing, marks, count, &mut room, &mut pack);
    let _ = pack.into_sink();
    written
}

/// Writes the pack of the objects that are marked, of which nothing was written yet.
fn write_pack<O: Objects, A: Allocator + Copy, W: Sink>(
    objects: &O,
    listing: &Listing<A>,
    marks: &[bool],
    count: u32,
    room: &mut Vec<u8, A>,
    pack: &mut Pack<'_, W>,
) -> Result<(), KeptFault>
    requires listed { ListsIfTold (O.told objects.now) (O.stands objects.now) listing.now }
    requires long { length marks.now ≡ length listing.now }
    requires count { count ≡ length (marked marks.now listing.now) }
    requires digested { Holds pack.old.hasher [] }
    ensures pack { WritesPack (O.name_of objects.now) (O.told objects.now) listing.now marks.now
        pack.old pack.new result }
    ensures fault { IsOnTheWay (O.told objects.now) result }
{
    pack.write_head(count)?;
    write_objects(objects, listing, marks, room, pack)?;
    pack.write_end()?;
    Ok(())
}

/// Writes the entries of the objects that are marked.
fn write_objects<O: Objects, A: Allocator + Copy, W: Sink>(
    objects: &O,
    listing: &Listing<A>,
    marks: &[bool],
    room: &mut Vec<u8, A>,
    pack: &mut Pack<'_, W>,
) -> Result<(), KeptFault>
    requires listed { ListsIfTold (O.told objects.now) (O.stands objects.now) listing.now }
    requires long { length marks.now ≡ length listing.now }
    ensures objects { WritesObjects (O.name_of objects.now) (O.told objects.now)
        listing.now marks.now pack.old pack.new result }
    ensures fault { IsOnTheWay (O.told objects.now) result }
{
    objects.sound_if_told();
    for number in 0..listing.len() {
        if marks[number] {
            let Some((name, standing)) = listing.get(number) else {
                unreachable!();
            };
            write_object(objects, &name, standing.place, room, pack)?;
        }
    }
    Ok(())
}

/// Writes the entry of the object of a name, which stands at a place.
fn write_object<O: Objects, A: Allocator + Copy, W: Sink>(
    objects: &O,
    name: &Name,
    place: u64,
    room: &mut Vec<u8, A>,
    pack: &mut Pack<'_, W>,
) -> Result<(), KeptFault>
    requires there { StandsIfTold (O.told objects.now) (O.stands objects.now) name.now.bytes place }
    ensures object { WritesObject (O.name_of objects.now) (O.told objects.now) name.now.bytes
        pack.old pack.new result }
    ensures fault { IsOnTheWay (O.told objects.now) result }
{
    let object = objects.object_at(place, name, room)?;
    pack.write_object(object.kind, object.body)?;
    Ok(())
}
