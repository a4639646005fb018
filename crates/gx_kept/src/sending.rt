//! The records that are kept go out, and what stands around them.

ghost use Rattle.std.specs.Prelude.{◌≡◌, ◌<◌, ◌^◌, ◌↔◌, length, IfOk, IfSome, IsTrue};
ghost use Rattle.sha2.specs.Sha256.{sha256};
ghost use Rattle.gx_objects.specs.Answers.{StandsIfTold};
ghost use Rattle.gx_growing.specs.GrowingText.{growing_text};
ghost use Rattle.gx_listed.specs.Listings.{ListsIfTold};
ghost use Rattle.gx_kept.specs.Faults.{IsOnTheWay, Sends};
ghost use Rattle.gx_kept.specs.Sending.{IsKnown, SendsNamed, SendsRecord, SendsRecords, left_of};

use crate::KeptFault;
use crate::gone::count_marks;
use crate::layout::layout_of;
use gx_file::{send_count, send_record};
use gx_growing_file::{send_head, send_table};
use gx_listed::{Listing, Standing};
use gx_object::Name;
use gx_objects::{Object, Objects};
use gx_text::Sink;
use std::alloc::Allocator;

/// Sends the growing text of the objects that are marked, in their order, and of all refs.
///
/// OutOfMemory: a growth was refused, or the text has 2^63 bytes or more. ReadFailed: a read failed. Damaged: this is no repository.
/// WriteFailed: the sink failed.
/// Cost: the text's length, each body hashed once, and the rows are sorted. Memory: two rows for each object that is marked, the refs'
/// lines, and one body.
pub(crate) fn send_marked<O: Objects, A: Allocator + Copy, W: Sink>(
    alloc: A,
    objects: &O,
    listing: &Listing<A>,
    marks: &[bool],
    sink: &mut W,
) -> Result<(), KeptFault>
    requires listed { ListsIfTold (O.told objects.now) (O.stands objects.now) listing.now }
    requires long { length marks.now ≡ length listing.now }
    ensures text { IfSome (O.told objects.now) (λ r. Sends (growing_text sha256 (left_of marks.now r))
        (W.taken sink.old) (W.taken sink.new) result) }
    ensures short { IfOk result (λ _. IfSome (O.told objects.now)
        (λ r. length (growing_text sha256 (left_of marks.now r)) < 2 ^ 63)) }
    ensures named { SendsNamed (O.name_of objects.now) (W.taken sink.old) (W.taken sink.new) result }
    ensures fault { IsOnTheWay (O.told objects.now) result }
{
    objects.sound_if_told();
    let mut room = Vec::new(alloc);
    let layout = layout_of(alloc, listing, marks, objects.ref_lines(&mut room)?)?;
    let slot = &layout.slot;
    send_head(sink, slot.ends, slot.tail, &slot.digest)?;
    let count = count_marks(marks);
    send_count(sink, b"objects", count)?;
    send_records(objects, listing, marks, &mut room, sink)?;
    send_table(sink, count, &layout.table, layout.tail.as_slice())?;
    Ok(())
}

/// Sends the records of the objects that are marked.
fn send_records<O: Objects, A: Allocator + Copy, W: Sink>(
    objects: &O,
    listing: &Listing<A>,
    marks: &[bool],
    room: &mut Vec<u8, A>,
    sink: &mut W,
) -> Result<(), KeptFault>
    requires listed { ListsIfTold (O.told objects.now) (O.stands objects.now) listing.now }
    requires long { length marks.now ≡ length listing.now }
    ensures records { SendsRecords (O.name_of objects.now) (O.told objects.now) listing.now marks.now
        (W.taken sink.old) (W.taken sink.new) result }
    ensures fault { IsOnTheWay (O.told objects.now) result }
{
    objects.sound_if_told();
    for number in 0..listing.len() {
        if marks[number] {
            let Some((name, standing)) = listing.get(number) else {
                unreachable!();
            };
            send_object(objects, &name, &standing, room, sink)?;
        }
    }
    Ok(())
}

/// Sends the record of an object of which this is known.
fn send_object<O: Objects, A: Allocator + Copy, W: Sink>(
    objects: &O,
    name: &Name,
    standing: &Standing,
    room: &mut Vec<u8, A>,
    sink: &mut W,
) -> Result<(), KeptFault>
    requires there { StandsIfTold (O.told objects.now) (O.stands objects.now) name.now.bytes standing.now.place }
    requires known { IfSome (O.told objects.now) (IsKnown name.now standing.now) }
    ensures record { SendsRecord (O.name_of objects.now) (O.told objects.now) name.now standing.now
        (W.taken sink.old) (W.taken sink.new) result }
    ensures fault { IsOnTheWay (O.told objects.now) result }
{
    objects.sound_if_told();
    let object = objects.object_at(standing.place, name, room)?;
    if !is_as_listed(&object, standing) {
        return Err(KeptFault::Damaged);
    }
    send_record(sink, name, object.kind, object.body)?;
    Ok(())
}

/// Whether an object is of the kind and the length that are known of it.
fn is_as_listed(object: &Object<'_>, standing: &Standing) -> bool
    ensures { IsTrue result ↔ (object.now.kind ≡ standing.now.kind)
        × (length object.now.body.now ≡ standing.now.length) }
{
    object.kind == standing.kind && object.body.len() as u64 == standing.length
}
