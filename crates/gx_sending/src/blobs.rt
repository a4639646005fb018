//! The blobs of files that are new or another.

ghost use Rattle.std.specs.Prelude.{◌∷◌, [], IfSome, List};
ghost use Rattle.gx_model.specs.declared.objects.Kind.TheVariants as kinds;
ghost use Rattle.gx_model.specs.Histories.Values.{Value};
ghost use Rattle.gx_model.specs.Records.HistoryOf.{bytes_of_blob};
ghost use Rattle.gx_rev.specs.Objects.{IsHeldAs, value_at};
ghost use Rattle.gx_differences.specs.Differences.{HaveFiles};
ghost use Rattle.gx_sending.specs.Faults.{IsOnTheWay};
ghost use Rattle.gx_sending.specs.Files.{blobs_at};
ghost use Rattle.gx_sending.specs.Marks.{AddsBlobs, HasWritten, IsWritten};

use crate::{SendFault, Written};
use gx_differences::ChangedFile;
use gx_export::write_blob;
use gx_object::{Kind, Mode, Name};
use gx_objects::Objects;
use gx_questions::body;
use gx_text::Sink;
use std::alloc::Allocator;

/// Writes the blobs of held files that weren't written yet. What is in the room before and after stands for nothing.
///
/// OutOfMemory: a growth is refused. ReadFailed: a read failed. Damaged: this is no repository's. WriteFailed: the sink failed, or
/// has taken 2^63 - 1 bytes of a longer text. Cost: the bytes of the blobs. Memory: a mark for each, and the longest of them.
/// Source: git-fast-import(1), "blob".
pub fn write_blobs<O: Objects, A: Allocator + Copy, W: Sink>(
    objects: &O,
    room: &mut Vec<u8, A>,
    written: &mut Written<'_, W, A>,
    files: &[ChangedFile<A>],
) -> Result<(), SendFault>
    requires held { IfSome (O.told objects.now) (HaveFiles files.now) }
    requires written { IfSome (O.told objects.now) (IsWritten written.old) }
    ensures adds { IfSome (O.told objects.now) (λ r. (ws : List Value) → HasWritten r ws written.old
        → AddsBlobs ws (blobs_at r files.now) written.old written.new result r) }
    ensures fault { IsOnTheWay (O.told objects.now) result }
{
    objects.sound_if_told();
    for file in files {
        if file.mode != Mode::Gitlink {
            write_blob_once(objects, room, written, &file.name)?;
        }
    }
    Ok(())
}

/// Writes a held blob, where it wasn't written yet.
fn write_blob_once<O: Objects, A: Allocator + Copy, W: Sink>(
    objects: &O,
    room: &mut Vec<u8, A>,
    written: &mut Written<'_, W, A>,
    name: &Name,
) -> Result<(), SendFault>
    requires held { IfSome (O.told objects.now) (λ r. IsHeldAs kinds.Blob r name.now) }
    requires written { IfSome (O.told objects.now) (IsWritten written.old) }
    ensures adds { IfSome (O.told objects.now) (λ r. (ws : List Value) → HasWritten r ws written.old
        → AddsBlobs ws (bytes_of_blob (value_at r name.now) ∷ [])
        written.old written.new result r) }
    ensures fault { IsOnTheWay (O.told objects.now) result }
{
    objects.sound_if_told();
    if written.mark_of(name).is_some() {
        return Ok(());
    }
    let object = body(objects, name, room)?;
    let Kind::Blob = object.kind else {
        return Err(SendFault::Damaged);
    };
    let mark = written.next_mark();
    write_blob(&mut written.output, mark, object.body)?;
    written.mark(name)
}
