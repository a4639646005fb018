//! Appending a segment.

ghost use Rattle.std.specs.Prelude.{◌≡◌, ◌≤◌, ◌<◌, ◌+◌, ◌++◌, not, [], ◌∷◌, IfErr, IsErr, OnOk};
ghost use Rattle.gx_model.specs.Texts.{Bytes};
ghost use Rattle.gx_model.specs.Histories.{Records};
ghost use Rattle.gx_model.specs.Objects.{ForEachNamer};
ghost use Rattle.gx_growing.specs.GrowingLaws.{ForEachDigester};
ghost use Rattle.gx_growing.specs.GrowingText.{picks_first};
ghost use Rattle.gx_append.specs.Appending as appends;
ghost use Rattle.gx_append.specs.Appending.{slot_place};
ghost use Rattle.gx_append.specs.Devices.{CountsFaults, LeavesOnly, OnlyText, most_faults};

use crate::device::Device;
use crate::fault::AppendFault;
use std::io;

/// Where the byte stands that picks a slot.
const PICK: u64 = 10;

/// Appends a segment to a growing text that ends at a place and whose first slot is picked, or its second. The segment is part of it
/// once the other slot is picked, which says where the text ends then.
///
/// `Unwritten`: the text is as it was, and the file is cut back to its end where that can be done. `Unsettled`: the last byte is
/// written or not, or it may come to be so. Whatever a stop of the machine leaves is read as one of both texts.
/// Cost: the segment, and three syncs. Takes no memory. Source: this project's own format.
pub fn append<D: Device>(
    device: &mut D,
    is_first: bool,
    end: u64,
    segment: &[u8],
    slot: &[u8],
) -> Result<(), AppendFault>
    ensures any_moment { (was segments : Bytes)
        → appends.IsAsked (D.text device.old) is_first end slot.now was segments
        → LeavesOnly D.moment D.left_since D.may_leave device.old device.new
        (appends.IsBeforeOrAfter is_first was segments slot.now segment.now) }
    ensures appended { OnOk result ((was segments : Bytes)
        → appends.IsAsked (D.text device.old) is_first end slot.now was segments
        → appends.IsDurable (D.text device.new) (D.may_leave device.new)
        (appends.Shows (not is_first) slot.now (segments ++ segment.now))) }
    ensures unwritten { IfErr result (λ fault. appends.IsUnwritten fault → (was segments : Bytes)
        → appends.IsAsked (D.text device.old) is_first end slot.now was segments
        → LeavesOnly D.moment D.left_since D.may_leave device.old device.new
        (appends.Shows is_first was segments)) }
    ensures cut { IfErr result (λ fault. appends.IsUnwritten fault → (was segments : Bytes)
        → appends.IsAsked (D.text device.old) is_first end slot.now was segments
        → D.faults device.new ≤ D.faults device.old + 1 → D.faults device.new < most_faults
        → appends.IsCutBack (D.text device.old) (D.text device.new) is_first was segments) }
    ensures cause { (was segments : Bytes)
        → appends.IsAsked (D.text device.old) is_first end slot.now was segments
        → IsErr result → D.faults device.new < most_faults
        → D.faults device.old < D.faults device.new }
    ensures reads { ForEachNamer (λ name. ForEachDigester (λ digest. (repository new : Records)
        → appends.IsGrowth name digest (D.text device.old) is_first end segment.now slot.now
        repository new
        → LeavesOnly D.moment D.left_since D.may_leave device.old device.new
        (appends.IsReadAsEither name digest repository new))) }
    ensures read { OnOk result (ForEachNamer (λ name. ForEachDigester (λ digest.
        (repository new : Records)
        → appends.IsGrowth name digest (D.text device.old) is_first end segment.now slot.now
        repository new
        → appends.IsDurable (D.text device.new) (D.may_leave device.new)
        (appends.IsReadAs name digest new)))) }
{
    // A run that was killed may have picked a slot and not synced it: what is read has to be durable first.
    if let Err(error) = device.sync() {
        return Err(AppendFault::Unwritten(error));
    }
    if let Err(error) = stage(device, is_first, end, segment, slot) {
        let _ = device.cut(end);
        return Err(AppendFault::Unwritten(error));
    }
    match pick(device, is_first) {
        Ok(()) => Ok(()),
        Err(error) => Err(AppendFault::Unsettled(error)),
    }
}

/// Writes a segment behind the end of a text, and the slot that leads to it over the one that isn't picked.
fn stage<D: Device>(
    device: &mut D,
    is_first: bool,
    end: u64,
    segment: &[u8],
    slot: &[u8],
) -> io::Result<()>
    requires durable { OnlyText (D.text device.old) (D.may_leave device.old) }
    ensures any_moment { (was segments : Bytes)
        → appends.IsAsked (D.text device.old) is_first end slot.now was segments
        → LeavesOnly D.moment D.left_since D.may_leave device.old device.new
        (appends.Shows is_first was segments) }
    ensures kept { (was segments : Bytes)
        → appends.IsAsked (D.text device.old) is_first end slot.now was segments
        → appends.IsTold (D.text device.new) (appends.Shows is_first was segments) }
    ensures staged { OnOk result ((was segments : Bytes)
        → appends.IsAsked (D.text device.old) is_first end slot.now was segments
        → appends.IsDurable (D.text device.new) (D.may_leave device.new)
        (appends.Staged is_first was segments slot.now segment.now)) }
    ensures durable { OnOk result (OnlyText (D.text device.new) (D.may_leave device.new)) }
    ensures cause { (was segments : Bytes)
        → appends.IsAsked (D.text device.old) is_first end slot.now was segments
        → CountsFaults (D.faults device.old) (D.faults device.new) result }
{
    device.write_at(end, segment)?;
    device.write_at(place_of(!is_first), slot)?;
    device.sync()
}

/// Picks the slot that isn't picked.
fn pick<D: Device>(device: &mut D, is_first: bool) -> io::Result<()>
    requires durable { OnlyText (D.text device.old) (D.may_leave device.old) }
    ensures any_moment { (was segments slot segment : Bytes)
        → appends.IsTold (D.text device.old) (appends.Staged is_first was segments slot segment)
        → LeavesOnly D.moment D.left_since D.may_leave device.old device.new
        (appends.IsBeforeOrAfter is_first was segments slot segment) }
    ensures picked { OnOk result ((was segments slot segment : Bytes)
        → appends.IsTold (D.text device.old) (appends.Staged is_first was segments slot segment)
        → appends.IsDurable (D.text device.new) (D.may_leave device.new)
        (appends.Shows (not is_first) slot (segments ++ segment))) }
    ensures cause { (was segments slot segment : Bytes)
        → appends.IsTold (D.text device.old) (appends.Staged is_first was segments slot segment)
        → CountsFaults (D.faults device.old) (D.faults device.new) result }
{
    device.write_at(PICK, &[selector(!is_first)])?;
    device.sync()
}

/// Where the first slot stands, or the second.
fn place_of(is_first: bool) -> u64
    ensures { result ≡ slot_place is_first }
{
    if is_first { 12 } else { 119 }
}

/// The byte that picks the first slot, or the second.
fn selector(is_first: bool) -> u8
    ensures { picks_first (result ∷ []) ≡ is_first }
{
    if is_first { b'a' } else { b'b' }
}
