//! A stream, adapted.

ghost use Rattle.std.specs.Prelude.{OnOk};
ghost use Rattle.std.specs.Option.{option_map};
ghost use Rattle.gx_model.specs.Streams.Items.{Line, Data};
ghost use Rattle.gx_model.specs.Export.{item_text};
ghost use Rattle.gx_stream.specs.Heard.{items_from};
ghost use Rattle.gx_stream.specs.Reading.{item_of};
ghost use Rattle.gx_adapt.specs.Adapting.{AdaptsFrom, Counts, IsReadAgain, HasRoom, Passes, Puts, PutsIf, SendsItem};

use crate::course::Course;
use crate::fault::AdaptFault;
use crate::losses::Losses;
use crate::lot::{Lot, lot_in};
use crate::marks::Marks;
use crate::report::Report;
use crate::text::{put_announcement, put_line};
use gx_stream::{Item, ItemReader};
use gx_text::{Sink, Source, send};
use std::alloc::Allocator;

/// What comes of a stream that was adapted to its end.
#[derive(Drop)]
pub struct Adapted<A: Allocator> {
    /// What was changed in it.
    pub report: Report,
    /// The lines that were left out though git changes refs or files of marks by them, before the line `done`: a line `feature`
    /// as it stands, and for a deletion the line `reset` of its ref. Where there are any, no line `done` went out, so that the
    /// adapted stream isn't taken for a whole one.
    pub lost: Vec<Vec<u8, A>, A>,
}

/// Sends a stream with the lines changed that are read otherwise here than by git, and answers how many they are, and which lines
/// are lost by that:
///
/// - an identity that begins with `<` gets a space before it, as git writes it,
/// - `from` with forty zeros directly behind a `reset` is left out,
/// - a path that begins with a quote and isn't a quoted text is put in quotes, so that it is the name that git takes,
/// - lines that ask for files of marks, and `get-mark`, are left out,
/// - `done` is left out behind a line that is lost,
/// - a `feature` that only asks whether a command is known, as `feature notes`, is left out,
/// - where signatures are to be dropped, a line `gpgsig` is left out with the block directly behind it.
///
/// No byte of another block changes. Comments go, a block is announced by its length, and an LF ends each line and each block.
/// Tags of blobs and of tags are counted, by the marks; signatures, and names that git refuses for a branch, by their lines.
/// The report tells whether `done` is the last line, too.
/// Each item goes out as soon as it has come. Memory: the longest item, the longest line once more, the marks of blobs and of
/// tags, and the lines that are lost. Cost: the bytes of the stream, and for each line with a mark the logarithm of the number of marks.
/// Source: git-fast-import(1), and of signatures git-fast-export(1), `--signed-commits`.
pub fn adapt<R: Source + Drop, W: Sink, A: Allocator + Copy>(
    alloc: A,
    source: R,
    sink: &mut W,
    drop_signatures: bool,
) -> Result<Adapted<A>, AdaptFault>
    ensures adapts { AdaptsFrom drop_signatures (option_map items_from (R.coming source))
        (W.taken sink.old) (W.taken sink.new) result }
    ensures again { OnOk result (IsReadAgain drop_signatures (R.coming source)) }
{
    let mut reader = ItemReader::new(alloc, source);
    let mut text = Vec::new(alloc);
    let mut report = Report::new();
    let mut course = Course::start();
    let mut marks = Marks::new(alloc);
    let mut losses = Losses::new(alloc);
    loop {
        let item = match reader.next() {
            Err(fault) => return Err(AdaptFault::from(fault)),
            Ok(None) => {
                let lost = losses.lines;
                return Ok(Adapted { report, lost });
            }
            Ok(Some(item)) => item,
        };
        if let Err(fault) = losses.pass(course, item) {
            return Err(AdaptFault::from(fault));
        }
        let lot = lot_in(drop_signatures, course, item);
        if let Err(fault) = send_item(&mut text, sink, &mut report, &mut marks, item, lot) {
            return Err(fault);
        }
        course = course.past(item);
    }
}

/// Sends what stands in the place of an item, of which this becomes, and counts that.
fn send_item<W: Sink, A: Allocator + Copy>(
    text: &mut Vec<u8, A>,
    sink: &mut W,
    report: &mut Report,
    marks: &mut Marks<A>,
    item: Item<'_>,
    lot: Lot<'_>,
) -> Result<(), AdaptFault>
    requires room { HasRoom report.old }
    ensures sends { SendsItem W.taken lot.entry (item_of item.entry) sink.old sink.new result }
    ensures passes { OnOk result (Passes (item_of item.entry) marks.old marks.new) }
    ensures counts { Counts lot.entry (item_of item.entry) marks.old report.old report.new result }
{
    match item {
        Item::Line(line) => send_line(text, sink, report, marks, line, lot),
        Item::Data(bytes) => match send_block(text, sink, bytes, lot) {
            Ok(()) => {
                report.add_block(bytes, lot);
                Ok(())
            }
            Err(fault) => Err(fault),
        },
    }
}

/// Sends what stands in the place of a line, and counts it. The buffer is used anew.
fn send_line<W: Sink, A: Allocator + Copy>(
    text: &mut Vec<u8, A>,
    sink: &mut W,
    report: &mut Report,
    marks: &mut Marks<A>,
    line: &[u8],
    lot: Lot<'_>,
) -> Result<(), AdaptFault>
    requires room { HasRoom report.old }
    ensures sends { SendsItem W.taken lot.entry (Line line.now) sink.old sink.new result }
    ensures passes { OnOk result (Passes (Line line.now) marks.old marks.new) }
    ensures counts { Counts lot.entry (Line line.now) marks.old report.old report.new result }
{
    let names_blob_or_tag = marks.pass(line)?;
    text.clear();
    put_line(text, line, lot)?;
    if let Err(fault) = send_all(sink, text) {
        return Err(fault);
    }
    report.add_line(line, lot, names_blob_or_tag);
    Ok(())
}

/// Sends a block, or nothing where it is left out.
fn send_block<W: Sink, A: Allocator + Copy>(
    text: &mut Vec<u8, A>,
    sink: &mut W,
    bytes: &[u8],
    lot: Lot<'_>,
) -> Result<(), AdaptFault>
    ensures sends { SendsItem W.taken lot.entry (Data bytes.now) sink.old sink.new result }
{
    match lot {
        Lot::Signature => Ok(()),
        _ => send_kept_block(text, sink, bytes),
    }
}

/// Sends a block, behind its length.
fn send_kept_block<W: Sink, A: Allocator + Copy>(
    text: &mut Vec<u8, A>,
    sink: &mut W,
    bytes: &[u8],
) -> Result<(), AdaptFault>
    ensures sends { PutsIf (item_text (Data bytes.now)) (W.taken sink.old)
        (W.taken sink.new) result }
{
    text.clear();
    put_announcement(text, bytes.len())?;
    if let Err(fault) = send_all(sink, text) {
        return Err(fault);
    }
    if let Err(fault) = send_all(sink, bytes) {
        return Err(fault);
    }
    send_all(sink, b"\n")
}

/// Sends a text.
fn send_all<W: Sink>(sink: &mut W, text: &[u8]) -> Result<(), AdaptFault>
    ensures { Puts text.now (W.taken sink.old) (W.taken sink.new) result }
{
    match send(sink, text) {
        Ok(()) => Ok(()),
        Err(_) => Err(AdaptFault::WriteFailed),
    }
}
