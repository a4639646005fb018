//! The names of a stream's blobs, one a line.

ghost use Rattle.std.specs.Prelude.{◌≡◌, ◌<◌, ◌≤◌, ◌-◌, ◌^◌, [], Some, Ok, Err};
ghost use Rattle.std.specs.Option.{option_map};
ghost use Rattle.gx_model.specs.Streams.Items.{Finished};
ghost use Rattle.gx_model.specs.Streams.Lines.{mark_of};
ghost use Rattle.gx_stream.specs.Reading.{item_of};
ghost use Rattle.gx_blobs.specs.BlobsFaults.{refusal, word};
ghost use Rattle.gx_blobs.specs.Naming.{NamesBlobs, NamesItems};
ghost use Rattle.gx_blobs.specs.Steps.{step_of, stop_at, marked_as, marked_by, named_by, command_line, mark_line, oid_line};
ghost use Rattle.gx_blobs.specs.Printing.{PrintsOne, shown_step, stop_of, ended_at, name_line, of_stream};

use gx_object::{Kind, Name, Namer};
use gx_store::{Store, StoreFault};
use gx_stream::{Item, ItemReader, StreamFault};
use gx_text::{Sink, Source, cut, mark_number, send};
use std::alloc::Allocator;
use std::error::Error;
use std::fmt;
use std::hash::RandomState;

/// Why the names of a stream's blobs end before the stream does. Each prints its word.
#[derive(Clone, Copy, Debug, PartialEq, Eq)]
pub enum BlobsKind {
    OutOfMemory,
    ReadFailed,
    WriteFailed,
    BadLine,
    BadNumber,
    TruncatedData,
    NameHeld,
    NotABlob,
}

impl BlobsKind {
    /// Its name, as it prints. Takes no memory.
    pub fn word(self) -> &'static str
        ensures { result.now ≡ word self }
    {
        match self {
            BlobsKind::OutOfMemory => "OutOfMemory",
            BlobsKind::ReadFailed => "ReadFailed",
            BlobsKind::WriteFailed => "WriteFailed",
            BlobsKind::BadLine => "BadLine",
            BlobsKind::BadNumber => "BadNumber",
            BlobsKind::TruncatedData => "TruncatedData",
            BlobsKind::NameHeld => "NameHeld",
            BlobsKind::NotABlob => "NotABlob",
        }
    }
}

impl fmt::Display for BlobsKind {
    ghost output = { λ kind. Some (word kind) };

    fn fmt<W: fmt::Write>(&self, f: &mut fmt::Formatter<W>) -> fmt::Result {
        f.write_str(self.word())
    }
}

impl Error for BlobsKind {}

/// The number of the command, from 1, at which the names end, and why.
#[derive(Clone, Copy, Debug, PartialEq, Eq)]
pub struct BlobsFault {
    pub command: u64,
    pub kind: BlobsKind,
}

impl fmt::Display for BlobsFault {
    ghost output = { λ fault. Some (refusal fault) };

    fn fmt<W: fmt::Write>(&self, f: &mut fmt::Formatter<W>) -> fmt::Result {
        write!(f, "command {}: {}", self.command, self.kind)
    }
}

impl Error for BlobsFault {}

/// Prints the name of each blob of a stream, with a line feed, as soon as the blob has come, and answers how many.
///
/// The stream holds `blob` commands and empty lines alone: anything else where a command is expected is NotABlob.
/// NameHeld comes only where an earlier blob has the name of the one at hand and other bytes. Names that were printed
/// stay. Cost: the bytes of the stream, and for each blob the logarithm of their number.
/// Source: git-fast-import(1), "blob".
pub fn blobs<N: Namer + Drop, R: Source + Drop, W: Sink, A: Allocator + Copy>(
    alloc: A,
    namer: N,
    source: R,
    sink: &mut W,
    state: RandomState,
) -> Result<u64, BlobsFault>
    ensures { NamesBlobs N.name_of W.taken namer (R.coming source) sink.old sink.new result }
{
    let mut reader = ItemReader::new(alloc, source);
    let mut store = Store::new(alloc, namer, state);
    name_all(&mut reader, &mut store, sink)
}

/// Prints the names of the blobs that a reader still gives, by way of a store with nothing in it.
fn name_all<N: Namer, R: Source, W: Sink, A: Allocator + Copy>(
    reader: &mut ItemReader<R, A>,
    store: &mut Store<N, A>,
    sink: &mut W,
) -> Result<u64, BlobsFault>
    requires few { reader.old.most ≤ 2 ^ 63 - 1 }
    requires empty { store.old.1 ≡ [] }
    ensures { NamesItems N.name_of W.taken store.old.0 reader.old sink.old sink.new result }
{
    let mut stage = Stage::Expected;
    let mut count = 0u64;
    loop {
        let item = match reader.next() {
            Err(fault) => return ended(count, Some(kind_of(fault))),
            Ok(None) => return ended(count, kind_at_end(stage)),
            Ok(Some(item)) => item,
        };
        match take_item(stage, item) {
            Step::Stop(kind) => return ended(count, Some(kind)),
            Step::Go(next) => stage = next,
            Step::Body(bytes) => {
                if let Err(kind) = print_one(store, sink, bytes) {
                    return ended(count, Some(kind));
                }
                count += 1;
                stage = Stage::Expected;
            }
        }
    }
}

/// How the names end behind so many, and why where the stream doesn't end there.
fn ended(count: u64, kind: Option<BlobsKind>) -> Result<u64, BlobsFault>
    requires { count < 2 ^ 64 - 1 }
    ensures { result ≡ ended_at count kind }
{
    match kind {
        None => Ok(count),
        Some(kind) => Err(BlobsFault {
            command: count + 1,
            kind,
        }),
    }
}

/// How much of a blob command has come: nothing, its first line, its mark, or its original object name.
#[derive(Clone, Copy)]
enum Stage {
    Expected,
    Started,
    Marked,
    Named,
}

/// What an item does: the names end, the command goes on, or the item's bytes are the blob.
#[derive(Clone, Copy)]
enum Step<'a> {
    Stop(BlobsKind),
    Go(Stage),
    Body(&'a [u8]),
}

fn kind_of(fault: StreamFault) -> BlobsKind
    ensures { result ≡ of_stream fault }
{
    match fault {
        StreamFault::OutOfMemory => BlobsKind::OutOfMemory,
        StreamFault::ReadFailed => BlobsKind::ReadFailed,
        StreamFault::TruncatedData => BlobsKind::TruncatedData,
        StreamFault::BadNumber => BlobsKind::BadNumber,
    }
}

/// Why the names end where the stream does: a command isn't whole.
fn kind_at_end(stage: Stage) -> Option<BlobsKind>
    ensures { option_map stop_of result ≡ stop_at stage Finished }
{
    match stage {
        Stage::Expected => None,
        Stage::Started | Stage::Marked | Stage::Named => Some(BlobsKind::BadLine),
    }
}

fn take_item(stage: Stage, item: Item<'_>) -> Step<'_>
    ensures { shown_step result ≡ step_of stage (item_of item.entry) }
{
    match item {
        Item::Data(bytes) => match stage {
            Stage::Expected => Step::Stop(BlobsKind::NotABlob),
            Stage::Started | Stage::Marked | Stage::Named => Step::Body(bytes),
        },
        Item::Line(line) => match stage {
            Stage::Expected => command_line(line),
            Stage::Started => mark_line(line),
            Stage::Marked => oid_line(line),
            Stage::Named => Step::Stop(BlobsKind::BadLine),
        },
    }
}

#[tactic(auto, unfolding(crate::specs::Steps::command_line))]
fn command_line<'a>(line: &[u8]) -> Step<'a>
    ensures { shown_step result ≡ command_line line.now }
{
    if line.is_empty() {
        Step::Go(Stage::Expected)
    } else if line == b"blob".as_slice() {
        Step::Go(Stage::Started)
    } else {
        Step::Stop(BlobsKind::NotABlob)
    }
}

#[tactic(auto, unfolding(crate::specs::Steps::mark_line))]
fn mark_line<'a>(line: &[u8]) -> Step<'a>
    ensures { shown_step result ≡ mark_line line.now }
{
    match cut(line, b' ') {
        Some((word, rest)) if word == b"mark".as_slice() => mark(rest),
        None if line == b"mark".as_slice() => Step::Stop(BlobsKind::BadLine),
        _ => oid_line(line),
    }
}

/// A mark's text: a colon, and a number from 1.
#[tactic(auto, unfolding(gx_model::specs::Streams::Lines::mark_of))]
fn mark<'a>(text: &[u8]) -> Step<'a>
    ensures { shown_step result ≡ marked_as (mark_of text.now) }
{
    match text {
        [b':', digits @ ..] => match mark_number(digits) {
            None => Step::Stop(BlobsKind::BadNumber),
            Some(_) => Step::Go(Stage::Marked),
        },
        _ => Step::Stop(BlobsKind::BadLine),
    }
}

#[tactic(auto, unfolding(crate::specs::Steps::oid_line))]
fn oid_line<'a>(line: &[u8]) -> Step<'a>
    ensures { shown_step result ≡ oid_line line.now }
{
    match cut(line, b' ') {
        Some((word, _)) if word == b"original-oid".as_slice() => Step::Go(Stage::Named),
        _ => Step::Stop(BlobsKind::BadLine),
    }
}

/// Puts a blob and prints its name.
fn print_one<N: Namer, W: Sink, A: Allocator + Copy>(
    store: &mut Store<N, A>,
    sink: &mut W,
    bytes: &[u8],
) -> Result<(), BlobsKind>
    ensures namer { store.new.0 ≡ store.old.0 }
    ensures prints { PrintsOne (N.name_of store.old.0) store.old.1 store.new.1
        (W.taken sink.old) (W.taken sink.new) bytes.now result }
{
    let name = match store.put(Kind::Blob, bytes) {
        Ok(name) => name,
        Err(StoreFault::OutOfMemory) => return Err(BlobsKind::OutOfMemory),
        Err(StoreFault::NameHeld) => return Err(BlobsKind::NameHeld),
    };
    match send(sink, name_line(&name).as_slice()) {
        Ok(()) => Ok(()),
        Err(_) => Err(BlobsKind::WriteFailed),
    }
}

/// A name's digits, and a line feed.
fn name_line(name: &Name) -> [u8; 41]
    ensures { result ≡ name_line name.now.bytes }
{
    let mut line = [b'\n'; 41];
    line[..40].copy_from_slice(name.hex().as_slice());
    line
}
