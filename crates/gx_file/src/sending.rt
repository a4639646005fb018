//! Writing a store text, to memory or to another sink. Source: this project's own format.
ghost use Rattle.std.specs.Prelude.{◌≡◌, ◌<◌, ◌^◌, ◌++◌, ◌∷◌, [], length, IfOk};
ghost use Rattle.gx_model.specs.Objects.{line};
ghost use Rattle.gx_model.specs.declared.store_versions.Version.TheVariants.{Two};
ghost use Rattle.gx_model.specs.Stores.StoreText.{length_text, store_text, stored_ref};
ghost use Rattle.gx_model.specs.Texts.Numbers.{number_text};
ghost use Rattle.gx_file.specs.Reading.{IsReadAs};
ghost use Rattle.gx_file.specs.Sending.{HaveLengths, Sent};
ghost use Rattle.gx_file.specs.Writing.{SendsParts, SendsRecords, SendsRefs, record_called};

use gx_object::{Kind, Name, Namer};
use gx_repo::Repo;
use gx_text::{Failed, Growing, Sink, send};
use itoa::Buffer;
use std::alloc::{AllocError, Allocator};

/// The text of a repository, of version 2: its records in their order, and its refs in the byte order of their names.
///
/// Cost: the text's length. Memory: the text.
pub fn write<N: Namer, A: Allocator + Copy>(
    alloc: A,
    repo: &Repo<N, A>,
) -> Result<Vec<u8, A>, AllocError>
    ensures text { IfOk result (λ text. text.items ≡ store_text Two repo.now.1) }
    ensures read { IfOk result (λ text. IsReadAs N.name_of text.items repo.now) }
{
    let mut sink = Growing::new(alloc);
    match write_to(repo, &mut sink) {
        Ok(()) => Ok(sink.into_bytes()),
        Err(_) => Err(AllocError),
    }
}

/// Sends the text of a repository that [`write`] makes. Each body goes out from where the repository has it.
///
/// `Failed` where the sink fails. What it took is a front of the text.
/// Cost: the text's length, and some pushes for each record and ref. Takes no memory.
pub fn write_to<N: Namer, A: Allocator + Copy, W: Sink>(
    repo: &Repo<N, A>,
    sink: &mut W,
) -> Result<(), Failed>
    ensures text { Sent (store_text Two repo.now.1) (W.taken sink.old) (W.taken sink.new) result }
    ensures read { IfOk result (λ _. IsReadAs N.name_of (store_text Two repo.now.1) repo.now) }
{
    repo.sound();
    send_text(sink, b"gxstore 2\n")?;
    send_records(repo, sink)?;
    send_refs(repo, sink)?;
    send_text(sink, b"end\n")
}

/// Sends the number of the records and the records.
pub fn send_records<N: Namer, A: Allocator + Copy, W: Sink>(
    repo: &Repo<N, A>,
    sink: &mut W,
) -> Result<(), Failed>
    ensures text { SendsRecords W.taken repo.now.1 sink.old sink.new result }
    ensures count { length repo.now.1.records < 2 ^ 64 }
    ensures lengths { IfOk result (λ _. HaveLengths repo.now.1.records) }
{
    let store = repo.store();
    let count = store.len();
    send_count(sink, b"objects", count)?;
    for place in 0..count {
        let Some((name, kind, body)) = store.record(place) else {
            unreachable!();
        };
        send_record(sink, &name, kind, body)?;
    }
    Ok(())
}

/// Sends a record. Source: this project's own format.
pub fn send_record<W: Sink>(
    sink: &mut W,
    name: &Name,
    kind: Kind,
    body: &[u8],
) -> Result<(), Failed>
    ensures text { Sent (record_called name.now kind body.now) (W.taken sink.old)
        (W.taken sink.new) result }
    ensures length { length body.now < 2 ^ 64 }
{
    send_body(sink, kind.word().as_bytes(), name, body)
}

/// Sends a body behind its line, which begins with this word.
fn send_body<W: Sink>(sink: &mut W, word: &[u8], name: &Name, body: &[u8]) -> Result<(), Failed>
    ensures text { Sent (line word.now (length_text Two (length body.now) name.now.bytes)
        ++ body.now ++ 10 ∷ [])
        (W.taken sink.old) (W.taken sink.new) result }
    ensures length { length body.now < 2 ^ 64 }
{
    let mut length = Buffer::new();
    let digits = name.hex();
    send_all(
        sink,
        &[
            word,
            b" ",
            length.format(body.len()).as_bytes(),
            b" ",
            digits.as_slice(),
            b"\n",
            body,
            b"\n",
        ],
    )
}

/// Sends the number of the refs and the refs.
pub fn send_refs<N: Namer, A: Allocator + Copy, W: Sink>(
    repo: &Repo<N, A>,
    sink: &mut W,
) -> Result<(), Failed>
    ensures text { SendsRefs W.taken repo.now.1 sink.old sink.new result }
    ensures count { length repo.now.1.refs < 2 ^ 64 }
{
    send_count(sink, b"refs", repo.refs().count())?;
    for (name, object) in repo.refs() {
        send_ref(sink, name, &object)?;
    }
    Ok(())
}

/// Sends a ref's line.
fn send_ref<W: Sink>(sink: &mut W, name: &[u8], object: &Name) -> Result<(), Failed>
    ensures { Sent (stored_ref (name.now, object.now.bytes)) (W.taken sink.old)
        (W.taken sink.new) result }
{
    let digits = object.hex();
    send_all(sink, &[digits.as_slice(), b" ", name, b"\n"])
}

/// Sends a line with a word and a number.
pub fn send_count<W: Sink>(sink: &mut W, word: &[u8], count: usize) -> Result<(), Failed>
    ensures { Sent (line word.now (number_text count)) (W.taken sink.old)
        (W.taken sink.new) result }
{
    let mut digits = Buffer::new();
    send_all(sink, &[word, b" ", digits.format(count).as_bytes(), b"\n"])
}

/// Sends these texts, one after the other.
pub fn send_all<W: Sink>(sink: &mut W, parts: &[&[u8]]) -> Result<(), Failed>
    ensures { SendsParts W.taken parts.now sink.old sink.new result }
{
    for part in parts {
        send_text(sink, part)?;
    }
    Ok(())
}

/// Sends a text.
pub fn send_text<W: Sink>(sink: &mut W, text: &[u8]) -> Result<(), Failed>
    ensures { Sent text.now (W.taken sink.old) (W.taken sink.new) result }
{
    match send(sink, text) {
        Ok(()) => Ok(()),
        Err(_) => Err(Failed),
    }
}
