//! The records of a store text. Source: this project's own format.
ghost use Rattle.std.specs.Prelude.{◌≡◌, ◌++◌, ◌∷◌, IfOk};
ghost use Rattle.std.specs.Map.{lookup};
ghost use Rattle.std.specs.Option.{option_map};
ghost use Rattle.gx_model.specs.Histories.{record_for};
ghost use Rattle.gx_model.specs.Texts.{same_bytes};
ghost use Rattle.gx_model.specs.Stores.StoreReading.{kind_words, length_field, record_line};
ghost use Rattle.gx_lines.specs.Reads.{Reads};
ghost use Rattle.gx_model.specs.Faults.{NeedsNoMemory};
ghost use Rattle.gx_file.specs.Reading.{AddsStated, ChecksName, ReadsRecord, ReadsRecords};
ghost use Rattle.gx_file.specs.TextEnds.{EndsWith};
ghost use Rattle.gx_file.specs.Texts.{shown_heading, shown_length};
ghost use Rattle.gx_file.specs.Wanting.{RunsOutAmong, RunsOutAt, RunsOutFor, WantsWhere};
ghost use Rattle.gx_object.specs.Parts.{bytes_if};
ghost use Rattle.gx_repo.specs.Calls.{HidesNoFault};
ghost use Rattle.gx_repo.specs.Records.{AddsRecord};

use crate::FileFault;
use crate::faults::record_fault;
use gx_lines::{read_body, read_line, read_number};
use gx_model::Version;
use gx_object::{Kind, Name, Namer};
use gx_repo::{AddFault, Body, Repo, Text, TextRange};
use gx_text::cut;
use std::alloc::Allocator;

/// Adds the records that come next, so many of them, and answers what follows them.
pub(crate) fn read_records<'a, N: Namer, A: Allocator + Copy>(
    repo: &mut Repo<N, A>,
    whole: &Text<A>,
    version: Version,
    count: u64,
    text: &'a [u8],
) -> Result<&'a [u8], FileFault>
    requires left { EndsWith whole.now text.now }
    ensures namer { repo.new.0 ≡ repo.old.0 }
    ensures refs { repo.new.1.refs ≡ repo.old.1.refs }
    ensures records { ReadsRecords N.name_of repo.old repo.new version count text.now result }
    ensures memory { WantsWhere result
        (RunsOutAmong (N.name_of repo.old.0) version count repo.old.1.records text.now) }
{
    let mut rest = text;
    for _ in 0..count {
        rest = read_record(repo, whole, version, rest)?;
    }
    Ok(rest)
}

/// Adds the record that comes next, whose body stands in a text that is shared, and answers what follows it.
///
/// The faults are those of `read_text` for a record. `OutOfMemory` comes behind what is read whole and is right.
/// Cost: the body is hashed once, and that of a record that is refused twice; a look-up for each link. Memory: what a record
/// takes beside its body. Source: this project's own format.
pub fn read_record<'a, N: Namer, A: Allocator + Copy>(
    repo: &mut Repo<N, A>,
    whole: &Text<A>,
    version: Version,
    text: &'a [u8],
) -> Result<&'a [u8], FileFault>
    requires left { EndsWith whole.now text.now }
    ensures namer { repo.new.0 ≡ repo.old.0 }
    ensures refs { repo.new.1.refs ≡ repo.old.1.refs }
    ensures record { ReadsRecord N.name_of repo.old repo.new version text.now result }
    ensures memory { WantsWhere result
        (RunsOutAt (N.name_of repo.old.0) version repo.old.1.records text.now) }
    ensures left { IfOk result (λ rest. EndsWith whole.now rest.now) }
{
    let (line, rest) = read_line(text)?;
    let Some((kind, (length, stated))) = record_line(version, line) else {
        return Err(FileFault::BadRecord);
    };
    let (body, rest) = read_body(length, rest)?;
    add(repo, whole, stated, kind, body, rest)?;
    Ok(rest)
}

/// Adds a record of which nothing is known, in front of what is left of the text, and which has the name that is stated,
/// where one is.
///
/// Adding a record makes its name. So only one that is refused is named here again, to tell which of its faults is first,
/// also before want of memory.
fn add<N: Namer, A: Allocator + Copy>(
    repo: &mut Repo<N, A>,
    whole: &Text<A>,
    stated: Option<Name>,
    kind: Kind,
    body: &[u8],
    rest: &[u8],
) -> Result<(), FileFault>
    requires left { EndsWith whole.now (body.now ++ 10 ∷ rest.now) }
    ensures namer { repo.new.0 ≡ repo.old.0 }
    ensures refs { repo.new.1.refs ≡ repo.old.1.refs }
    ensures record { AddsStated N.name_of repo.old repo.new stated kind body.now result }
    ensures memory { WantsWhere result
        (RunsOutFor (N.name_of repo.old.0) repo.old.1.records (bytes_if stated) kind body.now) }
{
    match add_body(repo, whole, kind, body, rest) {
        Ok(name) => check_name(stated, &name),
        Err(fault) => {
            check_name(stated, &repo.store().name(kind, body))?;
            Err(record_fault(fault))
        }
    }
}

/// Adds a record of which nothing is known. Its body stands in the text, in front of an LF and what is left of it.
fn add_body<N: Namer, A: Allocator + Copy>(
    repo: &mut Repo<N, A>,
    whole: &Text<A>,
    kind: Kind,
    body: &[u8],
    rest: &[u8],
) -> Result<Name, AddFault>
    requires left { EndsWith whole.now (body.now ++ 10 ∷ rest.now) }
    ensures namer { repo.new.0 ≡ repo.old.0 }
    ensures refs { repo.new.1.refs ≡ repo.old.1.refs }
    ensures adds { AddsRecord repo.old.1.records repo.new.1.records
        (record_for (N.name_of repo.old.0) kind body.now) result }
    ensures unhidden { HidesNoFault N.name_of repo.old kind body.now result }
{
    let end = whole.as_slice().len() - rest.len() - 1;
    match TextRange::new(whole, end - body.len(), end) {
        Ok(range) => repo.add_body(kind, Body::Within(range)),
        // the text has as many owners as can be counted
        Err(_) => repo.add_record(kind, body),
    }
}

/// Answers `NameMismatch` where a name is stated that isn't this one.
fn check_name(stated: Option<Name>, name: &Name) -> Result<(), FileFault>
    ensures name { ChecksName stated name.now result }
    ensures memory { NeedsNoMemory FileFault.OutOfMemory result }
{
    match stated {
        Some(stated) if stated != *name => Err(FileFault::NameMismatch),
        _ => Ok(()),
    }
}

/// The kind and the length in a record's line, and the name that it states.
fn record_line(version: Version, line: &[u8]) -> Option<(Kind, (u64, Option<Name>))>
    ensures { option_map shown_heading result ≡ record_line version line.now }
{
    let (word, field) = cut(line, b' ')?;
    let kind = kind_named(word)?;
    Some((kind, length_field(version, field)?))
}

/// A length, and in version 2 the name whose digits stand behind it.
fn length_field(version: Version, field: &[u8]) -> Option<(u64, Option<Name>)>
    ensures { option_map shown_length result ≡ length_field version field.now }
{
    match version {
        Version::One => Some((read_number(field)?, None)),
        Version::Two => {
            let (length, digits) = cut(field, b' ')?;
            let length = read_number(length)?;
            Some((length, Some(Name::read_lower(digits)?)))
        }
    }
}

/// The kind of this word.
fn kind_named(word: &[u8]) -> Option<Kind>
    ensures { result ≡ lookup (same_bytes word.now) kind_words }
{
    if word == b"blob".as_slice() {
        Some(Kind::Blob)
    } else if word == b"tree".as_slice() {
        Some(Kind::Tree)
    } else if word == b"commit".as_slice() {
        Some(Kind::Commit)
    } else if word == b"tag".as_slice() {
        Some(Kind::Tag)
    } else {
        None
    }
}
