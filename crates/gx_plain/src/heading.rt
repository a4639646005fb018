//! The line of a record. Source: this project's own format.

ghost use Rattle.std.specs.Prelude.{◌≡◌};
ghost use Rattle.std.specs.Map.{lookup};
ghost use Rattle.std.specs.Option.{option_map};
ghost use Rattle.gx_model.specs.Texts.{same_bytes};
ghost use Rattle.gx_model.specs.Stores.StoreReading.{kind_words, length_field, record_line};
ghost use Rattle.gx_plain.specs.Records.{shown_heading, shown_length};

use gx_lines::read_number;
use gx_model::Version;
use gx_object::{Kind, Name};
use gx_text::cut;

/// What the line of a record says: the kind, the length of the body, and the name, which version 1 doesn't state.
#[derive(Clone, Copy)]
pub(crate) struct Heading {
    pub(crate) kind: Kind,
    pub(crate) length: u64,
    pub(crate) stated: Option<Name>,
}

/// What a line says that is a record's.
pub(crate) fn heading_of(version: Version, line: &[u8]) -> Option<Heading>
    ensures { option_map shown_heading result ≡ record_line version line.now }
{
    let (word, field) = cut(line, b' ')?;
    let kind = kind_named(word)?;
    let (length, stated) = length_field(version, field)?;
    Some(Heading {
        kind,
        length,
        stated,
    })
}

/// A length, and in version 2 the name whose digits stand behind it.
fn length_field(version: Version, field: &[u8]) -> Option<(u64, Option<Name>)>
    ensures { option_map shown_length result ≡ length_field version field.now }
{
    match version {
        Version::One => Some((read_number(field)?, None)),
        Version::Two => {
            let (length, digits) = cut(field, b' ')?;
            let length = read_number(length)?;
            Some((length, Some(Name::read_lower(digits)?)))
        }
    }
}

/// The kind of this word.
fn kind_named(word: &[u8]) -> Option<Kind>
    ensures { result ≡ lookup (same_bytes word.now) kind_words }
{
    if word == b"blob".as_slice() {
        Some(Kind::Blob)
    } else if word == b"tree".as_slice() {
        Some(Kind::Tree)
    } else if word == b"commit".as_slice() {
        Some(Kind::Commit)
    } else if word == b"tag".as_slice() {
        Some(Kind::Tag)
    } else {
        None
    }
}
