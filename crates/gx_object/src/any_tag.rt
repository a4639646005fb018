//! The bodies of all tags that Git has: of anything, with any further headers, and with a message or none.
//! Source: gitglossary(7), "tag object", and gitformat-signature(5).

ghost use Rattle.std.specs.Prelude.{◌≡◌, IfOk};
ghost use Rattle.std.specs.Option.{option_copied, option_map};
ghost use Rattle.gx_wide.specs.WideTexts.{HasWideTagForm, IsWideTagText, kind_of_word};
ghost use Rattle.gx_object.specs.WideBodies.{Reads, any_tag_of, any_tagger_and_rest, kind_field, shown_any_tag};

use crate::line::{append_line, append_optional_line, cut_line, cut_name};
use crate::tail::{append_message, split_tail};
use crate::{BadObject, Kind, Name};
use std::alloc::{AllocError, Allocator};

/// Any tag's body, seen as its parts, or the parts of any tag, to be encoded.
#[derive(Clone, Copy)]
pub struct AnyTag<'a> {
    /// The name of what it tags.
    pub object: Name,
    /// The kind of what it tags.
    pub kind: Kind,
    pub name: &'a [u8],
    /// Who made it and when, by any line.
    pub tagger: Option<&'a [u8]>,
    /// Lines that aren't empty, each with its line feed.
    pub further: &'a [u8],
    pub message: Option<&'a [u8]>,
}

/// The body of the tag with these parts. Cost: its length.
pub fn encode_any_tag<A: Allocator + Copy>(
    alloc: A,
    parts: &AnyTag<'_>,
) -> Result<Vec<u8, A>, AllocError>
    requires { HasWideTagForm (shown_any_tag parts.now) }
    ensures { IfOk result (λ body. IsWideTagText (shown_any_tag parts.now) body.items) }
{
    let mut body = Vec::new(alloc);
    append_line(&mut body, b"object", &parts.object.hex())?;
    append_line(&mut body, b"type", parts.kind.word().as_bytes())?;
    append_line(&mut body, b"tag", parts.name)?;
    append_optional_line(&mut body, b"tagger", parts.tagger)?;
    body.extend_from_slice(parts.further)?;
    append_message(&mut body, parts.message)?;
    Ok(body)
}

/// The parts of any tag's body, or `BadObject` where it isn't the body of a tag.
///
/// Cost: the length of the body. Takes no memory.
pub fn decode_any_tag(body: &[u8]) -> Result<AnyTag<'_>, BadObject>
    ensures found { IfOk result (λ found. IsWideTagText (shown_any_tag found) body.now) }
    ensures only { Reads shown_any_tag IsWideTagText body.now result }
{
    read_any_tag(body).ok_or(BadObject)
}

#[tactic(auto, unfolding(crate::specs::WideBodies::any_tag_of))]
fn read_any_tag(body: &[u8]) -> Option<AnyTag<'_>>
    ensures { option_map shown_any_tag result ≡ any_tag_of body.now }
{
    let (object, rest) = cut_name(body, b"object")?;
    let (kind, rest) = cut_kind(rest)?;
    let (name, rest) = cut_line(rest, b"tag")?;
    let (tagger, rest) = split_any_tagger(rest);
    let (further, message) = split_tail(rest)?;
    Some(AnyTag {
        object,
        kind,
        name,
        tagger,
        further,
        message,
    })
}

/// The kind that the line of a tag's type tells, and what follows the line.
#[tactic(auto, unfolding(crate::specs::WideBodies::kind_field))]
fn cut_kind(bytes: &[u8]) -> Option<(Kind, &[u8])>
    ensures { option_map (λ p. (p.0, p.1.now)) result ≡ kind_field bytes.now }
{
    let (word, rest) = cut_line(bytes, b"type")?;
    let kind = kind_of(word)?;
    Some((kind, rest))
}

/// The kind that a word tells.
fn kind_of(word: &[u8]) -> Option<Kind>
    ensures { result ≡ kind_of_word word.now }
{
    if word == b"commit".as_slice() {
        Some(Kind::Commit)
    } else if word == b"tree".as_slice() {
        Some(Kind::Tree)
    } else if word == b"blob".as_slice() {
        Some(Kind::Blob)
    } else if word == b"tag".as_slice() {
        Some(Kind::Tag)
    } else {
        None
    }
}

/// What the line of a tagger has, where there is one, and what follows.
fn split_any_tagger(bytes: &[u8]) -> (Option<&[u8]>, &[u8])
    ensures text { option_copied result.0 ≡ (any_tagger_and_rest bytes.now).0 }
    ensures rest { result.1.now ≡ (any_tagger_and_rest bytes.now).1 }
{
    match cut_line(bytes, b"tagger") {
        Some((tagger, rest)) => (Some(tagger), rest),
        None => (None, bytes),
    }
}
