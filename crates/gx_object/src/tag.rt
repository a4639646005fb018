//! The bodies of tags. Source: gitglossary(7), "tag object".

ghost use Rattle.std.specs.Prelude.{◌≡◌, IsTrue, IfOk};
ghost use Rattle.std.specs.Option.{option_copied, option_map};
ghost use Rattle.gx_model.specs.Texts.RefNames.{is_tag_name};
ghost use Rattle.gx_model.specs.Objects.{IsTagText};
ghost use Rattle.gx_object.specs.Tags.{tag_field, tag_parts_of, tagger_and_rest};
ghost use Rattle.gx_object.specs.Parts.{FindsEach, tag_parts};

use crate::line::{append_line, append_optional_line, cut_ident, cut_line, cut_name, strip};
use crate::{BadObject, Name};
use gx_text::{Ident, is_ref_name};
use std::alloc::{AllocError, Allocator};
use std::marker::Model;

/// The parts of a tag of a commit, to be encoded. `refs/tags/` followed by the name is a ref name.
#[derive(Clone, Copy)]
pub struct TagParts<'a> {
    pub object: Name,
    pub name: &'a [u8],
    pub tagger: Option<Ident<'a>>,
    pub message: &'a [u8],
}

/// The body of the tag with these parts. Cost: its length.
pub fn encode_tag<A: Allocator + Copy>(
    alloc: A,
    parts: &TagParts<'_>,
) -> Result<Vec<u8, A>, AllocError>
    requires { IsTrue (is_tag_name (tag_parts parts.now).name) }
    ensures { IfOk result (λ body. IsTagText (tag_parts parts.now) body.items) }
{
    let mut body = Vec::new(alloc);
    append_line(&mut body, b"object", &parts.object.hex())?;
    body.extend_from_slice(b"type commit\n")?;
    append_line(&mut body, b"tag", parts.name)?;
    if let Some(tagger) = parts.tagger {
        append_line(&mut body, b"tagger", tagger.bytes())?;
    }
    body.push(b'\n')?;
    body.extend_from_slice(parts.message)?;
    Ok(body)
}

/// A tag's body, seen as its parts. Its readers take no memory, and each costs the same for every body.
#[derive(Drop)]
pub struct TagView<'a> {
    object: Name,
    name: &'a [u8],
    tagger: Option<&'a [u8]>,
    message: &'a [u8],
}

impl<'a> Model for TagView<'a> {
    ghost use Rattle.gx_model.specs.Objects.{TagParts};
    ghost use Rattle.gx_object.specs.Parts.{shown_tag};

    ghost Value = { TagParts };

    ghost view = { λ v. shown_tag v.object v.name v.tagger v.message };
}

impl<'a> TagView<'a> {
    /// The name of the commit that it tags.
    pub fn object(&self) -> Name
        ensures { result.bytes ≡ self.now.object }
    {
        self.object
    }

    /// Its own name.
    pub fn name(&self) -> &'a [u8]
        ensures { result.now ≡ self.now.name }
    {
        self.name
    }

    /// The tagger's identity, where it is told.
    pub fn tagger(&self) -> Option<&'a [u8]>
        ensures { option_map (λ t. t.now) result ≡ self.now.tagger }
    {
        self.tagger
    }

    /// The message.
    pub fn message(&self) -> &'a [u8]
        ensures { result.now ≡ self.now.message }
    {
        self.message
    }
}

/// The parts of a tag's body, or `BadObject` where it isn't the body of a tag of a commit.
///
/// Cost: the length of the body. Takes no memory.
pub fn decode_tag(body: &[u8]) -> Result<TagView<'_>, BadObject>
    ensures found { IfOk result (λ parts. IsTagText parts body.now) }
    ensures only { FindsEach IsTagText body.now result }
{
    read_tag(body).ok_or(BadObject)
}

#[tactic(auto, unfolding(crate::specs::Tags::tag_parts_of))]
fn read_tag(body: &[u8]) -> Option<TagView<'_>>
    ensures { result ≡ tag_parts_of body.now }
{
    let (object, rest) = cut_name(body, b"object")?;
    let rest = strip(rest, b"type commit\n")?;
    let (name, rest) = cut_tag(rest)?;
    let (tagger, rest) = split_tagger(rest);
    let message = strip(rest, b"\n")?;
    Some(TagView {
        object,
        name,
        tagger,
        message,
    })
}

/// What the line of the tag's name has, and what follows the line.
#[tactic(auto, unfolding(crate::specs::Tags::tag_field))]
fn cut_tag(bytes: &[u8]) -> Option<(&[u8], &[u8])>
    ensures { option_map (λ p. (p.0.now, p.1.now)) result ≡ tag_field bytes.now }
{
    let (name, rest) = cut_line(bytes, b"tag")?;
    if is_tag_name(name) {
        Some((name, rest))
    } else {
        None
    }
}

/// Whether `refs/tags/` followed by the bytes is a ref name. Only `@` alone is one there and isn't one by itself.
fn is_tag_name(name: &[u8]) -> bool
    ensures { result ≡ is_tag_name name.now }
{
    is_ref_name(name) || name == b"@".as_slice()
}

/// What the line of a tagger has, where there is one, and what follows.
fn split_tagger(bytes: &[u8]) -> (Option<&[u8]>, &[u8])
    ensures text { option_copied result.0 ≡ (tagger_and_rest bytes.now).0 }
    ensures rest { result.1.now ≡ (tagger_and_rest bytes.now).1 }
{
    match cut_ident(bytes, b"tagger") {
        Some((tagger, rest)) => (Some(tagger), rest),
        None => (None, bytes),
    }
}
