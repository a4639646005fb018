//! The item that a text goes on with, where it stands. Source: git-cat-file(1), "BATCH OUTPUT", and git-for-each-ref(1).

ghost use Rattle.std.specs.Prelude.{◌≡◌, ◌++◌, ◌∷◌, IfOk};
ghost use Rattle.gx_model.specs.Texts.{Bytes};
ghost use Rattle.gx_model.specs.Objects.{unhex};
ghost use Rattle.gx_wide.specs.ObjectsTexts.{body_in, item_at, length_in, object_in};
ghost use Rattle.gx_wide.specs.WideTexts.{kind_of_word};
ghost use Rattle.gx_text.specs.Lent.{lent_pair};
ghost use Rattle.gx_offered.specs.Items.{Gives, ref_before, shown_read, text_found};
ghost use Rattle.gx_offered.specs.Ends.{EndsWith};

use crate::ItemFault;
use gx_lines::read_number;
use gx_object::{Kind, Name, Namer};
use gx_text::{cut, is_ref_name};

/// An item where it stands in a text: the name of the object that a ref is to hold, and the ref's name; or the kind, the name and
/// the body of an object.
#[derive(Clone, Copy)]
pub(crate) enum Found<'a> {
    Ref(Name, &'a [u8]),
    Object(Kind, Name, &'a [u8]),
}

/// The item at the front, and what follows it.
///
/// Cost: the item's bytes, those of a body hashed once. Takes no memory.
pub(crate) fn read_item<'a, N: Namer>(
    namer: &N,
    text: &'a [u8],
) -> Result<(Found<'a>, &'a [u8]), ItemFault>
    ensures item { Gives shown_read result (item_at (N.name_of namer.now) text.now) }
    ensures behind { IfOk result
        (λ read. EndsWith text.now (text_found read.0 ++ 10 ∷ read.1.now)) }
{
    let Some((line, rest)) = cut(text, b'\n') else {
        return Err(ItemFault::TruncatedData);
    };
    let Some((digits, told)) = cut(line, b' ') else {
        return Err(ItemFault::BadLine);
    };
    let Some(name) = Name::read_lower(digits) else {
        return Err(ItemFault::BadLine);
    };
    match cut(told, b' ') {
        Some((word, size)) => read_object(namer, name, word, size, rest),
        None => read_ref(name, told, rest),
    }
}

/// A ref that is to hold an object, by the rest of its line; and what follows the line.
fn read_ref<'a>(
    object: Name,
    name: &'a [u8],
    rest: &'a [u8],
) -> Result<(Found<'a>, &'a [u8]), ItemFault>
    ensures item { (digits : Bytes) → unhex digits ≡ object.bytes → Gives shown_read result
        (ref_before digits name.now rest.now) }
    ensures behind { IfOk result (λ read. name.now ++ 10 ∷ rest.now
        ≡ text_found read.0 ++ 10 ∷ read.1.now) }
{
    if name == b"missing".as_slice() {
        Err(ItemFault::Missing)
    } else if is_ref_name(name) {
        Ok((Found::Ref(object, name), rest))
    } else {
        Err(ItemFault::BadRefName)
    }
}

/// An object by the rest of its line and what follows that, and what follows it. Its bytes have its name.
fn read_object<'a, N: Namer>(
    namer: &N,
    name: Name,
    word: &[u8],
    size: &[u8],
    text: &'a [u8],
) -> Result<(Found<'a>, &'a [u8]), ItemFault>
    ensures item { (digits : Bytes) → unhex digits ≡ name.bytes → Gives shown_read result
        (object_in (N.name_of namer.now) digits word.now size.now text.now) }
    ensures behind { IfOk result (λ read. text.now ≡ text_found read.0 ++ 10 ∷ read.1.now) }
{
    let Some(kind) = kind_named(word) else {
        return Err(ItemFault::BadLine);
    };
    let length = read_length(size)?;
    let (body, rest) = read_body(length, text)?;
    if namer.name(kind, body) != name {
        return Err(ItemFault::NameMismatch);
    }
    Ok((Found::Object(kind, name, body), rest))
}

/// The kind that a word tells.
fn kind_named(word: &[u8]) -> Option<Kind>
    ensures { result ≡ kind_of_word word.now }
{
    if word == b"commit".as_slice() {
        Some(Kind::Commit)
    } else if word == b"tree".as_slice() {
        Some(Kind::Tree)
    } else if word == b"blob".as_slice() {
        Some(Kind::Blob)
    } else if word == b"tag".as_slice() {
        Some(Kind::Tag)
    } else {
        None
    }
}

/// The length that digits write.
fn read_length(size: &[u8]) -> Result<u64, ItemFault>
    ensures { Gives (λ length. length) result (length_in size.now) }
{
    read_number(size).ok_or(ItemFault::BadNumber)
}

/// So many bytes, and what follows the LF behind them. However many they are to be, no memory is taken.
fn read_body(length: u64, text: &[u8]) -> Result<(&[u8], &[u8]), ItemFault>
    ensures body { Gives lent_pair result (body_in length text.now) }
    ensures behind { IfOk result (λ parts. text.now ≡ parts.0.now ++ 10 ∷ parts.1.now) }
{
    if length >= text.len() as u64 {
        return Err(ItemFault::TruncatedData);
    }
    let (body, rest) = text.split_at(length as usize);
    match rest.strip_prefix(b"\n") {
        Some(rest) => Ok((body, rest)),
        None => Err(ItemFault::BadLine),
    }
}
