//! What is offered: refs, and objects that are shared ranges of one text.

ghost use Rattle.std.specs.Prelude.{◌≡◌, ◌++◌, ◌∷◌, IfOk};
ghost use Rattle.gx_store.specs.Bodies.{bytes_of};
ghost use Rattle.gx_offered.specs.Items.{shown_found, shown_offered, text_found};
ghost use Rattle.gx_offered.specs.Ends.{EndsWith};

use crate::item::Found;
use gx_object::{Kind, Name};
use gx_store::{Body, Text, TextRange};
use std::alloc::{AllocError, Allocator};

/// What a ref is to hold. The name of zeros alone asks that the ref be dropped.
#[derive(Drop)]
pub struct OfferedRef<A: Allocator> {
    /// The ref's name.
    pub name: Body<A>,
    /// The object that it is to hold.
    pub object: Name,
}

/// An object, under its name.
#[derive(Drop)]
pub struct OfferedObject<A: Allocator> {
    pub kind: Kind,
    pub name: Name,
    pub body: Body<A>,
}

/// An item of a text of refs and objects.
#[derive(Drop)]
pub enum Offered<A: Allocator> {
    Ref(OfferedRef<A>),
    Object(OfferedObject<A>),
}

/// An item that stands in a text, in front of an LF and what is left of the text. No bytes are copied, unless the text has as many
/// owners as can be counted.
pub(crate) fn item_within<A: Allocator + Copy>(
    alloc: A,
    whole: &Text<A>,
    found: Found<'_>,
    rest: &[u8],
) -> Result<Offered<A>, AllocError>
    requires { EndsWith whole.now (text_found found ++ 10 ∷ rest.now) }
    ensures { IfOk result (λ offered. shown_offered offered ≡ shown_found found.entry) }
{
    match found {
        Found::Ref(object, name) => Ok(Offered::Ref(OfferedRef {
            name: part_of(alloc, whole, name, rest)?,
            object,
        })),
        Found::Object(kind, name, body) => Ok(Offered::Object(OfferedObject {
            kind,
            name,
            body: part_of(alloc, whole, body, rest)?,
        })),
    }
}

/// Bytes that stand in a text, in front of an LF and what is left of the text.
fn part_of<A: Allocator + Copy>(
    alloc: A,
    whole: &Text<A>,
    bytes: &[u8],
    rest: &[u8],
) -> Result<Body<A>, AllocError>
    requires { EndsWith whole.now (bytes.now ++ 10 ∷ rest.now) }
    ensures { IfOk result (λ part. bytes_of part ≡ bytes.now) }
{
    let end = whole.as_slice().len() - rest.len() - 1;
    match TextRange::new(whole, end - bytes.len(), end) {
        Ok(range) => Ok(Body::Within(range)),
        // the text has as many owners as can be counted
        Err(_) => Ok(Body::Own(Vec::from_slice(alloc, bytes)?)),
    }
}
