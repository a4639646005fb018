//! Formats: how the line of an object is made. Source: git-cat-file(1), "BATCH OUTPUT", and what git 2.39 does with a percent sign.

ghost use Rattle.std.specs.Prelude.{◌≡◌, ◌++◌, IfOk, Ok, OnOk};
ghost use Rattle.std.specs.List.{flat_map};
ghost use Rattle.gx_batch.specs.Formats.{GivesFirst, GivesFormat, GivesNamed, IsPlain, IsUnread, default_parts, format_of, object_line, part_named, part_text};

use crate::FormatFault;
use gx_object::{Kind, Name};
use gx_text::cut;
use itoa::Buffer;
use std::alloc::{AllocError, Allocator};

/// A part of a line: a byte that stands for itself, or what an object has.
#[derive(Clone, Copy, Drop)]
pub(crate) enum Part {
    Byte(u8),
    ObjectName,
    ObjectType,
    ObjectSize,
}

/// How the line of an object is made: the parts of the line, one after the other.
#[derive(Drop)]
pub struct Format<A: Allocator> {
    parts: Vec<Part, A>,
}

impl<A: Allocator + Copy> Format<A> {
    /// `%(objectname) %(objecttype) %(objectsize)`: the format where none is asked for. Memory: its parts.
    pub fn usual(alloc: A) -> Result<Format<A>, AllocError>
        ensures { IfOk result (λ format. format.parts.items ≡ default_parts) }
    {
        let mut parts = Vec::new(alloc);
        parts.push(Part::ObjectName)?;
        parts.push(Part::Byte(b' '))?;
        parts.push(Part::ObjectType)?;
        parts.push(Part::Byte(b' '))?;
        parts.push(Part::ObjectSize)?;
        Ok(Format { parts })
    }

    /// Reads a format: `%(objectname)`, `%(objecttype)` and `%(objectsize)` stand for what an object has, `%%` for a percent
    /// sign, and each other byte for itself.
    ///
    /// `BadFormat`: behind `%(` stands another name, or no `)`. `OutOfMemory`: it is a format, and a growth was refused.
    /// Cost: the length of the text. Memory: the format's parts, two bytes each.
    pub fn read(alloc: A, text: &[u8]) -> Result<Format<A>, FormatFault>
        ensures { GivesFormat text.now result }
    {
        let mut parts = Vec::new(alloc);
        let mut rest = text;
        while let Some((part, after)) = first_part(rest)? {
            match parts.push(part) {
                Ok(()) => rest = after,
                Err(_) => return Err(fault_without_room(after)),
            }
        }
        Ok(Format { parts })
    }

    /// Makes the line of an object of this name, kind and size, in place of what the buffer has.
    pub fn make_line(
        &self,
        name: &Name,
        kind: Kind,
        size: usize,
        line: &mut Vec<u8, A>,
    ) -> Result<(), AllocError>
        ensures { OnOk result
            (line.new.items ≡ object_line self.now.parts.items name.now.bytes kind size) }
    {
        line.clear();
        add_parts(&self.parts, name, kind, size, line)?;
        line.push(b'\n')?;
        Ok(())
    }
}

/// Why a format isn't read that ends with this text, where there is no memory for its parts: what is left may be no format.
fn fault_without_room(text: &[u8]) -> FormatFault
    ensures { IsUnread (format_of text.now) result }
{
    let mut rest = text;
    loop {
        match first_part(rest) {
            Ok(Some((_, after))) => rest = after,
            Ok(None) => return FormatFault::OutOfMemory,
            Err(fault) => return fault,
        }
    }
}

/// The first part of a text, and what stands behind it. `None` where the text is empty.
fn first_part(text: &[u8]) -> Result<Option<(Part, &[u8])>, FormatFault>
    ensures { GivesFirst text.now result }
{
    match text.strip_prefix(b"%(") {
        Some(after) => Ok(Some(named_part(after)?)),
        None => Ok(plain_part(text)),
    }
}

/// The part that is named before the next `)`, and what stands behind that.
fn named_part(text: &[u8]) -> Result<(Part, &[u8]), FormatFault>
    ensures { GivesNamed text.now result }
{
    let Some((word, after)) = cut(text, b')') else {
        return Err(FormatFault::BadFormat);
    };
    match part_named(word) {
        Some(part) => Ok((part, after)),
        None => Err(FormatFault::BadFormat),
    }
}

/// The part of this name.
fn part_named(word: &[u8]) -> Option<Part>
    ensures { result ≡ part_named word.now }
{
    if word == b"objectname".as_slice() {
        Some(Part::ObjectName)
    } else if word == b"objecttype".as_slice() {
        Some(Part::ObjectType)
    } else if word == b"objectsize".as_slice() {
        Some(Part::ObjectSize)
    } else {
        None
    }
}

/// The byte at the front of a text that doesn't begin with `%(`, once of two percent signs, and what stands behind it.
fn plain_part(text: &[u8]) -> Option<(Part, &[u8])>
    requires { IsPlain text.now }
    ensures { GivesFirst text.now (Ok result) }
{
    if let Some(after) = text.strip_prefix(b"%%") {
        return Some((Part::Byte(b'%'), after));
    }
    let (byte, after) = text.split_first()?;
    Some((Part::Byte(*byte), after))
}

/// Appends what parts give of an object, one after the other.
fn add_parts<A: Allocator>(
    parts: &[Part],
    name: &Name,
    kind: Kind,
    size: usize,
    line: &mut Vec<u8, A>,
) -> Result<(), AllocError>
    ensures { OnOk result
        (line.new.items ≡ line.old.items
        ++ flat_map (part_text name.now.bytes kind size) parts.now) }
{
    for part in parts {
        add_part(*part, name, kind, size, line)?;
    }
    Ok(())
}

/// Appends what a part gives of an object.
fn add_part<A: Allocator>(
    part: Part,
    name: &Name,
    kind: Kind,
    size: usize,
    line: &mut Vec<u8, A>,
) -> Result<(), AllocError>
    ensures { OnOk result
        (line.new.items ≡ line.old.items ++ part_text name.now.bytes kind size part) }
{
    match part {
        Part::Byte(byte) => line.push(byte)?,
        Part::ObjectName => line.extend_from_slice(name.hex().as_slice())?,
        Part::ObjectType => line.extend_from_slice(kind.word().as_bytes())?,
        Part::ObjectSize => {
            let mut digits = Buffer::new();
            line.extend_from_slice(digits.format(size).as_bytes())?;
        }
    }
    Ok(())
}
