//! The lines of the bodies of commits and tags: a word, a space, and the rest of the line.

ghost use Rattle.std.specs.Prelude.{◌≡◌};
ghost use Rattle.std.specs.Option.{option_copied, option_map};
ghost use Rattle.gx_model.specs.Objects.{line, optional_line};
ghost use Rattle.gx_text.specs.Buffers.{GrowsBy};
ghost use Rattle.gx_object.specs.Lines.{field, ident_field, name_field, stripped};

use crate::Name;
use gx_text::{Ident, cut};
use std::alloc::{AllocError, Allocator};

pub(crate) fn append_line<A: Allocator + Copy>(
    body: &mut Vec<u8, A>,
    word: &[u8],
    rest: &[u8],
) -> Result<(), AllocError>
    ensures { GrowsBy body.old body.new (line word.now rest.now) result }
{
    body.extend_from_slice(word)?;
    body.push(b' ')?;
    body.extend_from_slice(rest)?;
    body.push(b'\n')?;
    Ok(())
}

pub(crate) fn append_optional_line<A: Allocator + Copy>(
    body: &mut Vec<u8, A>,
    word: &[u8],
    rest: Option<&[u8]>,
) -> Result<(), AllocError>
    ensures { GrowsBy body.old body.new (optional_line word.now (option_copied rest.entry)) result }
{
    match rest {
        Some(rest) => append_line(body, word, rest),
        None => Ok(()),
    }
}

/// What follows this front. Inlined, so that a front of a known length is compared at once.
#[inline(always)]
#[tactic(auto, unfolding(crate::specs::Lines::stripped))]
pub(crate) fn strip<'a>(bytes: &'a [u8], front: &[u8]) -> Option<&'a [u8]>
    ensures { option_map (λ rest. rest.now) result ≡ stripped front.now bytes.now }
{
    bytes.strip_prefix(front)
}

/// What the line of this word has, and what follows the line.
#[tactic(auto, unfolding(crate::specs::Lines::field))]
pub(crate) fn cut_line<'a>(bytes: &'a [u8], word: &[u8]) -> Option<(&'a [u8], &'a [u8])>
    ensures { option_map (λ p. (p.0.now, p.1.now)) result ≡ field word.now bytes.now }
{
    let rest = strip(bytes, word)?;
    let rest = strip(rest, b" ")?;
    cut(rest, b'\n')
}

/// The name that the line of this word has, in lower-case digits, and what follows the line.
#[tactic(auto, unfolding(crate::specs::Lines::name_field))]
pub(crate) fn cut_name<'a>(bytes: &'a [u8], word: &[u8]) -> Option<(Name, &'a [u8])>
    ensures { option_map (λ p. (p.0.bytes, p.1.now)) result ≡ name_field word.now bytes.now }
{
    let (digits, rest) = cut_line(bytes, word)?;
    let name = Name::read_lower(digits)?;
    Some((name, rest))
}

/// The identity that the line of this word has, and what follows the line.
#[tactic(auto, unfolding(crate::specs::Lines::ident_field))]
pub(crate) fn cut_ident<'a>(bytes: &'a [u8], word: &[u8]) -> Option<(&'a [u8], &'a [u8])>
    ensures { option_map (λ p. (p.0.now, p.1.now)) result ≡ ident_field word.now bytes.now }
{
    let (text, rest) = cut_line(bytes, word)?;
    match Ident::read(text) {
        Ok(_) => Some((text, rest)),
        Err(_) => None,
    }
}
