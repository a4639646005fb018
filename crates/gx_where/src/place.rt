//! The place at which a command begins.

ghost use Rattle.std.specs.Prelude.{◌≡◌, ◌<◌, ◌≤◌, ◌-◌, ◌^◌, IfOk, IfErr, length};
ghost use Rattle.gx_stream.specs.FirstItems.{IsEndOf};
ghost use Rattle.gx_where.specs.Rests.{Reaches, BeginsNoComment};
ghost use Rattle.gx_where.specs.Places.{BeginsWith, GoesOnWith, rest_at, line_at, front_line};
ghost use Rattle.gx_where.specs.Faults.{IsWhy};

use crate::fault::WhereFault;
use crate::lines::{count_lines, first_line};
use crate::rest::{count_items, rest_behind};
use gx_command::items_behind;
use gx_stream::LIMIT;
use gx_text::{Bytes, PIECE};
use std::alloc::Allocator;

/// A place in a text.
#[derive(Clone, Copy, Debug, PartialEq, Eq)]
pub struct Place<'a> {
    /// How many bytes stand before it.
    pub byte: u64,
    /// The number of its line, from 1.
    pub line: u64,
    /// What follows it in that line, without the LF.
    pub first: &'a [u8],
}

/// Where a command of a stream begins, by its number from 1: at its first line, behind the empty lines and the comments
/// before it. The commands before it have to be read without a fault; it may be the one that isn't.
/// The command behind the last one begins where what is left of the text begins, which is its end if nothing is left.
///
/// Errors: those of `WhereFault`, each with its cause there.
///
/// Cost: time in the bytes of the text. Memory: that of the commands before it, one by one, and the longest item.
/// Source: git-fast-import(1), "Commands" and "Comments".
pub fn place_of_command<A: Allocator + Copy>(
    alloc: A,
    text: &[u8],
    command: u64,
) -> Result<Place<'_>, WhereFault>
    ensures number { IfOk result (λ place. 0 < command) }
    ensures begins { IfOk result (λ place. BeginsWith command text.now (rest_at text.now place)) }
    ensures commands { IfOk result (λ place. GoesOnWith command text.now (rest_at text.now place)) }
    ensures within { IfOk result (λ place. place.byte ≤ length text.now) }
    ensures reached { IfOk result (λ place. Reaches text.now (rest_at text.now place)) }
    ensures item { IfOk result (λ place. BeginsNoComment (rest_at text.now place)) }
    ensures line { IfOk result (λ place. place.line ≡ line_at text.now place.byte) }
    ensures first { IfOk result (λ place. place.first.now ≡ front_line (rest_at text.now place)) }
    ensures why { IfErr result (IsWhy command text.now) }
{
    if text.len() > LIMIT {
        return Err(WhereFault::ReadFailed);
    }
    if command == 0 {
        return Err(WhereFault::NoSuchCommand);
    }
    let source = Bytes::new(text, PIECE, false);
    match items_behind(alloc, source, command - 1)? {
        Some(left) => Ok(place_of_rest(text, rest_behind(text, count_items(text) - left))),
        None => Err(WhereFault::NoSuchCommand),
    }
}

/// The place from which a text has this rest.
fn place_of_rest<'a>(text: &[u8], rest: &'a [u8]) -> Place<'a>
    requires end { IsEndOf text.now rest.now }
    requires short { length text.now ≤ 2 ^ 63 - 1 }
    ensures byte { rest_at text.now result ≡ rest.now }
    ensures within { result.byte ≤ length text.now }
    ensures line { result.line ≡ line_at text.now result.byte }
    ensures first { result.first.now ≡ front_line rest.now }
{
    let byte = text.len() - rest.len();
    Place {
        byte: byte as u64,
        line: 1 + count_lines(&text[..byte]),
        first: first_line(rest),
    }
}
