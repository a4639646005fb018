//! The entries of trees, one by one.

ghost use Rattle.std.specs.Prelude.{◌≡◌, ◌+◌, ◌<◌, ◌≤◌, ◌++◌, ◌∷◌, ◌==◌, [], not, length, vec_capacity, vec_len, IfSome, IsTrue, OnErr, OnOk};
ghost use Rattle.std.specs.List.{position_or_len};
ghost use Rattle.std.specs.Option.{option_map};
ghost use Rattle.gx_model.specs.Objects.{entry_text, is_name, mode_text};
ghost use Rattle.gx_model.specs.Texts.{cut_at};
ghost use Rattle.gx_model.specs.Texts.Paths.{is_component};
ghost use Rattle.gx_text.specs.Buffers.{GrowsBy};
ghost use Rattle.gx_object.specs.Trees.{IsPlainFront, entry_at, is_dots, mode_at};
ghost use Rattle.gx_object.specs.Entries.{entry_of, shown};

use crate::line::strip;
use crate::order::{has_bytes, is_component};
use crate::{Mode, Name};
use gx_text::cut;
use std::alloc::{AllocError, Allocator};
use std::simd::prelude::*;

/// An entry of a tree: a file, or a directory by the name of its tree. Source: gitglossary(7), "tree object".
#[derive(Clone, Copy, Debug, PartialEq, Eq)]
pub struct Entry<'a> {
    pub mode: Mode,
    /// The first component of the paths that lead here.
    pub component: &'a [u8],
    pub name: Name,
}

/// The entry at the front, and what follows it.
pub(crate) fn first_entry(bytes: &[u8]) -> Option<(Entry<'_>, &[u8])>
    ensures { option_map (λ x. (shown x.0, x.1.now)) result ≡ entry_at bytes.now }
{
    let found = read_entry(bytes)?;
    Some((found.entry, found.rest))
}

/// An entry that stands at the front, whether its component is one of a path, and what follows it.
#[derive(Drop)]
pub(crate) struct FirstEntry<'a> {
    pub(crate) entry: Entry<'a>,
    pub(crate) is_proper: bool,
    pub(crate) rest: &'a [u8],
}

/// The entry at the front. Its bytes are gone over once, unless its component is long or no path's. It is inlined with its
/// parts, since most of an opening's entries are read by one caller.
#[inline(always)]
#[tactic(auto, unfolding(crate::specs::Trees::entry_at))]
pub(crate) fn read_entry(bytes: &[u8]) -> Option<FirstEntry<'_>>
    ensures entry { option_map (λ x. (shown x.entry, x.rest.now)) result ≡ entry_at bytes.now }
    ensures proper { IfSome result (λ x. x.is_proper ≡ is_component x.entry.component.now) }
{
    let (mode, rest) = read_mode(bytes)?;
    let (component, is_proper, rest) = cut_component(rest)?;
    let (name, rest) = rest.split_first_chunk()?;
    let entry = Entry {
        mode,
        component,
        name: Name { bytes: *name },
    };
    Some(FirstEntry {
        entry,
        is_proper,
        rest,
    })
}

/// The mode and its space at the front, and what follows them.
#[inline(always)]
fn read_mode(bytes: &[u8]) -> Option<(Mode, &[u8])>
    ensures { option_map (λ x. (x.0, x.1.now)) result ≡ mode_at bytes.now }
{
    if let Some(rest) = strip(bytes, b"100644 ") {
        return Some((Mode::File, rest));
    }
    if let Some(rest) = strip(bytes, b"40000 ") {
        return Some((Mode::Dir, rest));
    }
    if let Some(rest) = strip(bytes, b"100755 ") {
        return Some((Mode::Exec, rest));
    }
    if let Some(rest) = strip(bytes, b"120000 ") {
        return Some((Mode::Link, rest));
    }
    if let Some(rest) = strip(bytes, b"160000 ") {
        return Some((Mode::Gitlink, rest));
    }
    None
}

/// What stands before the first NUL, whether it is a component of a path, and what stands after the NUL.
#[inline(always)]
fn cut_component(bytes: &[u8]) -> Option<(&[u8], bool, &[u8])>
    ensures cut { option_map (λ x. (x.0.now, x.2.now)) result ≡ cut_at 0 bytes.now }
    ensures proper { IfSome result (λ x. x.1 ≡ is_component x.0.now) }
{
    if let Some(len) = plain_len(bytes) {
        let component = &bytes[..len];
        has_bytes(component);
        return Some((component, !is_dots(component), &bytes[len + 1..]));
    }
    let (component, rest) = cut(bytes, 0)?;
    Some((component, is_component(component), rest))
}

/// The length of what stands before the first NUL, where that is short and has no slash. Behind a component of a tree's
/// entry stand 21 bytes, so one of less than 16 is found by the first look.
#[inline(always)]
fn plain_len(bytes: &[u8]) -> Option<usize>
    ensures { IfSome result (λ len. IsPlainFront bytes.now len) }
{
    if let Some(len) = plain_within::<16>(bytes) {
        return Some(len);
    }
    plain_within::<32>(bytes)
}

/// The same, where so many bytes stand there and the NUL is one of them.
#[inline(always)]
fn plain_within<const LANES: usize>(bytes: &[u8]) -> Option<usize>
    requires { (0 < LANES) × (LANES ≤ 64) }
    ensures { IfSome result (λ len. IsPlainFront bytes.now len) }
{
    let near = bytes.first_chunk::<LANES>()?;
    let len = run_before(near, 0);
    if len < LANES && len < run_before(near, b'/') {
        Some(len)
    } else {
        None
    }
}

/// How many bytes stand before the first of these.
#[inline(always)]
fn run_before<const LANES: usize>(near: &[u8; LANES], end: u8) -> usize
    requires { (0 < LANES) × (LANES ≤ 64) }
    ensures { result ≡ position_or_len (λ b. b == end) near.now }
{
    let ends = Simd::<u8, LANES>::from_array(*near)
        .simd_eq(Simd::splat(end))
        .to_bitmask();
    if ends == 0 {
        LANES
    } else {
        ends.trailing_zeros() as usize
    }
}

/// Whether this is nothing, `.` or `..`.
fn is_dots(bytes: &[u8]) -> bool
    ensures { result ≡ is_dots bytes.now }
{
    match bytes {
        [] | [b'.'] | [b'.', b'.'] => true,
        _ => false,
    }
}

/// Appends the text of an entry, or nothing where the growth is refused.
///
/// Cost: the text's length. Takes memory only where the buffer has no room for the text.
pub fn append_entry<A: Allocator + Copy>(
    body: &mut Vec<u8, A>,
    mode: Mode,
    component: &[u8],
    name: &Name,
) -> Result<(), AllocError>
    ensures text { GrowsBy body.old body.new
        (entry_text (entry_of mode component.now name.now)) result }
    ensures unchanged { OnErr result (body.new.items ≡ body.old.items) }
    ensures name { OnOk result (IsTrue (is_name name.now.bytes)) }
{
    body.reserve(component.len() + MOST_AROUND)?;
    append_mode(body, mode);
    append_within(body, component);
    body.push_reserved(0);
    append_name(body, name.bytes.as_slice());
    Ok(())
}

// The bytes of an entry beside its component, at most: the mode and its space, the NUL and the name.
const MOST_AROUND: usize = 28;

/// Appends the mode in octal, without leading zeros, and a space.
fn append_mode<A: Allocator + Copy>(body: &mut Vec<u8, A>, mode: Mode)
    requires room { vec_len body.old + 7 ≤ vec_capacity body.old }
    ensures text { body.new.items ≡ body.old.items ++ (mode_text mode ++ (32 ∷ [])) }
    ensures len { vec_len body.new ≤ vec_len body.old + 7 }
    ensures capacity { vec_capacity body.old ≤ vec_capacity body.new }
{
    match mode {
        Mode::File => append_within(body, b"100644 "),
        Mode::Exec => append_within(body, b"100755 "),
        Mode::Link => append_within(body, b"120000 "),
        Mode::Gitlink => append_within(body, b"160000 "),
        Mode::Dir => append_within(body, b"40000 "),
    }
}

fn append_name<A: Allocator + Copy>(body: &mut Vec<u8, A>, name: &[u8])
    requires length { length name.now ≡ 20 }
    requires room { vec_len body.old + 20 ≤ vec_capacity body.old }
    ensures text { body.new.items ≡ body.old.items ++ name.now }
    ensures name { IsTrue (is_name name.now) }
{
    append_within(body, name);
}

/// Appends bytes for which there is room.
fn append_within<A: Allocator + Copy>(body: &mut Vec<u8, A>, bytes: &[u8])
    requires room { vec_len body.old + length bytes.now ≤ vec_capacity body.old }
    ensures text { body.new.items ≡ body.old.items ++ bytes.now }
    ensures len { vec_len body.new ≡ vec_len body.old + length bytes.now }
    ensures capacity { vec_capacity body.old ≤ vec_capacity body.new }
{
    let Ok(()) = body.extend_from_slice(bytes) else {
        unreachable!();
    };
}
