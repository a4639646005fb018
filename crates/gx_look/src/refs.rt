//! The lines of refs in a tail: they are checked, and refs are found among them.
//! Source: this project's own format, git-check-ref-format(1), and gitrevisions(7), "refname".

ghost use Rattle.std.specs.Prelude.{◌≡◌, ◌++◌, ◌≤◌, drop, length, IfSome, IsTrue};
ghost use Rattle.std.specs.Option.{option_map};
ghost use Rattle.gx_model.specs.Revisions.Denotation.{ref_names};
ghost use Rattle.gx_model.specs.Stores.StoreReading.{is_after, ref_line};
ghost use Rattle.gx_model.specs.Texts.{byte_cmp, same_bytes};
ghost use Rattle.gx_text.specs.Lent.{lent_pair};
ghost use Rattle.gx_look.specs.Refs.{AreFirst, BeginsBefore, FindsAmong, FindsOne, LeavesEnd, LeavesName, PassesRefs, first_ref, name_and_rest};
ghost use Rattle.gx_look.specs.Tails.{SpellsLines};

use gx_object::Name;
use gx_text::{cut, is_ref_name};
use std::cmp::Ordering;

/// So many bytes of lines are gone through, one line after the other.
const NEAR: usize = 512;

/// Whether a text has the lines of so many refs, in the byte order of their names, and the last line behind them.
///
/// Cost: one pass. Takes no memory. Source: this project's own format, and git-check-ref-format(1).
pub fn are_refs(count: u64, text: &[u8]) -> bool
    ensures spelled { IsTrue result → SpellsLines text.now }
    ensures all { PassesRefs count text.now result }
{
    let mut rest = text;
    let mut last: Option<&[u8]> = None;
    for _ in 0..count {
        let Some((name, behind)) = first_ref(rest) else {
            return false;
        };
        if !is_after(last, name) {
            return false;
        }
        last = Some(name);
        rest = behind;
    }
    rest == b"end\n".as_slice()
}

/// The name of the ref in the first line, and what follows the line.
fn first_ref(text: &[u8]) -> Option<(&[u8], &[u8])>
    ensures { option_map lent_pair result ≡ option_map name_and_rest (first_ref text.now) }
{
    let (line, rest) = cut(text, b'\n')?;
    let name = ref_name(line)?;
    Some((name, rest))
}

/// The name in the line of a ref: it stands behind the digits of an object, and a space.
#[tactic(auto, unfolding(gx_model::specs::Objects::Naming::lower_name_in))]
fn ref_name(line: &[u8]) -> Option<&[u8]>
    ensures { option_map (λ name. name.now) result ≡ option_map (λ ref. ref.0) (ref_line line.now) }
{
    let (digits, name) = cut(line, b' ')?;
    let _object = Name::read_lower(digits)?;
    if is_ref_name(name) { Some(name) } else { None }
}

/// Whether a name is greater than the one before, where there is one.
fn is_after(last: Option<&[u8]>, name: &[u8]) -> bool
    ensures { result ≡ is_after (option_map (λ last. last.now) last.entry) name.now }
{
    match last {
        Some(last) => last < name,
        None => true,
    }
}

/// The object of the first ref among the six names that a word stands for, in their order.
///
/// Cost: a binary search in the lines for each name. Takes no memory. Source: gitrevisions(7), "refname".
pub fn find_by_names(lines: &[u8], word: &[u8]) -> Option<Name>
    ensures { FindsAmong lines.now (ref_names word.now) result }
{
    if let Some(found) = find(lines, b"", word, b"") {
        return Some(found);
    }
    if let Some(found) = find(lines, b"refs/", word, b"") {
        return Some(found);
    }
    if let Some(found) = find(lines, b"refs/tags/", word, b"") {
        return Some(found);
    }
    find_branch(lines, word)
}

/// The object of a branch's ref, or else of one that a remote repository has.
fn find_branch(lines: &[u8], word: &[u8]) -> Option<Name>
    ensures { FindsAmong lines.now (drop 3 (ref_names word.now)) result }
{
    if let Some(found) = find(lines, b"refs/heads/", word, b"") {
        return Some(found);
    }
    if let Some(found) = find(lines, b"refs/remotes/", word, b"") {
        return Some(found);
    }
    find(lines, b"refs/remotes/", word, b"/HEAD")
}

/// The object of the ref whose name is these three together. Cost: a binary search in the lines.
fn find(lines: &[u8], before: &[u8], word: &[u8], after: &[u8]) -> Option<Name>
    ensures { FindsOne lines.now (before.now ++ word.now ++ after.now) result }
{
    let rest = near(lines, before, word, after);
    find_from(rest, before, word, after)
}

/// Lines from one on that isn't far before the ref whose name is these three together: no line in front of them has it.
fn near<'a>(lines: &'a [u8], before: &[u8], word: &[u8], after: &[u8]) -> &'a [u8]
    ensures { LeavesName lines.now (before.now ++ word.now ++ after.now) result.now }
{
    let mut rest = lines;
    let mut width = lines.len();
    while width > NEAR {
        let half = width.min(rest.len()) / 2;
        rest = behind(rest, half, before, word, after);
        width -= width / 2;
    }
    rest
}

/// The lines behind the one that ends behind so many bytes, where these begin with a lesser name than these three together; else all.
fn behind<'a>(lines: &'a [u8], from: usize, before: &[u8], word: &[u8], after: &[u8]) -> &'a [u8]
    requires { from ≤ length lines.now }
    ensures { LeavesName lines.now (before.now ++ word.now ++ after.now) result.now }
{
    let Some((_line, later)) = cut(&lines[from..], b'\n') else {
        return lines;
    };
    if begins_before(later, before, word, after) {
        later
    } else {
        lines
    }
}

/// Whether the name in the first line is less than these three together.
fn begins_before(lines: &[u8], before: &[u8], word: &[u8], after: &[u8]) -> bool
    ensures { IsTrue result → BeginsBefore (before.now ++ word.now ++ after.now) lines.now }
{
    match first_parts(lines) {
        Some((_digits, name)) => compare(name, before, word, after).is_lt(),
        None => false,
    }
}

/// The digits and the name in the first line.
fn first_parts(lines: &[u8]) -> Option<(&[u8], &[u8])>
    ensures { IfSome result (λ parts. AreFirst lines.now parts.0.now parts.1.now) }
{
    let (line, _behind) = cut(lines, b'\n')?;
    let (digits, name) = cut(line, b' ')?;
    Some((digits, name))
}

/// How a text stands to three others together, in byte order.
fn compare(text: &[u8], before: &[u8], word: &[u8], after: &[u8]) -> Ordering
    ensures { result ≡ byte_cmp text.now (before.now ++ word.now ++ after.now) }
{
    let (front, rest) = text.split_at(usize::min(before.len(), text.len()));
    let (middle, end) = rest.split_at(usize::min(word.len(), rest.len()));
    front
        .cmp(before)
        .then(middle.cmp(word))
        .then(end.cmp(after))
}

/// The object of the ref whose name is these three together, line by line up to one of a greater name.
fn find_from(lines: &[u8], before: &[u8], word: &[u8], after: &[u8]) -> Option<Name>
    ensures { FindsOne lines.now (before.now ++ word.now ++ after.now) result }
{
    let mut rest = lines;
    while let Some((line, behind)) = cut(rest, b'\n') {
        let (digits, name) = cut(line, b' ')?;
        if is_joined(name, before, word, after) {
            return Name::read_lower(digits);
        }
        if !compare(name, before, word, after).is_lt() {
            return None;
        }
        rest = behind;
    }
    None
}

/// The lines of refs without the last line, which is no ref's. Cost: constant. Takes no memory. Source: this project's own format.
pub fn without_end(lines: &[u8]) -> Option<&[u8]>
    ensures { LeavesEnd lines.now result }
{
    lines.strip_suffix(b"end\n")
}

/// Whether a text is three others together.
fn is_joined(text: &[u8], before: &[u8], word: &[u8], after: &[u8]) -> bool
    ensures { result ≡ same_bytes text.now (before.now ++ word.now ++ after.now) }
{
    match text.strip_prefix(before) {
        Some(rest) => match rest.strip_prefix(word) {
            Some(rest) => rest == after,
            None => false,
        },
        None => false,
    }
}
