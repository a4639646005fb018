//! The lines of single files among those of their directories, so that a file that stays keeps its line.

ghost use Rattle.std.specs.List.{slice_range, AllByRecursion};
ghost use Rattle.std.specs.Prelude.{◌≡◌, ◌<◌, List, length, slice_index_or, IfSome};
ghost use Rattle.gx_model.specs.declared.objects.Kind.{Kind};
ghost use Rattle.gx_model.specs.Histories.Values.{Value};
ghost use Rattle.gx_model.specs.Histories.{Records};
ghost use Rattle.gx_model.specs.Texts.{Bytes};
ghost use Rattle.gx_export.specs.FileTexts.{IsKept, IsLineIn};

use crate::lines::{Directory, has_path};
use gx_object::Entry;
use std::alloc::Allocator;

/// The line of a file, from a place to another one behind the start of its directory's lines.
#[derive(Clone, Copy)]
pub(crate) struct FileLine<'a> {
    pub(crate) entry: Entry<'a>,
    pub(crate) start: usize,
    pub(crate) end: usize,
}

/// A directory that was entered: its number, that of the one at its path in the commit before, and how many of the lines
/// of the latter's files were passed.
#[derive(Clone, Copy)]
pub(crate) struct Opened {
    pub(crate) number: usize,
    pub(crate) before: usize,
    pub(crate) passed: usize,
}

/// The line that a file had in the commit before, of whose text and directories these are, in the directory at a path.
pub(crate) fn earlier_line<'t, A: Allocator>(
    text: &'t [u8],
    directories: &[Directory<'_, A>],
    opened: &mut Opened,
    path: &[u8],
    entry: &Entry<'_>,
) -> Option<&'t [u8]>
    ensures { (name : Kind → Bytes → Bytes) (repository : Records) (ws : List Value)
        → AllByRecursion (IsKept name repository ws text.now) directories.now
        → IfSome result (λ line. IsLineIn repository ws path.now entry.now line.now) }
{
    if opened.before >= directories.len() {
        return None;
    }
    let directory = &directories[opened.before];
    if !has_path(directory, path) {
        return None;
    }
    let own = part_of(text, directory.start, directory.end)?;
    let line = next_line(&directory.files, &mut opened.passed, entry)?;
    part_of(own, line.start, line.end)
}

/// The line of this file, where it is the next one of those that weren't passed, once those of files before it are.
fn next_line<'a>(
    lines: &[FileLine<'a>],
    passed: &mut usize,
    entry: &Entry<'_>,
) -> Option<FileLine<'a>>
    ensures stands { IfSome result (λ line. (passed.new < length lines.now)
        × (line ≡ slice_index_or lines.now passed.new line)) }
    ensures mode { IfSome result (λ line. line.entry.mode ≡ entry.now.mode) }
    ensures component { IfSome result (λ line. line.entry.component.now ≡ entry.now.component.now) }
    ensures name { IfSome result (λ line. line.entry.name ≡ entry.now.name) }
{
    pass_lines(lines, passed, entry.component);
    if *passed >= lines.len() {
        return None;
    }
    let line = lines[*passed];
    if line.entry.mode == entry.mode
        && line.entry.component == entry.component
        && line.entry.name == entry.name
    {
        return Some(line);
    }
    None
}

/// Passes the lines of files that stand before a component.
fn pass_lines(lines: &[FileLine<'_>], passed: &mut usize, component: &[u8]) {
    while *passed < lines.len() && *lines[*passed].entry.component < *component {
        *passed += 1;
    }
}

/// What stands between two places of a text.
fn part_of(text: &[u8], start: usize, end: usize) -> Option<&[u8]>
    ensures { IfSome result (λ part. part.now ≡ slice_range text.now start end) }
{
    if start <= end && end <= text.len() {
        return Some(&text[start..end]);
    }
    None
}
