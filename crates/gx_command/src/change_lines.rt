//! The lines of changes.

ghost use Rattle.std.specs.Prelude.{◌≡◌, false, IsTrue, IfOk, IsErrOf, IsOk, OnOk};
ghost use Rattle.gx_command.specs.Places.{is_file_mode, is_suited_place};
ghost use Rattle.gx_model.specs.Faults.{Gives, NeedsNoMemory};
ghost use Rattle.gx_model.specs.Streams.Items.{Stream};
ghost use Rattle.gx_model.specs.Texts.Paths.{is_quoted};
ghost use Rattle.gx_model.specs.Streams.Grammar.{where_of, suits, two_paths, modify_at, change_at};
ghost use Rattle.gx_model.specs.Streams.Lines.{mode_of, last_path, source_path, words_of};
ghost use Rattle.gx_command.specs.CommandFaults.{fault_of};
ghost use Rattle.gx_command.specs.declared.fault.CommandFault.TheVariants.{OutOfMemory};
ghost use Rattle.gx_command.specs.ChangeLines.{shown_where, BeginsModify, BeginsChange};

use crate::commands::Change;
use crate::fault::CommandFault;
use crate::lines::Words;
use crate::marks::read_mark_number;
use crate::modify_line::{ModifyLine, Place};
use crate::texts::{Digits, is_name, is_null};
use gx_model::Mode;
use gx_text::{TreePath, cut};
use std::alloc::Allocator;

/// A change's line: all of the change, or a modify, whose bytes may follow in a block.
#[derive(Drop)]
pub(crate) enum ChangeLine<A: Allocator> {
    Whole(Change<A>),
    Modify(ModifyLine<A>),
}

/// The change that a line is, or begins. Another line gives none.
#[tactic(auto, unfolding(gx_model::specs::Streams::Grammar::change_at))]
pub(crate) fn read_change<A: Allocator + Copy>(
    alloc: A,
    line: &[u8],
) -> Result<Option<ChangeLine<A>>, CommandFault>
    ensures { (s : Stream) → BeginsChange s result (change_at (words_of line.now) s) }
{
    let words = Words::of(line);
    let change = if words.is(b"M") {
        let line = read_modify(alloc, words.rest()?)?;
        return Ok(Some(ChangeLine::Modify(line)));
    } else if words.is(b"D") {
        Change::Remove(read_last_path(alloc, words.rest()?)?)
    } else if words.is(b"C") {
        let (source, destination) = read_two_paths(alloc, words.rest()?)?;
        Change::Copy {
            source,
            destination,
        }
    } else if words.is(b"R") {
        let (source, destination) = read_two_paths(alloc, words.rest()?)?;
        Change::Rename {
            source,
            destination,
        }
    } else if words.is(b"deleteall") {
        words.bare(Change::Clear)?
    } else if words.is(b"N") {
        return Err(CommandFault::Unsupported);
    } else {
        return Ok(None);
    };
    Ok(Some(ChangeLine::Whole(change)))
}

/// A modify's mode, dataref and path.
#[tactic(auto, unfolding(gx_model::specs::Streams::Grammar::modify_at))]
fn read_modify<A: Allocator + Copy>(alloc: A, text: &[u8]) -> Result<ModifyLine<A>, CommandFault>
    ensures { (s : Stream) → BeginsModify s result (modify_at text.now s) }
{
    let first = Words::of(text);
    let mode = read_mode(first.word)?;
    let second = Words::of(first.rest()?);
    let place = read_place(second.word)?;
    check_suits(mode, place)?;
    let path = read_last_path(alloc, second.rest()?)?;
    Ok(ModifyLine { mode, place, path })
}

fn read_mode(text: &[u8]) -> Result<Mode, CommandFault>
    ensures mode { Gives fault_of (λ mode. mode) result (mode_of text.now) }
    ensures file { IfOk result (λ mode. IsTrue (is_file_mode mode)) }
    ensures memory { NeedsNoMemory CommandFault.OutOfMemory result }
{
    if text == b"100644".as_slice() || text == b"644".as_slice() {
        Ok(Mode::File)
    } else if text == b"100755".as_slice() || text == b"755".as_slice() {
        Ok(Mode::Exec)
    } else if text == b"120000".as_slice() {
        Ok(Mode::Link)
    } else if text == b"160000".as_slice() {
        Ok(Mode::Gitlink)
    } else if text == b"040000".as_slice() || text == b"40000".as_slice() {
        Err(CommandFault::Unsupported)
    } else {
        Err(CommandFault::BadMode)
    }
}

fn read_place(text: &[u8]) -> Result<Place, CommandFault>
    ensures place { Gives fault_of shown_where result (where_of text.now) }
    ensures memory { NeedsNoMemory CommandFault.OutOfMemory result }
{
    if let Some((b':', digits)) = text.split_first() {
        return Ok(Place::Mark(read_mark_number(digits)?));
    }
    if text == b"inline".as_slice() {
        return Ok(Place::Block);
    }
    if is_null(text) {
        return Err(CommandFault::Unsupported);
    }
    if !is_name(text) {
        return Err(CommandFault::BadLine);
    }
    let mut digits = [0; 40];
    digits.copy_from_slice(text);
    Ok(Place::Name(Digits { digits }))
}

/// A gitlink is given by its digits alone.
fn check_suits(mode: Mode, place: Place) -> Result<(), CommandFault>
    requires { IsTrue (is_file_mode mode) }
    ensures suits { Gives fault_of (λ u. u) result (suits mode (shown_where place)) }
    ensures suited { OnOk result (IsTrue (is_suited_place mode place)) }
    ensures memory { NeedsNoMemory CommandFault.OutOfMemory result }
{
    match (mode, place) {
        (Mode::Gitlink, Place::Mark(_) | Place::Block) => Err(CommandFault::Unsupported),
        _ => Ok(()),
    }
}

/// The path that ends its line.
#[tactic(auto, unfolding(gx_model::specs::Streams::Lines::last_path))]
fn read_last_path<A: Allocator + Copy>(alloc: A, text: &[u8]) -> Result<TreePath<A>, CommandFault>
    ensures path { Gives fault_of (λ path. path) result (last_path text.now) }
    ensures memory { is_quoted text.now ≡ false → IsErrOf result OutOfMemory
        → IsOk (last_path text.now) }
{
    if !is_quoted(text) {
        return Ok(TreePath::read(alloc, text)?);
    }
    let (path, used) = TreePath::read_quoted(alloc, text)?;
    if text[used..].is_empty() {
        Ok(path)
    } else {
        Err(CommandFault::BadLine)
    }
}

/// The path before a space, and what follows the space.
#[tactic(auto, unfolding(gx_model::specs::Streams::Lines::source_path))]
fn read_source_path<A: Allocator + Copy>(
    alloc: A,
    text: &[u8],
) -> Result<(TreePath<A>, &[u8]), CommandFault>
    ensures { Gives fault_of (λ p. (p.0, p.1.now)) result (source_path text.now) }
{
    if !is_quoted(text) {
        let (source, rest) = cut(text, b' ').ok_or(CommandFault::BadLine)?;
        return Ok((TreePath::read(alloc, source)?, rest));
    }
    let (path, used) = TreePath::read_quoted(alloc, text)?;
    match text[used..].split_first() {
        Some((b' ', rest)) => Ok((path, rest)),
        _ => Err(CommandFault::BadLine),
    }
}

/// A source and a destination.
#[tactic(auto, unfolding(gx_model::specs::Streams::Grammar::two_paths))]
fn read_two_paths<A: Allocator + Copy>(
    alloc: A,
    text: &[u8],
) -> Result<(TreePath<A>, TreePath<A>), CommandFault>
    ensures { Gives fault_of (λ paths. paths) result (two_paths text.now) }
{
    let (source, rest) = read_source_path(alloc, text)?;
    let destination = read_last_path(alloc, rest)?;
    Ok((source, destination))
}

fn is_quoted(text: &[u8]) -> bool
    ensures { result ≡ is_quoted text.now }
{
    text.first() == Some(&b'"')
}
