//! What is printed of commits, by their names or with their bodies. Source: git-log(1), "PRETTY FORMATS".

ghost use Rattle.std.specs.Prelude.{◌≡◌, ◌++◌, map};
ghost use Rattle.std.specs.List.{flat_map};
ghost use Rattle.gx_model.specs.declared.objects.Kind.TheVariants as kinds;
ghost use Rattle.gx_rev.specs.Objects.{IsHeldAs, commit_at};
ghost use Rattle.gx_print.specs.Logs.{AreCommits, entries_text, entry_of, next_entry};
ghost use Rattle.gx_questions.specs.Answers.{IfTold};
ghost use Rattle.gx_told.specs.Logging.{are_names, name_line, name_lines};
ghost use Rattle.gx_told.specs.Printing.{PrintsText};

use crate::ToldFault;
use crate::sending::put_text;
use crate::words::refused;
use gx_asks::{LogFormat, LogOptions};
use gx_object::Name;
use gx_objects::Objects;
use gx_print::{gap, put_commit};
use gx_questions::commit_in;
use gx_text::Sink;
use std::alloc::Allocator;

/// Prints held commits, one after the other, in their format.
pub(super) fn print_commits<O: Objects, A: Allocator + Copy, W: Sink>(
    alloc: A,
    objects: &O,
    options: LogOptions,
    names: &[Name],
    sink: &mut W,
) -> Result<(), ToldFault>
    requires { IfTold (O.told objects.now) AreCommits names.now }
    ensures { IfTold (O.told objects.now) (λ r. PrintsText
        (entries_text (O.name_of objects.now) options (map (commit_at r) names.now))
        (W.taken sink.old) (W.taken sink.new)) result }
{
    objects.sound_if_told();
    if are_names(options) {
        print_lines(names, sink)
    } else {
        print_bodies(alloc, objects, options, names, sink)
    }
}

/// Whether nothing but names is asked for.
fn are_names(options: LogOptions) -> bool
    ensures { result ≡ are_names options }
{
    match options.format {
        LogFormat::Names => !options.parents,
        LogFormat::Oneline => false,
        LogFormat::Raw => false,
        LogFormat::Subject => false,
        LogFormat::Author => false,
        LogFormat::Dates => false,
    }
}

/// Prints names, each in a line.
fn print_lines<W: Sink>(names: &[Name], sink: &mut W) -> Result<(), ToldFault>
    ensures { PrintsText (name_lines names.now) (W.taken sink.old) (W.taken sink.new) result }
{
    for name in names {
        put_text(sink, name_line(name).as_slice())?;
    }
    Ok(())
}

/// A name's digits in a line.
fn name_line(name: &Name) -> [u8; 41]
    ensures { result ≡ name_line name.now.bytes }
{
    let mut line = [b'\n'; 41];
    line[..40].copy_from_slice(name.hex().as_slice());
    line
}

/// Prints held commits with their bodies, one after the other.
fn print_bodies<O: Objects, A: Allocator + Copy, W: Sink>(
    alloc: A,
    objects: &O,
    options: LogOptions,
    names: &[Name],
    sink: &mut W,
) -> Result<(), ToldFault>
    requires { IfTold (O.told objects.now) AreCommits names.now }
    ensures { IfTold (O.told objects.now) (λ r. PrintsText
        (entries_text (O.name_of objects.now) options (map (commit_at r) names.now))
        (W.taken sink.old) (W.taken sink.new)) result }
{
    let Some((first, others)) = names.split_first() else {
        return Ok(());
    };
    let mut room = Vec::new(alloc);
    let mut text = Vec::new(alloc);
    print_commit(objects, options, b"", first, &mut room, &mut text, sink)?;
    print_others(objects, options, others, &mut room, &mut text, sink)
}

/// Prints the commits behind the first.
fn print_others<O: Objects, A: Allocator + Copy, W: Sink>(
    objects: &O,
    options: LogOptions,
    names: &[Name],
    room: &mut Vec<u8, A>,
    text: &mut Vec<u8, A>,
    sink: &mut W,
) -> Result<(), ToldFault>
    requires { IfTold (O.told objects.now) AreCommits names.now }
    ensures { IfTold (O.told objects.now) (λ r. PrintsText
        (flat_map (next_entry (O.name_of objects.now) options) (map (commit_at r) names.now))
        (W.taken sink.old) (W.taken sink.new)) result }
{
    for name in names {
        print_commit(
            objects,
            options,
            gap(options.format),
            name,
            room,
            text,
            sink,
        )?;
    }
    Ok(())
}

/// Prints a text, and behind it a held commit, whose own text is made in place of the one before.
fn print_commit<O: Objects, A: Allocator + Copy, W: Sink>(
    objects: &O,
    options: LogOptions,
    before: &[u8],
    commit: &Name,
    room: &mut Vec<u8, A>,
    text: &mut Vec<u8, A>,
    sink: &mut W,
) -> Result<(), ToldFault>
    requires { IfTold (O.told objects.now) (IsHeldAs kinds.Commit) commit.now }
    ensures { IfTold (O.told objects.now) (λ r. PrintsText
        (before.now ++ entry_of (O.name_of objects.now) options (commit_at r commit.now))
        (W.taken sink.old) (W.taken sink.new)) result }
{
    objects.sound_if_told();
    match commit_in(objects, commit, room) {
        Ok((body, view)) => {
            text.clear();
            put_commit(text, options, commit, body, &view)?;
            put_text(sink, before)?;
            put_text(sink, text.as_slice())
        }
        Err(fault) => Err(refused(1, fault)),
    }
}
