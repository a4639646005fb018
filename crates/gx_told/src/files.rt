//! All files of a tree, each as the walk comes to it. Source: git-ls-tree(1), `-r`.

ghost use Rattle.std.specs.List.{flat_map};
ghost use Rattle.std.specs.Prelude.{◌≡◌, OnOk};
ghost use Rattle.gx_model.specs.declared.objects.Kind.TheVariants as kinds;
ghost use Rattle.gx_model.specs.Objects.{is_dir};
ghost use Rattle.gx_object.specs.Entries.{shown};
ghost use Rattle.gx_rev.specs.Objects.{IsHeldAs, files_at};
ghost use Rattle.gx_print.specs.Listings.{entry_line};
ghost use Rattle.gx_print.specs.Stored.{file_line};
ghost use Rattle.gx_print.specs.WalkedFiles.{IsWithin, files_in, line_below};
ghost use Rattle.gx_questions.specs.Answers.{IfTold};
ghost use Rattle.gx_told.specs.Printing.{PrintsText};
ghost use Rattle.gx_told.specs.Walking.{AreWithin, IsBelow, all_lines, entry_lines};

use crate::ToldFault;
use crate::sending::put_text;
use crate::words::refused;
use gx_object::{Entry, Mode, Name, TreeEntries};
use gx_objects::Objects;
use gx_print::put_line;
use gx_questions::entries;
use gx_text::{MOST_BYTES, Sink};
use std::alloc::Allocator;

/// Prints the lines of all files of a held tree, each as the walk comes to it.
pub(crate) fn print_files<O: Objects, A: Allocator + Copy, W: Sink>(
    alloc: A,
    objects: &O,
    tree: &Name,
    sink: &mut W,
) -> Result<(), ToldFault>
    requires { IfTold (O.told objects.now) (IsHeldAs kinds.Tree) tree.now }
    ensures { IfTold (O.told objects.now)
        (λ r. PrintsText (flat_map (file_line (O.name_of objects.now)) (files_at r tree.now))
        (W.taken sink.old) (W.taken sink.new)) result }
{
    objects.sound_if_told();
    let mut room = Vec::new(alloc);
    let mut path = Vec::new(alloc);
    let mut line = Vec::new(alloc);
    match entries(objects, tree, &mut room) {
        Ok(entries) => print_all(alloc, objects, entries, &mut path, &mut line, sink),
        Err(fault) => Err(refused(1, fault)),
    }
}

/// Prints the lines of the files at or below entries, with the path so far before their paths. That path stays.
#[cycle(walk)]
fn print_all<O: Objects, A: Allocator + Copy, W: Sink>(
    alloc: A,
    objects: &O,
    entries: TreeEntries<'_>,
    path: &mut Vec<u8, A>,
    line: &mut Vec<u8, A>,
    sink: &mut W,
) -> Result<(), ToldFault>
    requires { IfTold (O.told objects.now)
        (AreWithin (O.name_of objects.now) path.old.items) entries }
    ensures lines { IfTold (O.told objects.now) (λ r. PrintsText
        (all_lines (O.name_of objects.now) path.old.items r entries.entry)
        (W.taken sink.old) (W.taken sink.new)) result }
    ensures path { OnOk result (path.new.items ≡ path.old.items) }
{
    for entry in entries {
        print_entry(alloc, objects, &entry, path, line, sink)?;
    }
    Ok(())
}

/// Prints the lines of the files at or below an entry. The path so far stays. A path that is too long is no repository's.
#[cycle(walk)]
fn print_entry<O: Objects, A: Allocator + Copy, W: Sink>(
    alloc: A,
    objects: &O,
    entry: &Entry<'_>,
    path: &mut Vec<u8, A>,
    line: &mut Vec<u8, A>,
    sink: &mut W,
) -> Result<(), ToldFault>
    requires { IfTold (O.told objects.now)
        (λ r. IsWithin (O.name_of objects.now) r path.old.items) (shown entry.now) }
    ensures lines { IfTold (O.told objects.now) (λ r. PrintsText
        (entry_lines (O.name_of objects.now) path.old.items r (shown entry.now))
        (W.taken sink.old) (W.taken sink.new)) result }
    ensures path { OnOk result (path.new.items ≡ path.old.items) }
{
    objects.sound_if_told();
    let front = path.len();
    path.extend_from_slice(entry.component)?;
    if path.len() > MOST_BYTES {
        return Err(ToldFault::Damaged);
    }
    if is_dir(entry.mode) {
        path.push(b'/')?;
        print_dir(alloc, objects, &entry.name, path, line, sink)?;
    } else {
        print_line(path, entry.mode, &entry.name, line, sink)?;
    }
    path.truncate(front);
    Ok(())
}

/// Prints the lines of the files of a held directory, with the path so far before their paths. That path stays. A directory that
/// has none is no repository's: so each one that is read has a line at least.
#[cycle(walk)]
fn print_dir<O: Objects, A: Allocator + Copy, W: Sink>(
    alloc: A,
    objects: &O,
    tree: &Name,
    path: &mut Vec<u8, A>,
    line: &mut Vec<u8, A>,
    sink: &mut W,
) -> Result<(), ToldFault>
    requires { IfTold (O.told objects.now)
        (IsBelow (O.name_of objects.now) path.old.items) tree.now.bytes }
    ensures lines { IfTold (O.told objects.now)
        (λ r. PrintsText (flat_map (line_below path.old.items)
        (files_in (O.name_of objects.now) r tree.now.bytes))
        (W.taken sink.old) (W.taken sink.new)) result }
    ensures path { OnOk result (path.new.items ≡ path.old.items) }
{
    objects.sound_if_told();
    let mut room = Vec::new(alloc);
    match entries(objects, tree, &mut room) {
        Ok(entries) => {
            let mut entries = entries;
            match entries.next() {
                Some(first) => {
                    print_entry(alloc, objects, &first, path, line, sink)?;
                    print_all(alloc, objects, entries, path, line, sink)
                }
                None => Err(ToldFault::Damaged),
            }
        }
        Err(fault) => Err(refused(1, fault)),
    }
}

fn is_dir(mode: Mode) -> bool
    ensures { result ≡ is_dir mode }
{
    matches!(mode, Mode::Dir)
}

/// Prints the line of the file at the path of this text, which is made in place of the line before.
fn print_line<A: Allocator + Copy, W: Sink>(
    path: &[u8],
    mode: Mode,
    name: &Name,
    line: &mut Vec<u8, A>,
    sink: &mut W,
) -> Result<(), ToldFault>
    ensures { PrintsText (entry_line
        (record { mode = mode; component = path.now; name = name.now.bytes }))
        (W.taken sink.old) (W.taken sink.new) result }
{
    line.clear();
    put_line(line, mode, path, name)?;
    put_text(sink, line.as_slice())
}
