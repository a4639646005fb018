//! The entries of a revision's tree, or all of its files. Source: git-ls-tree(1).

ghost use Rattle.std.specs.List.{flat_map};
ghost use Rattle.std.specs.Prelude.{◌≡◌, IsTrue, OnOk};
ghost use Rattle.gx_model.specs.Records.HistoryOf.{history_of};
ghost use Rattle.gx_model.specs.Records.RecordFaults.{is_held};
ghost use Rattle.gx_model.specs.declared.objects.Kind.TheVariants as kinds;
ghost use Rattle.gx_model.specs.Objects.{is_dir};
ghost use Rattle.gx_object.specs.Entries.{shown};
ghost use Rattle.gx_rev.specs.Objects.{IsHeldAs, files_at};
ghost use Rattle.gx_print.specs.Listings.{entry_line};
ghost use Rattle.gx_cli.specs.Answers.{Prints};
ghost use Rattle.gx_print.specs.Stored.{file_line, list_text};
ghost use Rattle.gx_cli.specs.Sending.{PrintsText};
ghost use Rattle.gx_print.specs.WalkedFiles.{HavePaths, IsWithin, files_in, files_of_entry, line_below};

use crate::CliFault;
use crate::sending::put_text;
use crate::show::print_entries;
use crate::words::refused;
use gx_object::{Entry, Mode, Name, Namer};
use gx_print::put_line;
use gx_repo::Repo;
use gx_rev::{entries_of, tree_of_text};
use gx_text::Sink;
use std::alloc::Allocator;

/// Lists the tree that a word gives as a revision: its entries, or with `recursive` all files by their whole paths. The
/// lines go out one after the other.
///
/// `Revision`: the word isn't a revision, or it gives no tree. Cost: that of `Revision::eval`, and of the trees that are
/// listed. Memory: with `recursive` one path and its line, otherwise the lines.
pub(crate) fn list<N: Namer, A: Allocator + Copy, W: Sink>(
    alloc: A,
    repo: &Repo<N, A>,
    recursive: bool,
    word: &[u8],
    sink: &mut W,
) -> Result<(), CliFault>
    ensures { Prints (list_text (N.name_of repo.now.0) recursive (history_of repo.now.1) word.now)
        (W.taken sink.old) (W.taken sink.new) result }
{
    match tree_of_text(alloc, repo, word) {
        Ok(tree) => {
            if recursive {
                print_files(alloc, repo, &tree, sink)
            } else {
                print_entries(alloc, repo, &tree, sink)
            }
        }
        Err(kind) => Err(refused(1, kind)),
    }
}

/// Prints the lines of all files of a held tree, each as the walk comes to it.
fn print_files<N: Namer, A: Allocator + Copy, W: Sink>(
    alloc: A,
    repo: &Repo<N, A>,
    tree: &Name,
    sink: &mut W,
) -> Result<(), CliFault>
    requires { IsHeldAs kinds.Tree repo.now.1 tree.now }
    ensures { PrintsText (flat_map (file_line (N.name_of repo.now.0))
        (files_at repo.now.1 tree.now)) (W.taken sink.old) (W.taken sink.new) result }
{
    repo.sound();
    let mut path = Vec::new(alloc);
    let mut line = Vec::new(alloc);
    print_below(alloc, repo, tree, &mut path, &mut line, sink)
}

/// Prints the lines of all files of a held tree, with the path so far before their paths. That path stays.
#[cycle(walk)]
fn print_below<N: Namer, A: Allocator + Copy, W: Sink>(
    alloc: A,
    repo: &Repo<N, A>,
    tree: &Name,
    path: &mut Vec<u8, A>,
    line: &mut Vec<u8, A>,
    sink: &mut W,
) -> Result<(), CliFault>
    requires { IsTrue (is_held repo.now.1.records kinds.Tree tree.now.bytes)
        × HavePaths path.old.items (files_in (N.name_of repo.now.0) repo.now.1 tree.now.bytes) }
    ensures lines { PrintsText (flat_map (line_below path.old.items)
        (files_in (N.name_of repo.now.0) repo.now.1 tree.now.bytes))
        (W.taken sink.old) (W.taken sink.new) result }
    ensures path { OnOk result (path.new.items ≡ path.old.items) }
{
    repo.sound();
    for entry in entries_of(repo, tree) {
        print_entry(alloc, repo, &entry, path, line, sink)?;
    }
    Ok(())
}

/// Prints the lines of the files at or below an entry. The path so far stays.
#[cycle(walk)]
fn print_entry<N: Namer, A: Allocator + Copy, W: Sink>(
    alloc: A,
    repo: &Repo<N, A>,
    entry: &Entry<'_>,
    path: &mut Vec<u8, A>,
    line: &mut Vec<u8, A>,
    sink: &mut W,
) -> Result<(), CliFault>
    requires { IsWithin (N.name_of repo.now.0) repo.now.1 path.old.items (shown entry.now) }
    ensures lines { PrintsText (flat_map (line_below path.old.items)
        (files_of_entry (N.name_of repo.now.0) repo.now.1 (shown entry.now)))
        (W.taken sink.old) (W.taken sink.new) result }
    ensures path { OnOk result (path.new.items ≡ path.old.items) }
{
    repo.sound();
    let front = path.len();
    path.extend_from_slice(entry.component)?;
    if is_dir(entry.mode) {
        path.push(b'/')?;
        print_below(alloc, repo, &entry.name, path, line, sink)?;
    } else {
        print_at(path, entry.mode, &entry.name, line, sink)?;
    }
    path.truncate(front);
    Ok(())
}

fn is_dir(mode: Mode) -> bool
    ensures { result ≡ is_dir mode }
{
    matches!(mode, Mode::Dir)
}

/// Prints the line of the file at the path of this text, which is made in a buffer.
fn print_at<A: Allocator + Copy, W: Sink>(
    path: &[u8],
    mode: Mode,
    name: &Name,
    line: &mut Vec<u8, A>,
    sink: &mut W,
) -> Result<(), CliFault>
    ensures { PrintsText (entry_line
        (record { mode = mode; component = path.now; name = name.now.bytes }))
        (W.taken sink.old) (W.taken sink.new) result }
{
    line.clear();
    put_line(line, mode, path, name)?;
    put_text(sink, line.as_slice())
}
