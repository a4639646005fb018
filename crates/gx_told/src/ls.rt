//! The entries of a revision's tree, or all of its files. Source: git-ls-tree(1).

ghost use Rattle.gx_model.specs.Records.HistoryOf.{history_of};
ghost use Rattle.gx_print.specs.Stored.{list_text};
ghost use Rattle.gx_questions.specs.Answers.{IfTold};
ghost use Rattle.gx_told.specs.Printing.{Prints};

use crate::ToldFault;
use crate::files::print_files;
use crate::show::print_entries;
use crate::words::{refused, tree_of_word};
use gx_objects::Objects;
use gx_text::Sink;
use std::alloc::Allocator;

/// Lists the tree that a word gives as a revision: its entries, or with `recursive` all files by their whole paths. The
/// lines of files go out one after the other.
///
/// `Revision`: the word isn't a revision, or it gives no tree. Cost: that of `gx_questions::tree`, and of the trees that are
/// listed. Memory: with `recursive` a path, its line, and the trees above it, otherwise the tree and its lines.
pub(crate) fn list<O: Objects, A: Allocator + Copy, W: Sink>(
    alloc: A,
    objects: &O,
    recursive: bool,
    word: &[u8],
    sink: &mut W,
) -> Result<(), ToldFault>
    ensures { IfTold (O.told objects.now)
        (λ r. Prints (list_text (O.name_of objects.now) recursive (history_of r) word.now)
        (W.taken sink.old) (W.taken sink.new)) result }
{
    let mut room = Vec::new(alloc);
    match tree_of_word(alloc, objects, &mut room, word) {
        Ok(tree) => {
            if recursive {
                print_files(alloc, objects, &tree, sink)
            } else {
                print_entries(alloc, objects, &mut room, &tree, sink)
            }
        }
        Err(fault) => Err(refused(1, fault)),
    }
}
