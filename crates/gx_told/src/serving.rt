//! Questions to a store, answered.

ghost use Rattle.gx_questions.specs.Answers.{IfTold};
ghost use Rattle.gx_told.specs.Answering.{IsAnswered};

use crate::ToldFault;
use crate::archive::print_archive;
use crate::log::log_with_lines;
use crate::ls::list;
use crate::refs::{print_kept, print_refs};
use crate::rev_parse::print_names;
use crate::show::show;
use gx_asks::Question;
use gx_objects::Objects;
use gx_print::texts_of;
use gx_text::{Sink, Source};
use std::alloc::Allocator;

/// Answers a question to a store, which is asked for what it needs. An export, a batch, and what is answered yes or no answer nothing
/// here: these are [`batch`](crate::batch)'s, [`tell`](crate::tell)'s, and `gx_export`'s and `gx_changes`'.
///
/// `Revision`: the first word that isn't one, or else the first that gives nothing; nothing went out. `Damaged`: what the store
/// holds is no repository's. `StoreReadFailed`, `OutOfMemory`, `WriteFailed`: a front of the text went out. `ReadFailed`: the source
/// of `log --stdin` failed, and nothing went out.
/// Cost: that of `gx_questions::eval` for each word, and what is printed; of `ls` the trees that are listed, of `archive` that of
/// `gx_archive::archive_of_objects`, of `log` that of `gx_ranges::walk`, of refs that of
/// `gx_ref_filters::kept_refs`. Memory: an object, and its text; of `ls -r` and `archive`
/// a path and the trees above it; of `log` the names.
/// Source: git-cat-file(1), git-ls-tree(1), git-archive(1), git-show-ref(1), git-for-each-ref(1), git-rev-parse(1),
/// git-log(1).
pub fn answer<O: Objects, R: Source + Drop, W: Sink, A: Allocator + Copy>(
    alloc: A,
    objects: &O,
    question: &Question<'_>,
    source: R,
    sink: &mut W,
) -> Result<(), ToldFault>
    ensures { IfTold (O.told objects.now) (λ r. IsAnswered (O.name_of objects.now) question.now r
        (R.coming source) (W.taken sink.old) (W.taken sink.new)) result }
{
    match question {
        Question::Show { revision } => show(alloc, objects, revision.as_bytes(), sink),
        Question::Ls {
            recursive,
            revision,
        } => list(alloc, objects, *recursive, revision.as_bytes(), sink),
        Question::Archive { prefix, revision } => {
            print_archive(alloc, objects, prefix.as_bytes(), revision.as_bytes(), sink)
        }
        Question::Refs => print_refs(alloc, objects, sink),
        Question::Names { revisions } => {
            let words = texts_of(alloc, revisions.as_slice())?;
            print_names(alloc, objects, words.as_slice(), sink)
        }
        Question::Log { options, ranges } => {
            log_with_lines(alloc, objects, *options, ranges.as_slice(), source, sink)
        }
        Question::Diff { .. } | Question::MergeBase { .. } | Question::IsAncestor { .. } => Ok(()),
        Question::RefsThat { filters, patterns } => {
            print_kept(
                alloc,
                objects,
                filters.as_slice(),
                patterns.as_slice(),
                sink,
            )
        }
        Question::Batch { .. } | Question::Export(_) | Question::ExportRange { .. } => Ok(()),
    }
}
