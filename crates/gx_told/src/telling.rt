//! Questions to a store that are answered yes or no.

ghost use Rattle.gx_questions.specs.Answers.{IfTold};
ghost use Rattle.gx_told.specs.Answering.{IsTold};

use crate::ToldFault;
use crate::diff::diff;
use gx_asks::Question;
use gx_objects::Objects;
use gx_print::texts_of;
use gx_text::Sink;
use std::alloc::Allocator;

/// Tells what a question asks that is answered yes or no, and answers which. Of another question nothing is told, and it is yes.
///
/// `Revision`: the first word that isn't one, or else the first that gives no tree; nothing went out. `Damaged`: what the store
/// holds is no repository's. `StoreReadFailed`, `OutOfMemory`, `WriteFailed`: a front of the text went out.
/// Cost: that of `gx_questions::tree` for each word, and of `gx_differences::list`. Memory: the words, what differs, and what is
/// printed. What is asked of merge bases `gx_merge_base` answers.
/// Source: git-diff-tree(1).
pub fn tell<O: Objects, W: Sink, A: Allocator + Copy>(
    alloc: A,
    objects: &O,
    question: &Question<'_>,
    sink: &mut W,
) -> Result<bool, ToldFault>
    ensures { IfTold (O.told objects.now) (λ r. IsTold (O.name_of objects.now) question.now r
        (W.taken sink.old) (W.taken sink.new)) result }
{
    match question {
        Question::Diff {
            options,
            old,
            new,
            paths,
        } => {
            let asked = texts_of(alloc, paths.as_slice())?;
            let (old, new) = (old.as_bytes(), new.as_bytes());
            diff(alloc, objects, *options, old, new, asked.as_slice(), sink)
        }
        _ => Ok(true),
    }
}
