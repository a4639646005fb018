//! The names of what revisions give, one a line. Source: git-rev-parse(1).

ghost use Rattle.std.specs.Prelude.{◌≡◌, []};
ghost use Rattle.gx_model.specs.Records.HistoryOf.{history_of};
ghost use Rattle.gx_text.specs.Lent.{lent_texts};
ghost use Rattle.gx_print.specs.Stored.{names_text};
ghost use Rattle.gx_questions.specs.Answers.{IfTold};
ghost use Rattle.gx_told.specs.Printing.{GivesWords, Prints, lines_text};

use crate::ToldFault;
use crate::sending::put_text;
use crate::words::{refused, unread};
use gx_objects::Objects;
use gx_print::{read_revisions, shown_line};
use gx_questions::eval;
use gx_rev::Revision;
use gx_text::Sink;
use std::alloc::Allocator;

/// Prints the name of what each word gives as a revision; a submodule's digits. All words are read, then all are evaluated,
/// and only then is anything printed.
///
/// `Revision`: the first word that isn't one, or else the first that gives nothing, by its number from 1.
/// Cost: that of `gx_questions::eval` for each word. Memory: the revisions, the lines, and an object that is looked at.
pub(crate) fn print_names<O: Objects, A: Allocator + Copy, W: Sink>(
    alloc: A,
    objects: &O,
    words: &[&[u8]],
    sink: &mut W,
) -> Result<(), ToldFault>
    ensures { IfTold (O.told objects.now)
        (λ r. Prints (names_text (O.name_of objects.now) (history_of r) (lent_texts words.now))
        (W.taken sink.old) (W.taken sink.new)) result }
{
    match read_revisions(alloc, words) {
        Ok(revisions) => {
            let mut lines = Vec::new(alloc);
            put_names(alloc, objects, revisions.as_slice(), &mut lines)?;
            put_text(sink, lines.as_slice())
        }
        Err(fault) => Err(unread(fault)),
    }
}

/// Makes the line of what each revision shows, or tells the first that shows nothing.
fn put_names<O: Objects, A: Allocator + Copy>(
    alloc: A,
    objects: &O,
    revisions: &[Revision<A>],
    lines: &mut Vec<u8, A>,
) -> Result<(), ToldFault>
    requires empty { lines.old.items ≡ [] }
    ensures { IfTold (O.told objects.now) (λ r. GivesWords (λ done. lines.new.items)
        (lines_text (O.name_of objects.now) (history_of r) revisions.now)) result }
{
    let mut room = Vec::new(alloc);
    for (place, revision) in revisions.iter().enumerate() {
        match eval(objects, &mut room, revision) {
            Ok(shown) => lines.extend_from_slice(shown_line(shown).as_slice())?,
            Err(fault) => return Err(refused(place as u64 + 1, fault)),
        }
    }
    Ok(())
}
