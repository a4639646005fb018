//! What a revision shows, printed. Source: git-cat-file(1) and git-ls-tree(1).

ghost use Rattle.gx_model.specs.Records.{body_of};
ghost use Rattle.gx_model.specs.Records.HistoryOf.{history_of};
ghost use Rattle.gx_model.specs.declared.objects.Kind.TheVariants as kinds;
ghost use Rattle.gx_rev.specs.Answers.{IsNamed, shown_by};
ghost use Rattle.gx_rev.specs.Objects.{IsHeldAs, files_at, value_at};
ghost use Rattle.gx_rev.specs.declared.shown.Shown.TheVariants.{Object};
ghost use Rattle.gx_print.specs.Listings.{shown_text, tree_lines};
ghost use Rattle.gx_print.specs.Stored.{show_text};
ghost use Rattle.gx_questions.specs.Answers.{IfTold};
ghost use Rattle.gx_told.specs.Printing.{Prints, PrintsText};

use crate::ToldFault;
use crate::held::body_as;
use crate::sending::put_text;
use crate::words::refused;
use gx_object::{Kind, Name};
use gx_objects::Objects;
use gx_print::listing;
use gx_questions::{entries, eval_text};
use gx_rev::Shown;
use gx_text::Sink;
use std::alloc::Allocator;

/// Shows a word as a revision: a blob's bytes, a submodule's digits, the body of a commit or a tag, a tree's entries.
///
/// `Revision`: the word isn't a revision, or the revision gives nothing. Nothing is printed then.
/// Cost: that of `gx_questions::eval`, and what is printed. Memory: the object. A tree's lines are made before they are printed.
pub(crate) fn show<O: Objects, A: Allocator + Copy, W: Sink>(
    alloc: A,
    objects: &O,
    word: &[u8],
    sink: &mut W,
) -> Result<(), ToldFault>
    ensures { IfTold (O.told objects.now)
        (λ r. Prints (show_text (O.name_of objects.now) (history_of r) word.now)
        (W.taken sink.old) (W.taken sink.new)) result }
{
    let mut room = Vec::new(alloc);
    match eval_text(alloc, objects, &mut room, word) {
        Ok(shown) => print_shown(alloc, objects, &mut room, shown, sink),
        Err(fault) => Err(refused(1, fault)),
    }
}

/// Prints what is shown.
fn print_shown<O: Objects, A: Allocator + Copy, W: Sink>(
    alloc: A,
    objects: &O,
    room: &mut Vec<u8, A>,
    shown: Shown,
    sink: &mut W,
) -> Result<(), ToldFault>
    requires { IfTold (O.told objects.now) (IsNamed (O.name_of objects.now)) shown }
    ensures { IfTold (O.told objects.now)
        (λ r. PrintsText (shown_text (O.name_of objects.now) (shown_by r shown))
        (W.taken sink.old) (W.taken sink.new)) result }
{
    objects.sound_if_told();
    match shown {
        Shown::Object(kind, name) => match kind {
            Kind::Tree => print_entries(alloc, objects, room, &name, sink),
            Kind::Blob | Kind::Commit | Kind::Tag => print_body(objects, room, kind, &name, sink),
        },
        Shown::Submodule(name) => put_text(sink, name.hex().as_slice()),
    }
}

/// Prints the body of a held object of this kind.
fn print_body<O: Objects, A: Allocator + Copy, W: Sink>(
    objects: &O,
    room: &mut Vec<u8, A>,
    kind: Kind,
    name: &Name,
    sink: &mut W,
) -> Result<(), ToldFault>
    requires { IfTold (O.told objects.now) (IsNamed (O.name_of objects.now))
        (Object kind name.now) }
    ensures { IfTold (O.told objects.now)
        (λ r. PrintsText (body_of (O.name_of objects.now) (value_at r name.now))
        (W.taken sink.old) (W.taken sink.new)) result }
{
    match body_as(objects, room, kind, name) {
        Ok(body) => put_text(sink, body),
        Err(fault) => Err(refused(1, fault)),
    }
}

/// Prints the lines of a held tree's entries, which are made before they are printed.
pub(crate) fn print_entries<O: Objects, A: Allocator + Copy, W: Sink>(
    alloc: A,
    objects: &O,
    room: &mut Vec<u8, A>,
    tree: &Name,
    sink: &mut W,
) -> Result<(), ToldFault>
    requires { IfTold (O.told objects.now) (IsHeldAs kinds.Tree) tree.now }
    ensures { IfTold (O.told objects.now)
        (λ r. PrintsText (tree_lines (O.name_of objects.now) (files_at r tree.now))
        (W.taken sink.old) (W.taken sink.new)) result }
{
    objects.sound_if_told();
    match entries(objects, tree, room) {
        Ok(entries) => {
            let lines = listing(alloc, entries)?;
            put_text(sink, lines.as_slice())
        }
        Err(fault) => Err(refused(1, fault)),
    }
}
