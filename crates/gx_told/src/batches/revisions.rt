//! What is answered to a line as a revision. Source: git-cat-file(1), "BATCH OUTPUT".

ghost use Rattle.std.specs.Prelude.{◌≡◌, ◌∷◌, ◌++◌, [], Ok};
ghost use Rattle.gx_model.specs.Objects.{line};
ghost use Rattle.gx_model.specs.Records.HistoryOf.{history_of};
ghost use Rattle.gx_batch.specs.Answers.{answer_by, asked_for, batch_answer, object_text, reason};
ghost use Rattle.gx_questions.specs.Answers.{Answers, IfTold, IsOfTold};
ghost use Rattle.gx_rev.specs.Answers.{IsNamed, shown_by};
ghost use Rattle.gx_rev.specs.Objects.{value_at};
ghost use Rattle.gx_rev.specs.RevFaults.{fault_of};
ghost use Rattle.gx_rev.specs.declared.shown.Shown.TheVariants.{Object};
ghost use Rattle.gx_told.specs.Batching.{SendsAnswer, SendsRefusal, is_shown_tree, text_of_object};

use crate::ToldFault;
use crate::held::body_as;
use crate::sending::put_text;
use crate::words::refused;
use gx_batch::{Format, directory_of, put_behind, refuse};
use gx_object::{Kind, Name};
use gx_objects::Objects;
use gx_questions::{AskFault, eval_text};
use gx_rev::{RevFault, Shown};
use gx_text::Sink;
use std::alloc::Allocator;

/// Sends what is answered to a revision: the line of its object in a format, and unless `check` is asked for the object's bytes
/// and an LF. Where it gives no object, it is answered itself, and why.
pub(super) fn answer_revision<O: Objects, W: Sink, A: Allocator + Copy>(
    alloc: A,
    objects: &O,
    check: bool,
    format: &Format<A>,
    asked: &[u8],
    room: &mut Vec<u8, A>,
    buffer: &mut Vec<u8, A>,
    sink: &mut W,
) -> Result<(), ToldFault>
    ensures { IfTold (O.told objects.now)
        (λ r. SendsAnswer (batch_answer (O.name_of objects.now) check
        format.now.parts.items (history_of r) asked.now)
        (W.taken sink.old) (W.taken sink.new)) result }
{
    match eval_line(alloc, objects, room, asked) {
        Ok(shown) => answer_shown(objects, check, format, asked, shown, room, buffer, sink),
        Err(fault) => refuse_line(asked, fault, buffer, sink),
    }
}

/// Sends what is answered to a line that shows this.
fn answer_shown<O: Objects, W: Sink, A: Allocator + Copy>(
    objects: &O,
    check: bool,
    format: &Format<A>,
    asked: &[u8],
    shown: Shown,
    room: &mut Vec<u8, A>,
    buffer: &mut Vec<u8, A>,
    sink: &mut W,
) -> Result<(), ToldFault>
    requires { IfTold (O.told objects.now) (IsNamed (O.name_of objects.now)) shown }
    ensures { IfTold (O.told objects.now) (λ r. SendsAnswer (answer_by (O.name_of objects.now) check
        format.now.parts.items asked.now (Ok (shown_by r shown)))
        (W.taken sink.old) (W.taken sink.new)) result }
{
    match shown {
        Shown::Object(kind, name) => {
            answer_object(objects, check, format, kind, &name, room, buffer, sink)
        }
        Shown::Submodule(_) => send_line(asked, b"missing", buffer, sink),
    }
}

/// Sends a line that gives no object, and why, or tells why none is sent.
fn refuse_line<W: Sink, A: Allocator + Copy>(
    asked: &[u8],
    fault: AskFault,
    buffer: &mut Vec<u8, A>,
    sink: &mut W,
) -> Result<(), ToldFault>
    ensures { SendsRefusal asked.now fault (W.taken sink.old) (W.taken sink.new) result }
{
    match fault {
        AskFault::Revision(kind) => send_line(asked, reason_of(kind), buffer, sink),
        AskFault::OutOfMemory => Err(ToldFault::OutOfMemory),
        AskFault::ReadFailed => Err(ToldFault::StoreReadFailed),
        AskFault::Damaged => Err(ToldFault::Damaged),
    }
}

/// Sends a text, and behind it why it isn't answered otherwise.
pub(super) fn send_line<W: Sink, A: Allocator + Copy>(
    text: &[u8],
    why: &[u8],
    buffer: &mut Vec<u8, A>,
    sink: &mut W,
) -> Result<(), ToldFault>
    ensures { SendsAnswer (line text.now why.now) (W.taken sink.old) (W.taken sink.new) result }
{
    match refuse(text, why, buffer, sink) {
        Ok(()) => Ok(()),
        Err(fault) => Err(ToldFault::from(fault)),
    }
}

/// What a line asks for: a revision, or the tree of one that has a slash behind its path.
fn eval_line<O: Objects, A: Allocator + Copy>(
    alloc: A,
    objects: &O,
    room: &mut Vec<u8, A>,
    asked: &[u8],
) -> Result<Shown, AskFault>
    ensures shown { Answers (O.told objects.now) shown_by
        (λ r. asked_for (O.name_of objects.now) (history_of r) asked.now) result }
    ensures named { IsOfTold (O.told objects.now) (IsNamed (O.name_of objects.now)) result }
{
    let Some(front) = directory_of(asked) else {
        return eval_text(alloc, objects, room, asked);
    };
    let shown = eval_text(alloc, objects, room, front)?;
    if is_tree(shown) {
        Ok(shown)
    } else {
        Err(AskFault::Revision(RevFault::WrongKind))
    }
}

fn is_tree(shown: Shown) -> bool
    ensures { result ≡ is_shown_tree shown }
{
    matches!(shown, Shown::Object(Kind::Tree, _))
}

/// Why a line gives no object.
pub(super) fn reason_of(kind: RevFault) -> &'static [u8]
    ensures { result.now ≡ reason (fault_of kind) }
{
    match kind {
        RevFault::Ambiguous => b"ambiguous",
        _ => b"missing",
    }
}

/// Sends the line of a held object, and where its bytes are asked for these and an LF.
fn answer_object<O: Objects, W: Sink, A: Allocator + Copy>(
    objects: &O,
    check: bool,
    format: &Format<A>,
    kind: Kind,
    name: &Name,
    room: &mut Vec<u8, A>,
    buffer: &mut Vec<u8, A>,
    sink: &mut W,
) -> Result<(), ToldFault>
    requires { IfTold (O.told objects.now) (IsNamed (O.name_of objects.now))
        (Object kind name.now) }
    ensures { IfTold (O.told objects.now) (λ r. SendsAnswer
        (object_text (O.name_of objects.now) check format.now.parts.items (value_at r name.now))
        (W.taken sink.old) (W.taken sink.new)) result }
{
    match body_as(objects, room, kind, name) {
        Ok(body) => send_object(check, format, kind, name, body, buffer, sink),
        Err(fault) => Err(refused(1, fault)),
    }
}

/// Sends the line of an object with this body, and where it is asked for the body and an LF.
fn send_object<W: Sink, A: Allocator + Copy>(
    check: bool,
    format: &Format<A>,
    kind: Kind,
    name: &Name,
    body: &[u8],
    buffer: &mut Vec<u8, A>,
    sink: &mut W,
) -> Result<(), ToldFault>
    ensures { SendsAnswer (text_of_object check format.now.parts.items kind name.now.bytes body.now)
        (W.taken sink.old) (W.taken sink.new) result }
{
    format.make_line(name, kind, body.len(), buffer)?;
    if check {
        put_text(sink, buffer.as_slice())
    } else {
        send_behind(body, buffer, sink)
    }
}

/// Sends the line that stands in a buffer, a text behind it and an LF.
pub(super) fn send_behind<W: Sink, A: Allocator>(
    text: &[u8],
    buffer: &mut Vec<u8, A>,
    sink: &mut W,
) -> Result<(), ToldFault>
    ensures { SendsAnswer (buffer.old.items ++ (text.now ++ 10 ∷ []))
        (W.taken sink.old) (W.taken sink.new) result }
{
    match put_behind(text, buffer, sink) {
        Ok(()) => Ok(()),
        Err(fault) => Err(ToldFault::from(fault)),
    }
}
