//! Reading the marks of a text. Source: git-fast-import(1), "--import-marks".

ghost use Rattle.std.specs.Prelude.{◌≡◌, ℕ, IfOk, Err};
ghost use Rattle.std.specs.Option.{option_map};
ghost use Rattle.std.specs.Result.{result_ok};
ghost use Rattle.gx_model.specs.Streams.Lines.{mark_of};
ghost use Rattle.gx_marks.specs.Marks.{IsFirstBad, IsLed, TellMarks};
ghost use Rattle.gx_marks.specs.Reading.{first_in, is_line_end, mark_in, named_in};
ghost use Rattle.gx_marks.specs.Shown.{shown_first, shown_mark, shown_marks};
ghost use Rattle.gx_marks.specs.declared.fault.MarksFault.TheVariants.{BadLine, OutOfMemory};

use crate::{Mark, MarksFault};
use gx_object::Name;
use gx_text::{cut, mark_number};
use std::alloc::Allocator;

/// The marks that a text tells, in the order of its lines. One that is told twice stands twice: in git the last line counts.
///
/// `BadLine`: the first line that tells no mark. `OutOfMemory`: a growth was refused, for a mark.
/// Cost: the text. Memory: 32 bytes a mark, and up to twice as many more while they grow. Source: git-fast-import(1), "--import-marks".
pub fn read_marks<A: Allocator + Copy>(alloc: A, text: &[u8]) -> Result<Vec<Mark, A>, MarksFault>
    ensures marks { IfOk result (λ marks. TellMarks text.now (shown_marks marks.items)) }
    ensures fault { (line : ℕ) → result ≡ Err (BadLine line) → IsFirstBad text.now line }
    ensures memory { result ≡ Err OutOfMemory → IsLed text.now }
{
    let mut marks = Vec::new(alloc);
    let mut rest = text;
    while !rest.is_empty() {
        let Some((mark, behind)) = first_mark(rest) else {
            return Err(MarksFault::BadLine(marks.len() + 1));
        };
        marks.push(mark)?;
        rest = behind;
    }
    Ok(marks)
}

/// The mark that the first line tells, and what follows the line.
#[tactic(auto, unfolding(crate::specs::Reading::first_in))]
fn first_mark(text: &[u8]) -> Option<(Mark, &[u8])>
    ensures { option_map shown_first result ≡ first_in text.now }
{
    let (line, rest) = cut(text, b'\n')?;
    let mark = read_line(line)?;
    Some((mark, rest))
}

/// The mark that a line tells.
#[tactic(auto, unfolding(crate::specs::Reading::mark_in))]
fn read_line(line: &[u8]) -> Option<Mark>
    ensures { option_map shown_mark result ≡ mark_in line.now }
{
    let (mark, name) = cut(line, b' ')?;
    let number = read_number(mark)?;
    let name = read_name(name)?;
    Some(Mark { number, name })
}

/// The number behind a colon.
#[tactic(auto, unfolding(gx_model::specs::Streams::Lines::mark_of))]
fn read_number(mark: &[u8]) -> Option<u64>
    ensures { result ≡ result_ok (mark_of mark.now) }
{
    match mark.split_first() {
        Some((b':', digits)) => mark_number(digits),
        _ => None,
    }
}

/// The name in 40 digits, behind which a line may end.
fn read_name(text: &[u8]) -> Option<Name>
    ensures { option_map (λ name. name.bytes) result ≡ named_in text.now }
{
    let (digits, end) = text.split_at_checked(40)?;
    if ends_line(end) {
        Name::read(digits)
    } else {
        None
    }
}

/// Whether a line may end so before its LF.
fn ends_line(end: &[u8]) -> bool
    ensures { result ≡ is_line_end end.now }
{
    end.is_empty() || end == b"\r".as_slice()
}
