//! What explains a refused import, in lines. Source: git-fast-import(1), "from", "filemodify" to "filedeleteall", and "force".

ghost use Rattle.std.specs.Prelude.{◌≡◌, ◌∷◌, ◌++◌, IfOk, OnOk};
ghost use Rattle.std.specs.Fmt.{decimal};
ghost use Rattle.gx_cli.specs.ExplainedLines.{asked_line, asked_text, change_line, explanation_text, item_line, loss_line, place_head};

use gx_import::{Asked, Explanation, RefLoss};
use gx_text::{TreePath, put_printed};
use itoa::Buffer;
use std::alloc::{AllocError, Allocator};

/// The lines that explain a refused import: the change of the commit that is refused, by its number and its path; what was asked
/// for in vain, `:` and the number of a mark, a text as paths are printed or the digits of a name; and the ref that would lose a
/// commit, with its commit and the new one. There are none where nothing is told.
///
/// Cost: their length, at most four bytes for each of a path's or a text's.
pub fn explanation_lines<A: Allocator + Copy>(
    alloc: A,
    told: &Explanation<A>,
) -> Result<Vec<u8, A>, AllocError>
    ensures { IfOk result (λ lines. lines.items ≡ explanation_text told.now) }
{
    let mut lines = Vec::new(alloc);
    if let Some(number) = told.change {
        put_change(&mut lines, number, &told.path)?;
    }
    if let Some(asked) = &told.asked {
        put_asked(&mut lines, asked)?;
    }
    if let Some(loss) = &told.loss {
        put_loss(&mut lines, loss)?;
    }
    Ok(lines)
}

/// The line that tells where an item of a stream stands: the number of its line, from 1, the byte at which it begins, from 0,
/// and this text of the line, as paths are printed.
///
/// Cost: its length, at most four bytes for each of the text's.
pub fn item_line<A: Allocator + Copy>(
    alloc: A,
    line: u64,
    byte: u64,
    text: &[u8],
) -> Result<Vec<u8, A>, AllocError>
    ensures { IfOk result (λ shown. shown.items ≡ item_line line byte text.now) }
{
    let mut shown = Vec::new(alloc);
    put_place(&mut shown, line, byte)?;
    put_printed(&mut shown, text)?;
    shown.push(b'\n')?;
    Ok(shown)
}

/// Appends what stands before the text of an item.
fn put_place<A: Allocator + Copy>(
    shown: &mut Vec<u8, A>,
    line: u64,
    byte: u64,
) -> Result<(), AllocError>
    ensures { OnOk result (shown.new.items ≡ shown.old.items ++ place_head line byte) }
{
    let mut digits = Buffer::new();
    shown.extend_from_slice(b"gx: line ")?;
    shown.extend_from_slice(digits.format(line).as_bytes())?;
    shown.extend_from_slice(b", byte ")?;
    shown.extend_from_slice(digits.format(byte).as_bytes())?;
    shown.extend_from_slice(b": ")?;
    Ok(())
}

/// Appends the line of a change.
fn put_change<A: Allocator + Copy>(
    lines: &mut Vec<u8, A>,
    number: u64,
    path: &Option<TreePath<A>>,
) -> Result<(), AllocError>
    ensures { OnOk result (lines.new.items ≡ lines.old.items ++ change_line number path.now) }
{
    let mut digits = Buffer::new();
    lines.extend_from_slice(b"gx: change ")?;
    lines.extend_from_slice(digits.format(number).as_bytes())?;
    if let Some(path) = path {
        lines.extend_from_slice(b": ")?;
        if path.write_quoted(lines).is_err() {
            return Err(AllocError);
        }
    }
    lines.push(b'\n')?;
    Ok(())
}

/// Appends the line of what was asked for.
fn put_asked<A: Allocator + Copy>(
    lines: &mut Vec<u8, A>,
    asked: &Asked<A>,
) -> Result<(), AllocError>
    ensures { OnOk result (lines.new.items ≡ lines.old.items ++ asked_line asked.now) }
{
    lines.extend_from_slice(b"gx: asked for ")?;
    put_reference(lines, asked)?;
    lines.push(b'\n')?;
    Ok(())
}

/// Appends a reference.
fn put_reference<A: Allocator + Copy>(
    line: &mut Vec<u8, A>,
    asked: &Asked<A>,
) -> Result<(), AllocError>
    ensures { OnOk result (line.new.items ≡ line.old.items ++ asked_text asked.now) }
{
    match asked {
        Asked::Mark(number) => put_mark(line, *number),
        Asked::Text(text) => put_printed(line, text.as_slice()),
        Asked::Object(digits) => line.extend_from_slice(&digits.digits),
    }
}

/// Appends the number of a mark.
fn put_mark<A: Allocator + Copy>(line: &mut Vec<u8, A>, number: u64) -> Result<(), AllocError>
    ensures { OnOk result (line.new.items ≡ line.old.items ++ 58 ∷ decimal number) }
{
    let mut digits = Buffer::new();
    line.push(b':')?;
    line.extend_from_slice(digits.format(number).as_bytes())
}

/// Appends the line of a ref that would lose a commit.
fn put_loss<A: Allocator + Copy>(
    lines: &mut Vec<u8, A>,
    loss: &RefLoss<A>,
) -> Result<(), AllocError>
    ensures { OnOk result (lines.new.items ≡ lines.old.items ++ loss_line loss.now) }
{
    lines.extend_from_slice(b"gx: ")?;
    lines.extend_from_slice(loss.name.as_slice())?;
    lines.extend_from_slice(b": from ")?;
    lines.extend_from_slice(loss.old.hex().as_slice())?;
    lines.extend_from_slice(b" to ")?;
    lines.extend_from_slice(loss.new.hex().as_slice())?;
    lines.push(b'\n')?;
    Ok(())
}
