//! The text of items.

ghost use Rattle.std.specs.Prelude.{◌++◌, ◌∷◌, [], codes};
ghost use Rattle.std.specs.Fmt.{decimal};
ghost use Rattle.gx_text.specs.Buffers.{GrowsBy};
ghost use Rattle.gx_adapt.specs.Paths.{escaped, quoted, anew};
ghost use Rattle.gx_adapt.specs.Lines.{lines_for, spaced_line, modified_line, quoted_line, moved_line};
ghost use Rattle.gx_model.specs.Export.{items_text};
ghost use Rattle.gx_adapt.specs.Adapting.{shown_lot};

use crate::lot::Lot;
use crate::path::is_open;
use itoa::Buffer;
use std::alloc::{AllocError, Allocator};

/// Appends the line that stands in the place of one, or none.
pub(crate) fn put_line<A: Allocator + Copy>(
    out: &mut Vec<u8, A>,
    line: &[u8],
    lot: Lot<'_>,
) -> Result<(), AllocError>
    ensures { GrowsBy out.old out.new
        (items_text (lines_for line.now (shown_lot lot.entry))) result }
{
    match lot {
        Lot::Deletion | Lot::Marks | Lot::Feature | Lot::Signature | Lot::Unfinished => {
            return Ok(());
        }
        Lot::Kept => out.extend_from_slice(line)?,
        Lot::Ident(word, ident) => put_ident(out, word, ident)?,
        Lot::Modify(mode, dataref, path) => put_modify(out, mode, dataref, path)?,
        Lot::Remove(path) => put_remove(out, path)?,
        Lot::Move(word, source, destination) => put_move(out, word, source, destination)?,
    }
    out.push(b'\n')?;
    Ok(())
}

fn put_ident<A: Allocator + Copy>(
    out: &mut Vec<u8, A>,
    word: &[u8],
    ident: &[u8],
) -> Result<(), AllocError>
    ensures { GrowsBy out.old out.new (spaced_line word.now ident.now) result }
{
    out.extend_from_slice(word)?;
    out.extend_from_slice(b"  ")?;
    out.extend_from_slice(ident)
}

fn put_modify<A: Allocator + Copy>(
    out: &mut Vec<u8, A>,
    mode: &[u8],
    dataref: &[u8],
    path: &[u8],
) -> Result<(), AllocError>
    ensures { GrowsBy out.old out.new (modified_line mode.now dataref.now path.now) result }
{
    out.extend_from_slice(b"M ")?;
    out.extend_from_slice(mode)?;
    out.push(b' ')?;
    out.extend_from_slice(dataref)?;
    out.push(b' ')?;
    put_quoted(out, path)
}

fn put_remove<A: Allocator + Copy>(out: &mut Vec<u8, A>, path: &[u8]) -> Result<(), AllocError>
    ensures { GrowsBy out.old out.new (quoted_line (codes "D") path.now) result }
{
    out.extend_from_slice(b"D ")?;
    put_quoted(out, path)
}

fn put_move<A: Allocator + Copy>(
    out: &mut Vec<u8, A>,
    word: &[u8],
    source: &[u8],
    destination: &[u8],
) -> Result<(), AllocError>
    ensures { GrowsBy out.old out.new (moved_line word.now source.now destination.now) result }
{
    out.extend_from_slice(word)?;
    out.push(b' ')?;
    put_path(out, source)?;
    out.push(b' ')?;
    put_path(out, destination)
}

/// Appends a path, in quotes where it has to be.
fn put_path<A: Allocator + Copy>(out: &mut Vec<u8, A>, path: &[u8]) -> Result<(), AllocError>
    ensures { GrowsBy out.old out.new (anew path.now) result }
{
    if is_open(path) {
        put_quoted(out, path)
    } else {
        out.extend_from_slice(path)
    }
}

/// Appends a text in quotes.
fn put_quoted<A: Allocator + Copy>(out: &mut Vec<u8, A>, text: &[u8]) -> Result<(), AllocError>
    ensures { GrowsBy out.old out.new (quoted text.now) result }
{
    out.push(b'"')?;
    for b in text {
        put_escaped(out, *b)?;
    }
    out.push(b'"')?;
    Ok(())
}

fn put_escaped<A: Allocator + Copy>(out: &mut Vec<u8, A>, b: u8) -> Result<(), AllocError>
    ensures { GrowsBy out.old out.new (escaped b) result }
{
    if b == b'"' || b == b'\\' {
        out.push(b'\\')?;
    }
    out.push(b)?;
    Ok(())
}

/// Appends the line that announces a block of so many bytes.
pub(crate) fn put_announcement<A: Allocator + Copy>(
    out: &mut Vec<u8, A>,
    count: usize,
) -> Result<(), AllocError>
    ensures { GrowsBy out.old out.new (codes "data " ++ decimal count ++ 10 ∷ []) result }
{
    let mut digits = Buffer::new();
    out.extend_from_slice(b"data ")?;
    out.extend_from_slice(digits.format(count).as_bytes())?;
    out.push(b'\n')?;
    Ok(())
}
