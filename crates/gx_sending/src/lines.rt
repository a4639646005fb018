//! The lines of what differs between a commit's files and those of its first parent.

ghost use Rattle.std.specs.Prelude.{◌≡◌, ◌++◌, ◌∷◌, [], List, OnOk};
ghost use Rattle.gx_model.specs.declared.objects.Kind.{Kind};
ghost use Rattle.gx_model.specs.declared.objects.Mode.TheVariants.{Gitlink};
ghost use Rattle.gx_model.specs.Export.{items_text, mark_text};
ghost use Rattle.gx_model.specs.Histories.Values.{Value};
ghost use Rattle.gx_model.specs.Histories.{Records};
ghost use Rattle.gx_model.specs.Objects.{hex};
ghost use Rattle.gx_model.specs.Texts.{Bytes};
ghost use Rattle.gx_model.specs.Texts.Paths.{path_text, printed};
ghost use Rattle.gx_export.specs.ChangedParts.{differing_lines};
ghost use Rattle.gx_export.specs.Compared.{gone_items, gone_text};
ghost use Rattle.gx_export.specs.Texts.{file_items, file_line};
ghost use Rattle.gx_sending.specs.Files.{AreShown, PutsFile, contents_at};
ghost use Rattle.gx_sending.specs.Marks.{Adds, HasWritten};

use crate::{SendFault, Written};
use gx_differences::{ChangedFile, Differences};
use gx_export::{append_all, end_line, mode_digits};
use gx_object::Mode;
use gx_text::{Sink, TreePath};
use itoa::Buffer;
use std::alloc::{AllocError, Allocator};

/// Writes the lines of what is gone and of what differs, whose blobs were written, and an empty line.
///
/// OutOfMemory: a growth is refused. Damaged: a blob wasn't written. WriteFailed: the sink failed, or has taken 2^63 - 1 bytes of
/// a longer text. Cost: the length of the lines. Memory: the longest of them. Source: git-fast-import(1), "filemodify".
pub fn write_differences<A: Allocator + Copy, W: Sink>(
    alloc: A,
    written: &mut Written<'_, W, A>,
    found: &Differences<A>,
) -> Result<(), SendFault>
    ensures { (name : Kind → Bytes → Bytes) (r : Records) (ws : List Value)
        → HasWritten r ws written.old
        → AreShown name ws r found.now.files.items
        → Adds ws (differing_lines ws found.now.gone.items (contents_at r found.now.files.items))
        written.old written.new result r }
{
    let mut line = Vec::new(alloc);
    write_gone(written, &mut line, &found.gone)?;
    write_files(written, &mut line, &found.files)?;
    written.output.write(b"\n")?;
    Ok(())
}

/// Writes the lines of files that are gone, each made in place of the line before.
fn write_gone<A: Allocator + Copy, W: Sink>(
    written: &mut Written<'_, W, A>,
    line: &mut Vec<u8, A>,
    gone: &[TreePath<A>],
) -> Result<(), SendFault>
    ensures { (r : Records) (ws : List Value) → HasWritten r ws written.old
        → Adds ws (gone_items gone.now) written.old written.new result r }
{
    for path in gone {
        line.clear();
        put_gone(line, path)?;
        written.output.write(line)?;
    }
    Ok(())
}

/// Appends the line of a file that is gone.
fn put_gone<A: Allocator + Copy>(
    line: &mut Vec<u8, A>,
    path: &TreePath<A>,
) -> Result<(), AllocError>
    ensures { OnOk result (line.new.items ≡ line.old.items ++ gone_text (path.now ∷ [])) }
{
    append_all(line, &[b"D ".as_slice()])?;
    end_line(line, path)
}

/// Writes the lines of files, likewise.
fn write_files<A: Allocator + Copy, W: Sink>(
    written: &mut Written<'_, W, A>,
    line: &mut Vec<u8, A>,
    files: &[ChangedFile<A>],
) -> Result<(), SendFault>
    ensures { (name : Kind → Bytes → Bytes) (r : Records) (ws : List Value)
        → HasWritten r ws written.old
        → AreShown name ws r files.now
        → Adds ws (file_items ws (contents_at r files.now)) written.old written.new result r }
{
    for file in files {
        line.clear();
        put_file(written, line, file)?;
        written.output.write(line)?;
    }
    Ok(())
}

/// Appends the line of a file.
fn put_file<A: Allocator + Copy, W: Sink>(
    written: &Written<'_, W, A>,
    line: &mut Vec<u8, A>,
    file: &ChangedFile<A>,
) -> Result<(), SendFault>
    ensures { (name : Kind → Bytes → Bytes) (r : Records) (ws : List Value)
        → HasWritten r ws written.now
        → AreShown name ws r (file.now ∷ [])
        → PutsFile ws r file.now line.old.items line.new.items result }
{
    if file.mode == Mode::Gitlink {
        put_gitlink(line, file)?;
        return Ok(());
    }
    let Some(mark) = written.mark_of(&file.name) else {
        return Err(SendFault::Damaged);
    };
    put_marked(line, file, mark)?;
    Ok(())
}

/// Appends the line of a gitlink.
fn put_gitlink<A: Allocator + Copy>(
    line: &mut Vec<u8, A>,
    file: &ChangedFile<A>,
) -> Result<(), AllocError>
    ensures { OnOk result (line.new.items ≡ line.old.items
        ++ items_text (file_line Gitlink (hex file.now.name.bytes)
        (printed (path_text file.now.path)) ∷ [])) }
{
    let digits = file.name.hex();
    append_all(line, &[b"M 160000 ".as_slice(), digits.as_slice(), b" "])?;
    end_line(line, &file.path)
}

/// Appends the line of a file whose bytes have a mark.
fn put_marked<A: Allocator + Copy>(
    line: &mut Vec<u8, A>,
    file: &ChangedFile<A>,
    mark: u64,
) -> Result<(), AllocError>
    ensures { OnOk result (line.new.items ≡ line.old.items
        ++ items_text (file_line file.now.mode (mark_text mark)
        (printed (path_text file.now.path)) ∷ [])) }
{
    let digits = mode_digits(file.mode);
    let mut number = Buffer::new();
    append_all(
        line,
        &[
            b"M ".as_slice(),
            digits.as_slice(),
            b" :",
            number.format(mark).as_bytes(),
            b" ",
        ],
    )?;
    end_line(line, &file.path)
}
