//! The texts of commands. Source: git-fast-import(1), "Input Format".

ghost use Rattle.std.specs.Option.{option_copied};
ghost use Rattle.std.specs.Prelude.{[], ◌∷◌};
ghost use Rattle.gx_model.specs.Export.{commit_ish_text, items_text, to_nothing, word_line, word_line_if};
ghost use Rattle.gx_model.specs.Faults.{NeedsNoMemory};
ghost use Rattle.gx_model.specs.Streams.Items.{Data};
ghost use Rattle.gx_export.specs.Naming.{shown_commit};
ghost use Rattle.gx_export.specs.Outputs.{Writes};
ghost use Rattle.gx_export.specs.Texts.{author_items, blob_under, command_text, head_items, tag_command, target_items, to_commit};

use crate::ExportFault;
use crate::naming::CommitIsh;
use crate::output::Output;
use gx_object::{CommitView, TagView};
use gx_text::Sink;
use itoa::Buffer;

/// Writes a blob under a mark.
pub fn write_blob<W: Sink>(
    output: &mut Output<'_, W>,
    mark: u64,
    bytes: &[u8],
) -> Result<(), ExportFault>
    ensures text { Writes output.old output.new (command_text (blob_under mark bytes.now)) result }
    ensures memory { NeedsNoMemory ExportFault.OutOfMemory result }
{
    let mut number = Buffer::new();
    let mut length = Buffer::new();
    output.write_all(&[
        b"blob\nmark :".as_slice(),
        number.format(mark).as_bytes(),
        b"\ndata ",
        length.format(bytes.len()).as_bytes(),
        b"\n",
        bytes,
        b"\n",
    ])
}

/// Writes a block.
fn write_block<W: Sink>(output: &mut Output<'_, W>, bytes: &[u8]) -> Result<(), ExportFault>
    ensures text { Writes output.old output.new (items_text (Data bytes.now ∷ [])) result }
    ensures memory { NeedsNoMemory ExportFault.OutOfMemory result }
{
    let mut length = Buffer::new();
    output.write_all(&[
        b"data ".as_slice(),
        length.format(bytes.len()).as_bytes(),
        b"\n",
        bytes,
        b"\n",
    ])
}

/// Writes a line with a word and a text.
fn write_line<W: Sink>(
    output: &mut Output<'_, W>,
    word: &[u8],
    text: &[u8],
) -> Result<(), ExportFault>
    ensures text { Writes output.old output.new (items_text (word_line word.now text.now ∷ []))
        result }
    ensures memory { NeedsNoMemory ExportFault.OutOfMemory result }
{
    output.write_all(&[word, b" ", text, b"\n"])
}

/// Writes such a line, where there is a text.
fn write_optional<W: Sink>(
    output: &mut Output<'_, W>,
    word: &[u8],
    text: Option<&[u8]>,
) -> Result<(), ExportFault>
    ensures text { Writes output.old output.new (items_text (word_line_if word.now
        (option_copied text.entry))) result }
    ensures memory { NeedsNoMemory ExportFault.OutOfMemory result }
{
    match text {
        Some(text) => write_line(output, word, text),
        None => Ok(()),
    }
}

/// Writes the lines of a branch's next commit up to its message, under a mark.
pub fn write_commit_head<W: Sink>(
    output: &mut Output<'_, W>,
    branch: &[u8],
    mark: u64,
    commit: &CommitView<'_>,
) -> Result<(), ExportFault>
    ensures text { Writes output.old output.new (items_text (head_items branch.now mark
        commit.now.text)) result }
    ensures memory { NeedsNoMemory ExportFault.OutOfMemory result }
{
    write_authors(output, branch, mark, commit)?;
    write_optional(output, b"encoding", commit.encoding())?;
    write_block(output, commit.message())
}

/// Writes these lines up to its committer.
fn write_authors<W: Sink>(
    output: &mut Output<'_, W>,
    branch: &[u8],
    mark: u64,
    commit: &CommitView<'_>,
) -> Result<(), ExportFault>
    ensures text { Writes output.old output.new (items_text (author_items branch.now mark
        commit.now.text)) result }
    ensures memory { NeedsNoMemory ExportFault.OutOfMemory result }
{
    let mut number = Buffer::new();
    output.write_all(&[
        b"commit ".as_slice(),
        branch,
        b"\nmark :",
        number.format(mark).as_bytes(),
        b"\nauthor ",
        commit.author(),
        b"\ncommitter ",
        commit.committer(),
        b"\n",
    ])
}

/// Writes the line of a parent, with its word.
pub fn write_parent<W: Sink>(
    output: &mut Output<'_, W>,
    word: &[u8],
    parent: CommitIsh,
) -> Result<(), ExportFault>
    ensures text { Writes output.old output.new (items_text (word_line word.now (commit_ish_text
        (shown_commit parent)) ∷ [])) result }
    ensures memory { NeedsNoMemory ExportFault.OutOfMemory result }
{
    match parent {
        CommitIsh::Marked(mark) => {
            let mut number = Buffer::new();
            output.write_all(&[word, b" :", number.format(mark).as_bytes(), b"\n"])
        }
        CommitIsh::Named(name) => {
            let digits = name.hex();
            output.write_all(&[word, b" ", digits.as_slice(), b"^0\n"])
        }
    }
}

/// Writes a reset to no commit.
pub fn write_reset<W: Sink>(output: &mut Output<'_, W>, name: &[u8]) -> Result<(), ExportFault>
    ensures text { Writes output.old output.new (command_text (to_nothing name.now)) result }
    ensures memory { NeedsNoMemory ExportFault.OutOfMemory result }
{
    write_line(output, b"reset", name)
}

/// Writes a reset to a commit.
pub fn write_reset_to<W: Sink>(
    output: &mut Output<'_, W>,
    name: &[u8],
    commit: CommitIsh,
) -> Result<(), ExportFault>
    ensures text { Writes output.old output.new (command_text (to_commit name.now (shown_commit
        commit))) result }
    ensures memory { NeedsNoMemory ExportFault.OutOfMemory result }
{
    write_reset(output, name)?;
    write_parent(output, b"from", commit)?;
    output.write(b"\n")
}

/// Writes a tag of a commit.
pub fn write_tag<W: Sink>(
    output: &mut Output<'_, W>,
    tag: &TagView<'_>,
    commit: CommitIsh,
) -> Result<(), ExportFault>
    ensures text { Writes output.old output.new (command_text (tag_command (shown_commit commit)
        tag.now)) result }
    ensures memory { NeedsNoMemory ExportFault.OutOfMemory result }
{
    write_target(output, tag, commit)?;
    write_optional(output, b"tagger", tag.tagger())?;
    write_block(output, tag.message())
}

/// Writes a tag's lines up to its commit.
fn write_target<W: Sink>(
    output: &mut Output<'_, W>,
    tag: &TagView<'_>,
    commit: CommitIsh,
) -> Result<(), ExportFault>
    ensures text { Writes output.old output.new (items_text (target_items (shown_commit commit)
        tag.now.name)) result }
    ensures memory { NeedsNoMemory ExportFault.OutOfMemory result }
{
    write_line(output, b"tag", tag.name())?;
    write_parent(output, b"from", commit)
}
