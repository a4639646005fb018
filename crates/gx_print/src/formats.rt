//! What is printed of each commit. Source: git-log(1), "PRETTY FORMATS".

ghost use Rattle.std.specs.Prelude.{◌≡◌, ◌≤◌, ◌-◌, ◌++◌, ◌∷◌, OnOk, [], codes, length, take};
ghost use Rattle.gx_model.specs.Objects.{commit_text, hex};
ghost use Rattle.gx_print.specs.Identities.{name_and_email};
ghost use Rattle.gx_print.specs.Logs.{both_dates, entry_of_parts, gap, head_text, named, parent_text, told_parts};
ghost use Rattle.gx_print.specs.Messages.{indented, subject, trimmed};

use crate::identities::{email_in, name_in, seconds_in};
use crate::messages::{put_indented, put_subject, trimmed};
use gx_asks::{LogFormat, LogOptions};
use gx_object::{CommitView, Name};
use std::alloc::{AllocError, Allocator};

/// Makes what is printed of the commit of this name, body and parts in an empty text: what its format tells, and an LF.
///
/// Cost: the body's length. Memory: the text.
pub fn put_commit<A: Allocator + Copy>(
    text: &mut Vec<u8, A>,
    options: LogOptions,
    commit: &Name,
    body: &[u8],
    view: &CommitView<'_>,
) -> Result<(), AllocError>
    requires empty { text.old.items ≡ [] }
    requires body { body.now ≡ commit_text view.now }
    ensures { OnOk result (text.new.items
        ≡ entry_of_parts options commit.now.bytes view.now) }
{
    put_told(text, options, commit, body, view)?;
    Ok(text.push(b'\n')?)
}

/// Makes what a format tells of a commit.
fn put_told<A: Allocator + Copy>(
    text: &mut Vec<u8, A>,
    options: LogOptions,
    commit: &Name,
    body: &[u8],
    view: &CommitView<'_>,
) -> Result<(), AllocError>
    requires empty { text.old.items ≡ [] }
    requires body { body.now ≡ commit_text view.now }
    ensures { OnOk result (text.new.items
        ≡ told_parts options.format options.parents commit.now.bytes view.now) }
{
    match options.format {
        LogFormat::Names => put_name(text, view, options.parents, commit),
        LogFormat::Oneline => put_oneline(text, view, commit),
        LogFormat::Raw => put_raw(text, body, view, commit),
        LogFormat::Subject => put_subject(text, view.message()),
        LogFormat::Author => put_author(text, view, commit),
        LogFormat::Dates => put_dates(text, view, commit),
    }
}

/// What stands between two commits. Takes no memory.
pub fn gap(format: LogFormat) -> &'static [u8]
    ensures { result.now ≡ gap format }
{
    match format {
        LogFormat::Raw => b"\n",
        LogFormat::Names => b"",
        LogFormat::Oneline => b"",
        LogFormat::Subject => b"",
        LogFormat::Author => b"",
        LogFormat::Dates => b"",
    }
}

/// Appends a commit's name, and behind it its parents', each behind a space, where they are asked for.
fn put_name<A: Allocator + Copy>(
    out: &mut Vec<u8, A>,
    view: &CommitView<'_>,
    parents: bool,
    commit: &Name,
) -> Result<(), AllocError>
    ensures { OnOk result (out.new.items ≡ out.old.items
        ++ named parents commit.now.bytes view.now.parents) }
{
    out.extend_from_slice(commit.hex().as_slice())?;
    if parents {
        put_parents(out, view)
    } else {
        Ok(())
    }
}

/// Appends the names of a commit's parents, each behind a space.
fn put_parents<A: Allocator + Copy>(
    out: &mut Vec<u8, A>,
    commit: &CommitView<'_>,
) -> Result<(), AllocError>
    ensures { OnOk result (out.new.items ≡ out.old.items ++ parent_text commit.now.parents) }
{
    for place in 0..commit.parent_count() {
        if let Some(parent) = commit.parent(place) {
            put_parent(out, &parent)?;
        }
    }
    Ok(())
}

/// Appends a space and a name.
fn put_parent<A: Allocator + Copy>(out: &mut Vec<u8, A>, parent: &Name) -> Result<(), AllocError>
    ensures { OnOk result (out.new.items ≡ out.old.items ++ 32 ∷ hex parent.now.bytes) }
{
    out.push(b' ')?;
    out.extend_from_slice(parent.hex().as_slice())
}

/// Appends the name and the subject.
fn put_oneline<A: Allocator + Copy>(
    out: &mut Vec<u8, A>,
    view: &CommitView<'_>,
    commit: &Name,
) -> Result<(), AllocError>
    ensures { OnOk result (out.new.items ≡ out.old.items
        ++ (hex commit.now.bytes ++ 32 ∷ subject view.now.text.message)) }
{
    out.extend_from_slice(commit.hex().as_slice())?;
    out.push(b' ')?;
    put_subject(out, view.message())
}

/// Makes the text of a whole object, with the message at its end indented, and without the white space at its end.
fn put_raw<A: Allocator + Copy>(
    out: &mut Vec<u8, A>,
    body: &[u8],
    view: &CommitView<'_>,
    commit: &Name,
) -> Result<(), AllocError>
    requires empty { out.old.items ≡ [] }
    requires body { body.now ≡ commit_text view.now }
    ensures { OnOk result (out.new.items
        ≡ trimmed (codes "commit " ++ hex commit.now.bytes ++ 10 ∷ head_text view.now
        ++ indented view.now.text.message)) }
{
    out.extend_from_slice(b"commit ")?;
    out.extend_from_slice(commit.hex().as_slice())?;
    out.push(b'\n')?;
    put_message(out, body, view.message())?;
    trim(out);
    Ok(())
}

/// Appends what stands before the message in a body, and the message indented.
fn put_message<A: Allocator + Copy>(
    out: &mut Vec<u8, A>,
    body: &[u8],
    message: &[u8],
) -> Result<(), AllocError>
    requires { length message.now ≤ length body.now }
    ensures { OnOk result (out.new.items ≡ out.old.items
        ++ (take (length body.now - length message.now) body.now ++ indented message.now)) }
{
    out.extend_from_slice(&body[..body.len() - message.len()])?;
    put_indented(out, message)
}

/// Takes the white space from a text's end.
fn trim<A: Allocator>(text: &mut Vec<u8, A>)
    ensures { text.new.items ≡ trimmed text.old.items }
{
    let length = trimmed(text.as_slice()).len();
    text.truncate(length);
}

/// Appends the name, and the author's name and email.
fn put_author<A: Allocator + Copy>(
    out: &mut Vec<u8, A>,
    view: &CommitView<'_>,
    commit: &Name,
) -> Result<(), AllocError>
    ensures { OnOk result (out.new.items ≡ out.old.items
        ++ (hex commit.now.bytes ++ 32 ∷ name_and_email view.now.text.author)) }
{
    let author = view.author();
    out.extend_from_slice(commit.hex().as_slice())?;
    out.push(b' ')?;
    out.extend_from_slice(name_in(author))?;
    out.extend_from_slice(b" <")?;
    out.extend_from_slice(email_in(author))?;
    Ok(out.push(b'>')?)
}

/// Appends the name, and the seconds of the author's date and of the committer's.
fn put_dates<A: Allocator + Copy>(
    out: &mut Vec<u8, A>,
    view: &CommitView<'_>,
    commit: &Name,
) -> Result<(), AllocError>
    ensures { OnOk result (out.new.items ≡ out.old.items
        ++ (hex commit.now.bytes ++ 32 ∷ both_dates view.now.text)) }
{
    out.extend_from_slice(commit.hex().as_slice())?;
    out.push(b' ')?;
    out.extend_from_slice(seconds_in(view.author()))?;
    out.push(b' ')?;
    out.extend_from_slice(seconds_in(view.committer()))
}
