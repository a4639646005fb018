//! Commands, spelled with all their parts.

use crate::spelling::{Heap, Spelling};
use gx_command::{Change, Command, Commit, CommitIsh, DataRef, Feature, Modify, Tag};
use gx_model::Mode;

/// Spells a command.
pub(super) fn put_command(spelling: &mut Spelling<'_>, command: &Command<&Heap>) {
    match command {
        Command::Blob(blob) => {
            spelling.put(b"blob", b"", b"");
            spelling.put_mark(blob.mark);
            spelling.put(b" <", &blob.bytes, b">");
        }
        Command::Commit(commit) => put_commit(spelling, commit),
        Command::Tag(tag) => put_tag(spelling, tag),
        Command::Reset(reset) => {
            spelling.put(b"reset ", &reset.branch.bytes, b"");
            if let Some(from) = &reset.from {
                put_commit_ish(spelling, b" from", from);
            }
        }
        Command::Checkpoint => spelling.put(b"checkpoint", b"", b""),
        Command::Progress(text) => spelling.put(b"progress ", text, b""),
        Command::Feature(Feature::Done) => spelling.put(b"feature done", b"", b""),
        Command::Feature(Feature::RawDates) => spelling.put(b"feature date-format=raw", b"", b""),
        Command::Feature(Feature::Force) => spelling.put(b"feature force", b"", b""),
        Command::OptionLine(text) => spelling.put(b"option ", text, b""),
        Command::Done => spelling.put(b"done", b"", b""),
    }
}

/// Spells what names a commit, behind a word.
fn put_commit_ish(spelling: &mut Spelling<'_>, word: &[u8], commit: &CommitIsh<&Heap>) {
    match commit {
        CommitIsh::Mark(mark) => {
            spelling.put(word, b"", b"");
            spelling.put_mark(Some(*mark));
        }
        CommitIsh::Text(text) => spelling.put(word, b" ", text),
    }
}

fn put_tag(spelling: &mut Spelling<'_>, tag: &Tag<&Heap>) {
    spelling.put(b"tag ", &tag.name.bytes, b"");
    spelling.put_mark(tag.mark);
    put_commit_ish(spelling, b" from", &tag.from);
    if let Some(tagger) = &tag.tagger {
        spelling.put(b" tagger(", &tagger.bytes, b")");
    }
    spelling.put(b" <", &tag.message, b">");
}

fn put_commit(spelling: &mut Spelling<'_>, commit: &Commit<&Heap>) {
    spelling.put(b"commit ", &commit.branch.bytes, b"");
    spelling.put_mark(commit.mark);
    if let Some(author) = &commit.author {
        spelling.put(b" author(", &author.bytes, b")");
    }
    spelling.put(b" committer(", &commit.committer.bytes, b")");
    if let Some(encoding) = &commit.encoding {
        spelling.put(b" encoding(", &encoding.name, b")");
    }
    spelling.put(b" <", &commit.message, b">");
    if let Some(from) = &commit.from {
        put_commit_ish(spelling, b" from", from);
    }
    for merge in commit.merges.iter() {
        put_commit_ish(spelling, b" merge", merge);
    }
    for change in commit.changes.iter() {
        put_change(spelling, change);
    }
}

fn put_change(spelling: &mut Spelling<'_>, change: &Change<&Heap>) {
    match change {
        Change::Modify(modify) => put_modify(spelling, modify),
        Change::Remove(path) => spelling.put(b" D [", path.joined(), b"]"),
        Change::Copy {
            source,
            destination,
        } => {
            spelling.put(b" C [", source.joined(), b"] [");
            spelling.put(destination.joined(), b"]", b"");
        }
        Change::Rename {
            source,
            destination,
        } => {
            spelling.put(b" R [", source.joined(), b"] [");
            spelling.put(destination.joined(), b"]", b"");
        }
        Change::Clear => spelling.put(b" deleteall", b"", b""),
    }
}

fn put_modify(spelling: &mut Spelling<'_>, modify: &Modify<&Heap>) {
    let mode = match modify.mode {
        Mode::File => b" M 100644".as_slice(),
        Mode::Exec => b" M 100755".as_slice(),
        Mode::Link => b" M 120000".as_slice(),
        Mode::Gitlink => b" M 160000".as_slice(),
        Mode::Dir => b" M 040000".as_slice(),
    };
    spelling.put(mode, b"", b"");
    match &modify.data_ref {
        DataRef::Mark(mark) => spelling.put_mark(Some(*mark)),
        DataRef::Name(name) => spelling.put(b" ", &name.digits, b""),
        DataRef::Inline(bytes) => spelling.put(b" <", bytes, b">"),
    }
    spelling.put(b" [", modify.path.joined(), b"]");
}
