//! Calls on objects: their names, and their bodies made and read.

use crate::answers::{Room, first_word, kind_of, parts_of};
use gx_object::{
    CommitParts, CommitView, Entry, Kind, Mode, Name, Namer, TagParts, TreeEntries, compare_marked,
    decode_commit, decode_tag, decode_tree, encode_commit, encode_tag, encode_tree,
    encode_tree_into, is_canonical,
};
use gx_text::Ident;
use std::alloc::Global;

/// Answers the call of this name on a text, if there is one.
pub(crate) fn answer<N: Namer>(room: &mut Room<'_>, namer: &N, call: &str, text: &[u8]) -> bool {
    let (first, body) = first_word(text);
    match call {
        "name" => put_name(room, namer, kind_of(first), body),
        "digits" => room.found(Name::read(text)),
        "lower" => room.found(Name::read_lower(text)),
        "decode" => put_decoded(room, kind_of(first), body),
        "encode-commit" => encode_again(room, namer, text),
        "encode-tag" => encode_tag_again(room, namer, text),
        "tree-body" => put_tree(room, namer, text),
        "order" => put_order(room, text),
        "is-behind" => put_behind(room, first, body),
        _ => return false,
    }
    true
}

fn put_name<N: Namer>(room: &mut Room<'_>, namer: &N, kind: Kind, body: &[u8]) {
    room.digits(&namer.name(kind, body));
}

/// Whether entries stand in the order of a tree.
fn put_order(room: &mut Room<'_>, lines: &[u8]) {
    let entries = entries_of(room.alloc, lines);
    room.yes_or_no(is_canonical(&entries));
}

/// Whether a directory stands behind a file.
fn put_behind(room: &mut Room<'_>, directory: &[u8], file: &[u8]) {
    room.yes_or_no(compare_marked(directory, b"/", file, b"").is_gt());
}

/// The parts of a body, each on a line; of a tree the number of its entries.
fn put_decoded(room: &mut Room<'_>, kind: Kind, body: &[u8]) {
    match kind {
        Kind::Tree => match decode_tree(body) {
            Ok(entries) => put_count(room, entries),
            Err(fault) => room.told(fault),
        },
        Kind::Commit => match decode_commit(body) {
            Ok(commit) => put_commit(room, &commit),
            Err(fault) => room.told(fault),
        },
        _ => put_tag(room, body),
    }
}

fn put_count(room: &mut Room<'_>, entries: TreeEntries<'_>) {
    let mut count = 0usize;
    for _ in entries {
        count = count.saturating_add(1);
    }
    room.told(count);
}

fn put_commit(room: &mut Room<'_>, commit: &CommitView<'_>) {
    room.digits(&commit.tree());
    for place in 0..commit.parent_count().saturating_add(1) {
        room.put(b"\n");
        room.found(commit.parent(place));
    }
    put_line(room, commit.author());
    put_line(room, commit.committer());
    put_line(room, commit.encoding().unwrap_or(b"none"));
    put_line(room, commit.message());
}

fn put_tag(room: &mut Room<'_>, body: &[u8]) {
    match decode_tag(body) {
        Ok(tag) => {
            room.digits(&tag.object());
            put_line(room, tag.name());
            put_line(room, tag.tagger().unwrap_or(b"none"));
            put_line(room, tag.message());
        }
        Err(fault) => room.told(fault),
    }
}

fn put_line(room: &mut Room<'_>, line: &[u8]) {
    room.put(b"\n");
    room.put(line);
}

/// The name of the body that is made of the parts of a commit's body.
fn encode_again<N: Namer>(room: &mut Room<'_>, namer: &N, body: &[u8]) {
    let Ok(commit) = decode_commit(body) else {
        return room.word("no commit");
    };
    let (Ok(author), Ok(committer)) = (
        Ident::read(commit.author()),
        Ident::read(commit.committer()),
    ) else {
        return room.word("no identity");
    };
    let mut parents = Vec::new(room.alloc);
    put_parents(&mut parents, &commit);
    // its line stands among the headers
    let encoding: Option<&[u8]> = None;
    let parts = CommitParts {
        tree: commit.tree(),
        parents: &parents,
        author,
        committer,
        encoding,
        further: commit.headers(),
        message: commit.message(),
    };
    room.arm();
    match encode_commit(room.heap, &parts) {
        Ok(body) => room.digits(&namer.name(Kind::Commit, &body)),
        Err(_) => room.refused(),
    }
}

fn put_parents(parents: &mut Vec<Name>, commit: &CommitView<'_>) {
    for place in 0..commit.parent_count() {
        if let Some(parent) = commit.parent(place) {
            let _ = parents.push(parent);
        }
    }
}

/// The same of a tag's body.
fn encode_tag_again<N: Namer>(room: &mut Room<'_>, namer: &N, body: &[u8]) {
    let Ok(tag) = decode_tag(body) else {
        return room.word("no tag");
    };
    let parts = TagParts {
        object: tag.object(),
        name: tag.name(),
        tagger: Ident::read(tag.tagger().unwrap_or(b"")).ok(),
        message: tag.message(),
    };
    room.arm();
    match encode_tag(room.heap, &parts) {
        Ok(body) => room.digits(&namer.name(Kind::Tag, &body)),
        Err(_) => room.refused(),
    }
}

/// The entries of lines, each with a mode, a component and the digits of a name.
fn entries_of(alloc: Global, lines: &[u8]) -> Vec<Entry<'_>> {
    let lines = parts_of(alloc, lines, b'\n');
    let mut entries = Vec::new(alloc);
    put_entries(&mut entries, &lines);
    entries
}

fn put_entries<'a>(entries: &mut Vec<Entry<'a>>, lines: &[&'a [u8]]) {
    for line in lines {
        let (mode, rest) = first_word(*line);
        let (component, digits) = first_word(rest);
        if let Some(name) = Name::read(digits) {
            let mode = mode_of(mode);
            let _ = entries.push(Entry {
                mode,
                component,
                name,
            });
        }
    }
}

/// The mode of six digits.
fn mode_of(digits: &[u8]) -> Mode {
    match digits {
        b"040000" => Mode::Dir,
        b"100755" => Mode::Exec,
        b"120000" => Mode::Link,
        b"160000" => Mode::Gitlink,
        _ => Mode::File,
    }
}

/// The length and the name of the body of the tree of these lines, which is read back.
fn put_tree<N: Namer>(room: &mut Room<'_>, namer: &N, lines: &[u8]) {
    let entries = entries_of(room.alloc, lines);
    put_tree_of(room, namer, &entries);
}

fn put_tree_of<N: Namer>(room: &mut Room<'_>, namer: &N, entries: &[Entry<'_>]) {
    if !is_canonical(entries) {
        return room.word("no order of entries");
    }
    room.arm();
    match encode_tree(room.heap, entries) {
        Ok(body) => put_encoded(room, namer, entries, &body),
        Err(_) => room.refused(),
    }
}

/// The length and the name of a body that was made of entries.
fn put_encoded<N: Namer>(room: &mut Room<'_>, namer: &N, entries: &[Entry<'_>], body: &[u8]) {
    if is_encoded_over(room.alloc, body, entries) && is_read_back(body, entries) {
        room.told(body.len());
        room.put(b" ");
        room.digits(&namer.name(Kind::Tree, body));
    } else {
        room.word("another body");
    }
}

/// Whether the body of these entries is this one, where it takes the place of another.
fn is_encoded_over(alloc: Global, body: &[u8], entries: &[Entry<'_>]) -> bool {
    let mut other = Vec::new(alloc);
    let is_long = other.resize(200, b'x').is_ok();
    is_long && is_made(&mut other, entries) && other.as_slice() == body
}

/// Whether a buffer is made the body of these entries.
fn is_made(buffer: &mut Vec<u8>, entries: &[Entry<'_>]) -> bool {
    is_canonical(entries) && encode_tree_into(buffer, entries).is_ok()
}

/// Whether a body is decoded to these entries.
fn is_read_back(body: &[u8], entries: &[Entry<'_>]) -> bool {
    let Ok(mut left) = decode_tree(body) else {
        return false;
    };
    for entry in entries {
        if left.next() != Some(*entry) {
            return false;
        }
    }
    left.next().is_none()
}
