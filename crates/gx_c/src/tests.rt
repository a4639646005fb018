//! Each call once where it succeeds, beside what git 2.39 says of the same stream, and what is told of a call that is refused.

use crate::calls::*;
use crate::handing::closed;
use crate::reading::*;
use crate::store::{CLOSED, DONE, IN_USE, REFUSED, Store};
use gx_object::{Kind, Namer, Sha1Namer};
use std::alloc::Global;

/// A call on a handle.
#[derive(Clone, Copy)]
enum Call<'a> {
    Open,
    Close,
    Load(&'a [u8]),
    /// Of a stream that ends with `done`, or not.
    Import(&'a [u8], bool),
    Text,
    GrowingText,
    Refs,
    File(&'a [u8], &'a [u8]),
    Object(&'a [u8]),
    Name(&'a [u8]),
    Ls(&'a [u8]),
    Commit(&'a [u8], u32),
    Tag(&'a [u8], u32),
    /// Of a text of refs and objects.
    Objects(&'a [u8]),
    /// Of a ref that is to be HEAD.
    Bundle(&'a [u8]),
    Archive(&'a [u8], &'a [u8]),
    Export,
    Changes,
    Word(&'a [u8]),
    Walk,
    Range,
}

/// What is told of a call.
#[derive(Clone, Copy)]
enum Told<'a> {
    /// A text and a number.
    Text(&'a [u8], u64),
    /// A text that begins so.
    Front(&'a [u8]),
    /// A text that has this name as a blob.
    Blob(&'a [u8]),
    /// A stream of the same repository, which ends with `done` or not.
    Stream(bool),
    /// A store text of the same repository.
    Store,
    Refused(&'a [u8]),
    Status(u32),
}

const STREAM: &[u8] =
    b"commit refs/heads/main\ncommitter A <a@x> 1 +0000\ndata 2\nv1\nM 100644 inline test.txt\ndata 10\nversion 1\n\ndone\n";

/// A tag of its commit.
const TAG: &[u8] = b"tag v1\nfrom refs/heads/main^0\ntagger T <t@x> 2 -0100\ndata 5\nfirst";

/// A blob as `git cat-file --batch` prints it, and that the tag goes.
const OBJECTS: &[u8] =
    b"587be6b4c3f93f93c489c0111bba5596147a26cb blob 2\nx\n\n0000000000000000000000000000000000000000 refs/tags/v1\n";

/// What a bundle of the repository begins with, where `main` is HEAD.
const BUNDLE: &[u8] =
    b"# v2 git bundle\n02d6adf1689e06135d2b4b4d471f1ae489887b53 HEAD\n02d6adf1689e06135d2b4b4d471f1ae489887b53 refs/heads/main\n\nPACK\0\0\0\x02\0\0\0\x03";

/// As `git show-ref` has it.
const REFS: &[u8] = b"02d6adf1689e06135d2b4b4d471f1ae489887b53 refs/heads/main\n";

/// Calls on the repository of that stream, as git has its commit, tree and fields, and the archive of `main` with the prefix `p/`.
const ROWS: [(Call<'static>, Told<'static>); 42] = [
    (Call::Refs, Told::Text(REFS, 0)),
    (
        Call::File(b"main", b"test.txt"),
        Told::Text(b"version 1\n", 0o100644),
    ),
    (
        Call::Object(b"main"),
        Told::Text(
            b"tree d8329fc1cc938780ffdd9f94e0d364e0ea74f579\nauthor A <a@x> 1 +0000\ncommitter A <a@x> 1 +0000\n\nv1",
            1,
        ),
    ),
    (
        Call::Name(b"main"),
        Told::Text(b"02d6adf1689e06135d2b4b4d471f1ae489887b53", 1),
    ),
    (Call::Word(b"main"), Told::Status(DONE)),
    (
        Call::Walk,
        Told::Text(b"02d6adf1689e06135d2b4b4d471f1ae489887b53\n", 0),
    ),
    (
        Call::Archive(b"main", b"p/"),
        Told::Blob(b"1e1682bdf8ec802579df1fc39c063c0a5a945eae"),
    ),
    (
        Call::Ls(b"main"),
        Told::Text(
            b"100644 blob 83baae61804e65cc73a7201a7252750c76066a30\ttest.txt\0",
            0,
        ),
    ),
    (
        Call::Commit(b"main", 0),
        Told::Text(b"d8329fc1cc938780ffdd9f94e0d364e0ea74f579", 0),
    ),
    (Call::Commit(b"main", 1), Told::Text(b"", 0)),
    (Call::Commit(b"main", 2), Told::Text(b"A <a@x> 1 +0000", 0)),
    (Call::Commit(b"main", 3), Told::Text(b"A <a@x> 1 +0000", 0)),
    (Call::Commit(b"main", 4), Told::Text(b"", 0)),
    (Call::Commit(b"main", 5), Told::Text(b"v1", 0)),
    (Call::Commit(b"main", 6), Told::Text(b"", 0)),
    (Call::Commit(b"gone", 7), Told::Refused(b"UnknownField")),
    (Call::Export, Told::Stream(false)),
    (Call::Changes, Told::Stream(true)),
    (Call::Word(b"main"), Told::Status(DONE)),
    (Call::Range, Told::Stream(true)),
    (Call::Text, Told::Store),
    (Call::Tag(b"main", 3), Told::Refused(b"WrongKind")),
    (Call::Tag(b"gone", 4), Told::Refused(b"UnknownField")),
    (Call::Import(TAG, false), Told::Text(b"", 1)),
    (
        Call::Tag(b"v1", 0),
        Told::Text(b"02d6adf1689e06135d2b4b4d471f1ae489887b53", 0),
    ),
    (Call::Tag(b"v1", 1), Told::Text(b"v1", 0)),
    (Call::Tag(b"v1", 2), Told::Text(b"T <t@x> 2 -0100", 0)),
    (Call::Tag(b"v1", 3), Told::Text(b"first", 0)),
    (Call::Tag(b"v1^{}", 0), Told::Refused(b"WrongKind")),
    (Call::Objects(OBJECTS), Told::Text(b"", 0)),
    (
        Call::Object(b"587be6b4c3f93f93c489c0111bba5596147a26cb"),
        Told::Text(b"x\n", 3),
    ),
    (Call::Tag(b"v1", 0), Told::Refused(b"UnknownRef")),
    (
        Call::Objects(b"1111111111111111111111111111111111111111 refs/heads/a\n"),
        Told::Refused(b"Dangling"),
    ),
    (Call::Bundle(b"main"), Told::Front(BUNDLE)),
    (Call::Bundle(b"v1"), Told::Refused(b"UnknownRef")),
    (Call::Word(b"^main"), Told::Status(DONE)),
    (Call::Bundle(b""), Told::Refused(b"Empty")),
    (
        Call::File(b"gone", b"test.txt"),
        Told::Refused(b"UnknownRef"),
    ),
    (Call::Word(b"main..gone.."), Told::Refused(b"BadRevision")),
    (
        Call::Import(b"nothing\n", false),
        Told::Refused(b"UnknownCommand"),
    ),
    (Call::Load(b"gxstore 9\n"), Told::Refused(b"BadVersion")),
    (Call::Open, Told::Status(IN_USE)),
];

/// Makes a call, and answers its status. Changes and ranges end with `done`.
fn made(alloc: Global, store: &mut Store, call: Call<'_>) -> u32 {
    match call {
        Call::Open => ginlarch_open(alloc, store, b"0123456789abcdef"),
        Call::Close => {
            ginlarch_close(alloc, store);
            DONE
        }
        Call::Load(text) => ginlarch_load(alloc, store, text),
        Call::Import(stream, done) => ginlarch_import(alloc, store, stream, done, false),
        Call::Text => ginlarch_text(alloc, store),
        Call::GrowingText => ginlarch_growing_text(alloc, store),
        Call::Refs => ginlarch_refs(alloc, store),
        Call::File(revision, path) => ginlarch_file(alloc, store, revision, path),
        Call::Object(revision) => ginlarch_object(alloc, store, revision),
        Call::Name(revision) => ginlarch_name(alloc, store, revision),
        Call::Ls(revision) => ginlarch_ls(alloc, store, revision),
        Call::Commit(revision, field) => ginlarch_commit(alloc, store, revision, field),
        Call::Tag(revision, field) => ginlarch_tag(alloc, store, revision, field),
        Call::Objects(text) => ginlarch_import_objects(alloc, store, text, false),
        Call::Bundle(head) => ginlarch_bundle(alloc, store, head),
        Call::Archive(revision, prefix) => ginlarch_archive(alloc, store, revision, prefix),
        Call::Export => ginlarch_export(alloc, store),
        Call::Changes => ginlarch_changes(alloc, store, true),
        Call::Word(word) => ginlarch_word(alloc, store, word),
        Call::Walk => ginlarch_walk(alloc, store),
        Call::Range => ginlarch_range(alloc, store, true),
    }
}

/// Whether a call is answered as it is to be.
fn is_told(
    alloc: Global,
    store: &mut Store,
    (call, told): (Call<'_>, Told<'_>),
    room: &mut [u8],
) -> bool {
    let status = made(alloc, store, call);
    match told {
        Told::Status(wanted) => status == wanted,
        Told::Refused(word) => status == REFUSED && is_why(alloc, store, word, room),
        Told::Text(text, number) => {
            status == DONE
                && ginlarch_number(alloc, store) == number
                && is_answer(alloc, store, text, room)
        }
        _ => status == DONE && is_text(alloc, store, told, room),
    }
}

/// Whether the last call was refused with this word.
fn is_why(alloc: Global, store: &mut Store, word: &[u8], room: &mut [u8]) -> bool {
    let count = ginlarch_why(alloc, store, room);
    room.get(..count) == Some(word)
}

/// Whether the last call answered this text.
fn is_answer(alloc: Global, store: &mut Store, text: &[u8], room: &mut [u8]) -> bool {
    let count = ginlarch_read(alloc, store, 0, room);
    count == ginlarch_length(alloc, store) && room.get(..count) == Some(text)
}

/// Whether the last call answered a text as it is to be.
fn is_text(alloc: Global, store: &mut Store, told: Told<'_>, room: &mut [u8]) -> bool {
    let count = ginlarch_read(alloc, store, 0, room);
    let text = room.get(..count).unwrap_or(b"");
    count == ginlarch_length(alloc, store)
        && match told {
            Told::Front(front) => text.starts_with(front),
            Told::Blob(digits) => Sha1Namer.name(Kind::Blob, text).hex().as_slice() == digits,
            Told::Stream(done) => has_refs(alloc, Call::Import(text, done)),
            Told::Store => has_refs(alloc, Call::Load(text)),
            _ => false,
        }
}

/// Whether another handle has the refs after this call.
fn has_refs(alloc: Global, call: Call<'_>) -> bool {
    let mut again = closed();
    let mut room = Vec::new(alloc);
    room.resize(100, 0).is_ok() && gives_refs(alloc, &mut again, call, room.as_mut_slice())
}

/// The same of a handle that isn't open.
fn gives_refs(alloc: Global, again: &mut Store, call: Call<'_>, room: &mut [u8]) -> bool {
    made(alloc, again, Call::Open) == DONE
        && made(alloc, again, call) == DONE
        && made(alloc, again, Call::Refs) == DONE
        && is_answer(alloc, again, REFS, room)
}

/// Opens a handle on the repository of the stream. Answers whether that has a commit, a tree and a blob.
fn is_opened(alloc: Global, store: &mut Store) -> bool {
    made(alloc, store, Call::Open) == DONE
        && made(alloc, store, Call::Import(STREAM, true)) == DONE
        && ginlarch_count(alloc, store) == 3
}

/// Closes a handle. Answers whether it is closed.
fn is_closed(alloc: Global, store: &mut Store) -> bool {
    made(alloc, store, Call::Close) == DONE
        && made(alloc, store, Call::Refs) == CLOSED
        && ginlarch_length(alloc, store) == 0
}

#[test]
fn calls_are_answered_as_by_git_or_refused(rt: HostRuntime) {
    let mut room = Vec::new(rt.alloc());
    let mut store = closed();
    assert!(rt; room.resize(20_000, 0).is_ok());
    assert!(rt; is_opened(rt.alloc(), &mut store));
    for place in 0..42usize {
        assert!(rt;
            is_told(rt.alloc(), &mut store, ROWS[place], room.as_mut_slice()),
            "{place}"
        );
    }
    assert!(rt; is_closed(rt.alloc(), &mut store));
}

/// Whether a call answers a text, which is put.
fn is_put(
    alloc: Global,
    store: &mut Store,
    call: Call<'_>,
    room: &mut [u8],
    text: &mut Vec<u8>,
) -> bool {
    let status = made(alloc, store, call);
    let count = ginlarch_read(alloc, store, 0, room);
    status == DONE
        && count == ginlarch_length(alloc, store)
        && text
            .extend_from_slice(room.get(..count).unwrap_or(b""))
            .is_ok()
}

/// Whether a store text of that repository is loaded, and is written as it was.
fn is_written_again(alloc: Global, store: &mut Store, text: &[u8], room: &mut [u8]) -> bool {
    is_told(alloc, store, (Call::Load(text), Told::Status(DONE)), room)
        && is_told(alloc, store, (Call::Refs, Told::Text(REFS, 0)), room)
        && is_told(alloc, store, (Call::Text, Told::Text(text, 0)), room)
}

/// Whether each form is written as it was loaded, behind the other one, too; and a head that is cut is refused.
fn is_form_kept(
    alloc: Global,
    store: &mut Store,
    (plain, growing): (&[u8], &[u8]),
    room: &mut [u8],
) -> bool {
    let cut = Call::Load(growing.get(..100).unwrap_or(b""));
    plain.starts_with(b"gxstore 2\n")
        && growing.starts_with(b"gxstore 3\n")
        && is_written_again(alloc, store, growing, room)
        && is_written_again(alloc, store, plain, room)
        && is_written_again(alloc, store, growing, room)
        && is_told(alloc, store, (cut, Told::Refused(b"Truncated")), room)
}

#[test]
fn store_is_written_in_the_form_that_was_loaded(rt: HostRuntime) {
    let mut room = Vec::new(rt.alloc());
    let mut plain = Vec::new(rt.alloc());
    let mut growing = Vec::new(rt.alloc());
    let mut store = closed();
    assert!(rt; room.resize(20_000, 0).is_ok());
    assert!(rt; is_opened(rt.alloc(), &mut store));
    assert!(rt;
        is_put(
            rt.alloc(),
            &mut store,
            Call::Text,
            room.as_mut_slice(),
            &mut plain
        )
    );
    assert!(rt;
        is_put(
            rt.alloc(),
            &mut store,
            Call::GrowingText,
            room.as_mut_slice(),
            &mut growing
        )
    );
    assert!(rt;
        is_form_kept(
            rt.alloc(),
            &mut store,
            (plain.as_slice(), growing.as_slice()),
            room.as_mut_slice()
        )
    );
    assert!(rt; is_closed(rt.alloc(), &mut store));
}
