//! The calls of C that open and close a handle, or ask something of its repository. Each has its sentence in
//! include/ginlarch.h.

ghost use Rattle.std.specs.Prelude.{◌≡◌};
ghost use Rattle.gx_c.specs.Calls.{Calls, Closes, Opens};
ghost use Rattle.gx_c.specs.Called as called;

use crate::handing::{put_back, taken};
use crate::opened::Opened;
use crate::store::{CLOSED, IN_USE, OUT_OF_MEMORY, Store};
use crate::{asking, fields, listing, tags, writing};
use gx_versions::StoreForm;
use std::alloc::Global;

/// Opens a handle on a repository with no objects and no refs, whose hashes are keyed by sixteen bytes.
#[unsafe(no_mangle)]
pub extern "C" fn ginlarch_open(alloc: Global, store: &mut Store, key: &[u8]) -> u32
    ensures { Opens store.old.held.value store.new.held.value store.old store.new result }
{
    if store.is_open {
        return IN_USE;
    }
    match Opened::new(alloc, key) {
        Some(opened) => put_back(store, opened),
        None => OUT_OF_MEMORY,
    }
}

/// Closes a handle, and frees all that it holds. One that isn't open stays so.
#[unsafe(no_mangle)]
pub extern "C" fn ginlarch_close(alloc: Global, store: &mut Store)
    ensures { Closes store.new }
{
    let _ = taken(alloc, store);
}

/// Replaces the repository by that of a store text of any version; where that is refused it stays as it was.
#[unsafe(no_mangle)]
pub extern "C" fn ginlarch_load(alloc: Global, store: &mut Store, text: &[u8]) -> u32
    ensures { Calls (called.Loads text.now) store.old store.new result }
{
    let Some(mut opened) = taken(alloc, store) else {
        return CLOSED;
    };
    opened.load(alloc, text);
    put_back(store, opened)
}

/// Imports a stream, which with `done` has to end with the command `done`, and which with `force` may take commits from
/// a branch.
#[unsafe(no_mangle)]
pub extern "C" fn ginlarch_import(
    alloc: Global,
    store: &mut Store,
    stream: &[u8],
    done: bool,
    force: bool,
) -> u32
    ensures { Calls (called.Imports done force stream.now) store.old store.new result }
{
    let Some(mut opened) = taken(alloc, store) else {
        return CLOSED;
    };
    opened.import(alloc, stream, done, force);
    put_back(store, opened)
}

/// Takes a text of refs and objects into the repository; with `force` refs may lose commits. Where the text is refused the
/// repository stays as it was.
#[unsafe(no_mangle)]
pub extern "C" fn ginlarch_import_objects(
    alloc: Global,
    store: &mut Store,
    text: &[u8],
    force: bool,
) -> u32
    ensures { Calls (called.ImportsObjects force text.now) store.old store.new result }
{
    let Some(mut opened) = taken(alloc, store) else {
        return CLOSED;
    };
    opened.import_objects(alloc, text, force);
    put_back(store, opened)
}

/// Answers the repository's store text, in the form of the one that was loaded: of version 2 where none was.
#[unsafe(no_mangle)]
pub extern "C" fn ginlarch_text(alloc: Global, store: &mut Store) -> u32
    ensures { Calls called.Texts store.old store.new result }
{
    let Some(mut opened) = taken(alloc, store) else {
        return CLOSED;
    };
    opened.answer = writing::text(alloc, &opened.repo, opened.form);
    put_back(store, opened)
}

/// Answers the repository's growing text, whatever was loaded.
#[unsafe(no_mangle)]
pub extern "C" fn ginlarch_growing_text(alloc: Global, store: &mut Store) -> u32
    ensures { Calls called.GrowingTexts store.old store.new result }
{
    let Some(mut opened) = taken(alloc, store) else {
        return CLOSED;
    };
    opened.answer = writing::text(alloc, &opened.repo, StoreForm::Growing);
    put_back(store, opened)
}

/// Answers the refs, a line each.
#[unsafe(no_mangle)]
pub extern "C" fn ginlarch_refs(alloc: Global, store: &mut Store) -> u32
    ensures { Calls called.Refs store.old store.new result }
{
    let Some(mut opened) = taken(alloc, store) else {
        return CLOSED;
    };
    opened.answer = asking::refs(alloc, &opened.repo);
    put_back(store, opened)
}

/// Answers the bytes and the mode of the file at a path in a revision's tree.
#[unsafe(no_mangle)]
pub extern "C" fn ginlarch_file(
    alloc: Global,
    store: &mut Store,
    revision: &[u8],
    path: &[u8],
) -> u32
    ensures { Calls (called.File revision.now path.now) store.old store.new result }
{
    let Some(mut opened) = taken(alloc, store) else {
        return CLOSED;
    };
    opened.answer = asking::file(alloc, &opened.repo, revision, path);
    put_back(store, opened)
}

/// Answers the body and the kind of the object that a revision gives.
#[unsafe(no_mangle)]
pub extern "C" fn ginlarch_object(alloc: Global, store: &mut Store, revision: &[u8]) -> u32
    ensures { Calls (called.Object revision.now) store.old store.new result }
{
    let Some(mut opened) = taken(alloc, store) else {
        return CLOSED;
    };
    opened.answer = asking::object(alloc, &opened.repo, revision);
    put_back(store, opened)
}

/// Answers the name of what a revision gives, in 40 digits, and its kind.
#[unsafe(no_mangle)]
pub extern "C" fn ginlarch_name(alloc: Global, store: &mut Store, revision: &[u8]) -> u32
    ensures { Calls (called.Name revision.now) store.old store.new result }
{
    let Some(mut opened) = taken(alloc, store) else {
        return CLOSED;
    };
    opened.answer = asking::name(alloc, &opened.repo, revision);
    put_back(store, opened)
}

/// Answers the entries of a revision's tree.
#[unsafe(no_mangle)]
pub extern "C" fn ginlarch_ls(alloc: Global, store: &mut Store, revision: &[u8]) -> u32
    ensures { Calls (called.Lists revision.now) store.old store.new result }
{
    let Some(mut opened) = taken(alloc, store) else {
        return CLOSED;
    };
    opened.answer = listing::ls(alloc, &opened.repo, revision);
    put_back(store, opened)
}

/// Answers a field of a revision's commit, by its number.
#[unsafe(no_mangle)]
pub extern "C" fn ginlarch_commit(
    alloc: Global,
    store: &mut Store,
    revision: &[u8],
    field: u32,
) -> u32
    ensures { Calls (called.Commit revision.now field) store.old store.new result }
{
    let Some(mut opened) = taken(alloc, store) else {
        return CLOSED;
    };
    opened.answer = fields::commit_field(alloc, &opened.repo, revision, field);
    put_back(store, opened)
}

/// Answers a field of a revision's tag, by its number.
#[unsafe(no_mangle)]
pub extern "C" fn ginlarch_tag(alloc: Global, store: &mut Store, revision: &[u8], field: u32) -> u32
    ensures { Calls (called.Tag revision.now field) store.old store.new result }
{
    let Some(mut opened) = taken(alloc, store) else {
        return CLOSED;
    };
    opened.answer = tags::tag_field(alloc, &opened.repo, revision, field);
    put_back(store, opened)
}

/// Answers the archive of a revision's tree, with these bytes before each path.
#[unsafe(no_mangle)]
pub extern "C" fn ginlarch_archive(
    alloc: Global,
    store: &mut Store,
    revision: &[u8],
    prefix: &[u8],
) -> u32
    ensures { Calls (called.Archive revision.now prefix.now) store.old store.new result }
{
    let Some(mut opened) = taken(alloc, store) else {
        return CLOSED;
    };
    opened.answer = writing::tar(alloc, &opened.repo, revision, prefix);
    put_back(store, opened)
}

/// Answers the repository as a stream, each commit with all of its files.
#[unsafe(no_mangle)]
pub extern "C" fn ginlarch_export(alloc: Global, store: &mut Store) -> u32
    ensures { Calls called.Export store.old store.new result }
{
    let Some(mut opened) = taken(alloc, store) else {
        return CLOSED;
    };
    opened.answer = writing::stream(alloc, &opened.repo);
    put_back(store, opened)
}

/// Answers the repository as a stream, each commit by what it changed, and where it is `closed` with `done` at its end.
#[unsafe(no_mangle)]
pub extern "C" fn ginlarch_changes(alloc: Global, store: &mut Store, closed: bool) -> u32
    ensures { Calls (called.Changes closed) store.old store.new result }
{
    let Some(mut opened) = taken(alloc, store) else {
        return CLOSED;
    };
    opened.answer = writing::changes(alloc, &opened.repo, closed);
    put_back(store, opened)
}
