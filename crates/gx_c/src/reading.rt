//! The calls of C that give range words, and those that read what the last call answered.

ghost use Rattle.std.specs.Prelude.{◌≡◌, drop, length};
ghost use Rattle.gx_c.specs.Answers.{word_of_why};
ghost use Rattle.gx_c.specs.Calls.{Calls, Copies, IsCopied, Reads};
ghost use Rattle.gx_c.specs.Called as called;

use crate::handing::{put_back, taken};
use crate::store::{CLOSED, Store};
use std::alloc::Global;

/// Puts a range word behind those that were given since the last walk.
#[unsafe(no_mangle)]
pub extern "C" fn ginlarch_word(alloc: Global, store: &mut Store, word: &[u8]) -> u32
    ensures { Calls (called.Word word.now) store.old store.new result }
{
    let Some(mut opened) = taken(alloc, store) else {
        return CLOSED;
    };
    opened.add_word(alloc, word);
    put_back(store, opened)
}

/// Answers the commits that the words list, and forgets the words.
#[unsafe(no_mangle)]
pub extern "C" fn ginlarch_walk(alloc: Global, store: &mut Store) -> u32
    ensures { Calls called.Walk store.old store.new result }
{
    let Some(mut opened) = taken(alloc, store) else {
        return CLOSED;
    };
    opened.walk(alloc);
    put_back(store, opened)
}

/// Answers the changes of the commits that the words list as a stream, and forgets the words.
#[unsafe(no_mangle)]
pub extern "C" fn ginlarch_range(alloc: Global, store: &mut Store, closed: bool) -> u32
    ensures { Calls (called.Range closed) store.old store.new result }
{
    let Some(mut opened) = taken(alloc, store) else {
        return CLOSED;
    };
    opened.export_range(alloc, closed);
    put_back(store, opened)
}

/// Answers the bundle of the refs that the words name, or of all where there are no words, and forgets the words. The ref
/// of a name that isn't empty is HEAD, too.
#[unsafe(no_mangle)]
pub extern "C" fn ginlarch_bundle(alloc: Global, store: &mut Store, head: &[u8]) -> u32
    ensures { Calls (called.Bundles head.now) store.old store.new result }
{
    let Some(mut opened) = taken(alloc, store) else {
        return CLOSED;
    };
    opened.bundle(alloc, head);
    put_back(store, opened)
}

/// How many bytes the last call answered.
#[unsafe(no_mangle)]
pub extern "C" fn ginlarch_length(alloc: Global, store: &mut Store) -> usize
    ensures { Reads (λ opened. result ≡ length opened.answer.bytes.items) (result ≡ 0)
        store.old store.new }
{
    let Some(opened) = taken(alloc, store) else {
        return 0;
    };
    let length = opened.answer.bytes.len();
    put_back(store, opened);
    length
}

/// Copies what the last call answered, from a place on, as far as it goes and there is room, and answers how many bytes
/// that are.
#[unsafe(no_mangle)]
pub extern "C" fn ginlarch_read(
    alloc: Global,
    store: &mut Store,
    from: usize,
    room: &mut [u8],
) -> usize
    ensures { Copies (λ opened. drop from opened.answer.bytes.items) room.old room.new result
        store.old store.new }
{
    let Some(opened) = taken(alloc, store) else {
        return 0;
    };
    let count = copy(opened.answer.bytes.get(from..).unwrap_or(b""), room);
    put_back(store, opened);
    count
}

/// The number that the last call answered.
#[unsafe(no_mangle)]
pub extern "C" fn ginlarch_number(alloc: Global, store: &mut Store) -> u64
    ensures { Reads (λ opened. result ≡ opened.answer.number) (result ≡ 0) store.old store.new }
{
    let Some(opened) = taken(alloc, store) else {
        return 0;
    };
    let number = opened.answer.number;
    put_back(store, opened);
    number
}

/// The count that the last call answered.
#[unsafe(no_mangle)]
pub extern "C" fn ginlarch_count(alloc: Global, store: &mut Store) -> u64
    ensures { Reads (λ opened. result ≡ opened.answer.count) (result ≡ 0) store.old store.new }
{
    let Some(opened) = taken(alloc, store) else {
        return 0;
    };
    let count = opened.answer.count;
    put_back(store, opened);
    count
}

/// Copies the word of why the last call was refused, as far as there is room, and answers how many bytes that are.
#[unsafe(no_mangle)]
pub extern "C" fn ginlarch_why(alloc: Global, store: &mut Store, room: &mut [u8]) -> usize
    ensures { Copies (λ opened. word_of_why opened.answer.why) room.old room.new result
        store.old store.new }
{
    let Some(opened) = taken(alloc, store) else {
        return 0;
    };
    let count = copy(opened.answer.why.word().as_bytes(), room);
    put_back(store, opened);
    count
}

/// Copies the front of a text, as far as there is room.
fn copy(text: &[u8], room: &mut [u8]) -> usize
    ensures { IsCopied text.now room.old room.new result }
{
    let count = text.len().min(room.len());
    room[..count].copy_from_slice(&text[..count]);
    count
}
