//! Calls on a store: what is put, found, refused and cut off.

use crate::answers::{Heap, Room, first_word, kind_of, number_of};
use gx_object::{Kind, Name, Namer};
use gx_store::{Body, Prefix, Store, Text, TextRange};
use std::alloc::AllocError;

/// Answers the call of this name on a store, if there is one.
pub(crate) fn answer<'a, N: Namer>(
    room: &mut Room<'a>,
    store: &mut Store<N, &'a Heap>,
    call: &str,
    text: &[u8],
) -> bool {
    let (first, rest) = first_word(text);
    match call {
        "put" => {
            room.arm();
            room.named(store.put(kind_of(first), rest));
        }
        "give" => give(room, store, kind_of(first), rest),
        "share" => share(room, store, kind_of(first), rest),
        "cut-store" => {
            store.truncate(number_of(text));
            room.word("done");
        }
        "numbers" => room.yes_or_no(puts_each(store, number_of(first), number_of(rest))),
        "keep-second-of-three" => keep_second(room, store),
        _ => return is_asked(room, store, call, text),
    }
    true
}

/// Answers the question of this name, if there is one.
fn is_asked<N: Namer>(
    room: &mut Room<'_>,
    store: &Store<N, &Heap>,
    call: &str,
    text: &[u8],
) -> bool {
    let (first, rest) = first_word(text);
    match call {
        "stored" => put_stored(room, store),
        "store-len" => room.told(store.len()),
        "last" => {
            room.told(store.len());
            room.put(if store.len() == 0 { b"" } else { b" " });
            put_record(room, store, store.len().saturating_sub(1));
        }
        "get" => put_body_of(room, store, text),
        "begin" => match store.by_prefix(text) {
            Prefix::Unique(name) => room.digits(&name),
            Prefix::Absent => room.word("nothing"),
            Prefix::Ambiguous => room.word("ambiguous"),
        },
        "found" => room.yes_or_no(finds_each(store, number_of(text))),
        "missed" => room.yes_or_no(misses_each(store, number_of(first), number_of(rest))),
        _ => return false,
    }
    true
}

/// Puts bytes that are given to the store.
fn give<'a, N: Namer>(
    room: &mut Room<'a>,
    store: &mut Store<N, &'a Heap>,
    kind: Kind,
    body: &[u8],
) {
    if let Ok(bytes) = Vec::from_slice(room.heap, body) {
        room.arm();
        room.named(store.put_body(kind, Body::Own(bytes)));
    }
}

/// Puts bytes of a text, whose last owner the store is.
fn share<'a, N: Namer>(
    room: &mut Room<'a>,
    store: &mut Store<N, &'a Heap>,
    kind: Kind,
    text: &[u8],
) {
    if let Ok(Some(range)) = range_of(room.heap, text) {
        room.arm();
        room.named(store.put_body(kind, Body::Within(range)));
    }
}

/// The bytes of a text from one place up to another; none where it ends before. The places stand
/// before the text.
pub(crate) fn range_of<'a>(
    heap: &'a Heap,
    text: &[u8],
) -> Result<Option<TextRange<&'a Heap>>, AllocError> {
    let (start, rest) = first_word(text);
    let (end, bytes) = first_word(rest);
    let (start, end) = (number_of(start), number_of(end));
    let text = Text::new(heap, Vec::from_slice(heap, bytes)?)?;
    if start <= end && end <= text.as_slice().len() {
        Ok(Some(TextRange::new(&text, start, end)?))
    } else {
        Ok(None)
    }
}

/// Each object in its order, and how many there are.
fn put_stored<N: Namer>(room: &mut Room<'_>, store: &Store<N, &Heap>) {
    for place in 0..store.len() {
        put_record(room, store, place);
        room.put(b"\n");
    }
    room.told(store.len());
    if store.record(store.len()).is_some() {
        room.word("another record");
    }
}

/// The name, the kind and the bytes of the object at a place, which is looked up by its name, too.
fn put_record<N: Namer>(room: &mut Room<'_>, store: &Store<N, &Heap>, place: usize) {
    let Some((name, kind, body)) = store.record(place) else {
        return;
    };
    if store.place(&name) != Some(place) || store.get(&name) != Some((kind, body)) {
        return room.word("another place");
    }
    room.put(if kind == Kind::Tree {
        b"tree "
    } else {
        b"blob "
    });
    room.digits(&name);
    if !body.is_empty() {
        room.put(b" ");
        room.put(body);
    }
}

/// The bytes of the object with this name.
fn put_body_of<N: Namer>(room: &mut Room<'_>, store: &Store<N, &Heap>, digits: &[u8]) {
    let Some(name) = Name::read(digits) else {
        return;
    };
    match store.get(&name) {
        Some((_, body)) => room.put(body),
        None if store.place(&name).is_none() => room.word("nothing"),
        None => room.word("a place"),
    }
}

/// Puts a blob of eight bytes for each number from one up to another. Answers whether each is put.
fn puts_each<N: Namer>(store: &mut Store<N, &Heap>, from: usize, to: usize) -> bool {
    for number in from..to {
        if store.put(Kind::Blob, &number.to_be_bytes()).is_err() {
            return false;
        }
    }
    true
}

/// Whether no blob with a number from one up to another is found.
fn misses_each<N: Namer>(store: &Store<N, &Heap>, from: usize, to: usize) -> bool {
    for number in from..to {
        let name = store.name(Kind::Blob, &number.to_be_bytes());
        if store.by_prefix(&name.hex()) != Prefix::Absent {
            return false;
        }
    }
    true
}

/// Whether each object is found by all its digits, and by so many of them as when all objects are
/// gone through.
fn finds_each<N: Namer>(store: &Store<N, &Heap>, digits: usize) -> bool {
    for place in 0..store.len() {
        let Some((name, _, _)) = store.record(place) else {
            return false;
        };
        let text = name.hex();
        let front = &text[..digits.min(40)];
        if store.by_prefix(&text) != Prefix::Unique(name)
            || store.by_prefix(front) != begun_of_all(store, front)
        {
            return false;
        }
    }
    store.by_prefix(b"") == begun_of_all(store, b"")
}

/// What digits begin among all objects, one after the other.
fn begun_of_all<N: Namer>(store: &Store<N, &Heap>, digits: &[u8]) -> Prefix {
    let mut found = Prefix::Absent;
    for place in 0..store.len() {
        if let Some((name, _, _)) = store.record(place) {
            if name.hex().starts_with(digits) {
                match found {
                    Prefix::Absent => found = Prefix::Unique(name),
                    _ => return Prefix::Ambiguous,
                }
            }
        }
    }
    found
}

/// Keeps the second object of each three, and answers how many these are.
fn keep_second<N: Namer>(room: &mut Room<'_>, store: &mut Store<N, &Heap>) {
    let mut marks = Vec::new(room.alloc);
    for place in 0..store.len() {
        let _ = marks.push(place % 3 == 1);
    }
    store.retain(&marks);
    room.told(store.len());
}
