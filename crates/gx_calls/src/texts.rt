//! Calls on texts: numbers, ref names, identities and paths.

use crate::answers::{Heap, Room};
use gx_text::{Ident, TreePath, cut, decimal, is_ref_name};

/// Answers the call of this name on a text, if there is one.
pub(crate) fn answer(room: &mut Room<'_>, call: &str, text: &[u8]) -> bool {
    match call {
        "decimal" => match decimal(text) {
            Some(number) => room.told(number),
            None => room.word("nothing"),
        },
        "cut" => put_cut(room, cut(text, b' ')),
        "ref-name" => room.yes_or_no(is_ref_name(text)),
        "ident" => match Ident::read(text) {
            Ok(ident) => room.put(ident.bytes()),
            Err(fault) => room.told(fault),
        },
        "root" => put_components(room, &TreePath::root(room.heap)),
        "path" => put_path(room, text, false),
        "count" => put_path(room, text, true),
        "quoted" => put_quoted(room, text),
        "printed" => put_printed(room, text),
        _ => return false,
    }
    true
}

/// Two texts with a bar between them.
fn put_cut(room: &mut Room<'_>, texts: Option<(&[u8], &[u8])>) {
    match texts {
        Some((front, behind)) => {
            room.put(front);
            room.put(b"|");
            room.put(behind);
        }
        None => room.word("nothing"),
    }
}

/// The components of a path, or their number alone.
fn put_path(room: &mut Room<'_>, text: &[u8], is_counted: bool) {
    room.arm();
    match TreePath::read(room.heap, text) {
        Ok(path) => put_read(room, &path, text, is_counted),
        Err(fault) => room.told(fault),
    }
}

/// The same of the path that was read of a text.
fn put_read(room: &mut Room<'_>, path: &TreePath<&Heap>, text: &[u8], is_counted: bool) {
    if is_counted {
        room.told(path.len());
    } else if path.joined() == text {
        put_components(room, path);
    } else {
        room.word("another text");
    }
}

/// How many components a path has, and each of them.
fn put_components(room: &mut Room<'_>, path: &TreePath<&Heap>) {
    room.told(path.len());
    for place in 0..path.len() {
        room.put(b"|");
        room.put(path.component(place));
    }
}

/// How many bytes of a text are a quoted path, and its bytes.
fn put_quoted(room: &mut Room<'_>, text: &[u8]) {
    room.arm();
    match TreePath::read_quoted(room.heap, text) {
        Ok((path, used)) => {
            room.told(used);
            room.put(b"|");
            room.put(path.joined());
        }
        Err(fault) => room.told(fault),
    }
}

/// What a path prints.
fn put_printed(room: &mut Room<'_>, text: &[u8]) {
    if let Ok(path) = TreePath::read(room.heap, text) {
        put_behind(room, &path);
    }
}

/// What a path prints behind another byte, which alone is there where that is refused.
fn put_behind<'a>(room: &mut Room<'a>, path: &TreePath<&'a Heap>) {
    let Ok(mut out) = Vec::from_slice(room.heap, b"=") else {
        return;
    };
    room.arm();
    match path.write_quoted(&mut out) {
        Ok(()) => room.put(out.strip_prefix(b"=").unwrap_or(b"")),
        Err(fault) if out.as_slice() == b"=".as_slice() => room.told(fault),
        Err(_) => room.word("printed in part"),
    }
}
