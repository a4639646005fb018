//! Calls on the files of a branch: edits, trees that are written and loaded.
//!
//! A file is its path, a `:`, the letter of its mode (`f`, `x`, `l` or `g`), and the byte that its
//! name has twenty times, or the name's digits. The root is `.`.

ghost use Rattle.std.specs.Prelude.{◌≢◌};
ghost use Rattle.gx_model.specs.declared.objects.Mode.TheVariants as modes;

use crate::answers::{Heap, Room, first_word, number_of, parts_of};
use gx_object::{Kind, Mode, Name, Namer, Sha1Namer};
use gx_rev::put_entry_head;
use gx_store::Store;
use gx_text::{TreePath, cut};
use gx_tree::{Found, PathTree};
use std::mem::swap;

/// The files of a branch, a duplicate of them or others that were loaded, and the store into which
/// trees are written.
#[derive(Drop)]
pub(crate) struct Branch<'a, N: Namer> {
    pub(crate) tree: PathTree<&'a Heap>,
    pub(crate) other: PathTree<&'a Heap>,
    pub(crate) store: Store<N, &'a Heap>,
}

/// The path of a text.
pub(crate) fn path_of<'a>(heap: &'a Heap, text: &[u8]) -> TreePath<&'a Heap> {
    let text = if text == b".".as_slice() { b"" } else { text };
    match TreePath::read(heap, text) {
        Ok(path) => path,
        Err(_) => TreePath::root(heap),
    }
}

/// The path of a file, its mode and its name.
fn file_of(file: &[u8]) -> (&[u8], Mode, Name)
    ensures { result.1 ≢ modes.Dir }
{
    let (path, leaf) = cut(file, b':').unwrap_or((file, b""));
    let (letter, digits) = leaf.split_first().unwrap_or((&b'f', b"0"));
    let mode = match *letter {
        b'f' => Mode::File,
        b'x' => Mode::Exec,
        b'l' => Mode::Link,
        _ => Mode::Gitlink,
    };
    let byte = *digits.first().unwrap_or(&b'0');
    (
        path,
        mode,
        Name::read(digits).unwrap_or(Name { bytes: [byte; 20] }),
    )
}

/// A file's letter and name, as `file_of` reads them.
fn put_leaf(room: &mut Room<'_>, mode: Mode, name: &Name) {
    room.put(match mode {
        Mode::File => b"f",
        Mode::Exec => b"x",
        Mode::Link => b"l",
        Mode::Gitlink | Mode::Dir => b"g",
    });
    let byte = name.bytes[0];
    if name.bytes == [byte; 20] {
        room.put(&[byte]);
    } else {
        room.digits(name);
    }
}

/// Answers the call of this name on a branch, if there is one.
pub(crate) fn answer<'a, N: Namer>(
    room: &mut Room<'a>,
    branch: &mut Branch<'a, N>,
    call: &str,
    text: &[u8],
) -> bool {
    match call {
        "fill" => fill(room, &mut branch.tree, text),
        "double" => double(room, &mut branch.tree, number_of(text)),
        "clear" => {
            branch.tree.clear();
            room.word("done");
        }
        "swap" => {
            swap(&mut branch.tree, &mut branch.other);
            room.word("done");
        }
        "duplicate" => duplicate(room, branch),
        "write" => {
            room.arm();
            room.named(branch.tree.write(&mut branch.store));
        }
        "twice" => write_twice(room, &mut branch.tree, &mut branch.store),
        "again" => write_again_at(room, branch, text),
        "load" => load(room, branch),
        "list" => put_files(room, &branch.tree),
        "other" => put_files(room, &branch.other),
        "ls-tree" => put_listing(room, &branch.tree),
        "at" => put_standing(room, &branch.tree, text),
        _ => return is_edited(room, &mut branch.tree, call, text),
    }
    true
}

/// Does the edit of this name, if there is one.
fn is_edited<'a>(
    room: &mut Room<'a>,
    tree: &mut PathTree<&'a Heap>,
    call: &str,
    text: &[u8],
) -> bool {
    let (first, second) = first_word(text);
    let (path, mode, name) = file_of(first);
    let source = path_of(room.heap, path);
    let destination = path_of(room.heap, second);
    edit(room, tree, call, &source, mode, name, &destination)
}

/// The same of a file or a directory, and another path.
fn edit<'a>(
    room: &mut Room<'a>,
    tree: &mut PathTree<&'a Heap>,
    call: &str,
    source: &TreePath<&'a Heap>,
    mode: Mode,
    name: Name,
    destination: &TreePath<&'a Heap>,
) -> bool
    requires { mode ≢ modes.Dir }
{
    room.arm();
    let answer = match call {
        "modify" => tree.modify(source, mode, name),
        "remove" => tree.remove(source),
        "copy" => tree.copy(source, destination),
        "rename" => tree.rename(source, destination),
        _ => {
            room.heap.arm(0);
            return false;
        }
    };
    room.done(answer);
    true
}

/// Puts a duplicate of the tree in the place of the other one.
fn duplicate<'a, N: Namer>(room: &mut Room<'a>, branch: &mut Branch<'a, N>) {
    room.arm();
    match branch.tree.duplicate() {
        Ok(tree) => {
            branch.other = tree;
            room.word("done");
        }
        Err(fault) => room.told(fault),
    }
}

/// Gives a tree these files in place of its own.
fn fill<'a>(room: &mut Room<'a>, tree: &mut PathTree<&'a Heap>, files: &[u8]) {
    tree.clear();
    for file in &parts_of(room.alloc, files, b' ') {
        put_file(room, tree, file);
    }
    room.word("done");
}

/// Gives a tree a file more.
fn put_file<'a>(room: &mut Room<'a>, tree: &mut PathTree<&'a Heap>, file: &[u8]) {
    let (path, mode, name) = file_of(file);
    if let Err(fault) = tree.modify(&path_of(room.heap, path), mode, name) {
        room.told(fault);
    }
}

/// Puts two copies of the directory `a` in its place, which then has twice as many files, so many
/// times. Answers whether all of that was done.
fn double<'a>(room: &mut Room<'a>, tree: &mut PathTree<&'a Heap>, times: usize) {
    for _ in 0..times {
        is_edited(room, tree, "copy", b"a b/x");
        is_edited(room, tree, "copy", b"a b/y");
        is_edited(room, tree, "rename", b"b a");
    }
    let len = room.answer.len();
    room.answer.clear();
    room.yes_or_no(len / 12 == times);
}

/// The number and the files of a tree.
fn put_files(room: &mut Room<'_>, tree: &PathTree<&Heap>) {
    room.arm();
    match tree.list() {
        Ok(files) => put_each(room, &files),
        Err(fault) => room.told(fault),
    }
}

fn put_each(room: &mut Room<'_>, files: &[(TreePath<&Heap>, Mode, Name)]) {
    room.told(files.len());
    for (path, mode, name) in files {
        room.put(b" ");
        room.put(path.joined());
        room.put(b":");
        put_leaf(room, *mode, name);
    }
}

/// How many files a tree has, and the name of the blob of what `git ls-tree -r` prints of it.
fn put_listing(room: &mut Room<'_>, tree: &PathTree<&Heap>) {
    if let Ok(files) = tree.list() {
        let mut text = Vec::new(room.alloc);
        put_lines(&mut text, &files);
        room.told(files.len());
        room.put(b" ");
        room.digits(&Sha1Namer.name(Kind::Blob, &text));
    }
}

fn put_lines(text: &mut Vec<u8>, files: &[(TreePath<&Heap>, Mode, Name)]) {
    for (path, mode, name) in files {
        let _ = put_entry_head(text, *mode, name);
        let _ = text.extend_from_slice(path.joined());
        let _ = text.push(b'\n');
    }
}

/// What stands at a path.
fn put_standing<'a>(room: &mut Room<'a>, tree: &PathTree<&'a Heap>, text: &[u8]) {
    match tree.entry(&path_of(room.heap, text)) {
        None => room.word("nothing"),
        Some(Found::Directory) => room.word("directory"),
        Some(Found::File(mode, name)) => put_leaf(room, mode, &name),
    }
}

/// Writes a tree, and once more by the names that it remembers.
fn write_twice<'a, N: Namer>(
    room: &mut Room<'a>,
    tree: &mut PathTree<&'a Heap>,
    store: &mut Store<N, &'a Heap>,
) {
    let Ok(_) = tree.write(store) else {
        return;
    };
    room.arm();
    room.named(tree.write_shared(store));
}

/// Writes a tree, puts a file of sixes at a path, and writes it once more by the names that it
/// remembers.
fn write_again_at<'a, N: Namer>(room: &mut Room<'a>, branch: &mut Branch<'a, N>, path: &[u8]) {
    let path = path_of(room.heap, path);
    write_again(room, &mut branch.tree, &mut branch.store, &path);
}

fn write_again<'a, N: Namer>(
    room: &mut Room<'a>,
    tree: &mut PathTree<&'a Heap>,
    store: &mut Store<N, &'a Heap>,
    path: &TreePath<&'a Heap>,
) {
    let Ok(_) = tree.write(store) else {
        return;
    };
    let Ok(()) = tree.modify(path, Mode::File, Name { bytes: [b'6'; 20] }) else {
        return;
    };
    room.arm();
    room.named(tree.write_shared(store));
}

/// Writes a tree, and loads it in the place of the other one.
fn load<'a, N: Namer>(room: &mut Room<'a>, branch: &mut Branch<'a, N>) {
    let Ok(name) = branch.tree.write(&mut branch.store) else {
        return room.word("not written");
    };
    room.arm();
    match PathTree::load(room.heap, &branch.store, &name) {
        Ok(tree) => {
            branch.other = tree;
            room.word("done");
        }
        Err(fault) => room.told(fault),
    }
}
