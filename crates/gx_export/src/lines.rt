//! The lines of a commit's files, which are gathered before they go out. Those of a directory that stays are taken over
//! from the commit before.

ghost use Rattle.std.specs.List.{slice_range};
ghost use Rattle.std.specs.Prelude.{◌≡◌, ◌≤◌, ◌+◌, ◌-◌, ◌++◌, [], true, drop, length, List, None, Some, IfOk, OnOk};
ghost use Rattle.gx_model.specs.declared.objects.Kind.{Kind};
ghost use Rattle.gx_model.specs.declared.objects.Mode.TheVariants.{Gitlink};
ghost use Rattle.gx_model.specs.Export.{mark_text, mode_digits};
ghost use Rattle.gx_model.specs.Histories.Values.{Value};
ghost use Rattle.gx_model.specs.Histories.{Records};
ghost use Rattle.gx_model.specs.Objects.{hex};
ghost use Rattle.gx_model.specs.Texts.{Bytes};
ghost use Rattle.gx_export.specs.FileTexts.{AppendsLine, AreKept, IsAlwaysKept, IsLineIn, IsLinesOfTree, StaysKept, TakesLine, TakesOver};
ghost use Rattle.gx_export.specs.Texts.{line_end, parts_text};

use crate::file_lines::{FileLine, Opened, earlier_line};
use gx_object::{Entry, Mode, Name};
use gx_text::TreePath;
use itoa::Buffer;
use std::alloc::{AllocError, Allocator};
use std::mem::{replace, swap};

/// A directory whose lines stand from a place to another one of a text, with those of its own files. Before all do, no tree
/// is known.
#[derive(Drop)]
pub(crate) struct Directory<'a, A: Allocator> {
    path: Vec<u8, A>,
    tree: Option<Name>,
    pub(crate) start: usize,
    pub(crate) end: usize,
    pub(crate) files: Vec<FileLine<'a>, A>,
}

/// The lines of the files of one commit, and those of the commit before, each with its directories in the order in which
/// trees lead to them. Of the latter the first `next` were passed.
#[derive(Drop)]
pub(crate) struct Lines<'a, A: Allocator> {
    pub(crate) text: Vec<u8, A>,
    directories: Vec<Directory<'a, A>, A>,
    earlier: Vec<u8, A>,
    left: Vec<Directory<'a, A>, A>,
    next: usize,
    alloc: A,
}

impl<'a, A: Allocator + Copy> Lines<'a, A> {
    /// No lines. Takes no memory.
    pub(crate) fn new(alloc: A) -> Lines<'a, A>
        ensures { IsAlwaysKept result }
    {
        Lines {
            text: Vec::new(alloc),
            directories: Vec::new(alloc),
            earlier: Vec::new(alloc),
            left: Vec::new(alloc),
            next: 0,
            alloc,
        }
    }

    /// Begins the lines of the next commit.
    pub(crate) fn begin(&mut self)
        ensures text { self.new.text.items ≡ [] }
        ensures kept { StaysKept self.old self.new }
    {
        swap(&mut self.text, &mut self.earlier);
        swap(&mut self.directories, &mut self.left);
        self.text.clear();
        self.directories.clear();
        self.next = 0;
    }

    /// Appends the lines that the directory at a path had in the commit before, where its tree is the same. What stands
    /// below it is known then, too.
    pub(crate) fn take_over(&mut self, path: &[u8], tree: &Name) -> Result<bool, AllocError>
        ensures { (name : Kind → Bytes → Bytes) (repository : Records) (ws : List Value)
            → AreKept name repository ws self.old
            → IfOk result (TakesOver name repository ws path.now tree.now.bytes self.old self.new) }
    {
        self.pass(path);
        if self.next >= self.left.len() {
            return Ok(false);
        }
        if is_of(&self.left[self.next], path, tree) {
            let start = self.left[self.next].start;
            let end = self.left[self.next].end;
            if start <= end && end <= self.earlier.len() {
                let place = self.text.len();
                self.text.extend_from_slice(&self.earlier[start..end])?;
                self.carry(start, end, place)?;
                return Ok(true);
            }
        }
        Ok(false)
    }

    /// Passes the directories of the commit before that stand before a path.
    fn pass(&mut self, path: &[u8])
        ensures { self.new ≡ record self.old { next = self.new.next } }
    {
        while self.next < self.left.len() && comes_before(&self.left[self.next].path, path) {
            self.next += 1;
        }
    }

    /// Passes the next directory of the commit before, where it has this path.
    fn pass_one(&mut self, path: &[u8])
        ensures { self.new ≡ record self.old { next = self.new.next } }
    {
        if self.next < self.left.len() && has_path(&self.left[self.next], path) {
            self.next += 1;
        }
    }

    /// Moves the directories whose lines stood between two places of the old text to the new one, where these lines stand
    /// from a place on.
    fn carry(&mut self, start: usize, end: usize, place: usize) -> Result<(), AllocError>
        requires order { start ≤ end }
        requires room { place + (end - start) ≤ length self.old.text.items }
        ensures text { self.new.text ≡ self.old.text }
        ensures kept { (name : Kind → Bytes → Bytes) (repository : Records) (ws : List Value)
            (before : Bytes)
            → self.old.text.items ≡ before ++ slice_range self.old.earlier.items start end
            → length before ≡ place
            → AreKept name repository ws self.old
            → OnOk result (AreKept name repository ws self.new) }
    {
        while self.next < self.left.len() && stands_within(&self.left[self.next], start, end) {
            let empty = Directory {
                path: Vec::new(self.alloc),
                tree: None,
                start: 0,
                end: 0,
                files: Vec::new(self.alloc),
            };
            let moved = replace(&mut self.left[self.next], empty);
            let directory = Directory {
                path: moved.path,
                tree: moved.tree,
                start: place + (moved.start - start),
                end: place + (moved.end - start),
                files: moved.files,
            };
            self.directories.push(directory)?;
            self.next += 1;
        }
        Ok(())
    }

    /// Enters the directory at a path.
    pub(crate) fn open(&mut self, path: &[u8]) -> Result<Opened, AllocError>
        ensures text { self.new.text ≡ self.old.text }
        ensures kept { OnOk result (StaysKept self.old self.new) }
    {
        let before = self.next;
        self.pass_one(path);
        let number = self.directories.len();
        let path = Vec::from_slice(self.alloc, path)?;
        let start = self.text.len();
        let directory = Directory {
            path,
            tree: None,
            start,
            end: start,
            files: Vec::new(self.alloc),
        };
        self.directories.push(directory)?;
        Ok(Opened {
            number,
            before,
            passed: 0,
        })
    }

    /// Appends the line that a file of an entered directory had in the commit before, where its entry is the same.
    pub(crate) fn take_line(
        &mut self,
        opened: &mut Opened,
        path: &[u8],
        entry: &Entry<'a>,
    ) -> Result<bool, AllocError>
        ensures { (name : Kind → Bytes → Bytes) (repository : Records) (ws : List Value)
            → AreKept name repository ws self.old
            → IfOk result (TakesLine name repository ws path.now entry.now self.old self.new) }
    {
        let Some(line) = earlier_line(&self.earlier, &self.left, opened, path, entry) else {
            return Ok(false);
        };
        let start = self.text.len();
        self.text.extend_from_slice(line)?;
        self.keep(opened, path, entry, start)?;
        Ok(true)
    }

    /// The line of a file of an entered directory is what stands from a place on.
    pub(crate) fn keep(
        &mut self,
        opened: &Opened,
        path: &[u8],
        entry: &Entry<'a>,
        start: usize,
    ) -> Result<(), AllocError>
        ensures text { self.new.text ≡ self.old.text }
        ensures kept { (name : Kind → Bytes → Bytes) (repository : Records) (ws : List Value)
            → AreKept name repository ws self.old
            → start ≤ length self.old.text.items
            → IsLineIn repository ws path.now entry.now (drop start self.old.text.items)
            → OnOk result (AreKept name repository ws self.new) }
    {
        let end = self.text.len();
        if opened.number >= self.directories.len() {
            return Ok(());
        }
        if start <= end && is_open(&self.directories[opened.number], path, start) {
            let directory = &mut self.directories[opened.number];
            let line = FileLine {
                entry: *entry,
                start: start - directory.start,
                end: end - directory.start,
            };
            directory.files.push(line)?;
            directory.end = end;
        }
        Ok(())
    }

    /// All lines of an entered directory were gathered, which is the one of a tree.
    pub(crate) fn close(&mut self, opened: &Opened, path: &[u8], tree: &Name, start: usize)
        ensures text { self.new.text ≡ self.old.text }
        ensures kept { (name : Kind → Bytes → Bytes) (repository : Records) (ws : List Value)
            → AreKept name repository ws self.old
            → start ≤ length self.old.text.items
            → IsLinesOfTree name repository ws path.now tree.now.bytes (drop start
            self.old.text.items)
            → AreKept name repository ws self.new }
    {
        if opened.number >= self.directories.len() {
            return;
        }
        if begins_at(&self.directories[opened.number], path, start) {
            let end = self.text.len();
            let directory = &mut self.directories[opened.number];
            directory.tree = Some(*tree);
            directory.end = end;
        }
    }

    /// Appends the line of a file whose bytes have a mark.
    pub(crate) fn add_file(
        &mut self,
        mode: Mode,
        mark: u64,
        path: &TreePath<A>,
    ) -> Result<(), AllocError>
        ensures text { OnOk result (AppendsLine self.old self.new mode (mark_text mark) path.now) }
        ensures kept { OnOk result (StaysKept self.old self.new) }
    {
        let digits = mode_digits(mode);
        let mut number = Buffer::new();
        append_all(
            &mut self.text,
            &[
                b"M ".as_slice(),
                digits.as_slice(),
                b" :",
                number.format(mark).as_bytes(),
                b" ",
            ],
        )?;
        end_line(&mut self.text, path)
    }

    /// Appends the line of a gitlink.
    pub(crate) fn add_gitlink(&mut self, name: &Name, path: &TreePath<A>) -> Result<(), AllocError>
        ensures text { OnOk result (AppendsLine self.old self.new Gitlink (hex name.now.bytes)
            path.now) }
        ensures kept { OnOk result (StaysKept self.old self.new) }
    {
        let digits = name.hex();
        append_all(
            &mut self.text,
            &[b"M 160000 ".as_slice(), digits.as_slice(), b" "],
        )?;
        end_line(&mut self.text, path)
    }
}

/// Whether a directory has this path and this tree.
fn is_of<A: Allocator>(directory: &Directory<'_, A>, path: &[u8], tree: &Name) -> bool
    ensures path { result ≡ true → directory.now.path.items ≡ path.now }
    ensures tree { result ≡ true → directory.now.tree ≡ Some tree.now }
{
    match directory.tree {
        Some(known) => known == *tree && directory.path.as_slice() == path,
        None => false,
    }
}

/// Whether a directory has this path.
pub(crate) fn has_path<A: Allocator>(directory: &Directory<'_, A>, path: &[u8]) -> bool
    ensures { result ≡ true → directory.now.path.items ≡ path.now }
{
    directory.path.as_slice() == path
}

/// Whether a directory with this path has lines from this place on.
fn begins_at<A: Allocator>(directory: &Directory<'_, A>, path: &[u8], start: usize) -> bool
    ensures path { result ≡ true → directory.now.path.items ≡ path.now }
    ensures start { result ≡ true → directory.now.start ≡ start }
{
    directory.start == start && has_path(directory, path)
}

/// Whether a directory with this path has lines from this place or from one before it on, and its tree isn't known yet.
fn is_open<A: Allocator>(directory: &Directory<'_, A>, path: &[u8], start: usize) -> bool
    ensures path { result ≡ true → directory.now.path.items ≡ path.now }
    ensures start { result ≡ true → directory.now.start ≤ start }
    ensures tree { result ≡ true → directory.now.tree ≡ None }
{
    match directory.tree {
        Some(_) => false,
        None => directory.start <= start && has_path(directory, path),
    }
}

/// Whether a directory's lines stand between two places.
fn stands_within<A: Allocator>(directory: &Directory<'_, A>, start: usize, end: usize) -> bool
    ensures start { result ≡ true → start ≤ directory.now.start }
    ensures order { result ≡ true → directory.now.start ≤ directory.now.end }
    ensures end { result ≡ true → directory.now.end ≤ end }
{
    start <= directory.start && directory.start <= directory.end && directory.end <= end
}

/// Whether a directory's path comes before another one, where a slash follows both.
fn comes_before(path: &[u8], other: &[u8]) -> bool {
    let shared = path.len().min(other.len());
    if path[..shared] != other[..shared] {
        return path[..shared] < other[..shared];
    }
    if path.len() < other.len() {
        return path.len() == 0 || b'/' <= other[shared];
    }
    path.len() > other.len() && path[shared] < b'/'
}

/// Appends a path, as it is printed, and the end of its line.
pub fn end_line<A: Allocator + Copy>(
    text: &mut Vec<u8, A>,
    path: &TreePath<A>,
) -> Result<(), AllocError>
    ensures { OnOk result (text.new.items ≡ text.old.items ++ line_end path.now) }
{
    let Ok(()) = path.write_quoted(text) else {
        return Err(AllocError);
    };
    text.push(b'\n')?;
    Ok(())
}

/// Appends the bytes of all parts.
pub fn append_all<A: Allocator + Copy>(
    text: &mut Vec<u8, A>,
    parts: &[&[u8]],
) -> Result<(), AllocError>
    ensures { OnOk result (text.new.items ≡ text.old.items ++ parts_text parts.now) }
{
    for part in parts {
        text.extend_from_slice(part)?;
    }
    Ok(())
}

/// The six digits of a mode.
pub fn mode_digits(mode: Mode) -> [u8; 6]
    ensures { result ≡ mode_digits mode }
{
    match mode {
        Mode::File => *b"100644",
        Mode::Exec => *b"100755",
        Mode::Link => *b"120000",
        Mode::Gitlink => *b"160000",
        Mode::Dir => *b"040000",
    }
}
