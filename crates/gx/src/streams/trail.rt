//! Where the items of a stream's last command stand, told by its lines as they go by. Source: git-fast-import(1), "Commands".

use gx_text::{cut, decimal};
use std::alloc::{AllocError, Global};

/// So many bytes of a line are kept, but all of one that announces a block, by which its end is known.
const KEPT: usize = 200;

/// What a line begins with that announces a block.
const BLOCK: &[u8] = b"data ";

/// The lines that are a command, or begin one, as a whole.
const WHOLE: &[&str] = &["blob", "checkpoint", "done"];

/// What a line begins with that begins a command.
const FRONTS: &[&str] = &[
    "commit ",
    "tag ",
    "reset ",
    "progress ",
    "feature ",
    "option ",
];

/// What a line begins with whose identity has no name and no space before its `<`.
const NAMELESS: &[&str] = &["author <", "committer <", "tagger <"];

/// An item: the number of its line, from 1, the byte at which it begins, from 0, and where the front of the line is kept.
#[derive(Clone, Copy)]
pub(crate) struct Spot {
    pub(crate) line: u64,
    pub(crate) byte: u64,
    start: usize,
    end: usize,
}

/// Where the next byte of a stream stands.
#[derive(Clone, Copy)]
enum Place {
    /// In a line outside of blocks.
    Line,
    /// In a block, with so many bytes left, one at least.
    Counted(u64),
    /// In a block that ends behind the line that the last item announced.
    Delimited(Compared),
    /// Right behind a block, to which a line feed belongs.
    Behind,
}

/// A line of a block beside the one that ends it: where it begins, how long that one is with its line feed, and whether they are
/// the same so far.
#[derive(Clone, Copy)]
struct Compared {
    byte: u64,
    length: u64,
    is_same: bool,
}

/// The items that went by since the last command began, and those of the one before it while that may still be refused. A block
/// is an item with the line that announces it.
#[derive(Drop)]
pub(crate) struct Trail {
    place: Place,
    commands: u64,
    lines: u64,
    bytes: u64,
    /// The line that didn't end yet, if one began.
    open: Option<Spot>,
    has_ended: bool,
    items: Vec<Spot>,
    texts: Vec<u8>,
    /// So many items are of the command before the last one.
    before: usize,
    /// So many identities had no name and no space before their `<`.
    nameless: u64,
}

impl Trail {
    /// The trail of a stream of which nothing has come.
    pub(crate) fn new(alloc: Global) -> Trail {
        Trail {
            place: Place::Line,
            commands: 0,
            lines: 0,
            bytes: 0,
            open: None,
            has_ended: false,
            items: Vec::new(alloc),
            texts: Vec::new(alloc),
            before: 0,
            nameless: 0,
        }
    }

    /// Goes on over the first of these bytes, and answers how many that are: up to the end of a line, or those of a block. Behind a
    /// block it is one, so that who reads the block doesn't read the next item with it. By now the command before the last one is done.
    pub(crate) fn pass(&mut self, bytes: &[u8]) -> Result<usize, AllocError> {
        self.forget();
        let passed = self.next_part(bytes);
        match self.place {
            Place::Counted(left) => self.place = block(left.saturating_sub(passed.len() as u64)),
            Place::Delimited(line) => self.place = self.compared(line, passed),
            Place::Behind if passed == b"\n".as_slice() => self.place = Place::Line,
            Place::Behind | Place::Line => {
                self.place = Place::Line;
                self.keep(passed)?;
            }
        }
        self.move_past(passed);
        if passed.ends_with(b"\n") {
            self.end_line()?;
        }
        Ok(passed.len())
    }

    fn next_part<'a>(&self, bytes: &'a [u8]) -> &'a [u8] {
        match self.place {
            Place::Line | Place::Delimited(_) => first_line(bytes),
            Place::Counted(left) => bytes.get(..left as usize).unwrap_or(bytes),
            Place::Behind => bytes.get(..1).unwrap_or(bytes),
        }
    }

    /// Where the byte behind this part of a block's line stands.
    fn compared(&self, line: Compared, passed: &[u8]) -> Place {
        let seen = self.bytes.saturating_sub(line.byte) as usize;
        let wanted = self.delimiter().get(seen..).unwrap_or(b"");
        let mut there = wanted.iter().zip(passed);
        let is_same = line.is_same && there.all(|(wanted, byte)| *wanted == *byte);
        let end = self.bytes.saturating_add(passed.len() as u64);
        if !passed.ends_with(b"\n") {
            Place::Delimited(Compared { is_same, ..line })
        } else if is_same && end.saturating_sub(line.byte) == line.length {
            Place::Behind
        } else {
            Place::Delimited(Compared {
                byte: end,
                length: line.length,
                is_same: true,
            })
        }
    }

    /// The delimiter that the last item announced.
    fn delimiter(&self) -> &[u8] {
        match self.items.last() {
            Some(item) => self.line_of(item).get(7..).unwrap_or(b""),
            None => b"",
        }
    }

    fn move_past(&mut self, bytes: &[u8]) {
        let feeds = bytes.iter().filter(|byte| **byte == b'\n').count();
        self.lines = self.lines.saturating_add(feeds as u64);
        self.bytes = self.bytes.saturating_add(bytes.len() as u64);
    }

    /// Keeps what is to be kept of a line that begins or goes on with these bytes.
    fn keep(&mut self, bytes: &[u8]) -> Result<(), AllocError> {
        let at = self.texts.len();
        let mut open = self.open.unwrap_or(Spot {
            line: self.line(),
            byte: self.bytes,
            start: at,
            end: at,
        });
        let text = bytes.strip_suffix(b"\n").unwrap_or(bytes);
        let room = KEPT.saturating_sub(open.end.saturating_sub(open.start));
        let front = text.len().min(room);
        self.texts.extend_from_slice(&text[..front])?;
        let is_block = self
            .texts
            .get(open.start..)
            .unwrap_or(b"")
            .starts_with(BLOCK);
        if is_block {
            self.texts.extend_from_slice(&text[front..])?;
        }
        open.end = self.texts.len();
        self.open = Some(open);
        Ok(())
    }

    /// Counts a line that ended as an item, unless it is a comment. A command or a block may begin with it.
    fn end_line(&mut self) -> Result<(), AllocError> {
        let Some(item) = self.open else {
            return Ok(());
        };
        self.open = None;
        if self.text(&item).starts_with(b"#") {
            self.texts.truncate(item.start);
            return Ok(());
        }
        if is_nameless(self.text(&item)) {
            self.nameless = self.nameless.saturating_add(1);
        }
        if begins_command(self.text(&item)) {
            self.commands = self.commands.saturating_add(1);
            self.before = self.items.len();
        }
        self.place = self.place_behind(&item);
        self.items.push(item)?;
        Ok(())
    }

    /// Where the byte behind an item's line stands: in the block that the line announces, if it does.
    fn place_behind(&self, item: &Spot) -> Place {
        let Some(size) = self.line_of(item).strip_prefix(BLOCK) else {
            return Place::Line;
        };
        if size.starts_with(b"<<") {
            return Place::Delimited(Compared {
                byte: self.bytes,
                length: self.bytes.saturating_sub(item.byte).saturating_sub(7),
                is_same: true,
            });
        }
        match decimal(size) {
            Some(left) => block(left),
            None => Place::Line,
        }
    }

    /// Forgets the command before the last one.
    fn forget(&mut self) {
        let gone = self.before;
        let Some(first) = self.items.get(gone) else {
            return;
        };
        let start = first.start;
        if gone == 0 || start > self.texts.len() {
            return;
        }
        self.before = 0;
        self.texts.copy_within(start.., 0);
        self.texts.truncate(self.texts.len() - start);
        self.items.copy_within(gone.., 0);
        self.items.truncate(self.items.len() - gone);
        for item in self.items.iter_mut() {
            item.start = item.start.saturating_sub(start);
            item.end = item.end.saturating_sub(start);
        }
    }

    /// The stream ended. Its last line may have no line feed.
    pub(crate) fn end(&mut self) -> Result<(), AllocError> {
        self.has_ended = self.open.is_none() && matches!(self.place, Place::Line);
        self.end_line()
    }

    /// Whether the stream's end came, and nothing was left then.
    pub(crate) fn has_ended(&self) -> bool {
        self.has_ended
    }

    /// The number of the line in which the next byte stands, from 1.
    pub(crate) fn line(&self) -> u64 {
        self.lines.saturating_add(1)
    }

    /// How many bytes went by.
    pub(crate) fn byte(&self) -> u64 {
        self.bytes
    }

    /// How many identities had no name and no space before their `<`, where git writes one.
    pub(crate) fn nameless(&self) -> u64 {
        self.nameless
    }

    /// The item that came last.
    pub(crate) fn last(&self) -> Option<&Spot> {
        self.items.last()
    }

    /// The items of the command with this number, from 1; none where they aren't kept.
    pub(crate) fn items_of(&self, command: u64) -> &[Spot] {
        let before = self.before.min(self.items.len());
        if command == self.commands {
            &self.items[before..]
        } else if command.saturating_add(1) == self.commands {
            &self.items[..before]
        } else {
            &[]
        }
    }

    /// The front of an item's line.
    pub(crate) fn text(&self, item: &Spot) -> &[u8] {
        let line = self.line_of(item);
        line.get(..KEPT).unwrap_or(line)
    }

    /// What is kept of an item's line.
    fn line_of(&self, item: &Spot) -> &[u8] {
        self.texts.get(item.start..item.end).unwrap_or(b"")
    }
}

/// Where the next byte stands in a block with so many bytes left.
fn block(left: u64) -> Place {
    if left == 0 {
        Place::Behind
    } else {
        Place::Counted(left)
    }
}

/// The first line with its line feed, as far as it is there.
fn first_line(bytes: &[u8]) -> &[u8] {
    match cut(bytes, b'\n') {
        Some((line, _)) => bytes.get(..line.len().saturating_add(1)).unwrap_or(bytes),
        None => bytes,
    }
}

/// Whether a line has an identity that begins with its `<`.
fn is_nameless(line: &[u8]) -> bool {
    NAMELESS
        .iter()
        .any(|front| line.starts_with(front.as_bytes()))
}

fn begins_command(line: &[u8]) -> bool {
    WHOLE.iter().any(|word| word.as_bytes() == line)
        || FRONTS
            .iter()
            .any(|front| line.starts_with(front.as_bytes()))
}
