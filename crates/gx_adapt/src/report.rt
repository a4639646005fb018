//! What was changed in a stream.

ghost use Rattle.std.specs.Prelude.{◌≡◌, false};
ghost use Rattle.gx_model.specs.Texts.{cut_at};
ghost use Rattle.gx_model.specs.Streams.Items.{Line, Data};
ghost use Rattle.gx_adapt.specs.Lines.{is_branch_word, is_early, is_refused, has_minus};
ghost use Rattle.gx_adapt.specs.Streams.{nothing_counted};
ghost use Rattle.gx_adapt.specs.Adapting.{shown_lot, changed, counted, HasRoom};

use crate::course::is_done;
use crate::lot::{Lot, is_ident_word, is_signature_line};
use gx_text::{cut, is_ref_name};

/// How many lines were changed or left out, by what they are, and how many stay that are refused later; and how the stream
/// ended.
#[derive(Clone, Copy, Debug, PartialEq, Eq)]
pub struct Report {
    /// Identities that began with `<`, and have a space before it now, as git writes them.
    pub identities: u64,
    /// Lines `from` with forty zeros behind a `reset`, which delete a branch in git: left out.
    pub deletions: u64,
    /// Lines with a path that began with a quote and wasn't a quoted text: in quotes now.
    pub paths: u64,
    /// Lines that ask for files of marks, or for a mark's name: left out.
    pub marks: u64,
    /// Lines `feature` that only ask whether a command is known, as `feature notes`: left out. In git they do nothing.
    pub features: u64,
    /// Signatures of commits, by their lines `gpgsig`. They stay as they are, or were left out with their lines where that was
    /// asked for: then their commits, and all that come from these, have other names than in git.
    pub signatures: u64,
    /// Lines `commit` and `reset` of a name that no ref can have. git refuses it, too; they stay as they are.
    pub refused_names: u64,
    /// Notes. They stay as they are.
    pub notes: u64,
    /// Identities dated before 1970. They stay as they are.
    pub early_dates: u64,
    /// Tags whose `from` is the mark of a blob or of a tag. They stay as they are.
    pub tags_of_blobs_or_tags: u64,
    /// Whether the last line is `done`, behind all blocks. A stream whose exporter died has none.
    pub ended_with_done: bool,
}

impl Report {
    /// A report of no items.
    pub(crate) fn new() -> Report
        ensures { result ≡ nothing_counted }
    {
        Report {
            identities: 0,
            deletions: 0,
            paths: 0,
            marks: 0,
            features: 0,
            signatures: 0,
            refused_names: 0,
            notes: 0,
            early_dates: 0,
            tags_of_blobs_or_tags: 0,
            ended_with_done: false,
        }
    }

    /// Counts a line, of which this becomes, and which names a blob or a tag for a tag, or doesn't.
    pub(crate) fn add_line(&mut self, line: &[u8], lot: Lot<'_>, of_blob_or_tag: bool)
        requires room { HasRoom self.old }
        ensures added { self.new
            ≡ counted (shown_lot lot.entry) of_blob_or_tag (Line line.now) self.old }
    {
        self.add_change(lot);
        if is_signature_line(line) {
            self.signatures += 1;
        }
        if is_refused(line) {
            self.refused_names += 1;
        }
        if line.starts_with(b"N ") {
            self.notes += 1;
        }
        if is_early(line) {
            self.early_dates += 1;
        }
        if of_blob_or_tag {
            self.tags_of_blobs_or_tags += 1;
        }
        self.ended_with_done = is_done(line);
    }

    /// Counts a block, of which this becomes.
    pub(crate) fn add_block(&mut self, bytes: &[u8], lot: Lot<'_>)
        requires room { HasRoom self.old }
        ensures { self.new ≡ counted (shown_lot lot.entry) false (Data bytes.now) self.old }
    {
        self.add_change(lot);
        self.ended_with_done = false;
    }

    /// Counts what becomes of an item.
    fn add_change(&mut self, lot: Lot<'_>)
        requires room { HasRoom self.old }
        ensures { self.new ≡ changed (shown_lot lot.entry) self.old }
    {
        match lot {
            Lot::Kept | Lot::Signature | Lot::Unfinished => {}
            Lot::Deletion => self.deletions += 1,
            Lot::Marks => self.marks += 1,
            Lot::Feature => self.features += 1,
            Lot::Ident(_, _) => self.identities += 1,
            Lot::Modify(_, _, _) | Lot::Remove(_) | Lot::Move(_, _, _) => self.paths += 1,
        }
    }
}

/// Whether a line is a commit or a reset of a branch whose name no ref can have.
#[tactic(auto, unfolding(crate::specs::Lines::is_refused))]
fn is_refused(line: &[u8]) -> bool
    ensures { result ≡ is_refused line.now }
{
    match cut(line, b' ') {
        Some((word, name)) => is_branch_word(word) && !is_ref_name(name),
        None => false,
    }
}

fn is_branch_word(word: &[u8]) -> bool
    ensures { result ≡ is_branch_word word.now }
{
    word == b"commit".as_slice() || word == b"reset".as_slice()
}

/// Whether a line has an identity dated before 1970.
#[tactic(auto, unfolding(crate::specs::Lines::is_early))]
fn is_early(line: &[u8]) -> bool
    ensures { result ≡ is_early line.now }
{
    match cut(line, b' ') {
        Some((word, ident)) => is_ident_word(word) && has_minus(ident),
        None => false,
    }
}

/// Whether a minus stands before the seconds, behind an email.
fn has_minus(ident: &[u8]) -> bool
    ensures { result ≡ has_minus (cut_at 62 ident.now) }
{
    match cut(ident, b'>') {
        Some((_, date)) => date.starts_with(b" -"),
        None => false,
    }
}
