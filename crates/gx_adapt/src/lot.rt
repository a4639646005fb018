//! What becomes of an item.

ghost use Rattle.std.specs.Prelude.{◌≡◌, ◌&&◌, codes};
ghost use Rattle.gx_model.specs.Texts.{cut_at};
ghost use Rattle.gx_stream.specs.Reading.{item_of};
ghost use Rattle.gx_adapt.specs.Lines.{is_reset_line, is_signature_line, behind_line, is_reset, is_signature, is_null_from, is_of_marks, is_feature, is_ident_word, is_move_word, ident_lot, path_lot, dataref_lot, modify_lot, move_lot, word_lot, lot_of, block_lot};
ghost use Rattle.gx_adapt.specs.Streams.{behind_of, line_lot, lot_in};
ghost use Rattle.gx_adapt.specs.Adapting.{shown_lot};

use crate::course::{Course, is_done};
use crate::path::{is_open, source_of};
use gx_stream::Item;
use gx_text::cut;

/// What an item stands directly behind.
#[derive(Clone, Copy)]
pub(crate) enum Behind {
    Reset,
    /// The line of a signature, whose block comes next.
    Signature,
    Other,
}

/// What becomes of an item: it stays, or is left out, or is written anew.
#[derive(Clone, Copy)]
pub(crate) enum Lot<'a> {
    Kept,
    /// Left out: it deletes a branch.
    Deletion,
    /// Left out: it asks for files of marks, or for a mark's name.
    Marks,
    /// Left out: it asks whether a command is known.
    Feature,
    /// Left out: it is the line of a signature, or the signature.
    Signature,
    /// Left out: it is `done`, behind a line that is lost.
    Unfinished,
    /// A word, and an identity that begins with `<`.
    Ident(&'a [u8], &'a [u8]),
    /// A mode, a dataref, and a path that needs quotes.
    Modify(&'a [u8], &'a [u8], &'a [u8]),
    /// A path that needs quotes.
    Remove(&'a [u8]),
    /// A word, a source and a destination, of which one needs quotes.
    Move(&'a [u8], &'a [u8], &'a [u8]),
}

/// What becomes of an item, by whether signatures are dropped, and by how far its stream is.
pub(crate) fn lot_in(drops: bool, course: Course, item: Item<'_>) -> Lot<'_>
    ensures { shown_lot result ≡ lot_in drops course (item_of item.entry) }
{
    match item {
        Item::Line(line) => line_lot(drops, course, line),
        Item::Data(_) => block_lot(drops, course.behind),
    }
}

/// What becomes of a line.
fn line_lot(drops: bool, course: Course, line: &[u8]) -> Lot<'_>
    ensures { shown_lot result ≡ line_lot drops course line.now }
{
    if course.lost && is_done(line) {
        Lot::Unfinished
    } else {
        lot_of(drops, course.behind, line)
    }
}

/// What the item behind one stands behind.
pub(crate) fn behind_of(item: Item<'_>) -> Behind
    ensures { result ≡ behind_of (item_of item.entry) }
{
    match item {
        Item::Line(line) => behind_line(line),
        Item::Data(_) => Behind::Other,
    }
}

fn behind_line(line: &[u8]) -> Behind
    ensures { result ≡ behind_line line.now }
{
    if is_reset_line(line) {
        Behind::Reset
    } else if is_signature_line(line) {
        Behind::Signature
    } else {
        Behind::Other
    }
}

/// What becomes of a block.
fn block_lot<'a>(drops: bool, behind: Behind) -> Lot<'a>
    ensures { shown_lot result ≡ block_lot drops behind }
{
    if drops && is_signature(behind) {
        Lot::Signature
    } else {
        Lot::Kept
    }
}

/// What becomes of a line of a stream that nothing is lost of.
#[tactic(auto, unfolding(crate::specs::Lines::lot_of))]
fn lot_of(drops: bool, behind: Behind, line: &[u8]) -> Lot<'_>
    ensures { shown_lot result ≡ lot_of drops behind line.now }
{
    if is_of_marks(line) {
        return Lot::Marks;
    }
    if is_feature(line) {
        return Lot::Feature;
    }
    if is_dropped(drops, line) {
        return Lot::Signature;
    }
    if is_deletion(behind, line) {
        return Lot::Deletion;
    }
    match cut(line, b' ') {
        Some((word, rest)) => word_lot(word, rest),
        None => Lot::Kept,
    }
}

/// Whether a line sets a branch to another commit, or to none.
pub(crate) fn is_reset_line(line: &[u8]) -> bool
    ensures { result ≡ is_reset_line line.now }
{
    line.starts_with(b"reset ")
}

/// Whether a line is that of a signature, which is the block behind it.
pub(crate) fn is_signature_line(line: &[u8]) -> bool
    ensures { result ≡ is_signature_line line.now }
{
    line.starts_with(b"gpgsig ")
}

/// Whether a line goes with the signature that it announces.
fn is_dropped(drops: bool, line: &[u8]) -> bool
    ensures { result ≡ (drops && is_signature_line line.now) }
{
    drops && is_signature_line(line)
}

/// Whether a line deletes the ref of the reset that it stands behind.
pub(crate) fn is_deletion(behind: Behind, line: &[u8]) -> bool
    ensures { result ≡ (is_reset behind && is_null_from line.now) }
{
    is_reset(behind) && is_null_from(line)
}

fn is_reset(behind: Behind) -> bool
    ensures { result ≡ is_reset behind }
{
    matches!(behind, Behind::Reset)
}

fn is_signature(behind: Behind) -> bool
    ensures { result ≡ is_signature behind }
{
    matches!(behind, Behind::Signature)
}

fn is_null_from(line: &[u8]) -> bool
    ensures { result ≡ is_null_from line.now }
{
    line == b"from 0000000000000000000000000000000000000000".as_slice()
}

fn is_of_marks(line: &[u8]) -> bool
    ensures { result ≡ is_of_marks line.now }
{
    line.starts_with(b"feature import-marks=")
        || line.starts_with(b"feature import-marks-if-exists=")
        || line.starts_with(b"feature export-marks=")
        || line == b"feature relative-marks".as_slice()
        || line == b"feature no-relative-marks".as_slice()
        || line.starts_with(b"get-mark :")
}

/// Whether a line does no more than ask whether a command is known.
fn is_feature(line: &[u8]) -> bool
    ensures { result ≡ is_feature line.now }
{
    line == b"feature notes".as_slice()
        || line == b"feature ls".as_slice()
        || line == b"feature cat-blob".as_slice()
        || line == b"feature get-mark".as_slice()
}

/// Whether a line of this word has an identity.
pub(crate) fn is_ident_word(word: &[u8]) -> bool
    ensures { result ≡ is_ident_word word.now }
{
    word == b"author".as_slice() || word == b"committer".as_slice() || word == b"tagger".as_slice()
}

fn is_move_word(word: &[u8]) -> bool
    ensures { result ≡ is_move_word word.now }
{
    word == b"C".as_slice() || word == b"R".as_slice()
}

#[tactic(auto, unfolding(crate::specs::Lines::word_lot))]
fn word_lot<'a>(word: &'a [u8], rest: &'a [u8]) -> Lot<'a>
    ensures { shown_lot result ≡ word_lot word.now rest.now }
{
    if is_ident_word(word) {
        ident_lot(word, rest)
    } else if word == b"M".as_slice() {
        modify_lot(rest)
    } else if word == b"D".as_slice() {
        remove_lot(rest)
    } else if is_move_word(word) {
        move_lot(word, rest)
    } else {
        Lot::Kept
    }
}

#[tactic(auto, unfolding(crate::specs::Lines::ident_lot))]
fn ident_lot<'a>(word: &'a [u8], ident: &'a [u8]) -> Lot<'a>
    ensures { shown_lot result ≡ ident_lot word.now ident.now }
{
    if ident.starts_with(b"<") {
        Lot::Ident(word, ident)
    } else {
        Lot::Kept
    }
}

#[tactic(auto, unfolding(crate::specs::Lines::modify_lot))]
fn modify_lot(rest: &[u8]) -> Lot<'_>
    ensures { shown_lot result ≡ modify_lot rest.now }
{
    match cut(rest, b' ') {
        Some((mode, rest)) => dataref_lot(mode, rest),
        None => Lot::Kept,
    }
}

/// A modify behind its mode.
#[tactic(auto, unfolding(crate::specs::Lines::path_lot))]
fn dataref_lot<'a>(mode: &'a [u8], rest: &'a [u8]) -> Lot<'a>
    ensures { shown_lot result ≡ dataref_lot mode.now (cut_at 32 rest.now) }
{
    match cut(rest, b' ') {
        Some((dataref, path)) if is_open(path) => Lot::Modify(mode, dataref, path),
        _ => Lot::Kept,
    }
}

#[tactic(auto, unfolding(crate::specs::Lines::path_lot))]
fn remove_lot(path: &[u8]) -> Lot<'_>
    ensures { shown_lot result ≡ path_lot (codes "D") path.now }
{
    if is_open(path) {
        Lot::Remove(path)
    } else {
        Lot::Kept
    }
}

#[tactic(auto, unfolding(crate::specs::Lines::move_lot))]
fn move_lot<'a>(word: &'a [u8], rest: &'a [u8]) -> Lot<'a>
    ensures { shown_lot result ≡ move_lot word.now rest.now }
{
    match source_of(rest) {
        Some((source, destination)) if is_open(source) || is_open(destination) => {
            Lot::Move(word, source, destination)
        }
        _ => Lot::Kept,
    }
}
