//! The words of a command, and what they are read as, one after the other. Source: gitrevisions(7).

ghost use Rattle.std.specs.Prelude.{◌≡◌, ◌++◌, ◌∷◌, IfOk, OnOk, [], map};
ghost use Rattle.gx_model.specs.Revisions.{range_of, revision_of};
ghost use Rattle.gx_model.specs.Revisions.Ranges.{each_word};
ghost use Rattle.gx_rev.specs.Views.{shown_range};
ghost use Rattle.gx_rev.specs.Walking.{refused_at};
ghost use Rattle.gx_text.specs.Lent.{lent_texts};
ghost use Rattle.gx_print.specs.Words.{ReadsWords, word_at, words_in};

use gx_rev::{Range, RevFault, Revision, WalkFault};
use gx_text::cut;
use std::alloc::{AllocError, Allocator};

/// The bytes of words.
///
/// Memory: 16 bytes a word.
pub fn texts_of<'a, A: Allocator + Copy>(
    alloc: A,
    words: &[&'a str],
) -> Result<Vec<&'a [u8], A>, AllocError>
    ensures { IfOk result (λ texts. lent_texts texts.items ≡ lent_texts words.now) }
{
    let mut texts = Vec::new(alloc);
    for word in words {
        texts.push(word.as_bytes())?;
    }
    Ok(texts)
}

/// Puts lines behind words.
///
/// Memory: 16 bytes a line.
pub fn add_lines<'a, A: Allocator + Copy>(
    words: &mut Vec<&'a [u8], A>,
    lines: &'a [Vec<u8, A>],
) -> Result<(), AllocError>
    ensures { OnOk result (lent_texts words.new.items ≡ lent_texts words.old.items
        ++ map (λ line. line.items) lines.now) }
{
    for line in lines {
        words.push(line.as_slice())?;
    }
    Ok(())
}

/// The words of a text, which single spaces divide.
///
/// Cost: the text. Memory: 16 bytes a word.
pub fn words_in<'a, A: Allocator + Copy>(
    alloc: A,
    text: &'a [u8],
) -> Result<Vec<&'a [u8], A>, AllocError>
    ensures { IfOk result (λ words. lent_texts words.items ≡ words_in text.now) }
{
    let mut words = Vec::new(alloc);
    let mut left = text;
    while let Some((word, rest)) = cut(left, b' ') {
        words.push(word)?;
        left = rest;
    }
    words.push(left)?;
    Ok(words)
}

/// Each word as a revision, or the first that is none, by its number from 1. Want of memory has the number 0.
///
/// Cost: that of `Revision::read` for each word. Memory: the revisions.
pub fn read_revisions<A: Allocator + Copy>(
    alloc: A,
    words: &[&[u8]],
) -> Result<Vec<Revision<A>, A>, WalkFault>
    ensures { ReadsWords (λ revisions. revisions.items) result
        (each_word revision_of (lent_texts words.now)) }
{
    let mut revisions = Vec::new(alloc);
    for (place, word) in words.iter().enumerate() {
        match Revision::read(alloc, word) {
            Ok(revision) => put(&mut revisions, revision)?,
            Err(kind) => return Err(refused(place + 1, kind)),
        }
    }
    Ok(revisions)
}

/// Each word as a range word, or the first that is none, by its number from 1. Want of memory has the number 0.
///
/// Cost: that of `Range::read` for each word. Memory: the ranges.
pub fn read_ranges<A: Allocator + Copy>(
    alloc: A,
    words: &[&[u8]],
) -> Result<Vec<Range<A>, A>, WalkFault>
    ensures { ReadsWords (λ ranges. map shown_range ranges.items) result
        (each_word range_of (lent_texts words.now)) }
{
    let mut ranges = Vec::new(alloc);
    for (place, word) in words.iter().enumerate() {
        match Range::read(alloc, word) {
            Ok(range) => put(&mut ranges, range)?,
            Err(kind) => return Err(refused(place + 1, kind)),
        }
    }
    Ok(ranges)
}

/// The word with this number, from 1. Takes no memory.
pub fn word_at<'a>(words: &[&'a [u8]], number: u64) -> &'a [u8]
    ensures { result.now ≡ word_at (lent_texts words.now) number }
{
    let place = number.saturating_sub(1) as usize;
    if place < words.len() {
        words[place]
    } else {
        b""
    }
}

/// Puts what was read behind the others.
fn put<T: Drop, A: Allocator>(all: &mut Vec<T, A>, read: T) -> Result<(), AllocError>
    ensures { OnOk result (all.new.items ≡ all.old.items ++ read ∷ []) }
{
    Ok(all.push(read)?)
}

/// The refusal of the word with this number. Want of memory is of none.
fn refused(word: usize, kind: RevFault) -> WalkFault
    ensures { result ≡ refused_at word kind }
{
    match kind {
        RevFault::OutOfMemory => WalkFault { word: 0, kind },
        kind => WalkFault { word, kind },
    }
}
