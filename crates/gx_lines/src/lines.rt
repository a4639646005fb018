//! The lines of a store text. Source: this project's own format.
ghost use Rattle.std.specs.Prelude.{◌≡◌, codes};
ghost use Rattle.std.specs.Option.{option_and_then, option_map};
ghost use Rattle.gx_model.specs.Stores.StoreReading.{after_magic, after_word, stored_count, stored_end, stored_line, stored_number, version_of};
ghost use Rattle.gx_lines.specs.Reads.{Reads};
ghost use Rattle.gx_model.specs.Faults.{NeedsNoMemory};
ghost use Rattle.gx_lines.specs.Reads.{shown_count, shown_start};
ghost use Rattle.gx_text.specs.Lent.{lent_pair};

use crate::FileFault;
use gx_model::Version;
use gx_text::{cut, decimal};

/// The first line without its LF, and what follows it. `Truncated`: no LF stands in the text.
///
/// Cost: the line. Source: this project's own format.
pub fn read_line(text: &[u8]) -> Result<(&[u8], &[u8]), FileFault>
    ensures line { Reads lent_pair result (stored_line text.now) }
    ensures memory { NeedsNoMemory FileFault.OutOfMemory result }
{
    cut(text, b'\n').ok_or(FileFault::Truncated)
}

/// What follows a word and a space, where a line begins so. Cost: the word. Source: this project's own format.
pub fn after_word<'a>(word: &[u8], line: &'a [u8]) -> Option<&'a [u8]>
    ensures { option_map (λ rest. rest.now) result ≡ after_word word.now line.now }
{
    line.strip_prefix(word)?.strip_prefix(b" ")
}

/// A number in decimal, without leading zeros and below 2^64. Cost: the text. Source: this project's own format.
pub fn read_number(text: &[u8]) -> Option<u64>
    ensures { result ≡ stored_number text.now }
{
    if text.len() > 1 && text.starts_with(b"0") {
        return None;
    }
    decimal(text)
}

/// The version, which is 1 or 2, and what follows the first line, which tells what the text is.
///
/// `Truncated`: no LF stands in the text. `BadMagic`: the line is none of a store text. `BadVersion`: it has another version.
/// Cost: the line. Source: this project's own format.
pub fn read_magic(text: &[u8]) -> Result<(Version, &[u8]), FileFault>
    ensures start { Reads shown_start result (after_magic text.now) }
    ensures memory { NeedsNoMemory FileFault.OutOfMemory result }
{
    let (line, rest) = read_line(text)?;
    let Some(word) = after_word(b"gxstore", line) else {
        return Err(FileFault::BadMagic);
    };
    let Some(version) = version_of(word) else {
        return Err(FileFault::BadVersion);
    };
    Ok((version, rest))
}

/// The version that a word says.
fn version_of(word: &[u8]) -> Option<Version>
    ensures { result ≡ version_of word.now }
{
    if word == b"1".as_slice() {
        Some(Version::One)
    } else if word == b"2".as_slice() {
        Some(Version::Two)
    } else {
        None
    }
}

/// The number in a line that begins with this word, and what follows the line.
///
/// `Truncated`: no LF stands in the text. `BadRecord`: the line isn't as written. Cost: the line. Source: this project's own
/// format.
pub fn read_count<'a>(word: &[u8], text: &'a [u8]) -> Result<(u64, &'a [u8]), FileFault>
    ensures count { Reads shown_count result (stored_count word.now text.now) }
    ensures memory { NeedsNoMemory FileFault.OutOfMemory result }
{
    let (line, rest) = read_line(text)?;
    let Some(count) = number_after(word, line) else {
        return Err(FileFault::BadRecord);
    };
    Ok((count, rest))
}

/// The number behind a word and a space.
fn number_after(word: &[u8], line: &[u8]) -> Option<u64>
    ensures { result ≡ option_and_then stored_number (after_word word.now line.now) }
{
    read_number(after_word(word, line)?)
}

/// The last line, and nothing behind it.
///
/// `Truncated`: no LF stands in the text. `BadRecord`: the line isn't `end`. `TrailingBytes`: bytes follow it. Cost: the line.
/// Source: this project's own format.
pub fn read_end(text: &[u8]) -> Result<(), FileFault>
    ensures end { Reads (λ done. done) result (stored_end text.now) }
    ensures memory { NeedsNoMemory FileFault.OutOfMemory result }
{
    let (line, rest) = read_line(text)?;
    if line != b"end".as_slice() {
        return Err(FileFault::BadRecord);
    }
    if rest.is_empty() {
        Ok(())
    } else {
        Err(FileFault::TrailingBytes)
    }
}
