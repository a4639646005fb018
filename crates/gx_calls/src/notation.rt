//! The notation of scripts: titles, calls with what they are given, and what is to be answered.
//! docs/TESTING.md tells it.

use gx_text::{cut, decimal};
use std::alloc::AllocError;

/// The end of the title of a script whose objects have the names that `ShortNamer` gives them.
const SHORT_NAMES: &str = " (short names)";

/// When a step is taken.
#[derive(Clone, Copy)]
pub(crate) enum Part {
    /// It is the title of a script.
    Title,
    /// Always.
    Always,
    /// Each growth of this call is refused in turn, which are so many at least and at most.
    Tried(u64, u64),
    /// Where a growth was refused.
    Refused,
    /// Where the tried call before it was done.
    Done,
}

/// A title, or a call with what is to come of it, as their text has them.
#[derive(Clone, Copy)]
pub(crate) struct Step<'a> {
    pub(crate) part: Part,
    /// The number of its script; 0 before the first.
    pub(crate) script: usize,
    /// Where it stands in its file, from 1.
    pub(crate) number: usize,
    pub(crate) line: &'a str,
    /// The call's name.
    pub(crate) word: &'a str,
    given: &'a str,
    answer: &'a str,
    /// What stands behind its line.
    behind: &'a str,
    pub(crate) has_short_names: bool,
}

impl<'a> Step<'a> {
    /// Whether each growth of its call is refused in turn.
    pub(crate) fn is_tried(&self) -> bool {
        matches!(self.part, Part::Tried(_, _))
    }

    /// Whether the step is taken in a script, where this is the tried call, and where a growth was
    /// refused before it, or the tried call is the last before it that might be.
    pub(crate) fn is_wanted(
        &self,
        script: usize,
        is_tried: bool,
        is_refused: bool,
        is_behind: bool,
    ) -> bool {
        let is_part = match self.part {
            Part::Title => false,
            Part::Always => true,
            Part::Refused => is_refused,
            Part::Done => is_behind && !is_refused,
            Part::Tried(_, _) => is_tried,
        };
        is_part && (self.script == 0 || self.script == script)
    }

    /// Puts what the call is given.
    pub(crate) fn put_given(&self, given: &mut Vec<u8>) -> Result<(), AllocError> {
        put_read(given, self.given)?;
        put_lines(given, self.behind, '|')
    }

    /// Puts what is to be answered.
    pub(crate) fn put_answer(&self, answer: &mut Vec<u8>) -> Result<(), AllocError> {
        put_read(answer, self.answer)?;
        put_lines(answer, self.behind, '=')?;
        if answer.is_empty() {
            answer.extend_from_slice(b"done")?;
        }
        Ok(())
    }
}

/// Puts the bytes that the lines with this mark stand for behind others, up to the next call or
/// title, and a line feed between them.
fn put_lines(bytes: &mut Vec<u8>, lines: &str, mark: char) -> Result<(), AllocError> {
    for line in lines.split('\n') {
        if part_of(line).is_some() {
            return Ok(());
        }
        if let Some(text) = line.strip_prefix(mark) {
            if !bytes.is_empty() {
                bytes.push(b'\n')?;
            }
            put_read(bytes, text.strip_prefix(' ').unwrap_or(text))?;
        }
    }
    Ok(())
}

/// When the step of a line is taken, and what stands behind its mark, if it has one.
fn part_of(line: &str) -> Option<(Part, &str)> {
    if let Some(title) = line.strip_prefix("# ") {
        return Some((Part::Title, title));
    }
    let call = line.strip_prefix('$')?;
    let (mark, call) = call.split_once(' ').unwrap_or((call, ""));
    Some((marked(mark), call))
}

/// When a step is taken whose call has this mark.
fn marked(mark: &str) -> Part {
    if let Some(tried) = mark.strip_prefix('?') {
        let least = tried.strip_suffix('+');
        let count = decimal(least.unwrap_or(tried).as_bytes()).unwrap_or(0);
        return Part::Tried(count, if least.is_some() { u64::MAX } else { count });
    }
    match mark {
        "-" => Part::Refused,
        "+" => Part::Done,
        _ => Part::Always,
    }
}

/// The step of a line, if it begins one, with what stands behind the line.
fn step_of<'a>(line: &'a str, behind: &'a str) -> Option<Step<'a>> {
    let (part, text) = part_of(line)?;
    let (call, answer) = text.split_once(" = ").unwrap_or((text, ""));
    let (word, given) = call.split_once(' ').unwrap_or((call, ""));
    Some(Step {
        part,
        script: 0,
        number: 0,
        line,
        word,
        given,
        answer,
        behind,
        has_short_names: false,
    })
}

/// Puts the steps of a file's text.
pub(crate) fn put_steps<'a>(steps: &mut Vec<Step<'a>>, text: &'a str) -> Result<(), AllocError> {
    let mut rest = text;
    let mut script = 0usize;
    let mut has_short_names = false;
    for place in 0..text.len() {
        let (line, behind) = rest.split_once('\n').unwrap_or((rest, ""));
        rest = behind;
        if let Some(step) = step_of(line, behind) {
            if let Part::Title = step.part {
                script = script.saturating_add(1);
                has_short_names = line.ends_with(SHORT_NAMES);
            }
            let number = place.saturating_add(1);
            steps.push(Step {
                script,
                number,
                has_short_names,
                ..step
            })?;
        }
    }
    Ok(())
}

/// Puts the bytes that a line stands for: `\xHH` is the byte with these two digits, and `\xHH{N}`
/// is N of them.
fn put_read(bytes: &mut Vec<u8>, line: &str) -> Result<(), AllocError> {
    let mut rest = line.as_bytes();
    for _ in 0..line.len() {
        let Some((front, behind)) = cut(rest, b'\\') else {
            break;
        };
        bytes.extend_from_slice(front)?;
        rest = behind;
        match byte_of(behind) {
            Some((byte, behind)) => rest = put_times(bytes, byte, behind)?,
            None => bytes.push(b'\\')?,
        }
    }
    bytes.extend_from_slice(rest)
}

/// Puts a byte as often as the braces behind it say, once where there are none, and answers what is
/// behind.
fn put_times<'a>(bytes: &mut Vec<u8>, byte: u8, behind: &'a [u8]) -> Result<&'a [u8], AllocError> {
    let (count, rest) = match cut(behind.strip_prefix(b"{").unwrap_or(b""), b'}') {
        Some((digits, rest)) => (decimal(digits).unwrap_or(0), rest),
        None => (1, behind),
    };
    let len = bytes.len().saturating_add(count as usize);
    bytes.resize(len, byte)?;
    Ok(rest)
}

/// The byte of an `x` with two digits, and what is behind.
fn byte_of(bytes: &[u8]) -> Option<(u8, &[u8])> {
    let digits = bytes.strip_prefix(b"x")?;
    let high = digit_of(*digits.first()?)?;
    let low = digit_of(*digits.get(1)?)?;
    Some(((high & 15) << 4 | low, digits.get(2..)?))
}

/// The value of a hexadecimal digit in lower case.
fn digit_of(byte: u8) -> Option<u8> {
    match byte {
        b'0'..=b'9' => Some(byte - b'0'),
        b'a'..=b'f' => Some(byte - b'a' + 10),
        _ => None,
    }
}
