//! Where the items of a text stand: every answer is a place in the text, and nothing is copied.

ghost use Rattle.std.specs.Prelude.{◌≡◌, ◌≤◌, ◌+◌, ℕ, length, drop, nat_eq, nat_lt, ◌||◌, ◌&&◌, codes, true, false};
ghost use Rattle.std.specs.List.{starts_with};
ghost use Rattle.gx_model.specs.Streams.Items.{line_len, has_no_line, without_lf, counted_block, delimited, announced, end_of, cut_off, first_line};
ghost use Rattle.gx_stream.specs.Faults.{shown_end};
ghost use Rattle.gx_stream.specs.Places.{IsLineAt, AreLinesAt, GoesTo, IsSearched, IsScanned, from_line, without, at_line, past_first, Begins, Skipped, Finds, bytes_at, delimiter_at};

use crate::fault::StreamFault;
use gx_text::decimal;
use memchr::memchr;

/// Where a line or a block stands in a text, and where the text after it begins.
#[derive(Clone, Copy, Drop)]
pub(crate) struct Place {
    pub(crate) start: usize,
    pub(crate) end: usize,
    pub(crate) next: usize,
}

/// Where the next item stands, or how the items end.
#[derive(Clone, Copy, Drop)]
pub(crate) enum Found {
    Line(Place),
    Data(Place),
    End(Option<StreamFault>),
}

/// What the looks at an item that isn't whole yet have shown, so that none of it is looked through again: its first line
/// has no LF before `first`, and the last line begins at `line` and has none before `seen`. Where that isn't the item's
/// first, those before it don't end the block. The block that a count announces ends at `wanted`, which is 0 before that
/// was seen: up to there another look is of no use. No answer hangs on it.
#[derive(Clone, Copy, Drop)]
pub(crate) struct Scan {
    pub(crate) first: usize,
    pub(crate) line: usize,
    pub(crate) seen: usize,
    pub(crate) wanted: usize,
}

impl Scan {
    /// Nothing is known but where the item begins.
    pub(crate) fn from_line(line: usize) -> Scan
        ensures { result ≡ from_line line }
    {
        Scan {
            first: line,
            line,
            seen: line,
            wanted: 0,
        }
    }

    /// The same, where so many bytes before them are gone.
    pub(crate) fn without(self, count: usize) -> Scan
        requires { (count ≤ self.line) × (self.line ≤ self.seen) × (count ≤ self.first) }
        ensures { result ≡ without count self }
    {
        Scan {
            first: self.first - count,
            line: self.line - count,
            seen: self.seen - count,
            wanted: self.wanted.saturating_sub(count),
        }
    }

    /// The same, where the last line begins at another place.
    fn at_line(self, line: usize) -> Scan
        ensures { result ≡ at_line line self }
    {
        Scan {
            first: self.first,
            line,
            seen: line,
            wanted: self.wanted,
        }
    }

    /// The same, where the item's first line came whole.
    fn past_first(self, at: usize, next: usize) -> Scan
        ensures { result ≡ past_first self at next }
    {
        if self.line == at {
            self.at_line(next)
        } else {
            self
        }
    }
}

/// The item that a text goes on with. The place moves past the comments before it.
pub(crate) fn find_item(text: &[u8], at: &mut usize, scan: &mut Scan, fails: bool) -> Found
    requires within { at.old ≤ length text.now }
    requires scan { IsScanned text.now fails at.old scan.old }
    requires first { GoesTo text.now at.old scan.old.first }
    ensures skipped { Skipped text.now fails at.old at.new }
    ensures found { Finds text.now fails at.new result }
    ensures scanned { fails ≡ true → IsScanned text.now true at.new scan.new }
    ensures first { fails ≡ true → GoesTo text.now at.new scan.new.first }
{
    loop {
        let Some(line) = find_line(text, *at, scan.first, fails) else {
            *scan = Scan {
                first: text.len(),
                line: *at,
                seen: text.len(),
                wanted: 0,
            };
            return Found::End(end_of(fails));
        };
        *scan = scan.past_first(*at, line.next);
        if !text[line.start..line.end].starts_with(b"#") {
            scan.first = line.end;
            return find_from(text, line, scan, fails);
        }
        *at = line.next;
        *scan = Scan::from_line(line.next);
    }
}

/// The item that begins with a line which is no comment.
#[tactic(auto, unfolding(gx_model::specs::Streams::Items::first_line))]
pub(crate) fn find_from(text: &[u8], line: Place, scan: &mut Scan, fails: bool) -> Found
    requires within { (line.start ≤ line.end) × (line.end ≤ line.next)
        × (line.next ≤ length text.now) }
    requires no_comment { starts_with nat_eq (bytes_at text.now line) (codes "#") ≡ false }
    requires scan { IsSearched text.now (delimiter_at text.now line) fails line.next scan.old }
    ensures begins { Begins text.now
        (first_line (bytes_at text.now line) (drop line.next text.now) fails) result }
    ensures scan { IsSearched text.now (delimiter_at text.now line) fails line.next scan.new }
    ensures first { scan.new.first ≡ scan.old.first }
{
    let bytes = &text[line.start..line.end];
    if bytes.starts_with(b"data ") {
        find_block(text, &bytes[5..], line.next, scan, fails)
    } else {
        Found::Line(line)
    }
}

/// The block that a line announces, by what follows `data` and a space in it.
fn find_block(text: &[u8], size: &[u8], start: usize, scan: &mut Scan, fails: bool) -> Found
    requires within { start ≤ length text.now }
    requires scan { IsSearched text.now (drop 2 size.now) fails start scan.old }
    ensures begins { Begins text.now (announced size.now (drop start text.now) fails) result }
    ensures scan { IsSearched text.now (drop 2 size.now) fails start scan.new }
    ensures first { scan.new.first ≡ scan.old.first }
{
    if size.starts_with(b"<<") {
        return find_delimited(text, &size[2..], start, scan, fails);
    }
    match decimal(size) {
        None => Found::End(Some(StreamFault::BadNumber)),
        Some(count) => find_counted(text, count, start, scan, fails),
    }
}

/// The block of so many bytes that begins at a place.
#[tactic(auto, unfolding(gx_model::specs::Streams::Items::counted_block))]
fn find_counted(text: &[u8], count: u64, start: usize, scan: &mut Scan, fails: bool) -> Found
    requires { start ≤ length text.now }
    ensures begins { Begins text.now (counted_block count (drop start text.now) fails) result }
    ensures scan { scan.new ≡ record scan.old { wanted = scan.new.wanted } }
{
    if is_short(text.len() - start, count, fails) {
        scan.wanted = start.saturating_add(count as usize);
        return Found::End(Some(cut_off(fails)));
    }
    let end = start + count as usize;
    Found::Data(Place {
        start,
        end,
        next: end + lf_at(text, end),
    })
}

/// The block that begins at a place and ends before its delimiter line.
#[tactic(auto, unfolding(gx_model::specs::Streams::Items::delimited))]
fn find_delimited(
    text: &[u8],
    delimiter: &[u8],
    start: usize,
    scan: &mut Scan,
    fails: bool,
) -> Found
    requires within { start ≤ length text.now }
    requires scan { IsSearched text.now delimiter.now fails start scan.old }
    ensures begins { Begins text.now (delimited delimiter.now (drop start text.now) fails) result }
    ensures scan { IsSearched text.now delimiter.now fails start scan.new }
    ensures first { scan.new.first ≡ scan.old.first }
{
    match find_lines(text, delimiter, start, scan, fails) {
        Some(lines) if !(fails && lines.next == text.len()) => Found::Data(Place {
            next: lines.next + lf_at(text, lines.next),
            ..lines
        }),
        _ => Found::End(Some(cut_off(fails))),
    }
}

/// The lines from a place on before the first that is the delimiter, with what follows that one.
fn find_lines(
    text: &[u8],
    delimiter: &[u8],
    start: usize,
    scan: &mut Scan,
    fails: bool,
) -> Option<Place>
    requires { IsSearched text.now delimiter.now fails start scan.old }
    ensures found { AreLinesAt text.now delimiter.now fails start result }
    ensures scan { IsSearched text.now delimiter.now fails start scan.new }
    ensures first { scan.new.first ≡ scan.old.first }
{
    loop {
        let Some(line) = find_line(text, scan.line, scan.seen, fails) else {
            scan.seen = text.len();
            return None;
        };
        if &text[line.start..line.end] == delimiter {
            return Some(Place {
                start,
                end: line.start,
                next: line.next,
            });
        }
        *scan = scan.at_line(line.next);
    }
}

/// The line at a place, which has no LF before another. None stands at the end, or where the text fails before an LF.
pub(crate) fn find_line(text: &[u8], at: usize, seen: usize, fails: bool) -> Option<Place>
    requires { GoesTo text.now at seen }
    ensures { IsLineAt text.now fails at result }
{
    let len = seen - at + line_len(&text[seen..]);
    if has_no_line(text.len() - at, len, fails) {
        return None;
    }
    Some(Place {
        start: at,
        end: at + len,
        next: (at + len + 1).min(text.len()),
    })
}

/// How many bytes stand before the first LF, or in all.
fn line_len(text: &[u8]) -> usize
    ensures value { result ≡ line_len text.now }
    ensures within { result ≤ length text.now }
{
    memchr(b'\n', text).unwrap_or(text.len())
}

fn has_no_line(len: usize, line_len: usize, fails: bool) -> bool
    ensures { result ≡ (nat_eq len 0 || (fails && nat_eq line_len len)) }
{
    len == 0 || (fails && line_len == len)
}

/// Whether a block isn't complete. Where the text fails, a byte has to stand after it.
fn is_short(there: usize, count: u64, fails: bool) -> bool
    ensures { result ≡ (nat_lt there count || (fails && nat_eq there count)) }
{
    let count = count as usize;
    there < count || (fails && there == count)
}

/// One where an LF stands at a place, and otherwise nothing.
fn lf_at(text: &[u8], place: usize) -> usize
    ensures within { place ≤ length text.now → place + result ≤ length text.now }
    ensures rest { without_lf (drop place text.now) ≡ drop (place + result) text.now }
{
    if place < text.len() && text[place] == b'\n' {
        1
    } else {
        0
    }
}

/// The fault after a text, or its end.
fn end_of(fails: bool) -> Option<StreamFault>
    ensures { shown_end result ≡ end_of fails }
{
    if fails {
        Some(StreamFault::ReadFailed)
    } else {
        None
    }
}

/// The fault where a block isn't complete.
fn cut_off(fails: bool) -> StreamFault
    ensures { shown_end (Some result) ≡ cut_off fails }
{
    if fails {
        StreamFault::ReadFailed
    } else {
        StreamFault::TruncatedData
    }
}
