//! The lines of a text.

ghost use Rattle.std.specs.Prelude.{◌≡◌, ◌≤◌, length};
ghost use Rattle.std.specs.List.{count_by};
ghost use Rattle.gx_model.specs.Streams.Items.{is_lf};
ghost use Rattle.gx_where.specs.Places.{front_line};

use memchr::memchr;

/// How many LFs stand in a text.
pub(crate) fn count_lines(text: &[u8]) -> u64
    ensures value { result ≡ count_by is_lf text.now }
    ensures within { result ≤ length text.now }
{
    text.iter().filter(|byte| **byte == b'\n').count() as u64
}

/// The bytes of a text before its first LF, or all of them where it has none.
pub(crate) fn first_line(text: &[u8]) -> &[u8]
    ensures { result.now ≡ front_line text.now }
{
    let len = memchr(b'\n', text).unwrap_or(text.len());
    &text[..len]
}
