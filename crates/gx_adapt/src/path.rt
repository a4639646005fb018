//! Paths that begin with a quote.

ghost use Rattle.std.specs.Prelude.{◌≡◌};
ghost use Rattle.std.specs.Option.{option_map};
ghost use Rattle.gx_text.specs.Quoting.{after_quoted};
ghost use Rattle.gx_adapt.specs.Paths.{ends, is_open, source_of};

use gx_text::{after_quoted, cut};

/// Whether a path begins with a quote and isn't a quoted text.
#[tactic(auto, unfolding(crate::specs::Paths::is_open))]
pub(crate) fn is_open(path: &[u8]) -> bool
    ensures { result ≡ is_open path.now }
{
    path.starts_with(b"\"") && !is_quoted(path)
}

/// Whether all of a path is a quoted text.
fn is_quoted(path: &[u8]) -> bool
    ensures { result ≡ ends (after_quoted path.now) }
{
    match after_quoted(path) {
        Some(rest) => rest.is_empty(),
        None => false,
    }
}

/// The source of a copy or a rename, as it is written, and what follows the space behind it.
#[tactic(auto, unfolding(crate::specs::Paths::source_of))]
pub(crate) fn source_of(bytes: &[u8]) -> Option<(&[u8], &[u8])>
    ensures { option_map (λ p. (p.0.now, p.1.now)) result ≡ source_of bytes.now }
{
    match after_quoted(bytes) {
        Some(rest) if rest.starts_with(b" ") => {
            Some((&bytes[..bytes.len() - rest.len()], &rest[1..]))
        }
        _ => cut(bytes, b' '),
    }
}
