//! Where a text is cut in two.

ghost use Rattle.std.specs.Prelude.{◌≡◌};
ghost use Rattle.std.specs.Option.{option_map};
ghost use Rattle.gx_model.specs.Texts.{cut_at};

use memchr::memchr;

/// What stands before the first `at`, and what stands after it. `None` where no `at` stands.
///
/// Cost: the length of what stands before. Takes no memory.
pub fn cut(bytes: &[u8], at: u8) -> Option<(&[u8], &[u8])>
    ensures { option_map (λ p. (p.0.now, p.1.now)) result ≡ cut_at at bytes.now }
{
    let end = memchr(at, bytes)?;
    Some((&bytes[..end], &bytes[end + 1..]))
}
