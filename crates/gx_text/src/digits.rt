//! Hexadecimal digits.

ghost use Rattle.std.specs.Prelude.{◌≡◌};
ghost use Rattle.std.specs.List.{list_all};
ghost use Rattle.gx_model.specs.Texts.Digits.{is_any_digit};

/// Whether each byte is a hexadecimal digit, of either case.
///
/// Cost: the length. Takes no memory. Source: git-fast-import(1), where an object's name is written so.
pub fn are_hex_digits(text: &[u8]) -> bool
    ensures { result ≡ list_all is_any_digit text.now }
{
    text.iter().all(|b| is_hex_digit(*b))
}

fn is_hex_digit(b: u8) -> bool
    ensures { result ≡ is_any_digit b }
{
    matches!(b, b'0'..=b'9' | b'a'..=b'f' | b'A'..=b'F')
}
