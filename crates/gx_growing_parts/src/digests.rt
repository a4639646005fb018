//! Digests, and the digits that they are written in. Source: FIPS 180-4.
ghost use Rattle.std.specs.Prelude.{◌≡◌, ◌<◌, length, true};
ghost use Rattle.std.specs.List.{list_all};
ghost use Rattle.sha2.specs.Sha256.{sha256};
ghost use Rattle.gx_model.specs.Objects.{digit_value, unhex};
ghost use Rattle.gx_model.specs.Texts.Digits.{is_lower_digit};
ghost use Rattle.gx_growing.specs.GrowingReading.{digest_in};

use sha2::{Digest, Sha256};

/// The SHA-256 digest of some bytes. Cost: one pass over them. Takes no memory. Source: FIPS 180-4.
pub fn digest_of(bytes: &[u8]) -> [u8; 32]
    ensures { result ≡ sha256 bytes.now }
{
    Sha256::digest(bytes)
}

/// The digest that 64 lower-case digits give, and none for any other text. Cost: the text. Takes no memory. Source: this
/// project's own format.
pub fn read_digest(text: &[u8]) -> Option<[u8; 32]>
    ensures { result ≡ digest_in text.now }
{
    let digits = text.as_array()?;
    if !are_lower(digits) {
        return None;
    }
    Some(bytes_of(digits))
}

/// Whether these are digits, none of them in upper case.
fn are_lower(text: &[u8]) -> bool
    ensures { result ≡ list_all is_lower_digit text.now }
{
    let mut are = true;
    for digit in text {
        are &= is_lower(*digit);
    }
    are
}

fn is_lower(digit: u8) -> bool
    ensures { result ≡ is_lower_digit digit }
{
    matches!(digit, b'0'..=b'9' | b'a'..=b'f')
}

/// A byte for each two of 64 digits.
fn bytes_of(digits: &[u8; 64]) -> [u8; 32]
    requires { list_all is_lower_digit digits.now ≡ true }
    ensures { result ≡ unhex digits.now }
{
    let mut bytes = [0; 32];
    for place in 0..32 {
        bytes[place] = 16 * value(digits[2 * place]) + value(digits[2 * place + 1]);
    }
    bytes
}

/// The number that a digit stands for.
fn value(digit: u8) -> u8
    requires { is_lower_digit digit ≡ true }
    ensures value { result ≡ digit_value digit }
    ensures bound { result < 16 }
{
    if digit <= b'9' {
        digit - b'0'
    } else {
        digit - b'a' + 10
    }
}
