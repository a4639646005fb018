//! The names of objects.

ghost use Rattle.std.specs.Prelude.{◌≡◌, ◌<◌, ◌∷◌, ℕ, [], length, take, true, IsTrue, ◌↔◌};
ghost use Rattle.std.specs.Option.{option_map};
ghost use Rattle.std.specs.List.{list_all};
ghost use Rattle.std.proofs.Common.{rules};
ghost use Rattle.std.specs.Cmp.Rules.{hashing};
ghost use Rattle.gx_model.specs.Objects.{digit_value, hex, is_name, unhex};
ghost use Rattle.gx_model.specs.Texts.Digits.{is_lower_digit};
ghost use Rattle.gx_model.specs.Objects.Naming.{name_in, lower_name_in};

use std::hash::{Hash, Hasher};

/// The name of an object: 20 bytes, ordered byte by byte. Source: gitglossary(7), "object name".
#[derive(Clone, Copy, Debug, PartialEq, Eq, PartialOrd, Ord)]
pub struct Name {
    pub bytes: [u8; 20],
}

/// Fed are the first eight bytes: a name is a digest, so these tell names apart as all of them would. Names that were made to
/// begin alike fall together, whatever the key: two of them take 2^32 digests, and ten over 2^57.
impl Hash for Name {
    ghost hash_input = { λ name. take 8 name.bytes ∷ [] };

    ghost respects_eq = { Prim.search (hashing, rules) };

    fn hash<H: Hasher>(&self, state: &mut H) {
        state.write(&self.bytes[..8]);
    }
}

impl Name {
    /// Its 40 digits, in lower case. Takes no memory.
    pub fn hex(&self) -> [u8; 40]
        ensures digits { result ≡ hex self.now.bytes }
        ensures bytes { IsTrue (is_name self.now.bytes) }
    {
        digits(self.bytes.as_slice())
    }

    /// The name that 40 digits of either case give, and none for any other text.
    /// Cost: the length of the text. Takes no memory. Source: gitrevisions(7), "sha1".
    pub fn read(text: &[u8]) -> Option<Name>
        ensures { option_map (λ name. name.bytes) result ≡ name_in text.now }
    {
        let mut bytes = [0; 20];
        match hex::decode_to_slice(text, &mut bytes) {
            Ok(()) => Some(Name { bytes }),
            Err(_) => None,
        }
    }

    /// The name that 40 lower-case digits give, and none for any other text.
    /// Cost: the length of the text. Takes no memory.
    pub fn read_lower(text: &[u8]) -> Option<Name>
        ensures { option_map (λ name. name.bytes) result ≡ lower_name_in text.now }
    {
        let digits = text.as_array()?;
        if !are_lower(digits) {
            return None;
        }
        Some(Name {
            bytes: bytes_of(digits),
        })
    }
}

/// Whether these are digits, none of them in upper case.
fn are_lower(text: &[u8]) -> bool
    ensures { result ≡ list_all is_lower_digit text.now }
{
    let mut are = true;
    for digit in text {
        are &= is_lower(*digit);
    }
    are
}

fn is_lower(digit: u8) -> bool
    ensures { result ≡ is_lower_digit digit }
{
    matches!(digit, b'0'..=b'9' | b'a'..=b'f')
}

/// A byte for each two of 40 digits.
fn bytes_of(digits: &[u8; 40]) -> [u8; 20]
    requires { list_all is_lower_digit digits.now ≡ true }
    ensures { result ≡ unhex digits.now }
{
    let mut bytes = [0; 20];
    for place in 0..20 {
        bytes[place] = 16 * value(digits[2 * place]) + value(digits[2 * place + 1]);
    }
    bytes
}

/// The number that a digit stands for.
fn value(digit: u8) -> u8
    requires { is_lower_digit digit ≡ true }
    ensures value { result ≡ digit_value digit }
    ensures bound { result < 16 }
{
    if digit <= b'9' {
        digit - b'0'
    } else {
        digit - b'a' + 10
    }
}

/// Two lower-case digits for each of 20 bytes.
fn digits(bytes: &[u8]) -> [u8; 40]
    requires { length bytes.now ≡ 20 }
    ensures digits { result ≡ hex bytes.now }
    ensures bytes { IsTrue (is_name bytes.now) }
{
    let mut digits = [0; 40];
    match hex::encode_to_slice(bytes, &mut digits) {
        Ok(()) => digits,
        Err(_) => unreachable!(),
    }
}
