//! Numbers in decimal.

ghost use Rattle.std.specs.Prelude.{◌≡◌};
ghost use Rattle.std.specs.Result.{result_ok};
ghost use Rattle.gx_model.specs.Streams.Lines.{mark_number};
ghost use Rattle.gx_model.specs.Texts.Numbers.{decimal_of};

use std::str;

/// The number that one or more decimal digits write, where it is below 2^64. Zeros may lead; there is no sign.
///
/// Cost: the length. Takes no memory. Source: git-fast-import(1), where marks, counts and dates are written so.
pub fn decimal(bytes: &[u8]) -> Option<u64>
    ensures { result ≡ decimal_of bytes.now }
{
    if !bytes.iter().all(|b| b.is_ascii_digit()) {
        return None;
    }
    str::from_utf8(bytes).ok()?.parse().ok()
}

/// The number that a mark's digits write, which is from 1.
///
/// Cost: the length. Takes no memory. Source: git-fast-import(1), "mark".
pub fn mark_number(digits: &[u8]) -> Option<u64>
    ensures { result ≡ result_ok (mark_number digits.now) }
{
    decimal(digits).filter(|number| *number != 0)
}
