//! The checksum of data in the zlib format. Source: RFC 1950, section 9.

ghost use Rattle.std.specs.Prelude.{◌≡◌, ◌≤◌, ◌<◌, ◌+◌, ◌%◌, length, sum};
ghost use Rattle.gx_pack.specs.Zlib.{adler32, sum_of_sums};

/// Both sums are taken modulo this.
const MODULUS: u64 = 65_521;

/// How many bytes are added before a sum is taken modulo that.
const PIECE: usize = 65_535;

/// The Adler-32 checksum of some bytes. Cost: one pass over them.
pub(crate) fn adler32(bytes: &[u8]) -> u32
    ensures { result ≡ adler32 bytes.now }
{
    let mut left = bytes;
    let mut first = 1;
    let mut second = 0;
    while !left.is_empty() {
        let (piece, rest) = left.split_at(left.len().min(PIECE));
        let sums = with_piece(first, second, piece);
        first = sums.0;
        second = sums.1;
        left = rest;
    }
    (second * 65_536 + first) as u32
}

/// Both sums, with some bytes more.
fn with_piece(first: u64, second: u64, piece: &[u8]) -> (u64, u64)
    requires first { first < 65521 }
    requires second { second < 65521 }
    requires piece { length piece.now ≤ 65535 }
    ensures first { result.0 ≡ (first + sum piece.now) % 65521 }
    ensures second { result.1 ≡ (second + sum_of_sums first piece.now) % 65521 }
{
    let mut a = first;
    let mut b = second;
    for byte in piece {
        a += *byte as u64;
        b += a;
    }
    (a % MODULUS, b % MODULUS)
}
