//! What writers of growing texts share. Source: this project's own format.
ghost use Rattle.std.specs.Prelude.{◌≡◌, ◌-◌, length, replicate};
ghost use Rattle.gx_model.specs.Objects.{hex};

/// The zeros that stand in front of a number where it has twenty digits. Cost: constant. Takes no memory. Source: this project's
/// own format.
pub fn zeros_before(digits: &[u8]) -> &[u8]
    ensures { result.now ≡ replicate (20 - length digits.now) 48 }
{
    b"00000000000000000000".split_at(digits.len().min(20)).1
}

/// The digits of a digest, in lower case. Cost: constant. Takes no memory. Source: this project's own format.
pub fn digest_digits(digest: &[u8; 32]) -> [u8; 64]
    ensures { result ≡ hex digest.now }
{
    let mut digits = [0; 64];
    match hex::encode_to_slice(digest.as_slice(), &mut digits) {
        Ok(()) => digits,
        Err(_) => unreachable!(),
    }
}
