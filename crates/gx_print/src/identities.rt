//! What an identity says: a name, an email and a date. Source: git-log(1), "PRETTY FORMATS", `%an`, `%ae` and `%at`.

ghost use Rattle.std.specs.Prelude.{◌≡◌};
ghost use Rattle.gx_print.specs.Identities.{email_in, name_in, seconds_in};
ghost use Rattle.gx_model.specs.Texts.{parts_at};

use crate::messages::trimmed;
use gx_text::cut;

/// The name, without the white space at its end.
pub(crate) fn name_in(ident: &[u8]) -> &[u8]
    ensures { result.now ≡ name_in ident.now }
{
    trimmed(parts_at(b'<', ident).0)
}

/// The email.
pub(crate) fn email_in(ident: &[u8]) -> &[u8]
    ensures { result.now ≡ email_in ident.now }
{
    parts_at(b'>', parts_at(b'<', ident).1).0
}

/// The digits of the seconds.
pub(crate) fn seconds_in(ident: &[u8]) -> &[u8]
    ensures { result.now ≡ seconds_in ident.now }
{
    let date = parts_at(b' ', parts_at(b'>', ident).1).1;
    parts_at(b' ', date).0
}

/// What stands before the first of a byte, and what stands behind it. Where there is none, nothing.
fn parts_at(byte: u8, text: &[u8]) -> (&[u8], &[u8])
    ensures front { result.0.now ≡ (parts_at byte text.now).0 }
    ensures behind { result.1.now ≡ (parts_at byte text.now).1 }
{
    match cut(text, byte) {
        Some(parts) => parts,
        None => (b"", b""),
    }
}
