//! Who made a commit or a tag, and when.

ghost use Rattle.std.specs.Prelude.{◌≡◌, IfErr, IsTrue};
ghost use Rattle.gx_model.specs.Texts.Idents.{is_plain, is_head, is_signed_offset, is_ident};

use crate::cuts::cut;
use crate::fault::TextFault;
use crate::number::decimal;

/// An identity: a name and an email, with seconds and an offset of time. Its bytes are kept as written.
/// Source: git-fast-import(1), "author", "committer" and "Date Formats" (raw).
#[derive(Clone, Copy)]
pub struct Ident<'a> {
    bytes: &'a [u8],
    ghost proper: { IsTrue (is_ident bytes.now) },
}

impl<'a> Ident<'a> {
    ghost use Rattle.gx_model.specs.Faults.{Gives};
    ghost use Rattle.gx_model.specs.Streams.Lines.{ident_of};
    ghost use Rattle.gx_text.specs.Idents.{ident_bytes};
    ghost use Rattle.gx_text.specs.TextFaults.{fault_of};

    /// The identity that the bytes write, or `BadIdent`.
    ///
    /// Cost: the length. Takes no memory.
    pub fn read(bytes: &'a [u8]) -> Result<Ident<'a>, TextFault>
        ensures ident { Gives fault_of ident_bytes result (ident_of bytes.now) }
        ensures fault { IfErr result (λ fault. fault ≡ TextFault.BadIdent) }
    {
        if is_ident(bytes) {
            Ok(Ident { bytes })
        } else {
            Err(TextFault::BadIdent)
        }
    }

    /// The bytes as they were written. Takes no memory.
    pub fn bytes(&self) -> &'a [u8]
        ensures bytes { result.now ≡ ident_bytes self.now }
        ensures proper { IsTrue (is_ident result.now) }
    {
        self.bytes
    }
}

#[tactic(auto, unfolding(gx_model::specs::Texts::Idents::is_ident))]
fn is_ident(bytes: &[u8]) -> bool
    ensures { result ≡ is_ident bytes.now }
{
    let Some((head, rest)) = cut(bytes, b'<') else {
        return false;
    };
    let Some((email, rest)) = cut(rest, b'>') else {
        return false;
    };
    let Some((gap, rest)) = cut(rest, b' ') else {
        return false;
    };
    let Some((seconds, offset)) = cut(rest, b' ') else {
        return false;
    };
    is_head(head)
        && is_plain(email)
        && gap.is_empty()
        && decimal(seconds).is_some()
        && is_signed_offset(offset)
}

// What stands before the `<`: nothing, or a name and a space.
fn is_head(head: &[u8]) -> bool
    ensures { result ≡ is_head head.now }
{
    head.is_empty() || is_plain(head) && head.ends_with(b" ")
}

// A name or an email: no `<`, no `>` and no line feed.
fn is_plain(bytes: &[u8]) -> bool
    ensures { result ≡ is_plain bytes.now }
{
    !bytes.contains(&b'<') && !bytes.contains(&b'>') && !bytes.contains(&b'\n')
}

fn is_signed_offset(bytes: &[u8]) -> bool
    ensures { result ≡ is_signed_offset bytes.now }
{
    match bytes {
        [b'+' | b'-', digits @ ..] => decimal(digits).is_some_and(|n| n <= 1400),
        _ => false,
    }
}
