//! What a ref may hold. Source: gitglossary(7), "ref", and git-check-ref-format(1).

ghost use Rattle.std.specs.Prelude.{◌≡◌};
ghost use Rattle.gx_model.specs.Stores.StoreReading.{is_target_of_kind};
ghost use Rattle.gx_repo.specs.Refs.{HasTagParts, TellsOwnRef};

use gx_object::{Kind, decode_tag};

/// Whether a ref may hold an object of this kind and body: a commit, or a tag whose own name makes the ref's.
///
/// Cost: of a tag its body. Takes no memory. Source: gitglossary(7), "ref".
pub fn is_target(name: &[u8], kind: Kind, body: &[u8]) -> bool
    ensures { HasTagParts kind body.now → result ≡ is_target_of_kind name.now kind body.now }
{
    match kind {
        Kind::Commit => true,
        Kind::Tag => is_own_ref(name, body),
        _ => false,
    }
}

/// Whether a ref's name is made by the own name of the tag with this body.
fn is_own_ref(name: &[u8], body: &[u8]) -> bool
    ensures { TellsOwnRef name.now body.now result }
{
    let Ok(tag) = decode_tag(body) else {
        return false;
    };
    match name.strip_prefix(b"refs/tags/") {
        Some(rest) => rest == tag.name(),
        None => false,
    }
}
