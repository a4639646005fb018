//! What gives objects their names.

ghost use Rattle.std.specs.Prelude.{◌≡◌, ℕ, List};
ghost use Rattle.sha1.specs.Sha1.{sha1};
ghost use Rattle.gx_model.specs.declared.objects.Kind.{Kind};
ghost use Rattle.gx_model.specs.Objects.{IsNamer};
ghost use Rattle.gx_model.specs.Objects.Naming.{record_text};
ghost use Rattle.gx_object.specs.Namers.{sha1_is_namer};

use crate::{Kind, Name};
use itoa::Buffer;
use sha1::Sha1;

/// Gives objects their names: equal kinds and bodies have equal names.
pub trait Namer {
    /// The bytes of the name that a kind and a body get.
    ghost name_of: { Self → Kind → List ℕ → List ℕ };

    /// The name of an object of this kind and body. Takes no memory.
    fn name(&self, kind: Kind, body: &[u8]) -> Name
        ensures { result.bytes ≡ name_of self.now kind body.now };

    /// A name has 20 bytes.
    ghost is_namer: { (n : Self) → IsNamer (name_of n) };
}

/// Names objects as Git does: by the SHA-1 digest of the kind's word, a space, the body's length, a NUL and the body.
/// One pass over the body, which is not copied. Source: Pro Git, "Git Objects", and FIPS 180-4.
#[derive(Clone, Copy, Debug)]
pub struct Sha1Namer;

impl Namer for Sha1Namer {
    ghost name_of = { λ _ kind body. sha1 (record_text kind body) };

    ghost is_namer = { λ _. sha1_is_namer };

    fn name(&self, kind: Kind, body: &[u8]) -> Name {
        let mut buffer = Buffer::new();
        let mut hasher = Sha1::new();
        hasher.update(kind.word().as_bytes());
        hasher.update(b" ");
        hasher.update(buffer.format(body.len()).as_bytes());
        hasher.update(b"\0");
        hasher.update(body);
        Name {
            bytes: hasher.finalize(),
        }
    }
}
