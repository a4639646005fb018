//! Namers that count, or that give many objects one name.

ghost use Rattle.std.specs.Prelude.{◌≡◌};
ghost use Rattle.gx_model.specs.Objects.Naming.{kind_number, short_name};
ghost use Rattle.gx_devices.specs.Namers.{short_is_namer};

use gx_object::{Kind, Name, Namer};
use std::cell::Cell;

/// Gives all objects the name of 20 bytes 0x11.
#[derive(Clone, Copy, Debug)]
pub struct ConstantNamer;

impl Namer for ConstantNamer {
    ghost use Rattle.std.specs.Prelude.{refl, replicate};

    ghost name_of = { λ _ _ _. replicate 20 17 };

    ghost is_namer = { λ _. record { long = λ _ _. refl; bytes = λ _ _. refl } };

    fn name(&self, _kind: Kind, _body: &[u8]) -> Name {
        Name { bytes: [0x11; 20] }
    }
}

/// Names many objects alike: 18 bytes 0x11, one byte for the kind (a blob 0, a tree 1, a commit 2, a tag 3), and the body's
/// length modulo 256.
#[derive(Clone, Copy, Debug)]
pub struct ShortNamer;

impl Namer for ShortNamer {
    ghost name_of = { λ _ kind body. short_name kind body };

    ghost is_namer = { λ _. short_is_namer };

    #[tactic(auto, unfolding(gx_model::specs::Objects::Naming::short_name))]
    fn name(&self, kind: Kind, body: &[u8]) -> Name {
        let mut bytes = [0x11; 20];
        bytes[18] = number(kind);
        bytes[19] = (body.len() % 256) as u8;
        Name { bytes }
    }
}

/// The kind's byte in the names of `ShortNamer`.
fn number(kind: Kind) -> u8
    ensures { result ≡ kind_number kind }
{
    match kind {
        Kind::Blob => 0,
        Kind::Tree => 1,
        Kind::Commit => 2,
        Kind::Tag => 3,
    }
}

/// Names objects as another namer does, and counts them.
#[derive(Clone, Copy)]
pub struct CountingNamer<'a, N: Namer> {
    /// What gives the names.
    pub namer: N,
    /// How many were given.
    pub named: &'a Cell<u64>,
}

impl<N: Namer> Namer for CountingNamer<'_, N> {
    ghost name_of = { λ counting kind body. N.name_of counting.namer kind body };

    ghost is_namer = { λ counting. N.is_namer counting.namer };

    fn name(&self, kind: Kind, body: &[u8]) -> Name {
        self.named.set(self.named.get().saturating_add(1));
        self.namer.name(kind, body)
    }
}
