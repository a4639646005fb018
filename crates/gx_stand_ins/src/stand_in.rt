//! The names of a small repository's objects.

ghost use Rattle.std.specs.Prelude.{◌≡◌, ◌++◌};
ghost use Rattle.std.specs.Option.{option_map};
ghost use Rattle.gx_stand_ins.specs.SmallRepositories.{name_behind, stand_name, stood_for};
ghost use Rattle.gx_stand_ins.specs.StandInNames.{stand_is_namer};

use gx_object::{Kind, Name, Namer};

/// What a commit that stands for another has between the line of its tree and the nonce.
pub(crate) const HEADER: &[u8] =
    b"author stand-in <stand-in> 0 +0000\ncommitter stand-in <stand-in> 0 +0000\n\n";

/// The bytes of the line of a commit's tree.
const TREE_LINE: usize = 46;

/// Names the objects of a small repository: one that stands for another has the name of that one, and each other has the name
/// that the namer gives it.
///
/// A blob that stands for another consists of the nonce and the name. Such a commit has no parents, is made and committed by
/// `stand-in <stand-in> 0 +0000`, and its message consists of the nonce and the name.
#[derive(Clone, Copy, Debug)]
pub struct StandIn<N> {
    /// What gives the other names.
    pub namer: N,
    /// What stands nowhere in objects that stand for no other.
    pub nonce: [u8; 16],
}

impl<N: Namer> Namer for StandIn<N> {
    ghost name_of = { λ stand_in kind body. stand_name stand_in.nonce
        (N.name_of stand_in.namer) kind body };

    ghost is_namer = { λ stand_in. stand_is_namer stand_in.nonce (N.name_of stand_in.namer)
        (N.is_namer stand_in.namer) };

    fn name(&self, kind: Kind, body: &[u8]) -> Name {
        match stood_for(&self.nonce, kind, body) {
            Some(name) => name,
            None => self.namer.name(kind, body),
        }
    }
}

/// The name of the object for which one stands, where it does.
fn stood_for(nonce: &[u8; 16], kind: Kind, body: &[u8]) -> Option<Name>
    ensures { option_map (λ name. name.bytes) result ≡ stood_for nonce.now kind body.now }
{
    match kind {
        Kind::Blob => name_behind(nonce, body),
        Kind::Commit => name_behind(nonce, body.get(TREE_LINE..)?.strip_prefix(HEADER)?),
        Kind::Tree | Kind::Tag => None,
    }
}

/// The name of which a text consists behind these bytes.
fn name_behind(front: &[u8], text: &[u8]) -> Option<Name>
    ensures { option_map (λ name. name.bytes) result ≡ name_behind front.now text.now }
{
    let bytes = text.strip_prefix(front)?.as_array()?;
    Some(Name { bytes: *bytes })
}
