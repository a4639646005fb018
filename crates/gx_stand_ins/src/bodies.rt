//! Objects that stand for others, whose names they have. Source: Pro Git, "Git Objects", on names and on the texts of commits.

ghost use Rattle.std.specs.Prelude.{◌≡◌, ◌++◌, Some, length, take, IfOk, IsTrue};
ghost use Rattle.gx_model.specs.declared.objects.Kind.TheVariants.{Blob};
ghost use Rattle.gx_model.specs.Objects.{is_name};
ghost use Rattle.gx_model.specs.Texts.{same_bytes};
ghost use Rattle.gx_stand_ins.specs.Bodies.{StandsForCommit};
ghost use Rattle.gx_stand_ins.specs.SmallRepositories.{stood_for};
ghost use Rattle.gx_stand_ins.specs.declared.bodies.TheConstants.{NONCE};

use crate::stand_in::HEADER;
use gx_object::Name;
use std::alloc::{AllocError, Allocator};

/// What stands before the name in a blob and in the message of a commit that stand for others.
pub const NONCE: [u8; 16] = *b"gx: stands for: ";

/// Whether a blob of these bytes, or a commit of this message, may be one that stands for another. Takes no memory.
pub fn may_stand_in(bytes: &[u8]) -> bool
    ensures { result ≡ same_bytes (take (length NONCE) bytes.now) NONCE }
{
    bytes.starts_with(&NONCE)
}

/// The body of the blob that stands for the one of a name. Takes no memory.
pub fn blob_body(name: &Name) -> [u8; 36]
    ensures body { result ≡ NONCE ++ name.now.bytes }
    ensures stands { stood_for NONCE Blob result ≡ Some name.now.bytes }
{
    behind_nonce(name.bytes.as_slice())
}

/// The body of the commit that stands for the one of a name, and has its tree. Cost: its length.
pub fn commit_body<A: Allocator + Copy>(
    alloc: A,
    tree: Name,
    name: &Name,
) -> Result<Vec<u8, A>, AllocError>
    ensures { IfOk result (λ body. StandsForCommit tree.bytes name.now.bytes body.items) }
{
    let mut body = Vec::new(alloc);
    body.extend_from_slice(b"tree ")?;
    body.extend_from_slice(&tree.hex())?;
    body.push(b'\n')?;
    body.extend_from_slice(HEADER)?;
    body.extend_from_slice(&blob_body(name))?;
    Ok(body)
}

/// The nonce, and the 20 bytes of a name.
fn behind_nonce(name: &[u8]) -> [u8; 36]
    requires { length name.now ≡ 20 }
    ensures body { result ≡ NONCE ++ name.now }
    ensures bytes { IsTrue (is_name name.now) }
{
    let mut body = [0; 36];
    body[..16].copy_from_slice(&NONCE);
    body[16..].copy_from_slice(name);
    body
}
