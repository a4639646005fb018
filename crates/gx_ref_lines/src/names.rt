//! The ref names that a word may stand for. Source: gitrevisions(7), "refname".

ghost use Rattle.std.specs.Prelude.{◌≡◌, ◌++◌, map, IfOk};
ghost use Rattle.gx_model.specs.Revisions.Denotation.{ref_names};

use std::alloc::{AllocError, Allocator};

/// The ref names that the base of a revision may stand for, in the order in which they are looked for.
///
/// Cost and memory: six times the base. Source: gitrevisions(7), "refname".
pub fn ref_names<A: Allocator + Copy>(
    alloc: A,
    base: &[u8],
) -> Result<Vec<Vec<u8, A>, A>, AllocError>
    ensures { IfOk result (λ names. map (λ name. name.items) names.items ≡ ref_names base.now) }
{
    let mut names = Vec::new(alloc);
    names.push(joined(alloc, b"", base, b"")?)?;
    names.push(joined(alloc, b"refs/", base, b"")?)?;
    names.push(joined(alloc, b"refs/tags/", base, b"")?)?;
    names.push(joined(alloc, b"refs/heads/", base, b"")?)?;
    names.push(joined(alloc, b"refs/remotes/", base, b"")?)?;
    names.push(joined(alloc, b"refs/remotes/", base, b"/HEAD")?)?;
    Ok(names)
}

/// Three texts, one behind the other.
fn joined<A: Allocator + Copy>(
    alloc: A,
    front: &[u8],
    middle: &[u8],
    end: &[u8],
) -> Result<Vec<u8, A>, AllocError>
    ensures { IfOk result (λ text. text.items ≡ front.now ++ middle.now ++ end.now) }
{
    let mut text = Vec::from_slice(alloc, front)?;
    text.extend_from_slice(middle)?;
    text.extend_from_slice(end)?;
    Ok(text)
}
