//! The lines of the refs that a bundle tells. Source: gitformat-bundle(5).

ghost use Rattle.std.specs.Prelude.{◌≡◌, ◌&&◌, ◌||◌, codes, map, not, IfErr, IfOk, IsTrue};
ghost use Rattle.std.specs.FinMap.Entries.{is_sorted};
ghost use Rattle.std.specs.List.{filter, flat_map, list_any};
ghost use Rattle.gx_model.specs.Stores.StoreText.{stored_ref};
ghost use Rattle.gx_model.specs.Texts.{byte_cmp, same_bytes};
ghost use Rattle.gx_objects.specs.declared.fault.LookFault.TheVariants.{OutOfMemory};
ghost use Rattle.gx_ref_lines.specs.Refs.{shown_refs};
ghost use Rattle.gx_rev.specs.Views.{shown_range};
ghost use Rattle.gx_bundled.specs.Named.{is_told, told_refs};

use crate::named::names_of;
use gx_object::Name;
use gx_objects::{LookFault, put_ref};
use gx_ref_lines::RefLines;
use gx_rev::Range;
use std::alloc::{AllocError, Allocator};

/// The lines of those refs that words name, or of all; but for HEAD's, where HEAD is told otherwise.
pub(crate) fn told_lines<A: Allocator + Copy>(
    alloc: A,
    held: &RefLines<'_, A>,
    words: &[Range<A>],
    all: bool,
    with_head: bool,
) -> Result<Vec<u8, A>, LookFault>
    requires sorted { IsTrue (is_sorted byte_cmp (shown_refs held.now.refs.items)) }
    ensures lines { IfOk result (λ lines. lines.items ≡ flat_map stored_ref
        (told_refs all with_head (map shown_range words.now) (shown_refs held.now.refs.items))) }
    ensures memory { IfErr result (λ fault. fault ≡ OutOfMemory) }
{
    let names = names_of(alloc, held, words)?;
    Ok(lines_of(
        alloc,
        held.refs.as_slice(),
        names.as_slice(),
        all,
        with_head,
    )?)
}

/// The lines of those refs that have one of these names, or of all; but for HEAD's, where HEAD is told otherwise.
fn lines_of<A: Allocator + Copy>(
    alloc: A,
    refs: &[(&[u8], Name)],
    names: &[Vec<u8, A>],
    all: bool,
    with_head: bool,
) -> Result<Vec<u8, A>, AllocError>
    ensures { IfOk result (λ lines. lines.items ≡ flat_map stored_ref (filter
        (λ ref. is_told all with_head (map (λ name. name.items) names.now) ref.0)
        (shown_refs refs.now))) }
{
    let mut lines = Vec::new(alloc);
    for (name, object) in refs {
        if is_told(names, all, with_head, name) {
            put_ref(&mut lines, name, object)?;
        }
    }
    Ok(lines)
}

/// Whether the ref of this name is told, where these are named.
fn is_told<A: Allocator>(names: &[Vec<u8, A>], all: bool, with_head: bool, name: &[u8]) -> bool
    ensures { result ≡ is_told all with_head (map (λ one. one.items) names.now) name.now }
{
    if with_head && name == b"HEAD".as_slice() {
        return false;
    }
    all || is_among(names, name)
}

/// Whether this is one of the names.
fn is_among<A: Allocator>(names: &[Vec<u8, A>], name: &[u8]) -> bool
    ensures { result ≡ list_any (same_bytes name.now) (map (λ one. one.items) names.now) }
{
    for one in names {
        if name == one.as_slice() {
            return true;
        }
    }
    false
}
