//! The refs that range words name. Source: git-bundle(1), and gitrevisions(7), "refname".

ghost use Rattle.std.specs.Prelude.{◌≡◌, ◌++◌, map, IfErr, IfOk, IsTrue, OnOk, Option};
ghost use Rattle.std.specs.FinMap.Entries.{is_sorted};
ghost use Rattle.std.specs.Option.{option_map};
ghost use Rattle.gx_model.specs.Revisions.Denotation.{ref_names};
ghost use Rattle.gx_model.specs.Texts.{byte_cmp};
ghost use Rattle.gx_ref_lines.specs.Refs.{shown_refs};
ghost use Rattle.gx_rev.specs.Views.{shown_range};
ghost use Rattle.gx_bundled.specs.Named.{base_of_ref, first_held, list_of, names_of, names_of_word, ref_of};

use gx_ref_lines::{RefLines, ref_names};
use gx_rev::{Range, Revision, is_full_name};
use std::alloc::{AllocError, Allocator};

/// The names of the refs that words name.
pub(crate) fn names_of<A: Allocator + Copy>(
    alloc: A,
    held: &RefLines<'_, A>,
    words: &[Range<A>],
) -> Result<Vec<Vec<u8, A>, A>, AllocError>
    requires sorted { IsTrue (is_sorted byte_cmp (shown_refs held.now.refs.items)) }
    ensures { IfOk result (λ names. map (λ name. name.items) names.items
        ≡ names_of (shown_refs held.now.refs.items) (map shown_range words.now)) }
{
    let mut names = Vec::new(alloc);
    for word in words {
        add_word(alloc, held, word, &mut names)?;
    }
    Ok(names)
}

/// Adds the names of the refs that a word names: those as which the commits are written that it includes with all that they reach.
fn add_word<A: Allocator + Copy>(
    alloc: A,
    held: &RefLines<'_, A>,
    word: &Range<A>,
    names: &mut Vec<Vec<u8, A>, A>,
) -> Result<(), AllocError>
    requires sorted { IsTrue (is_sorted byte_cmp (shown_refs held.now.refs.items)) }
    ensures { OnOk result (map (λ name. name.items) names.new.items
        ≡ map (λ name. name.items) names.old.items
        ++ names_of_word (shown_refs held.now.refs.items) (shown_range word.now)) }
{
    match word {
        Range::WithAncestors(revision) => add_revision(alloc, held, revision, names),
        Range::Alone(revision) => add_revision(alloc, held, revision, names),
        Range::WithoutOne(revision, _) => add_revision(alloc, held, revision, names),
        Range::Between(_, right) => add_revision(alloc, held, right, names),
        Range::Apart(left, right) => {
            add_revision(alloc, held, left, names)?;
            add_revision(alloc, held, right, names)
        }
        Range::WithoutAncestors(_) | Range::AllParents(_) => Ok(()),
    }
}

/// Adds the name of the ref as which a revision is written, where it is.
fn add_revision<A: Allocator + Copy>(
    alloc: A,
    held: &RefLines<'_, A>,
    revision: &Revision<A>,
    names: &mut Vec<Vec<u8, A>, A>,
) -> Result<(), AllocError>
    requires sorted { IsTrue (is_sorted byte_cmp (shown_refs held.now.refs.items)) }
    ensures { OnOk result (map (λ name. name.items) names.new.items
        ≡ map (λ name. name.items) names.old.items
        ++ list_of (ref_of (shown_refs held.now.refs.items) revision.now)) }
{
    if let Some(base) = base_of_ref(revision) {
        if let Some(name) = first_held(alloc, held, base)? {
            names.push(name)?;
        }
    }
    Ok(())
}

/// What a revision begins with, where nothing follows that and it is no object's name: so refs are written.
fn base_of_ref<A: Allocator>(revision: &Revision<A>) -> Option<&[u8]>
    ensures { option_map (λ base. base.now) result ≡ base_of_ref revision.now }
{
    let base = revision.base();
    if !revision.suffixes().is_empty() || revision.path().is_some() || is_full_name(base) {
        return None;
    }
    Some(base)
}

/// The first of the six names that a base may stand for that a ref has.
fn first_held<A: Allocator + Copy>(
    alloc: A,
    held: &RefLines<'_, A>,
    base: &[u8],
) -> Result<Option<Vec<u8, A>>, AllocError>
    requires sorted { IsTrue (is_sorted byte_cmp (shown_refs held.now.refs.items)) }
    ensures { IfOk result (λ name. option_map (λ bytes. bytes.items) name
        ≡ first_held (shown_refs held.now.refs.items) (ref_names base.now)) }
{
    let names = ref_names(alloc, base)?;
    first_of(alloc, held, names.as_slice())
}

/// The first of these names that a ref has.
fn first_of<A: Allocator + Copy>(
    alloc: A,
    held: &RefLines<'_, A>,
    names: &[Vec<u8, A>],
) -> Result<Option<Vec<u8, A>>, AllocError>
    requires sorted { IsTrue (is_sorted byte_cmp (shown_refs held.now.refs.items)) }
    ensures { IfOk result (λ name. option_map (λ bytes. bytes.items) name
        ≡ first_held (shown_refs held.now.refs.items) (map (λ one. one.items) names.now)) }
{
    for name in names {
        if held.find(name.as_slice()).is_some() {
            return Ok(Some(Vec::from_slice(alloc, name.as_slice())?));
        }
    }
    Ok(None)
}
