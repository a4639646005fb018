//! The objects that an object names. Source: gitglossary(7), "reachable".

ghost use Rattle.std.specs.Prelude.{◌≡◌, ◌++◌, ◌∷◌, [], map, IfOk, OnOk};
ghost use Rattle.std.specs.List.{filter_map};
ghost use Rattle.std.specs.Option.{option_map};
ghost use Rattle.gx_model.specs.declared.objects.Kind.TheVariants as kinds;
ghost use Rattle.gx_object.specs.Entries.{shown};
ghost use Rattle.gx_reached.specs.Links.{AreLinksOf, entry_link, no_blob, shown_link};

use gx_object::{Entry, Kind, Mode, Name, decode_commit, decode_tag, decode_tree};
use std::alloc::{AllocError, Allocator};

/// An object that is named, and whether it is to be a blob, which names none.
#[derive(Clone, Copy, Drop)]
pub struct Link {
    pub name: Name,
    pub is_blob: bool,
}

/// What a body of a kind names; nothing where it isn't a canonical one.
///
/// `AllocError`: a growth was refused.
/// Cost: the body's length. Memory: 21 bytes a link. Source: gitglossary(7), "reachable".
pub fn links_of<A: Allocator + Copy>(
    alloc: A,
    kind: Kind,
    body: &[u8],
) -> Result<Vec<Link, A>, AllocError>
    ensures { IfOk result (AreLinksOf kind body.now) }
{
    match kind {
        Kind::Blob => Ok(Vec::new(alloc)),
        Kind::Tree => links_of_tree(alloc, body),
        Kind::Commit => links_of_commit(alloc, body),
        Kind::Tag => link_of_tag(alloc, body),
    }
}

/// What the entries of a tree name.
fn links_of_tree<A: Allocator + Copy>(alloc: A, body: &[u8]) -> Result<Vec<Link, A>, AllocError>
    ensures { IfOk result (AreLinksOf kinds.Tree body.now) }
{
    let mut links = Vec::new(alloc);
    let Ok(entries) = decode_tree(body) else {
        return Ok(links);
    };
    for entry in entries {
        push_entry(&mut links, &entry)?;
    }
    Ok(links)
}

/// Pushes what an entry names.
fn push_entry<A: Allocator + Copy>(
    links: &mut Vec<Link, A>,
    entry: &Entry<'_>,
) -> Result<(), AllocError>
    ensures { OnOk result (map shown_link links.new.items
        ≡ map shown_link links.old.items ++ filter_map entry_link (shown entry.now ∷ [])) }
{
    match link_of(entry) {
        Some(link) => {
            links.push(link)?;
            Ok(())
        }
        None => Ok(()),
    }
}

/// What an entry names. A gitlink is no link.
fn link_of(entry: &Entry<'_>) -> Option<Link>
    ensures { option_map shown_link result ≡ entry_link (shown entry.now) }
{
    let name = entry.name;
    match entry.mode {
        Mode::Gitlink => None,
        Mode::Dir => Some(Link {
            name,
            is_blob: false,
        }),
        Mode::File | Mode::Exec | Mode::Link => Some(Link {
            name,
            is_blob: true,
        }),
    }
}

/// The tree and the parents of a commit.
fn links_of_commit<A: Allocator + Copy>(alloc: A, body: &[u8]) -> Result<Vec<Link, A>, AllocError>
    ensures { IfOk result (AreLinksOf kinds.Commit body.now) }
{
    let mut links = Vec::new(alloc);
    let Ok(commit) = decode_commit(body) else {
        return Ok(links);
    };
    push(&mut links, commit.tree())?;
    for number in 0..commit.parent_count() {
        let Some(parent) = commit.parent(number) else {
            unreachable!();
        };
        push(&mut links, parent)?;
    }
    Ok(links)
}

/// The object of a tag.
fn link_of_tag<A: Allocator + Copy>(alloc: A, body: &[u8]) -> Result<Vec<Link, A>, AllocError>
    ensures { IfOk result (AreLinksOf kinds.Tag body.now) }
{
    let mut links = Vec::new(alloc);
    let Ok(tag) = decode_tag(body) else {
        return Ok(links);
    };
    push(&mut links, tag.object())?;
    Ok(links)
}

/// Pushes an object that is no blob.
fn push<A: Allocator + Copy>(links: &mut Vec<Link, A>, name: Name) -> Result<(), AllocError>
    ensures { OnOk result (map shown_link links.new.items
        ≡ map shown_link links.old.items ++ no_blob name.bytes ∷ []) }
{
    links.push(Link {
        name,
        is_blob: false,
    })?;
    Ok(())
}
