//! The objects that an object names. Source: gitglossary(7), "reachable".

ghost use Rattle.std.specs.Prelude.{◌≡◌, ◌++◌, ◌∷◌, [], map, OnOk};
ghost use Rattle.std.specs.List.{filter_map};
ghost use Rattle.std.specs.Option.{option_map};
ghost use Rattle.gx_model.specs.declared.objects.Kind.TheVariants as kinds;
ghost use Rattle.gx_object.specs.Entries.{shown};
ghost use Rattle.gx_wide.specs.Placing.{entry_link};
ghost use Rattle.gx_links.specs.Links.{TellsLinks, link_in, shown_link};

use crate::LinksFault;
use gx_object::{Entry, Kind, Mode, Name, decode_commit, decode_tag, decode_tree};
use std::alloc::{AllocError, Allocator};

/// An object that is named, and the kind that it is to have.
#[derive(Clone, Copy, Debug, PartialEq, Eq, Drop)]
pub struct Link {
    pub kind: Kind,
    pub name: Name,
}

/// What the body of an object of a kind names, in its order: a tree's entries, but gitlinks; a commit's tree, and its parents;
/// what a tag tags. A blob names nothing.
///
/// `BadBody`: the body isn't a canonical one of its kind that a repository holds. `OutOfMemory`: a growth was refused.
/// Cost: the body's length. Memory: a link each. Source: gitglossary(7), "reachable".
pub fn links_of<A: Allocator + Copy>(
    alloc: A,
    kind: Kind,
    body: &[u8],
) -> Result<Vec<Link, A>, LinksFault>
    ensures { TellsLinks kind body.now result }
{
    match kind {
        Kind::Blob => Ok(Vec::new(alloc)),
        Kind::Tree => links_of_tree(alloc, body),
        Kind::Commit => links_of_commit(alloc, body),
        Kind::Tag => link_of_tag(alloc, body),
    }
}

/// What the entries of a tree name.
fn links_of_tree<A: Allocator + Copy>(alloc: A, body: &[u8]) -> Result<Vec<Link, A>, LinksFault>
    ensures { TellsLinks kinds.Tree body.now result }
{
    let Ok(entries) = decode_tree(body) else {
        return Err(LinksFault::BadBody);
    };
    let mut links = Vec::new(alloc);
    for entry in entries {
        push_entry(&mut links, &entry)?;
    }
    Ok(links)
}

/// Pushes what an entry names.
fn push_entry<A: Allocator + Copy>(
    links: &mut Vec<Link, A>,
    entry: &Entry<'_>,
) -> Result<(), AllocError>
    ensures { OnOk result (map shown_link links.new.items
        ≡ map shown_link links.old.items ++ filter_map link_in (shown entry.now ∷ [])) }
{
    match link_of(entry) {
        Some(link) => {
            links.push(link)?;
            Ok(())
        }
        None => Ok(()),
    }
}

/// What an entry names. A gitlink is no link.
fn link_of(entry: &Entry<'_>) -> Option<Link>
    ensures { option_map shown_link result ≡ entry_link entry.now.mode entry.now.name.bytes }
{
    let name = entry.name;
    match entry.mode {
        Mode::Gitlink => None,
        Mode::Dir => Some(Link {
            kind: Kind::Tree,
            name,
        }),
        Mode::File | Mode::Exec | Mode::Link => Some(Link {
            kind: Kind::Blob,
            name,
        }),
    }
}

/// The tree and the parents of a commit.
fn links_of_commit<A: Allocator + Copy>(alloc: A, body: &[u8]) -> Result<Vec<Link, A>, LinksFault>
    ensures { TellsLinks kinds.Commit body.now result }
{
    let Ok(commit) = decode_commit(body) else {
        return Err(LinksFault::BadBody);
    };
    let mut links = Vec::new(alloc);
    push(&mut links, Kind::Tree, commit.tree())?;
    for number in 0..commit.parent_count() {
        let Some(parent) = commit.parent(number) else {
            unreachable!();
        };
        push(&mut links, Kind::Commit, parent)?;
    }
    Ok(links)
}

/// What a tag tags, which is a commit.
fn link_of_tag<A: Allocator + Copy>(alloc: A, body: &[u8]) -> Result<Vec<Link, A>, LinksFault>
    ensures { TellsLinks kinds.Tag body.now result }
{
    let Ok(tag) = decode_tag(body) else {
        return Err(LinksFault::BadBody);
    };
    let mut links = Vec::new(alloc);
    push(&mut links, Kind::Commit, tag.object())?;
    Ok(links)
}

/// Pushes an object of a kind.
fn push<A: Allocator + Copy>(
    links: &mut Vec<Link, A>,
    kind: Kind,
    name: Name,
) -> Result<(), AllocError>
    ensures { OnOk result (map shown_link links.new.items
        ≡ map shown_link links.old.items ++ (kind, name.bytes) ∷ []) }
{
    links.push(Link { kind, name })?;
    Ok(())
}
