//! Lists of refs, in which each name is found by a binary search. Source: gitglossary(7), "ref".
ghost use Rattle.std.specs.Prelude.{◌≡◌, ◌++◌, [], drop, length, map, IfOk, IsTrue};
ghost use Rattle.std.specs.FinMap.Entries.{is_sorted, put};
ghost use Rattle.std.specs.List.Sorted.{IsBinarySearchResult, IsSearchInRange};
ghost use Rattle.gx_model.specs.Revisions.Denotation.{ref_names};
ghost use Rattle.gx_model.specs.Texts.{byte_cmp};
ghost use Rattle.gx_repo.specs.Refs.{FindsFirst, FindsObject, is_ref_held, place_behind, shown_ref};

use crate::fault::OutOfMemory;
use crate::refs::{Ref, Refs};
use gx_object::Name;
use std::alloc::{AllocError, Allocator};
use std::cmp::Ordering;
use std::marker::Model;

/// Refs in the byte order of their names, each of which has its own. It is seen as the list of them.
#[derive(Drop)]
pub struct RefList<A: Allocator> {
    pub(crate) refs: Vec<Ref<A>, A>,
}

impl<A: Allocator> Model for RefList<A> {
    ghost use Rattle.std.specs.Prelude.{List, ℕ, map};
    ghost use Rattle.gx_repo.specs.Refs.{AreInOrder, shown_ref};

    ghost Value = { List (List ℕ × List ℕ) };

    ghost view = { λ s. map shown_ref s.refs.items };

    ghost invariant = { λ s. AreInOrder s.refs.items };
}

impl<A: Allocator + Copy> RefList<A> {
    /// The refs, in the byte order of their names. Takes no memory.
    pub fn refs(&self) -> Refs<'_, A>
        ensures held { result ≡ self.now }
        ensures sorted { IsTrue (is_sorted byte_cmp result) }
    {
        Refs {
            rest: self.refs.as_slice(),
        }
    }

    /// No refs. Takes no memory.
    pub(crate) fn new(alloc: A) -> RefList<A>
        ensures { result ≡ [] }
    {
        RefList {
            refs: Vec::new(alloc),
        }
    }

    /// Copies of these refs.
    pub(crate) fn copied(&self, alloc: A) -> Result<RefList<A>, OutOfMemory>
        ensures { IfOk result (λ copies. copies ≡ self.now) }
    {
        let refs = copied(alloc, self.refs.as_slice())?;
        Ok(RefList { refs })
    }

    /// The object of the first ref among the names that a word stands for, in their order.
    pub(crate) fn find_by_names(&self, word: &[u8]) -> Option<Name>
        ensures { FindsFirst self.now (ref_names word.now) result }
    {
        if let Some(found) = self.find(b"", word, b"") {
            return Some(found);
        }
        if let Some(found) = self.find(b"refs/", word, b"") {
            return Some(found);
        }
        if let Some(found) = self.find(b"refs/tags/", word, b"") {
            return Some(found);
        }
        self.find_branch(word)
    }

    /// The object of a branch's ref, or else of one that a remote repository has.
    fn find_branch(&self, word: &[u8]) -> Option<Name>
        ensures { FindsFirst self.now (drop 3 (ref_names word.now)) result }
    {
        if let Some(found) = self.find(b"refs/heads/", word, b"") {
            return Some(found);
        }
        if let Some(found) = self.find(b"refs/remotes/", word, b"") {
            return Some(found);
        }
        self.find(b"refs/remotes/", word, b"/HEAD")
    }

    /// The object of the ref whose name is these three together.
    fn find(&self, before: &[u8], word: &[u8], after: &[u8]) -> Option<Name>
        ensures { FindsObject self.now (before.now ++ word.now ++ after.now) result }
    {
        let refs = self.refs.as_slice();
        let found = refs.binary_search_by(|held| compare(
            held.name.as_slice(),
            before,
            word,
            after,
        ));
        match found {
            Ok(place) => Some(refs[place].object),
            Err(_) => None,
        }
    }

    /// The object of the ref of this name, and the place behind the ref's own, or the one that it would have. It is looked for
    /// at a place first.
    pub(crate) fn find_near(&self, place: usize, name: &[u8]) -> (usize, Option<Name>)
        ensures object { FindsObject self.now name.now result.1 }
        ensures place { result.0 ≡ place_behind self.now name.now }
    {
        let refs = self.refs.as_slice();
        if let Some(held) = refs.get(place) {
            if held.name.as_slice() == name {
                return (place + 1, Some(held.object));
            }
        }
        match place_of(refs, name) {
            Ok(found) => (found + 1, Some(refs[found].object)),
            Err(missing) => (missing, None),
        }
    }

    /// Whether a ref of this name is held.
    pub(crate) fn is_held(&self, name: &[u8]) -> bool
        ensures { result ≡ is_ref_held self.now name.now }
    {
        self.find_near(0, name).1.is_some()
    }

    /// Sets the object of a ref that is held. Takes no memory.
    pub(crate) fn set_object(&mut self, name: &[u8], object: Name)
        requires held { IsTrue (is_ref_held self.now name.now) }
        ensures { self.new ≡ put byte_cmp name.now object.bytes self.old }
    {
        let Ok(place) = place_of(self.refs.as_slice(), name) else {
            unreachable!();
        };
        self.refs[place].object = object;
    }
}

/// Copies of these refs.
fn copied<A: Allocator + Copy>(alloc: A, refs: &[Ref<A>]) -> Result<Vec<Ref<A>, A>, AllocError>
    ensures { IfOk result (λ copies. map shown_ref copies.items ≡ map shown_ref refs.now) }
{
    let mut copies = Vec::new(alloc);
    for held in refs {
        let name = Vec::from_slice(alloc, held.name.as_slice())?;
        copies.push(Ref {
            name,
            object: held.object,
        })?;
    }
    Ok(copies)
}

/// The place of the ref of this name, or the one that it would have.
fn place_of<A: Allocator + Copy>(refs: &[Ref<A>], name: &[u8]) -> Result<usize, usize>
    ensures bound { IsSearchInRange result (length refs.now) }
    ensures place { IsBinarySearchResult
        (λ held. byte_cmp held.name.items name.now) refs.now result }
{
    refs.binary_search_by(|held| held.name.as_slice().cmp(name))
}

/// How a text stands to three others together, in byte order.
fn compare(text: &[u8], before: &[u8], word: &[u8], after: &[u8]) -> Ordering
    ensures { result ≡ byte_cmp text.now (before.now ++ word.now ++ after.now) }
{
    let (front, rest) = text.split_at(usize::min(before.len(), text.len()));
    let (middle, end) = rest.split_at(usize::min(word.len(), rest.len()));
    front
        .cmp(before)
        .then(middle.cmp(word))
        .then(end.cmp(after))
}
