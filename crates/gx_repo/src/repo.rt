//! Repositories: a store of objects, and refs that hold some of them.
ghost use Rattle.std.specs.Prelude.{◌≡◌, [], take, Some, IsTrue, IfOk, IsOkAnd};
ghost use Rattle.std.specs.FinMap.Entries.{is_sorted};
ghost use Rattle.gx_model.specs.Texts.{byte_cmp};
ghost use Rattle.gx_model.specs.Revisions.Denotation.{ref_names};
ghost use Rattle.gx_model.specs.Objects.{IsTagText, TagParts as Parts};
ghost use Rattle.gx_model.specs.Records.Lookups.{commit_named};
ghost use Rattle.gx_model.specs.Laws.RepositoryLaws.{with_records};
ghost use Rattle.gx_model.specs.Records.Sound.{IsSound};
ghost use Rattle.gx_object.specs.Parts.{bytes_if};
ghost use Rattle.gx_repo.specs.Refs.{FindsFirst, FindsObject, place_behind};
ghost use Rattle.gx_repo.specs.Objects.{AreTargets};

use crate::earlier::Hints;
use crate::fault::OutOfMemory;
use crate::ref_list::RefList;
use crate::refs::Refs;
use gx_model::repository_laws::parts_change;
use gx_object::{Kind, Name, Namer, decode_tag};
use gx_store::Store;
use std::alloc::Allocator;
use std::hash::RandomState;
use std::marker::Model;

/// Objects in the order in which they were added, and refs in the byte order of their names.
///
/// It is seen as the namer, and its records and refs, which are sound.
#[derive(Drop)]
pub struct Repo<N: Namer, A: Allocator> {
    pub(crate) store: Store<N, A>,
    /// Of the first records, by their places; those of the records behind them are entered later.
    pub(crate) rooms: Vec<usize, A>,
    pub(crate) hints: Hints<A>,
    pub(crate) refs: RefList<A>,
    pub(crate) alloc: A,
}

impl<N: Namer, A: Allocator> Model for Repo<N, A> {
    ghost use Rattle.gx_model.specs.Histories.{Records};
    ghost use Rattle.gx_repo.specs.Repositories.{IsRepository, held_in};

    ghost Value = { N × Records };

    ghost view = { λ s. (s.store.0, held_in s.store.1 s.refs) };

    ghost invariant = { λ s. IsRepository N.name_of s.store s.refs s.rooms.items };
}

impl<N: Namer, A: Allocator + Copy> Repo<N, A> {
    /// A repository with no objects and no refs, whose hashes are keyed by this state. Takes no memory.
    pub fn new(alloc: A, namer: N, state: RandomState) -> Repo<N, A>
        ensures { result ≡ (namer, record { records = []; refs = [] }) }
    {
        Repo {
            store: Store::new(alloc, namer, state),
            rooms: Vec::new(alloc),
            hints: Hints::new(alloc),
            refs: RefList::new(alloc),
            alloc,
        }
    }

    /// Each repository is sound. Takes no memory.
    pub fn sound(&self)
        ensures { IsSound (N.name_of self.now.0) self.now.1 }
    {
        let _ = &self.store;
    }

    /// Its objects; they are sound with the refs. Takes no memory.
    pub fn store(&self) -> &Store<N, A>
        ensures held { result.now ≡ (self.now.0, self.now.1.records) }
        ensures sound { IsSound (N.name_of self.now.0) self.now.1 }
    {
        &self.store
    }

    /// Its refs, in the byte order of their names; they are sound with the objects. Takes no memory.
    pub fn refs(&self) -> Refs<'_, A>
        ensures held { result ≡ self.now.1.refs }
        ensures sorted { IsTrue (is_sorted byte_cmp result) }
        ensures sound { IsSound (N.name_of self.now.0) self.now.1 }
    {
        self.refs.refs()
    }

    /// The commit that a held commit is, or that a held tag names; none for any other name.
    ///
    /// Cost: a look-up for each tag, and its body. Takes no memory. Source: gitrevisions(7), on `^{}`.
    pub fn peel(&self, name: &Name) -> Option<Name>
        ensures commit { bytes_if result ≡ commit_named self.now.1.records name.now.bytes }
        ensures sound { IsSound (N.name_of self.now.0) self.now.1 }
    {
        let (kind, body) = self.store.get(name)?;
        match kind {
            Kind::Commit => Some(*name),
            Kind::Tag => tag_object(body),
            _ => None,
        }
    }

    /// The object of the first ref among the name itself, and the name after `refs/`, `refs/tags/`, `refs/heads/` and
    /// `refs/remotes/`, and after `refs/remotes/` with `/HEAD` behind it.
    ///
    /// Cost: six binary searches among the refs. No growth is needed, so none is refused.
    /// Source: gitrevisions(7), "refname".
    pub fn find_ref(&self, name: &[u8]) -> Result<Option<Name>, OutOfMemory>
        ensures { IsOkAnd result (FindsFirst self.now.1.refs (ref_names name.now)) }
    {
        Ok(self.refs.find_by_names(name))
    }

    /// The object of the ref of this name, and the place behind the ref's own among all refs, which is the number of the refs
    /// that have this name or an earlier one, be it held or not.
    ///
    /// Cost: one comparison where the ref stands at the place that is passed, as each does when refs are asked for in the
    /// byte order of their names, each at the place that the answer before gave; otherwise a binary search. Takes no memory.
    /// Source: gitglossary(7), "ref".
    pub fn ref_near(&self, place: usize, name: &[u8]) -> (usize, Option<Name>)
        ensures object { FindsObject self.now.1.refs name.now result.1 }
        ensures place { result.0 ≡ place_behind self.now.1.refs name.now }
    {
        self.refs.find_near(place, name)
    }

    /// Copies of its refs.
    ///
    /// `OutOfMemory`: a growth was refused. Cost and memory: the refs. Source: gitglossary(7), "ref".
    pub fn copy_refs(&self) -> Result<RefList<A>, OutOfMemory>
        ensures { IfOk result (λ refs. refs ≡ self.now.1.refs) }
    {
        self.refs.copied(self.alloc)
    }

    /// Keeps the first `len` objects alone, and all where there are no more. The refs' objects are among these.
    ///
    /// Cost: what is dropped. Takes no memory. Source: gitglossary(7), "object database".
    pub fn truncate(&mut self, len: usize)
        requires targets { AreTargets (take len self.now.1.records) self.now.1.refs }
        ensures { self.new ≡ (self.old.0, with_records self.old.1 (take len self.old.1.records)) }
    {
        parts_change();
        self.store.truncate(len);
        self.rooms.truncate(len);
    }
}

/// The commit that a tag's body names.
fn tag_object(body: &[u8]) -> Option<Name>
    ensures { (parts : Parts) → IsTagText parts body.now → bytes_if result ≡ Some parts.object }
{
    match decode_tag(body) {
        Ok(tag) => Some(tag.object()),
        Err(_) => None,
    }
}
