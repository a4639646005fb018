//! The objects of a repository that an import is to have at hand. Nothing rests on which these are: where one is missing, the
//! stream goes the whole way.

ghost use Rattle.gx_small_repo.specs.Small.{TellsDamage};

use crate::SmallFault;
use crate::base::base_given;
use crate::commits::{enter, enter_parents, first_without, peeled};
use gx_asked::Asked;
use gx_object::{Kind, Name, decode_commit, decode_tag};
use gx_objects::Objects;
use gx_ref_lines::{RefLines, ref_names};
use gx_rev::{Revision, Suffix};
use std::alloc::Allocator;
use std::collections::{BTreeMap, BTreeSet};

/// So many commits are put into a small repository at most.
const MOST_COMMITS: usize = 4096;

/// So many commits are looked at between those that texts give and those that branches hold.
const MOST_BETWEEN: usize = 256;

/// The objects and refs that are wanted.
#[derive(Drop)]
pub(crate) struct Wanted<A: Allocator> {
    alloc: A,
    /// The names of refs that are asked for or set, and held.
    pub(crate) refs: BTreeSet<Vec<u8, A>, A>,
    /// The objects by their places, so that each stands behind what it names.
    pub(crate) objects: BTreeMap<u64, (Kind, Name), A>,
    /// So many more commits may be wanted.
    left: usize,
    /// The commits that the texts give, and those that the branches hold which are set, by their places.
    given: BTreeMap<u64, Name, A>,
    held: BTreeMap<u64, Name, A>,
}

impl<A: Allocator + Copy> Wanted<A> {
    /// What is asked for, and what it leads to.
    pub(crate) fn of<O: Objects>(
        alloc: A,
        objects: &O,
        asked: &Asked<A>,
        lines: &RefLines<'_, A>,
    ) -> Result<Wanted<A>, SmallFault>
        ensures fault { TellsDamage (O.told objects.now) result }
    {
        let mut wanted = Wanted {
            alloc,
            refs: BTreeSet::new(alloc),
            objects: BTreeMap::new(alloc),
            left: MOST_COMMITS,
            given: BTreeMap::new(alloc),
            held: BTreeMap::new(alloc),
        };
        let mut room = Vec::new(alloc);
        wanted.want_refs(objects, &mut room, asked, lines)?;
        for text in asked.texts.iter() {
            wanted.want_way(objects, &mut room, text.as_slice())?;
        }
        wanted.want_between(objects, &mut room)?;
        Ok(wanted)
    }

    /// Wants what the branches hold that are set, and what bases give.
    fn want_refs<O: Objects>(
        &mut self,
        objects: &O,
        room: &mut Vec<u8, A>,
        asked: &Asked<A>,
        lines: &RefLines<'_, A>,
    ) -> Result<(), SmallFault>
        ensures fault { TellsDamage (O.told objects.now) result }
    {
        for branch in asked.branches.iter() {
            self.want_branch(objects, room, lines, branch.as_slice())?;
        }
        for base in asked.bases.iter() {
            self.want_base(objects, room, lines, base.as_slice())?;
        }
        Ok(())
    }

    /// Wants what a branch holds that is set.
    fn want_branch<O: Objects>(
        &mut self,
        objects: &O,
        room: &mut Vec<u8, A>,
        lines: &RefLines<'_, A>,
        name: &[u8],
    ) -> Result<(), SmallFault>
        ensures fault { TellsDamage (O.told objects.now) result }
    {
        self.want_ref(objects, room, lines, name)?;
        if let Some(object) = lines.find(name) {
            if let Some(commit) = peeled(objects, room, &object)? {
                enter(&mut self.held, objects, &commit)?;
            }
        }
        Ok(())
    }

    /// Wants a ref, where it is held.
    fn want_ref<O: Objects>(
        &mut self,
        objects: &O,
        room: &mut Vec<u8, A>,
        lines: &RefLines<'_, A>,
        name: &[u8],
    ) -> Result<(), SmallFault>
        ensures fault { TellsDamage (O.told objects.now) result }
    {
        let Some(object) = lines.find(name) else {
            return Ok(());
        };
        self.refs.insert(Vec::from_slice(self.alloc, name)?)?;
        self.want(objects, room, &object)
    }

    /// Wants what a base gives, and the refs that it may stand for.
    fn want_base<O: Objects>(
        &mut self,
        objects: &O,
        room: &mut Vec<u8, A>,
        lines: &RefLines<'_, A>,
        base: &[u8],
    ) -> Result<(), SmallFault>
        ensures fault { TellsDamage (O.told objects.now) result }
    {
        for name in ref_names(self.alloc, base)? {
            self.want_ref(objects, room, lines, name.as_slice())?;
        }
        match base_given(objects, base)? {
            Ok(name) => self.want(objects, room, &name),
            Err(_) => Ok(()),
        }
    }

    /// Wants what stands on the way of a revision's suffixes.
    fn want_way<O: Objects>(
        &mut self,
        objects: &O,
        room: &mut Vec<u8, A>,
        text: &[u8],
    ) -> Result<(), SmallFault>
        ensures fault { TellsDamage (O.told objects.now) result }
    {
        let Ok(revision) = Revision::read(self.alloc, text) else {
            return Err(SmallFault::OutOfMemory);
        };
        let Ok(mut at) = base_given(objects, revision.base())? else {
            return Ok(());
        };
        for suffix in revision.suffixes() {
            let Some(next) = self.want_suffix(objects, room, &at, *suffix)? else {
                return Ok(());
            };
            at = next;
        }
        if let Some(commit) = peeled(objects, room, &at)? {
            enter(&mut self.given, objects, &commit)?;
        }
        Ok(())
    }

    /// Wants the commits between those that texts give and those that branches hold which no text gives, which may be moved
    /// there; not more than some.
    fn want_between<O: Objects>(
        &mut self,
        objects: &O,
        room: &mut Vec<u8, A>,
    ) -> Result<(), SmallFault>
        ensures fault { TellsDamage (O.told objects.now) result }
    {
        let Some(oldest) = first_without(&self.held, &self.given) else {
            return Ok(());
        };
        for _step in 0..MOST_BETWEEN {
            match self.given.pop_last() {
                Some((place, commit)) if place > oldest => {
                    self.want_parents(objects, room, &commit, 0)?;
                    enter_parents(&mut self.given, objects, room, &commit)?;
                }
                _ => return Ok(()),
            }
        }
        Ok(())
    }

    /// Wants an object, and of a tag the commit.
    fn want<O: Objects>(
        &mut self,
        objects: &O,
        room: &mut Vec<u8, A>,
        name: &Name,
    ) -> Result<(), SmallFault>
        ensures fault { TellsDamage (O.told objects.now) result }
    {
        let Some(object) = objects.object(name, room)? else {
            return Ok(());
        };
        if object.kind == Kind::Tag {
            let commit = decode_tag(object.body)?.object();
            self.want_commit(objects, &commit)?;
        }
        if object.kind == Kind::Commit {
            return self.want_commit(objects, name);
        }
        if let Some(place) = objects.place(name)? {
            self.objects.insert(place, (object.kind, *name))?;
        }
        Ok(())
    }

    /// Wants a commit.
    fn want_commit<O: Objects>(&mut self, objects: &O, name: &Name) -> Result<(), SmallFault>
        ensures fault { TellsDamage (O.told objects.now) result }
    {
        let Some(place) = objects.place(name)? else {
            return Ok(());
        };
        if self.objects.contains_key(&place) {
            return Ok(());
        }
        if self.left == 0 {
            return Err(SmallFault::TooMany);
        }
        self.left -= 1;
        self.objects.insert(place, (Kind::Commit, *name))?;
        Ok(())
    }

    /// Wants what a suffix goes by, and answers what it gives, where it is a commit or a tag.
    fn want_suffix<O: Objects>(
        &mut self,
        objects: &O,
        room: &mut Vec<u8, A>,
        at: &Name,
        suffix: Suffix,
    ) -> Result<Option<Name>, SmallFault>
        ensures fault { TellsDamage (O.told objects.now) result }
    {
        match suffix {
            Suffix::Itself | Suffix::Tag => Ok(Some(*at)),
            Suffix::Blob | Suffix::Tree => Ok(None),
            Suffix::Peeled | Suffix::Commit => peeled(objects, room, at),
            Suffix::Parent(number) => self.want_parent(objects, room, at, number),
            Suffix::Ancestor(number) => self.want_ancestors(objects, room, at, number),
        }
    }

    /// Wants the parents of what an object peels to, and answers the one of this number; for 0, what it peels to.
    fn want_parent<O: Objects>(
        &mut self,
        objects: &O,
        room: &mut Vec<u8, A>,
        at: &Name,
        number: u64,
    ) -> Result<Option<Name>, SmallFault>
        ensures fault { TellsDamage (O.told objects.now) result }
    {
        let commit = peeled(objects, room, at)?;
        if number == 0 {
            return Ok(commit);
        }
        match commit {
            Some(commit) => self.want_parents(objects, room, &commit, (number - 1) as usize),
            None => Ok(None),
        }
    }

    /// Wants so many first parents with the others, and answers the last.
    fn want_ancestors<O: Objects>(
        &mut self,
        objects: &O,
        room: &mut Vec<u8, A>,
        at: &Name,
        number: u64,
    ) -> Result<Option<Name>, SmallFault>
        ensures fault { TellsDamage (O.told objects.now) result }
    {
        let Some(mut commit) = peeled(objects, room, at)? else {
            return Ok(None);
        };
        for _step in 0..number {
            let Some(parent) = self.want_parents(objects, room, &commit, 0)? else {
                return Ok(None);
            };
            commit = parent;
        }
        Ok(Some(commit))
    }

    /// Wants the parents of a commit, and answers the one at this place.
    fn want_parents<O: Objects>(
        &mut self,
        objects: &O,
        room: &mut Vec<u8, A>,
        commit: &Name,
        place: usize,
    ) -> Result<Option<Name>, SmallFault>
        ensures fault { TellsDamage (O.told objects.now) result }
    {
        let Some(object) = objects.object(commit, room)? else {
            return Ok(None);
        };
        if object.kind != Kind::Commit {
            return Ok(None);
        }
        let view = decode_commit(object.body)?;
        for number in 0..view.parent_count() {
            if let Some(parent) = view.parent(number) {
                self.want_commit(objects, &parent)?;
            }
        }
        Ok(view.parent(place))
    }
}
