//! The parents of commits by their places, for walks that come to one commit many times: each is decoded once.

ghost use Rattle.std.specs.Prelude.{◌≡◌, ◌<◌, ◌++◌, ℕ, List, OnOk, length};
ghost use Rattle.gx_model.specs.declared.objects.Kind.TheVariants as kinds;
ghost use Rattle.gx_rev.specs.Objects.{IsHeldAs, parents_at};
ghost use Rattle.gx_rev.specs.Parents.{AreParentPlaces, HoldsParents, IsCommitPlace, StandAt, parents_in};
ghost use Rattle.gx_model.specs.Histories.{Records};
ghost use Rattle.gx_model.specs.Histories.Values.{list_of};

use crate::objects::view_of;
use crate::reached::{name_at, place_of};
use gx_object::{Name, Namer};
use gx_repo::Repo;
use std::alloc::{AllocError, Allocator};

/// Where the parents of one commit stand among the places: nowhere, where they aren't known or there are none.
#[derive(Clone, Copy, Drop)]
struct Row {
    start: usize,
    end: usize,
}

/// The places of the parents of those commits that were asked for.
#[derive(Drop)]
pub struct Parents<A: Allocator> {
    rows: Vec<Row, A>,
    places: Vec<usize, A>,
    alloc: A,
}

impl<A: Allocator + Copy> Parents<A> {
    /// Of no commit yet. Takes no memory.
    pub fn new(alloc: A) -> Parents<A>
        ensures { (repository : Records) → HoldsParents repository result }
    {
        Parents {
            rows: Vec::new(alloc),
            places: Vec::new(alloc),
            alloc,
        }
    }

    /// Decodes the commit at a place, unless that was done before.
    ///
    /// Cost: the first time the commit's body, and a look-up for each of its parents. Takes a number for each of these, and
    /// once two numbers for each record.
    pub fn learn<N: Namer>(&mut self, repo: &Repo<N, A>, place: usize) -> Result<(), AllocError>
        requires holds { HoldsParents repo.now.1 self.old }
        requires commit { IsCommitPlace repo.now.1 place }
        ensures holds { HoldsParents repo.now.1 self.new }
        ensures known { OnOk result (AreParentPlaces repo.now.1 place (parents_in self.new place)) }
    {
        self.make_rows(repo, place)?;
        self.learn_row(repo, place)
    }

    /// The places of the parents of the commit at a place, in the order of its parents, once it was decoded.
    ///
    /// Cost: constant. Takes no memory.
    pub fn of<N: Namer>(&self, repo: &Repo<N, A>, place: usize) -> &[usize]
        requires { HoldsParents repo.now.1 self.now }
        ensures { result.now ≡ parents_in self.now place }
    {
        if place >= self.rows.len() {
            return &[];
        }
        let row = self.rows[place];
        &self.places[row.start..row.end]
    }

    /// Makes a row for each record, unless there is one for this place.
    fn make_rows<N: Namer>(&mut self, repo: &Repo<N, A>, place: usize) -> Result<(), AllocError>
        requires holds { HoldsParents repo.now.1 self.old }
        requires commit { IsCommitPlace repo.now.1 place }
        ensures holds { HoldsParents repo.now.1 self.new }
        ensures there { OnOk result (place < length self.new.rows.items) }
    {
        if place < self.rows.len() {
            return Ok(());
        }
        let none = Row { start: 0, end: 0 };
        self.rows = vec![in self.alloc; none; repo.store().len()]?;
        Ok(())
    }

    /// Decodes the commit at a place that has a row, unless that was done before.
    fn learn_row<N: Namer>(&mut self, repo: &Repo<N, A>, place: usize) -> Result<(), AllocError>
        requires holds { HoldsParents repo.now.1 self.old }
        requires commit { IsCommitPlace repo.now.1 place }
        requires there { place < length self.old.rows.items }
        ensures holds { HoldsParents repo.now.1 self.new }
        ensures known { OnOk result (AreParentPlaces repo.now.1 place (parents_in self.new place)) }
    {
        repo.sound();
        let row = self.rows[place];
        if row.start < row.end {
            return Ok(());
        }
        let start = self.places.len();
        append_parents(repo, &mut self.places, &name_at(repo, place))?;
        let end = self.places.len();
        self.rows[place] = Row { start, end };
        Ok(())
    }
}

/// Appends the places of the parents of a held commit.
fn append_parents<N: Namer, A: Allocator + Copy>(
    repo: &Repo<N, A>,
    places: &mut Vec<usize, A>,
    commit: &Name,
) -> Result<(), AllocError>
    requires held { IsHeldAs kinds.Commit repo.now.1 commit.now }
    ensures front { (added : List ℕ) × (places.new.items ≡ places.old.items ++ added) }
    ensures parents { OnOk result ((added : List ℕ) × (places.new.items ≡ places.old.items ++ added)
        × StandAt repo.now.1 (list_of (parents_at repo.now.1 commit.now)) added) }
{
    repo.sound();
    let view = view_of(repo, commit);
    for number in 0..view.parent_count() {
        if let Some(parent) = view.parent(number) {
            places.push(place_of(repo, &parent))?;
        }
    }
    Ok(())
}
