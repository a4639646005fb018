//! Names found by their fronts, past the names that begin otherwise.

ghost use Rattle.std.specs.Prelude.{◌≡◌, ◌<◌, ◌≤◌, [], length, OnOk, IfOk, IsTrue, vec_len, vec_capacity};
ghost use Rattle.std.specs.List.{list_all};
ghost use Rattle.indexmap.specs.IndexMap.{index_map_len, keys};
ghost use Rattle.gx_model.specs.Objects.{is_name};
ghost use Rattle.gx_store.specs.Chains.{AreFronts, AreFrontsIn, DropsLast, PutsLast, chain_of, found_in, front};
ghost use Rattle.gx_store.specs.NameOrder.{is_within};
ghost use Rattle.gx_store.specs.Prefixes.{found_between, joined};

use crate::Prefix;
use gx_object::Name;
use indexmap::IndexMap;
use std::alloc::{AllocError, Allocator};
use std::hash::RandomState;

/// Names in chains, which are as many as the names or more. Names stand in the chains in the order of their fronts, their
/// first four bytes, and in a chain the last that came is the first.
#[derive(Drop)]
pub(crate) struct Fronts<A: Allocator> {
    /// For each chain how many names there are up to the last that is its own, or 0 where none is.
    heads: Vec<usize, A>,
    /// For each name the same of its chain among the names before it.
    next: Vec<usize, A>,
}

impl<A: Allocator + Copy> Fronts<A> {
    /// No chain. Takes no memory.
    pub(crate) fn new(alloc: A) -> Fronts<A>
        ensures { AreFronts result [] }
    {
        Fronts {
            heads: Vec::new(alloc),
            next: Vec::new(alloc),
        }
    }

    /// Makes room for one name more: where there are as many names as chains, twice as many chains.
    ///
    /// A refusal leaves the chains as they were. Cost: constant, or the number of names where the chains are made anew,
    /// which is one step for each name that comes, on average. Memory: while they are made, the new chains beside the old.
    pub(crate) fn reserve<V>(
        &mut self,
        alloc: A,
        names: &IndexMap<Name, V, RandomState, A>,
    ) -> Result<(), AllocError>
        requires { AreFronts self.old (keys names.now) }
        ensures fronts { AreFronts self.new (keys names.now) }
        ensures room { OnOk result (index_map_len names.now < length self.new.heads.items) }
    {
        if names.len() < self.heads.len() {
            return Ok(());
        }
        *self = Fronts::of(alloc, names, names.len().max(4) * 2)?;
        Ok(())
    }

    /// Puts a name behind the others. Cost: constant. Takes no memory.
    pub(crate) fn put(&mut self, name: &Name)
        requires chains { vec_len self.old.next < vec_len self.old.heads }
        requires room { vec_len self.old.heads ≤ vec_capacity self.old.next }
        ensures fronts { PutsLast self.old self.new name.now }
        ensures chains { length self.new.heads.items ≡ length self.old.heads.items }
    {
        let chain = chain_of(name, self.heads.len());
        self.next.push_reserved(self.heads[chain]);
        self.heads[chain] = self.next.len();
    }

    /// Drops the last name. Cost: constant. Takes no memory.
    pub(crate) fn pop(&mut self, name: &Name)
        requires { 0 < vec_len self.old.heads }
        ensures { DropsLast self.old self.new name.now }
    {
        if let Some(before) = self.next.pop() {
            let chain = chain_of(name, self.heads.len());
            self.heads[chain] = before;
        }
    }

    /// Puts these names in place of all, into the chains that there are. Cost: the chains and the names. Takes no memory.
    pub(crate) fn refill<V>(&mut self, names: &IndexMap<Name, V, RandomState, A>)
        requires chains { index_map_len names.now ≤ vec_len self.old.heads }
        requires room { vec_len self.old.heads ≤ vec_capacity self.old.next }
        ensures { AreFronts self.new (keys names.now) }
    {
        self.heads.fill(0);
        self.next.clear();
        for place in 0..names.len() {
            let Some((name, _)) = names.get_index(place) else {
                unreachable!()
            };
            self.put(name);
        }
    }

    /// What lies between two names, both included.
    ///
    /// Cost: the chains from the first one's to the second's and the names in them, up to the second name that is found.
    pub(crate) fn between<V>(
        &self,
        names: &IndexMap<Name, V, RandomState, A>,
        ends: &(Name, Name),
    ) -> Prefix
        requires fronts { AreFronts self.now (keys names.now) }
        requires names { IsTrue (list_all (λ name. is_name name.bytes) (keys names.now)) }
        ensures { result ≡ found_between ends.now (keys names.now) }
    {
        let mut found = Prefix::Absent;
        if self.heads.is_empty() {
            return found;
        }
        let first = chain_of(&ends.0, self.heads.len());
        let last = chain_of(&ends.1, self.heads.len());
        for chain in first..last + 1 {
            found = self.with_chain(names, chain, ends, found);
            if let Prefix::Ambiguous = found {
                return found;
            }
        }
        found
    }

    /// What is found with the names of a chain that lie between two, both included.
    fn with_chain<V>(
        &self,
        names: &IndexMap<Name, V, RandomState, A>,
        chain: usize,
        ends: &(Name, Name),
        mut found: Prefix,
    ) -> Prefix
        requires fronts { AreFronts self.now (keys names.now) }
        requires within { chain < length self.now.heads.items }
        ensures { result ≡ joined found (found_in self.now chain ends.now (keys names.now)) }
    {
        let mut end = self.heads[chain];
        while end > 0 {
            let place = end - 1;
            let Some((name, _)) = names.get_index(place) else {
                unreachable!()
            };
            if is_between(name, ends) {
                match found {
                    Prefix::Absent => found = Prefix::Unique(*name),
                    _ => return Prefix::Ambiguous,
                }
            }
            end = self.next[place];
        }
        found
    }

    /// These names, in so many chains.
    fn of<V>(
        alloc: A,
        names: &IndexMap<Name, V, RandomState, A>,
        chains: usize,
    ) -> Result<Fronts<A>, AllocError>
        requires { index_map_len names.now < chains }
        ensures { IfOk result (λ fronts. AreFrontsIn chains fronts (keys names.now)) }
    {
        let mut fronts = Fronts::with_chains(alloc, chains)?;
        for place in 0..names.len() {
            let Some((name, _)) = names.get_index(place) else {
                unreachable!()
            };
            fronts.put(name);
        }
        Ok(fronts)
    }

    /// So many chains, of no names.
    fn with_chains(alloc: A, chains: usize) -> Result<Fronts<A>, AllocError>
        ensures { IfOk result (λ fronts. AreFrontsIn chains fronts []) }
    {
        let mut heads = Vec::new(alloc);
        heads.resize(chains, 0)?;
        let next = Vec::with_capacity(alloc, chains)?;
        Ok(Fronts { heads, next })
    }
}

/// The chain of a name's front, of so many.
fn chain_of(name: &Name, chains: usize) -> usize
    requires { 0 < chains }
    ensures chain { result ≡ chain_of chains name.now }
    ensures within { result < chains }
    ensures bytes { IsTrue (is_name name.now.bytes) }
{
    let front = front(name.bytes.as_slice());
    (u128::from(front) * chains as u128 / 4_294_967_296) as usize
}

/// The number that the first four bytes of a name are.
fn front(bytes: &[u8]) -> u32
    requires { length bytes.now ≡ 20 }
    ensures front { result ≡ front bytes.now }
    ensures bytes { IsTrue (is_name bytes.now) }
{
    u32::from_be_bytes([bytes[0], bytes[1], bytes[2], bytes[3]])
}

/// Whether a name lies between two, both included.
fn is_between(name: &Name, ends: &(Name, Name)) -> bool
    ensures { result ≡ is_within ends.now.0.bytes ends.now.1.bytes name.now.bytes }
{
    ends.0.cmp(name).is_le() && ends.1.cmp(name).is_ge()
}
