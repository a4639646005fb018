//! Refs that are dropped. Source: git-update-ref(1), "delete".
ghost use Rattle.std.specs.Prelude.{◌≡◌, ◌+◌, ◌<◌, ◌^◌, [], OnErr};
ghost use Rattle.gx_repo.specs.Dropping.{Drops, EntersNames, HidesNoUnknown, IsAgainstNames, is_among, is_entered};
ghost use Rattle.gx_text.specs.Lent.{lent_texts};
ghost use Rattle.gx_repo.specs.declared.fault.DropFault.TheVariants.{UnknownRef};
ghost use Rattle.gx_model.specs.Laws.RepositoryLaws.{values_of};

use crate::fault::DropFault;
use crate::ref_list::RefList;
use crate::repo::Repo;
use gx_model::repository_laws::parts_change;
use gx_object::Namer;
use std::alloc::Allocator;
use std::collections::BTreeSet;

impl<N: Namer, A: Allocator + Copy> Repo<N, A> {
    /// Drops the refs of all of these names, or none. Other refs stay, and so do all objects.
    ///
    /// `UnknownRef`: the first name that no ref has, or that is given before. `OutOfMemory`: a growth was refused, and no name is
    /// unknown. After a fault the repository is as it was.
    /// Cost: for each name a binary search among the refs, and for each ref a look-up among the names. Where a growth is refused,
    /// each name is compared with all before it. Memory: the places of the names. Source: git-update-ref(1), "delete", and
    /// gitglossary(7), "ref".
    pub fn drop_refs(&mut self, names: &[&[u8]]) -> Result<(), DropFault>
        ensures namer { self.new.0 ≡ self.old.0 }
        ensures records { self.new.1.records ≡ self.old.1.records }
        ensures refs { Drops self.old.1.refs self.new.1.refs (lent_texts names.now) result }
        ensures values { values_of self.new.1 ≡ values_of self.old.1 }
        ensures unchanged { OnErr result (self.new ≡ self.old) }
        ensures unhidden { HidesNoUnknown self.old.1.refs (lent_texts names.now) result }
    {
        parts_change();
        self.refs.drop_named(self.alloc, names)?;
        Ok(())
    }
}

impl<A: Allocator + Copy> RefList<A> {
    /// Drops the refs of these names, or tells the first name that is unknown. After a fault the refs are as they were.
    fn drop_named(&mut self, alloc: A, names: &[&[u8]]) -> Result<(), DropFault>
        ensures dropped { Drops self.old self.new (lent_texts names.now) result }
        ensures unchanged { OnErr result (self.new ≡ self.old) }
        ensures unhidden { HidesNoUnknown self.old (lent_texts names.now) result }
    {
        let mut dropped = BTreeSet::new(alloc);
        enter_names(&mut dropped, self, names)?;
        self.refs
            .retain(|held| !is_in(&dropped, held.name.as_slice()));
        Ok(())
    }
}

/// Enters these names, or tells the first that no ref has, or that was entered before. Memory is wanting only where there is
/// none.
fn enter_names<'a, A: Allocator + Copy>(
    entered: &mut BTreeSet<&'a [u8], A>,
    refs: &RefList<A>,
    names: &[&'a [u8]],
) -> Result<(), DropFault>
    requires none { entered.old.keys ≡ [] }
    ensures { EntersNames refs.now entered.new names.now result }
{
    for (place, name) in names.iter().enumerate() {
        if !refs.is_held(name) {
            return Err(unknown(place));
        }
        let Ok(is_new) = entered.insert(*name) else {
            return Err(first_unknown(refs, names));
        };
        if !is_new {
            return Err(unknown(place));
        }
    }
    Ok(())
}

/// The fault of the first name that no ref has, or that is given before; `OutOfMemory` where there is none. Takes no memory.
fn first_unknown<A: Allocator + Copy>(refs: &RefList<A>, names: &[&[u8]]) -> DropFault
    ensures { IsAgainstNames refs.now (lent_texts names.now) result }
{
    for (place, name) in names.iter().enumerate() {
        if !refs.is_held(name) {
            return unknown(place);
        }
        if is_among(&names[..place], name) {
            return unknown(place);
        }
    }
    DropFault::OutOfMemory
}

/// Whether a name is one of these.
fn is_among(names: &[&[u8]], name: &[u8]) -> bool
    ensures { result ≡ is_among (lent_texts names.now) name.now }
{
    for given in names {
        if *given == name {
            return true;
        }
    }
    false
}

/// The fault of the name at this place.
fn unknown(place: usize) -> DropFault
    requires { place < 2 ^ 63 }
    ensures { result ≡ UnknownRef (place + 1) }
{
    DropFault::UnknownRef {
        number: place as u64 + 1,
    }
}

/// Whether a name was entered.
fn is_in<A: Allocator + Copy>(entered: &BTreeSet<&[u8], A>, name: &[u8]) -> bool
    ensures { result ≡ is_entered entered.now name.now }
{
    entered.contains(name)
}
