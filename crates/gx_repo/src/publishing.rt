//! Changes of refs. Source: git-check-ref-format(1).
ghost use Rattle.std.specs.Prelude.{◌≡◌, [], false, map, IsTrue, IfOk, OnErr, OnOk, None, IfErr};
ghost use Rattle.std.specs.FinMap.Entries.{is_sorted};
ghost use Rattle.gx_model.specs.Texts.{byte_cmp};
ghost use Rattle.gx_repo.specs.Refs.{are_held, shown_update, shown_ref, ref_of};
ghost use Rattle.gx_repo.specs.Publishing.{Enters, HidesNoRefusal, IsAgainstChange, IsAgainstFirst, fault_of};
ghost use Rattle.gx_model.specs.Records.Publishing.{with_changes, change_fault, changes_fault, published};
ghost use Rattle.gx_model.specs.Faults.{Gives};

use crate::fault::PublishFault;
use crate::ref_list::RefList;
use crate::refs::Ref;
use crate::repo::Repo;
use crate::target::is_target;
use gx_model::repository_laws::parts_change;
use gx_object::{Name, Namer};
use gx_text::is_ref_name;
use std::alloc::{AllocError, Allocator};
use std::collections::BTreeMap;

/// A ref to be set: its name, and the object that it is to hold.
#[derive(Clone, Copy, Debug)]
pub struct RefChange<'a> {
    pub name: &'a [u8],
    pub target: Name,
}

impl<N: Namer, A: Allocator + Copy> Repo<N, A> {
    /// Sets all of these refs, or none. A later change of one name wins, and refs that are not named stay.
    ///
    /// The first change that is refused is answered: `BadRefName`: the name isn't that of a ref. `UnknownObject`: the
    /// object isn't held. `WrongKind`: it is neither a commit nor a tag whose own name makes the ref's.
    /// `OutOfMemory`: a growth was refused; that is only where no change is refused and one names a ref that isn't held. After
    /// a fault the repository is as it was.
    /// Cost: for each change a look-up of its object, and two binary searches among the refs. Where a change names a ref that
    /// isn't held, in proportion to the refs and changes, times the logarithm of their number. No growth is needed otherwise.
    /// Source: git-check-ref-format(1), and gitglossary(7), "ref".
    #[tactic(auto, unfolding(gx_model::specs::Records::Publishing::published))]
    pub fn publish(&mut self, changes: &[RefChange<'_>]) -> Result<(), PublishFault>
        ensures namer { self.new.0 ≡ self.old.0 }
        ensures records { self.new.1.records ≡ self.old.1.records }
        ensures refs { Gives fault_of (λ _. self.new.1.refs) result
            (published self.old.1 (map shown_update changes.now)) }
        ensures unchanged { OnErr result (self.new ≡ self.old) }
        ensures unhidden { HidesNoRefusal self.old.1 (map shown_update changes.now) result }
    {
        parts_change();
        self.check_all(changes)?;
        self.refs.change(self.alloc, changes)?;
        Ok(())
    }

    /// Answers why the first of these changes that is refused is.
    fn check_all(&self, changes: &[RefChange<'_>]) -> Result<(), PublishFault>
        ensures ok { OnOk result
            (changes_fault self.now.1.records (map shown_update changes.now) ≡ None) }
        ensures fault { IfErr result (IsAgainstFirst self.now.1.records changes.now) }
    {
        for change in changes {
            self.check(change)?;
        }
        Ok(())
    }

    /// Answers why a change is refused.
    fn check(&self, change: &RefChange<'_>) -> Result<(), PublishFault>
        ensures ok { OnOk result
            (change_fault self.now.1.records (shown_update change.now) ≡ None) }
        ensures fault { IfErr result (IsAgainstChange self.now.1.records change.now) }
    {
        if !is_ref_name(change.name) {
            return Err(PublishFault::BadRefName);
        }
        let Some((kind, body)) = self.store.get(&change.target) else {
            return Err(PublishFault::UnknownObject);
        };
        if is_target(change.name, kind, body) {
            Ok(())
        } else {
            Err(PublishFault::WrongKind)
        }
    }
}

impl<A: Allocator + Copy> RefList<A> {
    /// Makes the changes in turn. Where a growth is refused the refs are as they were; none is needed where all are held.
    pub(crate) fn change(&mut self, alloc: A, changes: &[RefChange<'_>]) -> Result<(), AllocError>
        ensures set { OnOk result
            (self.new ≡ with_changes self.old (map shown_update changes.now)) }
        ensures unchanged { OnErr result (self.new ≡ self.old) }
        ensures missing { OnErr result (are_held self.old (map shown_update changes.now) ≡ false) }
    {
        if self.are_held(changes) {
            self.set_objects(changes);
            return Ok(());
        }
        *self = self.with_changes(alloc, changes)?;
        Ok(())
    }

    /// Whether each of these changes is one of a ref that is held.
    fn are_held(&self, changes: &[RefChange<'_>]) -> bool
        ensures { result ≡ are_held self.now (map shown_update changes.now) }
    {
        for change in changes {
            if !self.is_held(change.name) {
                return false;
            }
        }
        true
    }

    /// Makes the changes in turn, which are of refs that are held. Takes no memory.
    fn set_objects(&mut self, changes: &[RefChange<'_>])
        requires held { IsTrue (are_held self.now (map shown_update changes.now)) }
        ensures { self.new ≡ with_changes self.old (map shown_update changes.now) }
    {
        for change in changes {
            self.set_object(change.name, change.target);
        }
    }

    /// Copies of these refs, with the changes made in turn.
    fn with_changes(&self, alloc: A, changes: &[RefChange<'_>]) -> Result<RefList<A>, AllocError>
        ensures { IfOk result (λ made. made
            ≡ with_changes self.now (map shown_update changes.now)) }
    {
        let mut objects = BTreeMap::new(alloc);
        self.enter_into(alloc, &mut objects)?;
        for change in changes {
            enter(alloc, &mut objects, change.name, change.target)?;
        }
        let refs = in_order(alloc, objects)?;
        Ok(RefList { refs })
    }

    /// Enters the objects of refs, each by a copy of its ref's name, where none is entered before.
    fn enter_into(
        &self,
        alloc: A,
        objects: &mut BTreeMap<Vec<u8, A>, Name, A>,
    ) -> Result<(), AllocError>
        requires none { objects.old.entries ≡ [] }
        ensures entered { OnOk result (map ref_of objects.new.entries ≡ self.now) }
        ensures sorted { IsTrue (is_sorted byte_cmp self.now) }
    {
        for held in self.refs.as_slice() {
            enter(alloc, objects, held.name.as_slice(), held.object)?;
        }
        Ok(())
    }
}

/// Enters an object by a copy of a ref's name.
fn enter<A: Allocator + Copy>(
    alloc: A,
    objects: &mut BTreeMap<Vec<u8, A>, Name, A>,
    name: &[u8],
    object: Name,
) -> Result<(), AllocError>
    ensures { OnOk result (Enters objects.old.entries objects.new.entries name.now object) }
{
    let name = Vec::from_slice(alloc, name)?;
    objects.insert(name, object)?;
    Ok(())
}

/// The refs of objects by their names, in the byte order of names.
fn in_order<A: Allocator + Copy>(
    alloc: A,
    objects: BTreeMap<Vec<u8, A>, Name, A>,
) -> Result<Vec<Ref<A>, A>, AllocError>
    ensures { IfOk result (λ refs. map shown_ref refs.items ≡ map ref_of objects.entries) }
{
    let mut refs = Vec::new(alloc);
    add_in_order(&mut refs, objects)?;
    Ok(refs)
}

/// Adds the refs of objects by their names, in the byte order of names.
fn add_in_order<A: Allocator + Copy>(
    refs: &mut Vec<Ref<A>, A>,
    objects: BTreeMap<Vec<u8, A>, Name, A>,
) -> Result<(), AllocError>
    requires { refs.old.items ≡ [] }
    ensures { OnOk result (map shown_ref refs.new.items ≡ map ref_of objects.entries) }
{
    for (name, object) in objects {
        refs.push(Ref { name, object })?;
    }
    Ok(())
}
