//! Objects that aren't saved.

ghost use Rattle.std.specs.Prelude.{◌≡◌, None, OnOk};
ghost use Rattle.gx_model.specs.Texts.{Bytes};
ghost use Rattle.gx_reached.specs.Damages.{Enters, damage_in};

use crate::{Cause, Damage};
use gx_object::Name;
use std::alloc::{AllocError, Allocator};
use std::collections::BTreeMap;

/// Names of objects that aren't saved, each with what is damaged: itself, or what it leads to.
#[derive(Drop)]
pub struct Bad<A: Allocator> {
    damages: BTreeMap<Name, Damage, A>,
}

impl<A: Allocator + Copy> Bad<A> {
    /// No names. Takes no memory.
    pub fn new(alloc: A) -> Bad<A>
        ensures { (called : Bytes) → damage_in result called ≡ None }
    {
        Bad {
            damages: BTreeMap::new(alloc),
        }
    }

    /// What is damaged of an object. Cost: the logarithm of their number. Takes no memory.
    pub fn damage(&self, name: &Name) -> Option<Damage>
        ensures { result ≡ damage_in self.now name.now.bytes }
    {
        match self.damages.get(name) {
            Some(damage) => Some(*damage),
            None => None,
        }
    }

    /// Enters what is damaged of an object. Cost: the logarithm of their number.
    pub fn enter(&mut self, name: &Name, damage: Damage) -> Result<(), AllocError>
        ensures { OnOk result (Enters self.old self.new name.now.bytes damage) }
    {
        self.damages.insert(*name, damage)?;
        Ok(())
    }

    /// Enters an object that is damaged itself. Cost: the logarithm of their number.
    pub fn enter_itself(&mut self, name: &Name, cause: Cause) -> Result<(), AllocError>
        ensures { OnOk result (Enters self.old self.new name.now.bytes
            (record { object = name.now; cause = cause })) }
    {
        let object = *name;
        self.enter(name, Damage { object, cause })
    }
}
