//! An offer in its parts: the objects and the refs.

ghost use Rattle.std.specs.Prelude.{◌≡◌, IfOk, IsTrue};
ghost use Rattle.gx_offered.specs.Items.{shown_offer};
ghost use Rattle.gx_taken.specs.Parts.{ArePartsOf, is_named, shown_labels};
ghost use Rattle.gx_taken.specs.Taking.{number_named};

use gx_object::Name;
use gx_offered::{Offered, OfferedObject, OfferedRef};
use std::alloc::{AllocError, Allocator};

/// The item of an object that is given: its number, from 1, and the object's name.
#[derive(Clone, Copy, Debug)]
pub(crate) struct Label {
    pub(crate) number: usize,
    pub(crate) name: Name,
}

/// What is to become of a ref, and the number of its item, from 1.
#[derive(Drop)]
pub(crate) struct RefItem<A: Allocator> {
    pub(crate) number: usize,
    pub(crate) offered: OfferedRef<A>,
}

/// The objects that are given, in the order of the text, the label of each, and the refs.
#[derive(Drop)]
pub(crate) struct Parts<A: Allocator> {
    pub(crate) objects: Vec<OfferedObject<A>, A>,
    pub(crate) labels: Vec<Label, A>,
    pub(crate) refs: Vec<RefItem<A>, A>,
}

/// The parts of these items.
pub(crate) fn parts_of<A: Allocator + Copy>(
    alloc: A,
    items: Vec<Offered<A>, A>,
) -> Result<Parts<A>, AllocError>
    ensures { IfOk result (λ parts. ArePartsOf (shown_offer items) parts) }
{
    let mut objects = Vec::new(alloc);
    let mut labels = Vec::new(alloc);
    let mut refs = Vec::new(alloc);
    for item in items {
        let number = labels.len() + refs.len() + 1;
        match item {
            Offered::Object(object) => {
                labels.push(Label {
                    number,
                    name: object.name,
                })?;
                objects.push(object)?;
            }
            Offered::Ref(offered) => refs.push(RefItem { number, offered })?,
        }
    }
    Ok(Parts {
        objects,
        labels,
        refs,
    })
}

/// The number of the first item that gives the object of this name.
pub(crate) fn number_of(labels: &[Label], name: &Name) -> usize
    requires { IsTrue (is_named (shown_labels labels.now) name.now.bytes) }
    ensures { result ≡ number_named (shown_labels labels.now) name.now.bytes }
{
    for label in labels {
        if label.name == *name {
            return label.number;
        }
    }
    unreachable!()
}
