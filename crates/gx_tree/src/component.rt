//! The bytes of an entry's component. Most are short and stand in the entry itself, so that a new entry, and one beside a
//! change, takes no memory of its own for them.
ghost use Rattle.std.specs.Prelude.{◌≡◌, IfOk};
ghost use Rattle.gx_tree.specs.Components.{bytes_of};

use arrayvec::ArrayVec;
use std::alloc::{AllocError, Allocator};
use std::rc::Rc;

/// A component's bytes: at most 24 in place, more in memory that all entries made from this one share.
#[derive(Drop)]
pub(crate) enum Component<A: Allocator> {
    Short(ArrayVec<u8, 24>),
    Long(Rc<Vec<u8, A>, A>),
}

impl<A: Allocator + Copy> Component<A> {
    /// That of these bytes. Only one of more than 24 bytes takes memory.
    pub(crate) fn new(alloc: A, bytes: &[u8]) -> Result<Component<A>, AllocError>
        ensures { IfOk result (λ component. bytes_of component ≡ bytes.now) }
    {
        let mut short = ArrayVec::new();
        match short.try_extend_from_slice(bytes) {
            Ok(()) => Ok(Component::Short(short)),
            Err(_) => {
                let long = Vec::from_slice(alloc, bytes)?;
                Ok(Component::Long(Rc::new(alloc, long)?))
            }
        }
    }

    /// The same once more: no memory is taken.
    pub(crate) fn shared(&self) -> Result<Component<A>, AllocError>
        ensures { IfOk result (λ component. bytes_of component ≡ bytes_of self.now) }
    {
        match self {
            Component::Short(bytes) => Ok(Component::Short(copied(bytes))),
            Component::Long(bytes) => Ok(Component::Long(bytes.clone()?)),
        }
    }

    pub(crate) fn as_slice(&self) -> &[u8]
        ensures { result.now ≡ bytes_of self.now }
    {
        match self {
            Component::Short(bytes) => bytes.as_slice(),
            Component::Long(bytes) => bytes.as_slice(),
        }
    }
}

// The same bytes once more; there is room for as many as there are.
fn copied(bytes: &ArrayVec<u8, 24>) -> ArrayVec<u8, 24>
    ensures { result.items ≡ bytes.now.items }
{
    let mut copy = ArrayVec::new();
    let _ = copy.try_extend_from_slice(bytes.as_slice());
    copy
}
