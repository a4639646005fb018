//! Why objects aren't saved.

use gx_object::Name;

/// Why an object isn't saved.
#[derive(Clone, Copy, Debug, PartialEq, Eq, Drop)]
pub enum Cause {
    /// No object is found under the name.
    Missing,
    /// What stands where the object is to stand isn't that object.
    Damaged,
    /// A read failed.
    ReadFailed,
    /// The body isn't a canonical one of its kind. Or an entry names a tree without entries, or a path below the tree has more
    /// than 4,095 bytes.
    BadObject,
    /// A link leads to an object of another kind, or to one that doesn't stand before.
    Dangling,
    /// The ref may not hold it: it is neither a commit nor a tag whose own name makes the ref's.
    WrongKind,
}

/// What is damaged: the name of an object, and why it isn't saved.
#[derive(Clone, Copy, Debug, PartialEq, Eq, Drop)]
pub struct Damage {
    pub object: Name,
    pub cause: Cause,
}
