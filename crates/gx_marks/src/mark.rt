//! A mark.

use gx_object::Name;

/// A mark, and the object that it names. Source: git-fast-import(1), "mark".
#[derive(Clone, Copy, Debug, PartialEq, Eq)]
pub struct Mark {
    /// Its number, from 1.
    pub number: u64,
    /// The object's name.
    pub name: Name,
}
