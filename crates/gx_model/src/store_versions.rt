//! The versions of a store file's text.

/// Version 2 has each record's name in the line before its body, version 1 hasn't.
#[derive(Clone, Copy, Debug, PartialEq, Eq)]
pub enum Version {
    One,
    Two,
}
