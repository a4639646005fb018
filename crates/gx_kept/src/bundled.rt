//! What a bundle tells.

use gx_object::Name;

/// What a bundle tells, and with it which objects it has: all that its refs and its HEAD reach, but for what its reader has.
#[derive(Clone, Copy, Debug)]
pub struct Bundled<'a> {
    /// The lines of its refs, as `Objects::ref_lines` has them.
    pub refs: &'a [u8],
    /// The commit that HEAD is, where that is told. One that isn't held reaches nothing.
    pub head: Option<Name>,
    /// The names of objects that its reader has, with all that they reach.
    pub had: &'a [Name],
}
