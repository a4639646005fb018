//! What C holds of a repository.

ghost use Rattle.std.specs.Prelude.{◌≡◌, is_some};

use crate::held::Held;

/// A call was accepted.
pub(crate) const DONE: u32 = 0;

/// A call was refused, and its word tells why.
pub(crate) const REFUSED: u32 = 1;

/// A call on a handle that isn't open.
pub(crate) const CLOSED: u32 = 2;

/// A handle to be opened that is open.
pub(crate) const IN_USE: u32 = 3;

/// There was no memory for what a handle holds.
pub(crate) const OUT_OF_MEMORY: u32 = 4;

/// A handle: whether it is open, and what it holds then. Who calls makes it of zeros, and changes it by these calls
/// alone.
#[repr(C)]
#[derive(Drop)]
pub struct Store {
    pub is_open: bool,
    pub held: Held,
    ghost tells: { is_some held.value ≡ is_open },
}
