//! The line of a modify.

ghost use Rattle.std.specs.Prelude.{IsTrue};
ghost use Rattle.gx_command.specs.Places.{is_suited_place};

use crate::texts::Digits;
use gx_model::Mode;
use gx_text::TreePath;
use std::alloc::Allocator;

/// What the line of a modify says.
#[derive(Drop)]
pub(crate) struct ModifyLine<A: Allocator> {
    pub(crate) mode: Mode,
    pub(crate) place: Place,
    pub(crate) path: TreePath<A>,
    ghost suits: { IsTrue (is_suited_place mode place) },
}

/// Where a modify's bytes are.
#[derive(Clone, Copy)]
pub(crate) enum Place {
    Mark(u64),
    Name(Digits),
    Block,
}
