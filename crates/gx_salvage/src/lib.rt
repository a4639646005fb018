//! What can be saved of a store that is damaged. So far that is a growing text by its other slot.
#![tactic(auto)]

mod other_slot;

pub use other_slot::OtherSlot;
