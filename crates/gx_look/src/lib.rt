//! A growing store's text of which a question reads what it needs: opened by its head and its last tail, asked for objects by
//! its live runs. What is shown has the name that was asked for, whatever the text holds.
#![tactic(auto)]

mod fill;
mod head;
mod listing;
mod look;
mod records;
mod refs;
mod rows;
mod tail;

pub use look::Look;
pub use refs::{are_refs, find_by_names, without_end};
