//! Which refs pass filters, asked of whatever holds objects and refs: by what they point at, by what their commits have behind
//! them or stand behind, and by patterns of their names. One walk goes for a filter, whatever the number of refs.
#![tactic(auto)]

mod filters;
mod passing;
mod patterns;
mod steps;

pub use filters::kept_refs;
