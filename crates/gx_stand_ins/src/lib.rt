//! Stand-ins: a small repository whose objects have the names of what a whole one holds, and what an import into it tells of one
//! into the whole. As in gx_model, a law is the contract of a public function with an empty body.
#![tactic(auto)]

mod bodies;
mod stand_in;
pub mod stand_in_laws;

pub use bodies::{NONCE, blob_body, commit_body, may_stand_in};
pub use stand_in::StandIn;
