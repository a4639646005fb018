//! The definitions and laws of growing stores: texts that take what is new behind what they have, with their tables of names
//! inside. As in gx_model, a law is the contract of a public function with an empty body.
#![tactic(auto)]

mod fault;
pub mod growing_laws;
pub mod growth_laws;

pub use fault::GrowingFault;
