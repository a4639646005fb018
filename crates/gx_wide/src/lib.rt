//! Commits and tags as Git has them, with any further headers, and repositories of these: definitions, worked rows and laws, as
//! gx_model has those of what streams can say. As there, a law is the contract of a public function with an empty body.
#![tactic(auto)]

pub mod wide_laws;
