//! What the body of an object names: each object, with the kind that it is to have, in the body's order. A body that no
//! repository holds is told as none.
#![tactic(auto)]

mod fault;
mod links;

pub use fault::LinksFault;
pub use links::{Link, links_of};
