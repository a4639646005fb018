//! Objects under their names, in the order in which they came.
//! A record never changes, and other bytes under a held name are refused.
#![tactic(auto)]

mod body;
mod fault;
mod fronts;
mod prefix;
mod store;
mod text;

pub use body::Body;
pub use fault::StoreFault;
pub use prefix::{Prefix, names_begun_by};
pub use store::Store;
pub use text::{Text, TextRange};
