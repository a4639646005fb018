//! The growing text of those objects of a store that its refs reach, or a bundle of them, made while one body at a time is held.
//! It is asked of whatever holds objects, which are listed before.
#![tactic(auto)]

mod beyond;
mod bundle_fault;
pub mod bundle_laws;
mod bundled;
mod bundling;
mod collecting;
mod fault;
mod gone;
mod layout;
mod links;
mod listing;
mod marking;
mod sending;

pub use bundle_fault::BundleFault;
pub use bundled::Bundled;
pub use bundling::{bundle, pack};
pub use collecting::{collect, rewrite};
pub use fault::KeptFault;
pub use listing::list;
