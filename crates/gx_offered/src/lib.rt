//! Texts of refs and objects, as `git for-each-ref` and `git cat-file --batch` print them, read whole: the items in their order, or
//! the first fault, with the number of its item. Each object has the name that the text tells.
#![tactic(auto)]

mod fault;
mod item;
mod offer;
mod offered;
mod source;

pub use fault::{ItemFault, OfferFault};
pub use offer::{offer_in, read_offer};
pub use offered::{Offered, OfferedObject, OfferedRef};
