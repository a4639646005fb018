//! Stores of each version: plain texts, which are of version 1 or 2, and growing texts, which are of version 3.
#![tactic(auto)]

mod forms;
mod opening;
mod sending;
mod verifying;

pub use forms::{StoreForm, form_of};
pub use gx_growing::GrowingFault;
pub use gx_growing_file::WriteFault;
pub use opening::open_store;
pub use sending::send_store;
pub use verifying::{VerifyFault, verify_store};
