//! A push into a repository of which no more is read than its lines and its stream ask for: an import over a small repository, and
//! what is left of its refs, by their lines.
#![tactic(auto)]

mod fault;
mod pushing;
mod settling;
mod wants;

pub use fault::WholePush;
pub use gx_growing_import::Imported;
pub use pushing::{look_at_lines, push_over};
