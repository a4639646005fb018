//! Packs whose objects aren't compressed, as Git's own commands take them, on their way to a sink.
#![tactic(auto)]

mod adler;
mod entry;
mod output;
mod pack;
pub mod pack_laws;
mod stored;

pub use pack::Pack;
