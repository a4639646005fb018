//! The texts of a stream and of a repository: numbers, ref names, identities and paths, each read by its written grammar.
//! It also has the devices that streams come from and go to, over memory and over the system's readers and writers.
#![tactic(auto)]

mod cuts;
mod device;
mod digits;
mod fault;
mod ident;
mod memory;
mod number;
mod outside;
mod path;
mod printed;
mod quoted;
mod ref_name;

pub use cuts::cut;
pub use device::{Failed, PIECE, Sink, Source, send};
pub use digits::are_hex_digits;
pub use fault::TextFault;
pub use ident::Ident;
pub use memory::{Bytes, Growing, Held};
pub use number::{decimal, mark_number};
pub use outside::{FromRead, IntoWrite};
pub use path::{MOST_BYTES, TreePath};
pub use printed::put_printed;
pub use quoted::after_quoted;
pub use ref_name::is_ref_name;
