//! Streams of other converters, with the lines changed that are read otherwise here than by git: identities without a name,
//! deleted branches, paths that begin with a quote, and lines about marks and features. Blocks stay as they are, but for
//! signatures that are to be dropped.
#![tactic(auto)]

mod adapting;
mod course;
mod fault;
mod laws;
mod losses;
mod lot;
mod marks;
mod path;
mod report;
mod text;

pub use adapting::{Adapted, adapt};
pub use fault::AdaptFault;
pub use laws::{blocks_are_kept, quoted_paths_are_kept};
pub use report::Report;
