//! What a stream is refused for. Source: git-fast-import(1).

ghost use Rattle.std.specs.Prelude.{◌≡◌, None};
ghost use Rattle.gx_model.specs.Histories.{empty_repository};
ghost use Rattle.gx_cli.specs.Explained.{ExplainsCommand};
ghost use Rattle.gx_cli.specs.Retold.{RetellsFound};
ghost use Rattle.gx_cli.specs.Trying.{FindsFault};

use crate::CliFault;
use crate::try_stream::import_alone;
use gx_import::Explanation;
use gx_model::Features;
use gx_object::Namer;
use gx_text::{Growing, Source};
use std::alloc::Allocator;
use std::hash::RandomState;

/// Imports a stream into an empty store of which nothing is kept, and answers what it is refused for. These features are asked for
/// as if the stream began with them. Nothing is printed, no line of `progress` either.
///
/// `Import`: the import is refused; what that is about is told, as `gx_import::import_explained` does. `OutOfMemory`: a growth was
/// refused for the lines of `progress`, and nothing is told.
/// Cost: that of the import. Memory: that of the import, and those lines.
pub fn find_fault<N: Namer + Drop, A: Allocator + Copy, R: Source + Drop>(
    alloc: A,
    namer: N,
    source: R,
    features: Features,
    state: RandomState,
    told: &mut Explanation<A>,
) -> Result<(), CliFault>
    ensures explained { ExplainsCommand (N.name_of namer) features empty_repository
        (R.coming source) result told.new }
    ensures retold { R.coming source ≡ None
        → RetellsFound (N.name_of namer) features result told.new }
    ensures found { FindsFault (N.name_of namer) features (R.coming source) result }
{
    let mut progress = Growing::new(alloc);
    match import_alone(alloc, namer, source, &mut progress, features, state, told) {
        Ok(_) => Ok(()),
        Err(fault) => {
            if progress.has_failed() {
                *told = Explanation::none();
                return Err(CliFault::OutOfMemory);
            }
            Err(CliFault::Import(fault))
        }
    }
}
