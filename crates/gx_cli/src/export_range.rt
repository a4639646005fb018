//! The export of what range words give. Source: git-fast-export(1), and gitrevisions(7), "Specifying Ranges".

ghost use Rattle.gx_text.specs.Lent.{lent_texts};
ghost use Rattle.gx_cli.specs.Forms.{SendsRange};

use crate::CliFault;
use crate::words::{ranges_of, refused};
use gx_export::{RangeFault, export_range};
use gx_object::Namer;
use gx_repo::Repo;
use gx_text::Sink;
use std::alloc::Allocator;

/// Exports what range words give of a repository. The stream goes out as it is made.
///
/// `Revision`: the first word that isn't a range word, or else the first that gives nothing, by its number from 1. `Export`:
/// the export stops. Cost: that of `gx_export::export_range`.
pub(crate) fn export_words<N: Namer, W: Sink, A: Allocator + Copy>(
    alloc: A,
    repo: &Repo<N, A>,
    done: bool,
    words: &[&[u8]],
    sink: &mut W,
) -> Result<(), CliFault>
    ensures { SendsRange (N.name_of repo.now.0) done repo.now.1 (lent_texts words.now)
        (W.taken sink.old) (W.taken sink.new) result }
{
    let ranges = ranges_of(alloc, words)?;
    match export_range(alloc, repo, ranges.as_slice(), sink, done) {
        Ok(()) => Ok(()),
        Err(RangeFault::Walk(fault)) => Err(refused(fault.word as u64, fault.kind)),
        Err(RangeFault::Export(fault)) => Err(CliFault::Export(fault)),
    }
}
