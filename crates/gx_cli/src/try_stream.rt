//! A stream, imported into an empty store, and what a revision shows there.

ghost use Rattle.std.specs.Prelude.{◌≡◌, IfErr, IfOk, None};
ghost use Rattle.gx_model.specs.Histories.{empty_repository};
ghost use Rattle.gx_model.specs.Records.HistoryOf.{history_of};
ghost use Rattle.gx_model.specs.Revisions.Denotation.{looked_up};
ghost use Rattle.gx_import.specs.Explaining.{ExplainsAnswer};
ghost use Rattle.gx_cli.specs.Explained.{ExplainsCommand};
ghost use Rattle.gx_cli.specs.Retold.{RetellsAlone, RetellsRefused};
ghost use Rattle.gx_cli.specs.Trying.{ImportsAlone, LooksAs, Tries};

use crate::CliFault;
use crate::show::show;
use gx_import::{Explanation, ImportFault, import_explained};
use gx_model::Features;
use gx_object::{Mode, Namer};
use gx_repo::Repo;
use gx_rev::{RevFault, Revision, look};
use gx_text::{Sink, Source, TreePath};
use std::alloc::Allocator;
use std::hash::RandomState;

/// Imports a stream into an empty store, and then shows a word as a revision. Lines of `progress` go out first. These features
/// are asked for as if the stream began with them.
///
/// `Import`: the import is refused, and nothing is shown. `Revision`: the word isn't a revision, or the revision gives
/// nothing. `WriteFailed`: the sink didn't take all that is shown. `OutOfMemory`: a growth was refused after the import.
/// What a refused import is about is told, as `gx_import::import_explained` does, and nothing of another refusal.
/// Cost: that of the import, that of `Revision::eval`, and what is shown.
pub fn try_revision<N: Namer + Drop, A: Allocator + Copy, R: Source + Drop, W: Sink>(
    alloc: A,
    namer: N,
    word: &[u8],
    source: R,
    sink: &mut W,
    features: Features,
    state: RandomState,
    told: &mut Explanation<A>,
) -> Result<(), CliFault>
    ensures explained { ExplainsCommand (N.name_of namer) features empty_repository
        (R.coming source) result told.new }
    ensures retold { R.coming source ≡ None → RetellsAlone (N.name_of namer) features
        (W.taken sink.old) (W.taken sink.new) result told.new }
    ensures tried { Tries (N.name_of namer) features (R.coming source) word.now
        (W.taken sink.old) (W.taken sink.new) result }
{
    match import_alone(alloc, namer, source, sink, features, state, told) {
        Ok(repo) => show(alloc, &repo, word, sink),
        Err(fault) => Err(CliFault::Import(fault)),
    }
}

/// The repository that a stream's import into an empty store leaves, where these features are asked for. Its history is that of
/// the stream's commands, replayed.
///
/// What a refused import is about is told, as `gx_import::import_explained` does. The faults and the cost are those of `import`.
pub fn import_alone<N: Namer + Drop, A: Allocator + Copy, R: Source + Drop, W: Sink>(
    alloc: A,
    namer: N,
    source: R,
    sink: &mut W,
    features: Features,
    state: RandomState,
    told: &mut Explanation<A>,
) -> Result<Repo<N, A>, ImportFault>
    ensures explained { ExplainsAnswer (N.name_of namer) features empty_repository
        (R.coming source) result told.new }
    ensures retold { IfErr result (λ fault. R.coming source ≡ None
        → RetellsRefused (N.name_of namer) features (W.taken sink.old)
        (W.taken sink.new) fault told.new) }
    ensures namer { IfOk result (λ repo. repo.0 ≡ namer) }
    ensures replayed { ImportsAlone (N.name_of namer) features (R.coming source)
        (W.taken sink.old) (W.taken sink.new) result }
{
    let mut repo = Repo::new(alloc, namer, state);
    match import_explained(alloc, &mut repo, source, sink, features, told) {
        Ok(_) => Ok(repo),
        Err(fault) => Err(fault),
    }
}

/// The mode and the bytes of the file at a path in the tree of a revision: those that the repository's history has there.
///
/// `Revision`: the revision gives no tree, or no file stands at the path. `OutOfMemory`: a growth was refused.
/// Cost: that of `look`.
pub fn look_in<N: Namer, A: Allocator + Copy>(
    alloc: A,
    repo: &Repo<N, A>,
    revision: &Revision<A>,
    path: &TreePath<A>,
) -> Result<(Mode, Vec<u8, A>), CliFault>
    ensures { LooksAs (looked_up (N.name_of repo.now.0) (history_of repo.now.1) revision.now
        path.now) result }
{
    match look(alloc, repo, revision, path) {
        Ok(file) => Ok(file),
        Err(RevFault::OutOfMemory) => Err(CliFault::OutOfMemory),
        Err(kind) => Err(CliFault::Revision { number: 1, kind }),
    }
}
