//! Imports of whole streams. Source: git-fast-import(1).

ghost use Rattle.std.specs.Prelude.{◌≡◌, None, IfErr, OnErr, OnOk};
ghost use Rattle.gx_import.specs.Exported.{ImportsAnyExport, KeepsSayable, LeaveExports, RefusesNullGitlink};
ghost use Rattle.gx_import.specs.Explaining.{ExplainsAsked, TellsNothing};
ghost use Rattle.gx_import.specs.Imports.{Imports, ImportsAsked, StandsAsked};
ghost use Rattle.gx_import.specs.Keeping.{AreNone, IsLeft};
ghost use Rattle.gx_import.specs.Replaying.{left_by};
ghost use Rattle.gx_import.specs.Retelling.{IsOfOneReplay};
ghost use Rattle.gx_import.specs.Standing.{AreEmpty, Extends};
ghost use Rattle.gx_import.specs.Stopping.{StopsAsked};
ghost use Rattle.gx_model.specs.Records.Sound.{IsSound};
ghost use Rattle.gx_model.specs.Streams.Commands.{no_features};

use crate::checkpoints::Checkpoints;
use crate::publishing::{publish, published_refs};
use crate::replay::replay_commands;
use crate::tables::Tables;
use crate::{Explanation, ImportFault, Report};
use gx_command::{CommandReader, Features};
use gx_model::export_laws::{exports_are_imported, exports_are_readable};
use gx_model::gitlink_laws::nulls_are_refused;
use gx_model::replay_laws::features_are_asked;
use gx_model::repository_laws::{histories_of_records, names_tell_values};
use gx_object::Namer;
use gx_repo::Repo;
use gx_text::{Sink, Source};
use std::alloc::Allocator;

/// Imports a stream: replays its commands one after the other, and at each `checkpoint` and at the end publishes the
/// branches with a commit and the tags. Lines of `progress` go to the sink as they come.
///
/// Each command is read whole before it is applied. Revisions are read over the refs that were published last, before the
/// import or at a checkpoint. A published branch may not lose a commit, unless the stream asks for `force`.
///
/// Errors: those of `ImportKind`, each with its causes there, with the number of the command and that of the checkpoints
/// before it. After a fault the repository is as it was right after the last checkpoint, its objects and its refs; where
/// there was none, it is as it was before. What went to the sink stays there.
///
/// No commit that it makes has a submodule of forty zeros, which an export couldn't bring back: a stream that names one is
/// refused, and so is the export of a store that holds one below a ref.
///
/// Cost: each command's bytes; for a commit the directories on its changed paths, and once for a branch the size of the
/// tree that it starts from, where that isn't at hand; and for each object to be put or found a look-up. Memory: the objects,
/// the marks, the files of at most 256 commits with their shared directories, the directories that were read, up to a bound by
/// the largest tree, and one command. A checkpoint, as the end, costs a comparison or two for each branch and tag;
/// for each branch that moved the commits that it reaches behind its old one, each decoded once where there are many; for
/// each such branch and each tag that is set a look-up of its object and searches among the refs; and where a ref is new,
/// copies of all refs. The end costs a search among the branches for each tag, too.
/// Source: git-fast-import(1).
pub fn import<N: Namer, A: Allocator + Copy, R: Source + Drop, W: Sink>(
    alloc: A,
    repo: &mut Repo<N, A>,
    source: R,
    sink: &mut W,
) -> Result<Report, ImportFault>
    ensures namer { repo.new.0 ≡ repo.old.0 }
    ensures replayed { ImportsAsked N.name_of W.taken no_features repo.old repo.new
        (R.coming source) sink.old sink.new result }
    ensures stands { OnOk result
        (StandsAsked no_features N.name_of repo.old repo.new (R.coming source)) }
    ensures extends { Extends repo.old.1.records repo.new.1.records }
    ensures sound { IsSound (N.name_of repo.old.0) repo.new.1 }
    ensures unchanged { IfErr result (λ fault. fault.checkpoints ≡ 0 → repo.new ≡ repo.old) }
    ensures stopped { IfErr result (StopsAsked N.name_of no_features repo.old (R.coming source)) }
    ensures exported { ImportsAnyExport N.name_of repo.old repo.new (R.coming source) result }
    ensures gitlinks { KeepsSayable repo.old.1 repo.new.1 }
    ensures nulls { RefusesNullGitlink N.name_of repo.old (R.coming source) result }
{
    import_asking(alloc, repo, source, sink, Features::none())
}

/// Imports a stream as `import` does, as if it began with the commands that ask for these features: with `done` it has to end
/// with the command `done`, and with `force` a published branch may lose commits, in this import alone. No command is added:
/// the numbers of commands and the count of the report are the stream's, and its options are early where they come first.
///
/// Errors and cost: those of `import`. Source: git-fast-import(1), "--done" and "--force".
pub fn import_asking<N: Namer, A: Allocator + Copy, R: Source + Drop, W: Sink>(
    alloc: A,
    repo: &mut Repo<N, A>,
    source: R,
    sink: &mut W,
    features: Features,
) -> Result<Report, ImportFault>
    ensures namer { repo.new.0 ≡ repo.old.0 }
    ensures replayed { ImportsAsked N.name_of W.taken features repo.old repo.new (R.coming source)
        sink.old sink.new result }
    ensures stands { OnOk result
        (StandsAsked features N.name_of repo.old repo.new (R.coming source)) }
    ensures extends { Extends repo.old.1.records repo.new.1.records }
    ensures sound { IsSound (N.name_of repo.old.0) repo.new.1 }
    ensures unchanged { IfErr result (λ fault. fault.checkpoints ≡ 0 → repo.new ≡ repo.old) }
    ensures stopped { IfErr result (StopsAsked N.name_of features repo.old (R.coming source)) }
    ensures exported { LeaveExports features
        → ImportsAnyExport N.name_of repo.old repo.new (R.coming source) result }
    ensures gitlinks { KeepsSayable repo.old.1 repo.new.1 }
    ensures nulls { LeaveExports features
        → RefusesNullGitlink N.name_of repo.old (R.coming source) result }
{
    let mut told = Explanation::none();
    import_explained(alloc, repo, source, sink, features, &mut told)
}

/// Imports a stream as `import_asking` does, and tells what a refusal is about: which change of the commit is refused, by its
/// number and its path; which mark, text or object name a `from`, a `merge` or an `M` asks for in vain; or of `NotFastForward`
/// which ref would lose a commit, with its commit and the new one. The changes before it are made without a fault, and the
/// parents before it are found. An import that is accepted tells nothing, and neither does a refusal of another cause. What was
/// told before is forgotten.
///
/// Errors and cost: those of `import`. No path and no text that is asked for is copied, and the name of one ref is.
/// Source: git-fast-import(1), "from", "merge", "filemodify" to "filedeleteall", and "force".
pub fn import_explained<N: Namer, A: Allocator + Copy, R: Source + Drop, W: Sink>(
    alloc: A,
    repo: &mut Repo<N, A>,
    source: R,
    sink: &mut W,
    features: Features,
    told: &mut Explanation<A>,
) -> Result<Report, ImportFault>
    ensures namer { repo.new.0 ≡ repo.old.0 }
    ensures replayed { ImportsAsked N.name_of W.taken features repo.old repo.new (R.coming source)
        sink.old sink.new result }
    ensures explained { ExplainsAsked N.name_of features repo.old
        (R.coming source) result told.new }
    ensures retold { R.coming source ≡ None
        → IsOfOneReplay features (N.name_of repo.old.0) repo.old.1 repo.new.1
        (W.taken sink.old) (W.taken sink.new) result told.new }
    ensures stands { OnOk result
        (StandsAsked features N.name_of repo.old repo.new (R.coming source)) }
    ensures extends { Extends repo.old.1.records repo.new.1.records }
    ensures sound { IsSound (N.name_of repo.old.0) repo.new.1 }
    ensures unchanged { IfErr result (λ fault. fault.checkpoints ≡ 0 → repo.new ≡ repo.old) }
    ensures stopped { IfErr result (StopsAsked N.name_of features repo.old (R.coming source)) }
    ensures exported { LeaveExports features
        → ImportsAnyExport N.name_of repo.old repo.new (R.coming source) result }
    ensures gitlinks { KeepsSayable repo.old.1 repo.new.1 }
    ensures nulls { LeaveExports features
        → RefusesNullGitlink N.name_of repo.old (R.coming source) result }
{
    histories_of_records();
    names_tell_values();
    nulls_are_refused();
    exports_are_readable();
    exports_are_imported();
    features_are_asked();
    *told = Explanation::none();
    let mut tables = Tables::new(alloc, features.force);
    let mut checkpoints = Checkpoints {
        count: 0,
        records: repo.store().len(),
    };
    match replay_into(
        repo,
        &mut tables,
        &mut checkpoints,
        source,
        sink,
        features,
        told,
    ) {
        Ok(report) => {
            repo.sound();
            Ok(report)
        }
        Err(fault) => {
            repo.truncate(checkpoints.records);
            repo.sound();
            Err(fault)
        }
    }
}

/// Replays a stream's commands into these tables, where these features are asked for, and publishes what they made. A refused
/// import leaves the refs of the last checkpoint, and its objects in front of those that were added.
fn replay_into<N: Namer, A: Allocator + Copy, R: Source + Drop, W: Sink>(
    repo: &mut Repo<N, A>,
    tables: &mut Tables<A>,
    checkpoints: &mut Checkpoints,
    source: R,
    sink: &mut W,
    features: Features,
    told: &mut Explanation<A>,
) -> Result<Report, ImportFault>
    requires blank { TellsNothing told.now }
    requires empty { AreEmpty tables.now }
    requires forced { tables.now.is_forced ≡ features.force }
    requires none { AreNone repo.now.1 checkpoints.now }
    ensures namer { repo.new.0 ≡ repo.old.0 }
    ensures extends { Extends repo.old.1.records repo.new.1.records }
    ensures replayed { Imports features (N.name_of repo.old.0) repo.old.1
        (left_by result checkpoints.new repo.new.1) (R.coming source) (W.taken sink.old)
        (W.taken sink.new) result }
    ensures explained { ExplainsAsked N.name_of features repo.old
        (R.coming source) result told.new }
    ensures retold { R.coming source ≡ None
        → IsOfOneReplay features (N.name_of repo.old.0) repo.old.1
        (left_by result checkpoints.new repo.new.1) (W.taken sink.old)
        (W.taken sink.new) result told.new }
    ensures left { OnErr result (IsLeft repo.old.1 repo.new.1 checkpoints.new) }
    ensures counted { IfErr result (λ fault. fault.checkpoints ≡ checkpoints.new.count) }
    ensures gitlinks { KeepsSayable repo.old.1 (left_by result checkpoints.new repo.new.1) }
{
    histories_of_records();
    let held = repo.store().len();
    let mut reader = CommandReader::asking(tables.alloc, source, features);
    let commands = replay_commands(repo, tables, checkpoints, &mut reader, sink, told)?;
    if let Err(kind) = publish(repo, tables, &mut told.loss) {
        return Err(ImportFault {
            command: commands + 1,
            kind,
            checkpoints: checkpoints.count,
        });
    }
    let objects = (repo.store().len() - held) as u64;
    Ok(Report {
        commands,
        objects,
        refs: published_refs(tables),
    })
}
