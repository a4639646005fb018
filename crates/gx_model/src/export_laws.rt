//! Laws of the export text.
ghost use Rattle.std.specs.Prelude.{List, ℕ};
ghost use Rattle.gx_model.specs.Laws.ExportLaws.{CommandsAreItems, CommandsAreRead, CommitIsReplayed, CommitKeeps, ExportIsImported, ExportIsReplayed, ExportIsSpelled, ExportsAreItems, FormedIsReadable, ItemsAreRead};
ghost use Rattle.gx_model.specs.declared.objects.Kind.{Kind};

/// The text of some items is read as these items, where each is a line that is no comment and announces no block, or a block.
#[tactic(auto, using(crate::proofs::Streams::ItemTexts::items_read))]
pub fn items_are_read()
    ensures items { ItemsAreRead }
{}

/// The text of a history's export is read as its items, to its end, if its length is below 2^64 and refs reach no commit with
/// headers but that of an encoding: also where they reach a gitlink of forty zeros.
pub fn exports_are_items()
    ensures items { ExportsAreItems }
{}

/// The items of an export's commands are such items, and they are read as these commands.
#[tactic(auto, using(crate::proofs::Streams::SpelledItems::between_spelled, crate::proofs::Streams::CommandItems::commands_read))]
pub fn commands_are_read()
    ensures items { CommandsAreItems }
    ensures commands { CommandsAreRead }
{}

/// The commands of one commit, whose parents were written, are replayed without a fault, and write it and the blobs that it lacked.
/// After them a history holds exactly what the commits so far reach.
#[tactic(auto, using(crate::proofs::Export::CommitSteps::one_commit_replayed))]
pub fn commits_are_replayed()
    ensures replayed { (name : Kind → List ℕ → List ℕ) → CommitIsReplayed name }
    ensures kept { CommitKeeps }
{}

/// The commands of a history's export, replayed from nothing, meet no fault: they give the same refs, exactly what these reach,
/// and the commits in their order.
#[tactic(auto, using(crate::proofs::Export::ExportSteps::export_replayed))]
pub fn exports_are_replayed()
    ensures replayed { ExportIsReplayed }
{}

/// Where a stream can say the commits that refs reach, since they have no gitlink of forty zeros and no header but that of an
/// encoding, the export has commands that can be spelled, if the text's length is below 2^64.
#[tactic(auto, using(crate::proofs::Export::ReadableExports::formed_readable, crate::proofs::Export::SpelledExports::export_spelled))]
pub fn exports_are_readable()
    ensures readable { FormedIsReadable }
    ensures spelled { ExportIsSpelled }
{}

/// The import of such an export's text into nothing gives the same refs, exactly what these reach, and the commits in their order.
pub fn exports_are_imported()
    ensures imported { ExportIsImported }
{}
