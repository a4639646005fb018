//! Laws of the export of changes.
ghost use Rattle.gx_model.specs.Laws.ChangesLaws.{ChangesAreImported, ChangesAreReplayed, ChangesAreSpelled, ClosedCommandsAreItems, ClosedCommandsAreRead, RepositoriesComeBackByChanges, ShortChangesAreReadable, TextsComeBackByChanges};
ghost use Rattle.gx_model.specs.Objects.{ForEachNamer};

/// The items of an export's commands can be spelled and are read as these commands, with and without `feature done` and `done`.
#[tactic(auto, using(crate::proofs::Streams::CommandEnds::closed_spelled, crate::proofs::Streams::CommandEnds::closed_read))]
pub fn closed_commands_are_read()
    ensures items { ClosedCommandsAreItems }
    ensures commands { ClosedCommandsAreRead }
{}

/// The commands of an export of a history's changes, replayed from nothing, meet no fault: they give the same refs, exactly what
/// these reach, and the commits in their order.
pub fn changes_are_replayed()
    ensures replayed { ChangesAreReplayed }
{}

/// Where a stream can say the commits that refs reach, the export of changes has commands that can be spelled, if the text's
/// length is below 2^64.
pub fn changes_are_readable()
    ensures readable { ShortChangesAreReadable }
    ensures spelled { ChangesAreSpelled }
{}

/// The import of such an export's text into nothing gives the same refs, exactly what these reach, and the commits in their order.
pub fn changes_are_imported()
    ensures imported { ChangesAreImported }
{}

/// What any text gives from nothing comes back from its export of changes, if that text's length is below 2^64: the same refs,
/// exactly what these reach, and the commits in their order. So does each repository that has the records of what it gave.
pub fn texts_come_back_by_changes()
    ensures texts { TextsComeBackByChanges }
    ensures repositories { ForEachNamer RepositoriesComeBackByChanges }
{}
