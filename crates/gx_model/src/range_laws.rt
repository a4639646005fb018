//! Laws of exports of ranges.
ghost use Rattle.gx_model.specs.Laws.RangeLaws.{RangesAreImported, RangesAreReplayed, RangesAreSpelled, ShortRangesAreReadable, SoundRepositoriesReceive};

/// The commands of a range's export, replayed in a history that holds what the range excludes, meet no fault: beside what was
/// there they bring exactly what is sent, and set its refs.
pub fn ranges_are_replayed()
    ensures replayed { RangesAreReplayed }
{}

/// What a range sends has an export of commands that can be spelled, if a stream can say its commits, and the text's length is
/// below 2^64.
pub fn ranges_are_readable()
    ensures readable { ShortRangesAreReadable }
    ensures spelled { RangesAreSpelled }
{}

/// The import of such an export's text, into a history or a sound repository that holds what the range excludes, brings exactly
/// what is sent, and sets its refs.
pub fn ranges_are_imported()
    ensures imported { RangesAreImported }
    ensures received { SoundRepositoriesReceive }
{}
