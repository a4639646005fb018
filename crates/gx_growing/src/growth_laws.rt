//! Laws of what the rows of a growing text tell, of where it ends, and of how it grows.
ghost use Rattle.gx_model.specs.Objects.{ForEachNamer};
ghost use Rattle.gx_growing.specs.GrowingLaws.{EndCounts, Grows, RowsTell};

/// The last tail of a growing text has the repository's refs, and its live runs have one row for each record, with the place
/// where the record stands. The rows of a run are sorted by names, and places go up with the order of records.
pub fn rows_tell()
    ensures { ForEachNamer RowsTell }
{}

/// Texts with one slot that is picked, and with the same bytes from the head up to the end that it says, are read alike: as one
/// repository, or with one fault. What stands behind that end, and in the other slot, is no part of a text.
pub fn end_counts()
    ensures { ForEachNamer EndCounts }
{}

/// A segment that stands behind the end of a growing text, under a head whose slot tells it, gives a growing text with what it
/// brings: where the repository is sound with its records and refs, and its runs tell where all records stand.
pub fn grows()
    ensures { ForEachNamer Grows }
{}
