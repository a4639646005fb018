//! Laws of segments that are appended.
ghost use Rattle.gx_model.specs.Objects.{ForEachNamer};
ghost use Rattle.gx_additions.specs.Additions.{RefsAreTaken};
ghost use Rattle.gx_additions.specs.NewObjects.{AdditionsAreTaken};

/// A growing text takes a segment that brings no objects, and other refs: those with which its objects are sound.
pub fn refs_are_taken()
    ensures { ForEachNamer RefsAreTaken }
{}

/// A growing text takes a segment that brings objects and other refs, with which all objects are sound. The segment's run takes in
/// the rows of some live runs, the last ones, and the others stay.
pub fn additions_are_taken()
    ensures { ForEachNamer AdditionsAreTaken }
{}
