//! Laws of growing texts.
ghost use Rattle.gx_model.specs.Objects.{ForEachNamer};
ghost use Rattle.gx_growing.specs.GrowingLaws.{GrowingIsRead};

/// What is read of a growing text is a sound repository, and the text is one of it. Each growing text of less than 2^63 bytes
/// is read as its repository, and so is the one with one segment that a writer makes anew.
pub fn growing_is_read()
    ensures { ForEachNamer GrowingIsRead }
{}
