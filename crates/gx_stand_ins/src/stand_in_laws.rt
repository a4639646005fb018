//! Laws of stand-ins.
ghost use Rattle.gx_model.specs.Objects.{ForEachNamer};
ghost use Rattle.gx_stand_ins.specs.StandInLaws.{StandInsBring, StandInsTell};

/// What a small history takes from a stream, the whole one takes: with the same progress, the same count of commands and refs, and
/// the same objects in their order, but for those that the whole one held.
pub fn stand_ins_tell()
    ensures { StandInsTell }
{}

/// What a small repository of stand-ins takes from a text, the whole repository takes, where both tell alike what the text asks
/// for, by the names of objects, and no blob and no message that it brings begins with the nonce. The whole repository with the
/// records that the small one gained, and with its refs set, stands for what the text gives there, unless one of these names is
/// another object's.
pub fn stand_ins_bring()
    ensures { ForEachNamer StandInsBring }
{}
