//! Laws of reachable objects: which these are, and what a repository answers that has these alone.
ghost use Rattle.gx_model.specs.Objects.{ForEachNamer};
ghost use Rattle.gx_model.specs.Laws.PruningLaws.{PrunedAnswers, PrunedStands, ReachableIsLeast};

/// What the refs of a sound repository reach is the least set of names with those that refs hold and those that its members name.
pub fn reachable_is_least()
    ensures { ForEachNamer ReachableIsLeast }
{}

/// A sound repository with the records alone that its refs reach is sound, and its history has exactly the values that the refs
/// reach, in their order, under the same refs.
pub fn pruned_stands()
    ensures { ForEachNamer PrunedStands }
{}

/// Such a repository gives for revisions and ranges by refs what it gave.
pub fn pruned_answers()
    ensures { ForEachNamer PrunedAnswers }
{}
