//! The headline: what a text gives is shown as it was replayed, and comes back from its export; and what a refused text leaves.
ghost use Rattle.gx_model.specs.Laws.Headline.{Headline, RefusedHeadline};
ghost use Rattle.gx_model.specs.Laws.RefusedReplays.{RefusalsKeepCheckpoints};
ghost use Rattle.gx_model.specs.Objects.{ForEachNamer};

/// For every text whose import into nothing is accepted, each repository that has the records of what it gave, no two under one
/// name, stands for it, and has at each revision and path, tree by tree, the mode and bytes of the plain map of whole paths; its
/// commits tell the replayed parents and texts, and by these parents range words list the commits that they list in the history,
/// or are refused alike. Its export is imported into nothing, and gives the same refs and exactly the objects that these reach,
/// under the same names, with the commits in their order. The export alone has a bound: its text is below 2^64 bytes, as is every
/// one that is written.
pub fn texts_are_shown()
    ensures { ForEachNamer Headline }
{}

/// For every text whose import into nothing is refused, what is kept is what its commands before the last checkpoint, replayed
/// alone, give without a fault, or nothing where there was no checkpoint; the checkpoints are counted. Each repository that has
/// the records of what is kept shows it, and its export comes back, as where a text is accepted, and under the same bound.
pub fn refused_texts_are_shown()
    ensures { ForEachNamer RefusedHeadline }
{}

/// A replay of commands that is refused keeps what those before the last checkpoint, replayed alone from the same history, give
/// without a fault, or that history where there was no checkpoint.
pub fn refusals_keep_checkpoints()
    ensures { RefusalsKeepCheckpoints }
{}
