//! Laws of repositories: the history that one stands for, and how both grow together.
ghost use Rattle.gx_model.specs.Objects.{ForEachNamer};
ghost use Rattle.gx_model.specs.Laws.RepositoryLaws.{AnswersTell, HistoriesOf, LinksTell, NamesTell, PartsChange, PutsGrow, RecordsFind, ShortPathsTell, StandsForOne, TreesGrow, WalksTell};

/// A repository stands for one history at most.
pub fn stands_for_one()
    ensures { ForEachNamer StandsForOne }
{}

/// A sound repository stands for the history that its records give, and whatever stands for a history is sound.
pub fn histories_of_records()
    ensures { ForEachNamer HistoriesOf }
{}

/// To put the records of values whose parts stand adds these values to the history, and is refused where a name is another value's.
pub fn puts_add_values()
    ensures { ForEachNamer PutsGrow }
{}

/// To put the records of a map of names, those of its sub-maps first, adds its file map to the history.
pub fn trees_add_file_maps()
    ensures { ForEachNamer TreesGrow }
{}

/// A canonical body whose links are held, with no path too long below it, is that of a proper value whose parts stand.
pub fn links_tell_values()
    ensures { ForEachNamer LinksTell }
{}

/// Whether a path below a tree is too long is told by the file map that its entries give.
pub fn entries_tell_short_paths()
    ensures { ForEachNamer ShortPathsTell }
{}

/// A walk down tree records along a path gives what the whole file map has there.
pub fn walks_tell_paths()
    ensures { ForEachNamer WalksTell }
{}

/// The name of a held record gives its value, a value's name gives its record, and two values have one name only where they are one.
pub fn names_tell_values()
    ensures { ForEachNamer NamesTell }
{}

/// Two revisions are answered by one kind and name, or by one submodule's digits, exactly where they give one value or submodule.
pub fn answers_tell_values()
    ensures { ForEachNamer AnswersTell }
{}

/// Refs, digits and names find among records what they find in the history.
pub fn records_are_found()
    ensures { ForEachNamer RecordsFind }
{}

/// A sound repository with other sound refs, or with its first records alone that its refs name, is sound,
/// and has the same values, or the first of them.
pub fn parts_change()
    ensures { ForEachNamer PartsChange }
{}
