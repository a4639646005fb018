//! Laws of objects: what the bodies of trees, commits and tags tell.
ghost use Rattle.gx_model.specs.Laws.ObjectLaws.{BodiesTellParts, EntriesStandInPathOrder, TreesAreCanonical, TreesTellMaps};
ghost use Rattle.gx_model.specs.Objects.{ForEachNamer};

/// A canonical body of a tree, a commit or a tag is that of one list of entries, or of one set of parts.
/// Source: Pro Git, "Git Objects".
pub fn bodies_tell_parts()
    ensures { BodiesTellParts }
{}

/// The entries of a file map's tree are canonical: each component once, in Git's order. Source: gitglossary(7), "tree object".
pub fn trees_are_canonical()
    ensures { ForEachNamer TreesAreCanonical }
{}

/// The order of a tree's entries is the byte order of the whole paths of the files at and below them.
pub fn entries_stand_in_path_order()
    ensures { EntriesStandInPathOrder }
{}

/// Two file maps with one tree are one file map, where names tell apart what is below them.
pub fn trees_tell_maps()
    ensures { ForEachNamer TreesTellMaps }
{}
