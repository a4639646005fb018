//! Laws of file maps: finite maps from whole paths to a mode and a content.
ghost use Rattle.gx_model.specs.Laws.FileMapLaws.{EditsAreSetOperations, EditsKeepFileMaps, FileMapsAreMaps};

/// A file map is known by what it gives at each path. Its entries stand in the byte order of whole paths, and no path begins another.
pub fn file_maps_are_maps()
    ensures { FileMapsAreMaps }
{}

/// An edit of a file map that isn't refused gives a file map.
pub fn edits_keep_file_maps()
    ensures { EditsKeepFileMaps }
{}

/// An edit is an operation on the set of files: what is found at each path afterwards, in terms of what was found before.
/// A copy and a rename are refused in one order: nothing is at or below the source, then a file would be put at the root,
/// then a new path would be too long. Source: git-fast-import(1), "filemodify", "filedelete", "filecopy" and "filerename".
pub fn edits_are_set_operations()
    ensures { EditsAreSetOperations }
{}
