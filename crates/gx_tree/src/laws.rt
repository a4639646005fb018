//! Where the names that trees remember are held.
ghost use Rattle.gx_tree.specs.Loaded.{MoreRecordsKeepLoaded};
ghost use Rattle.gx_tree.specs.Named.{MoreRecordsKeepHome};

/// A tree that is at home in a store is so with more records behind those that it has.
pub fn records_keep_home()
    ensures { MoreRecordsKeepHome }
{}

/// A directory that is loaded from a store's tree is so with more records behind those that the store has.
pub fn records_keep_loaded()
    ensures { MoreRecordsKeepLoaded }
{}
