//! Laws of store texts, and of the records that a repository takes.
ghost use Rattle.gx_model.specs.Objects.{ForEachNamer};
ghost use Rattle.gx_model.specs.Laws.StoreLaws.{BodiesAreRead, RecordsAreTaken, StoresAreRead};

/// A canonical body is told from every other, and what is read in it are its entries or its parts. Source: Pro Git, "Git Objects".
pub fn bodies_are_read()
    ensures { BodiesAreRead }
{}

/// Nothing is against a record exactly where the repository is sound with it: its links are held, no path below it is too
/// long, and its name is new.
pub fn records_are_taken()
    ensures { ForEachNamer RecordsAreTaken }
{}

/// Each of a sound repository's two texts, where it has less than 2^64 bytes, is read as that repository, and whatever is
/// read of a text is sound and has that text. Texts that are equal are of one version and of one repository.
pub fn stores_are_read()
    ensures { ForEachNamer StoresAreRead }
{}
