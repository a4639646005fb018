//! A law of the forms of an export.

ghost use Rattle.gx_model.specs.Objects.{ForEachNamer};
ghost use Rattle.gx_cli.specs.Again.{FormsAreImported};

use gx_model::changes_laws::{
    changes_are_imported, changes_are_readable, closed_commands_are_read,
};
use gx_model::export_laws::items_are_read;
use gx_model::replay_laws::features_are_asked;
use gx_model::repository_laws::{histories_of_records, names_tell_values};

/// What is exported by its changes is imported as what is exported with all files: an empty repository gets the same refs, and
/// exactly what they reach.
pub(crate) fn forms_are_imported()
    ensures { ForEachNamer FormsAreImported }
{
    histories_of_records();
    names_tell_values();
    items_are_read();
    closed_commands_are_read();
    changes_are_readable();
    changes_are_imported();
    features_are_asked();
}
