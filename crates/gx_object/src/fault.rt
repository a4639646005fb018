//! Why a body isn't decoded.

ghost use Rattle.std.specs.Prelude.{Some};
ghost use Rattle.gx_model.specs.Faults.StoreFaults.{word};
ghost use Rattle.gx_model.specs.declared.store_faults.FileFault.TheVariants as faults;

use gx_model::FileFault;
use std::fmt;
use thiserror::Error;

/// A body that isn't canonical: it is not the body that is encoded from any parts. It prints its name.
#[derive(Clone, Copy, Debug, PartialEq, Eq, Drop, Error)]
pub struct BadObject;

impl fmt::Display for BadObject {
    ghost output = { λ _. Some (word faults.BadObject) };

    fn fmt<W: fmt::Write>(&self, f: &mut fmt::Formatter<W>) -> fmt::Result {
        f.write_str(FileFault::BadObject.word())
    }
}
