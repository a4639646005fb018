//! Why a text isn't one of refs and objects.

ghost use Rattle.std.specs.Prelude.{◌≡◌, Some};
ghost use Rattle.gx_offered.specs.ItemFaults.{word};
ghost use Rattle.gx_offered.specs.declared.fault.OfferFault.TheVariants.{OutOfMemory};

use std::alloc::{AllocError, AllocFailed};
use std::fmt;
use thiserror::Error;

/// Why an item isn't read. It prints its name.
#[derive(Clone, Copy, Debug, PartialEq, Eq, Drop, Error)]
pub enum ItemFault {
    /// The text ends within the item, or a length goes beyond it.
    TruncatedData,
    /// The line isn't as Git prints it, or no LF stands behind a body.
    BadLine,
    /// A length has other digits than those that Git writes.
    BadNumber,
    /// Git lacks the object: its line says `missing`.
    Missing,
    /// What is to hold the object is no ref.
    BadRefName,
    /// The bytes aren't those that have the name.
    NameMismatch,
}

impl fmt::Display for ItemFault {
    ghost output = { λ fault. Some (word fault) };

    fn fmt<W: fmt::Write>(&self, f: &mut fmt::Formatter<W>) -> fmt::Result {
        f.write_str(match self {
            ItemFault::TruncatedData => "TruncatedData",
            ItemFault::BadLine => "BadLine",
            ItemFault::BadNumber => "BadNumber",
            ItemFault::Missing => "Missing",
            ItemFault::BadRefName => "BadRefName",
            ItemFault::NameMismatch => "NameMismatch",
        })
    }
}

/// Why a text isn't read.
#[derive(Clone, Copy, Debug, PartialEq, Eq, Drop)]
pub enum OfferFault {
    /// A growth was refused.
    OutOfMemory,
    /// The source failed, or gave more than 2^63 - 1 bytes.
    ReadFailed,
    /// The number of the first item that isn't read, from 1, and why.
    Item(usize, ItemFault),
}

impl From<AllocError> for OfferFault {
    ghost from_gives = { λ _ fault. fault ≡ OutOfMemory };

    fn from(_error: AllocError) -> OfferFault {
        OfferFault::OutOfMemory
    }
}

impl<T: Drop> From<AllocFailed<T>> for OfferFault {
    ghost from_gives = { λ _ fault. fault ≡ OutOfMemory };

    fn from(_error: AllocFailed<T>) -> OfferFault {
        OfferFault::OutOfMemory
    }
}
