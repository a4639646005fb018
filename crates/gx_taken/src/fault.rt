//! Why a text of refs and objects isn't taken.

ghost use Rattle.std.specs.Prelude.{◌≡◌};
ghost use Rattle.gx_taken.specs.Refusals.{of_offer, word};
ghost use Rattle.gx_taken.specs.declared.fault.TakeFault.TheVariants.{OutOfMemory};

use gx_object::Name;
use gx_offered::{ItemFault, OfferFault};
use std::alloc::{AllocError, AllocFailed, Allocator};

/// What is against an item.
#[derive(Drop)]
pub enum Refused<A: Allocator> {
    /// It isn't read.
    Unread(ItemFault),
    /// The body of the object of this name isn't a canonical one of its kind, or it has what no stream can say. Or an entry of it
    /// names a tree without entries, or a path below it has more than 4,095 bytes.
    BadObject(Name),
    /// The name of the object is held for other bytes.
    NameHeld(Name),
    /// The object of this name, and what it names that is neither held nor given, or is of another kind.
    Dangling(Name, Name),
    /// The ref of this name, and the object that it is to hold, which is neither held nor given.
    DanglingRef(Vec<u8, A>, Name),
    /// The ref of this name may not hold the object.
    WrongKind(Vec<u8, A>),
    /// The ref of this name would lose a commit: the one where it stands, or that its tag names, and the one to which it would move.
    NotFastForward(Vec<u8, A>, Name, Name),
}

impl<A: Allocator + Copy> Refused<A> {
    /// The word that it prints. Takes no memory.
    pub fn word(&self) -> &'static str
        ensures { result.now ≡ word self.now }
    {
        match self {
            Refused::Unread(ItemFault::TruncatedData) => "TruncatedData",
            Refused::Unread(ItemFault::BadLine) => "BadLine",
            Refused::Unread(ItemFault::BadNumber) => "BadNumber",
            Refused::Unread(ItemFault::Missing) => "Missing",
            Refused::Unread(ItemFault::BadRefName) => "BadRefName",
            Refused::Unread(ItemFault::NameMismatch) => "NameMismatch",
            Refused::BadObject(_) => "BadObject",
            Refused::NameHeld(_) => "NameHeld",
            Refused::Dangling(..) | Refused::DanglingRef(..) => "Dangling",
            Refused::WrongKind(_) => "WrongKind",
            Refused::NotFastForward(..) => "NotFastForward",
        }
    }
}

/// Why a text isn't taken.
#[derive(Drop)]
pub enum TakeFault<A: Allocator> {
    /// A growth was refused.
    OutOfMemory,
    /// The source failed, or gave more than 2^63 - 1 bytes.
    ReadFailed,
    /// The number of the item, from 1, and what is against it. An object that several items give is told by the first of them.
    Item { number: usize, kind: Refused<A> },
}

impl<A: Allocator> From<OfferFault> for TakeFault<A> {
    ghost from_gives = { λ offer fault. fault ≡ of_offer offer };

    fn from(fault: OfferFault) -> TakeFault<A> {
        match fault {
            OfferFault::OutOfMemory => TakeFault::OutOfMemory,
            OfferFault::ReadFailed => TakeFault::ReadFailed,
            OfferFault::Item(number, kind) => TakeFault::Item {
                number,
                kind: Refused::Unread(kind),
            },
        }
    }
}

impl<A: Allocator> From<AllocError> for TakeFault<A> {
    ghost from_gives = { λ _ fault. fault ≡ OutOfMemory };

    fn from(_error: AllocError) -> TakeFault<A> {
        TakeFault::OutOfMemory
    }
}

impl<A: Allocator, T: Drop> From<AllocFailed<T>> for TakeFault<A> {
    ghost from_gives = { λ _ fault. fault ≡ OutOfMemory };

    fn from(_error: AllocFailed<T>) -> TakeFault<A> {
        TakeFault::OutOfMemory
    }
}
