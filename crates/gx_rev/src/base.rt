//! What the base of a revision gives: an object's name in full, a ref, or the digits that a name begins with.

ghost use Rattle.std.specs.Prelude.{◌≡◌, true, IfOk};
ghost use Rattle.gx_rev.specs.Bases.{is_abbreviation, is_full_name};
ghost use Rattle.gx_rev.specs.Objects.{IsHeld, value_at};
ghost use Rattle.gx_rev.specs.RevFaults.{fault_of};
ghost use Rattle.gx_model.specs.Faults.{Gives, NeedsNoMemory};
ghost use Rattle.gx_model.specs.Revisions.Denotation.{base_value, begun_by, full_name, the_one};
ghost use Rattle.gx_model.specs.Records.HistoryOf.{history_of};

use crate::RevFault;
use gx_object::{Name, Namer};
use gx_repo::Repo;
use gx_store::Prefix;
use gx_text::are_hex_digits;
use std::alloc::Allocator;

/// What a base gives.
pub(crate) fn eval_base<N: Namer, A: Allocator + Copy>(
    repo: &Repo<N, A>,
    base: &[u8],
) -> Result<Name, RevFault>
    ensures value { Gives fault_of (value_at repo.now.1) result
        (base_value (N.name_of repo.now.0) (history_of repo.now.1) base.now) }
    ensures held { IfOk result (IsHeld repo.now.1) }
    ensures memory { NeedsNoMemory RevFault.OutOfMemory result }
{
    repo.sound();
    if is_full_name(base) {
        return find_name(repo, base);
    }
    if let Some(name) = repo.find_ref(base)? {
        return Ok(name);
    }
    if is_abbreviation(base) {
        find_digits(repo, base)
    } else {
        Err(RevFault::UnknownRef)
    }
}

/// Whether a base is an object's name in full: 40 digits, of either case.
///
/// Cost: the text. Takes no memory. Source: gitrevisions(7), "sha1".
pub fn is_full_name(text: &[u8]) -> bool
    ensures { result ≡ is_full_name text.now }
{
    are_hex_digits(text) && text.len() == 40
}

/// Whether a base may abbreviate an object's name: 4 to 39 digits, of either case.
///
/// Cost: the text. Takes no memory. Source: gitrevisions(7), "sha1".
pub fn is_abbreviation(text: &[u8]) -> bool
    ensures { result ≡ is_abbreviation text.now }
{
    are_hex_digits(text) && 4 <= text.len() && text.len() < 40
}

/// The object of this name in full.
fn find_name<N: Namer, A: Allocator + Copy>(
    repo: &Repo<N, A>,
    digits: &[u8],
) -> Result<Name, RevFault>
    requires { is_full_name digits.now ≡ true }
    ensures value { Gives fault_of (value_at repo.now.1) result (full_name (N.name_of repo.now.0)
        (begun_by (N.name_of repo.now.0) (history_of repo.now.1) digits.now)) }
    ensures held { IfOk result (IsHeld repo.now.1) }
    ensures memory { NeedsNoMemory RevFault.OutOfMemory result }
{
    let Some(name) = Name::read(digits) else {
        unreachable!();
    };
    match repo.store().get(&name) {
        Some(_) => Ok(name),
        None => Err(RevFault::UnknownObject),
    }
}

/// The one object whose name begins with these digits.
fn find_digits<N: Namer, A: Allocator + Copy>(
    repo: &Repo<N, A>,
    digits: &[u8],
) -> Result<Name, RevFault>
    ensures value { Gives fault_of (value_at repo.now.1) result (the_one (N.name_of repo.now.0)
        (begun_by (N.name_of repo.now.0) (history_of repo.now.1) digits.now)) }
    ensures held { IfOk result (IsHeld repo.now.1) }
    ensures memory { NeedsNoMemory RevFault.OutOfMemory result }
{
    match repo.store().by_prefix(digits) {
        Prefix::Unique(name) => Ok(name),
        Prefix::Absent => Err(RevFault::UnknownRef),
        Prefix::Ambiguous => Err(RevFault::Ambiguous),
    }
}
