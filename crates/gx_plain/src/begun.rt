//! Names that lie between two. Source: gitrevisions(7), "sha1".

ghost use Rattle.std.specs.Prelude.{◌≡◌, map};
ghost use Rattle.gx_store.specs.NameOrder.{is_within};
ghost use Rattle.gx_store.specs.Prefixes.{found_between, joined};
ghost use Rattle.gx_store.specs.declared.prefix.Prefix.TheVariants.{Unique};

use gx_listed::Listing;
use gx_object::Name;
use gx_store::Prefix;
use std::alloc::Allocator;

/// What is listed between two names, both included. Cost: one pass over the names. Takes no memory.
pub(crate) fn found_between<A: Allocator + Copy>(
    listing: &Listing<A>,
    ends: &(Name, Name),
) -> Prefix
    ensures { result ≡ found_between ends.now (map (λ one. one.0) listing.now) }
{
    let mut found = Prefix::Absent;
    let mut number = listing.len();
    while number > 0 {
        number -= 1;
        let Some((name, _standing)) = listing.get(number) else {
            unreachable!();
        };
        if is_between(&name, ends) {
            found = with_name(name, found);
        }
    }
    found
}

/// Whether a name lies between two, both included.
fn is_between(name: &Name, ends: &(Name, Name)) -> bool
    ensures { result ≡ is_within ends.now.0.bytes ends.now.1.bytes name.now.bytes }
{
    ends.0.cmp(name).is_le() && ends.1.cmp(name).is_ge()
}

/// What a name is together with what is found among others.
fn with_name(name: Name, found: Prefix) -> Prefix
    ensures { result ≡ joined (Unique name) found }
{
    match found {
        Prefix::Absent => Prefix::Unique(name),
        Prefix::Unique(_) | Prefix::Ambiguous => Prefix::Ambiguous,
    }
}
