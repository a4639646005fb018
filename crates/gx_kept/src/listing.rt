//! The objects of a repository in memory, listed as those of a growing text are.

ghost use Rattle.std.specs.Prelude.{IfOk};
ghost use Rattle.gx_listed.specs.Listings.{ListsAll};

use gx_listed::{Listing, Standing};
use gx_object::Namer;
use gx_repo::Repo;
use std::alloc::{AllocError, Allocator};
use std::hash::RandomState;

/// All objects of a repository, in their order: each stands at its number.
///
/// `AllocError`: a growth was refused. Cost: constant for each object, as expected of hashes. Memory: that of the listing.
pub fn list<N: Namer, A: Allocator + Copy>(
    alloc: A,
    repo: &Repo<N, A>,
    state: RandomState,
) -> Result<Listing<A>, AllocError>
    ensures { IfOk result (ListsAll (λ number. number) repo.now.1) }
{
    let store = repo.store();
    let mut listing = Listing::new(alloc, state);
    for number in 0..store.len() {
        let Some((name, kind, body)) = store.record(number) else {
            unreachable!();
        };
        let place = number as u64;
        let length = body.len() as u64;
        listing.push(
            name,
            Standing {
                place,
                kind,
                length,
            },
        )?;
    }
    Ok(listing)
}
