//! Objects that leave a store since no ref reaches them, while its next text is made. Source: git-gc(1) and git-prune(1).

ghost use Rattle.std.specs.Prelude.{IfSome};
ghost use Rattle.gx_object.specs.Commits.{bytes_of_names};
ghost use Rattle.gx_listed.specs.Listings.{ListsIfTold};
ghost use Rattle.gx_kept.specs.Collecting.{Collects, Rewrites};
ghost use Rattle.gx_kept.specs.Faults.{IsOnTheWay};
ghost use Rattle.gx_kept.specs.Sending.{SendsNamed};

use crate::KeptFault;
use crate::gone::gone;
use crate::marking::marks_of;
use crate::sending::send_marked;
use gx_growing::growing_laws::growing_is_read;
use gx_listed::Listing;
use gx_object::Name;
use gx_objects::Objects;
use gx_repo::Pruned;
use gx_text::Sink;
use std::alloc::Allocator;

/// Sends the growing text of what is left once all objects are gone that neither a ref nor an object of one of these names reaches,
/// which reaches itself, and answers how much goes. The others keep their order, and the refs stay. A name that no object has keeps
/// nothing. Whatever the objects are, no body goes out that hasn't the name in front of it.
///
/// OutOfMemory: a growth was refused, or the text has 2^63 bytes or more. ReadFailed: a read failed. Damaged: this is no repository.
/// WriteFailed: the sink failed. What went out by then is a front of the text.
/// Cost: the text's length; each body that is kept is hashed once, and those of trees, commits and tags twice. Memory: a byte for
/// each object that is listed, two rows for each that is kept, the refs' lines, and one body. Source: git-gc(1) and git-prune(1).
pub fn collect<O: Objects, A: Allocator + Copy, W: Sink>(
    alloc: A,
    objects: &O,
    listing: &Listing<A>,
    kept: &[Name],
    sink: &mut W,
) -> Result<Pruned, KeptFault>
    requires listed { ListsIfTold (O.told objects.now) (O.stands objects.now) listing.now }
    ensures left { IfSome (O.told objects.now) (λ r. Collects (O.name_of objects.now) (bytes_of_names kept.now) r
        (W.taken sink.old) (W.taken sink.new) result) }
    ensures named { SendsNamed (O.name_of objects.now) (W.taken sink.old) (W.taken sink.new) result }
    ensures fault { IsOnTheWay (O.told objects.now) result }
{
    objects.sound_if_told();
    growing_is_read();
    let marks = marks_of(alloc, objects, listing, kept)?;
    send_marked(alloc, objects, listing, marks.as_slice(), sink)?;
    Ok(gone(listing, marks.as_slice()))
}

/// Sends the growing text of all objects, in their order, and of all refs: as one segment with one run, whatever segments and runs
/// they have now.
///
/// The faults, the cost and the memory are those of [`collect`].
pub fn rewrite<O: Objects, A: Allocator + Copy, W: Sink>(
    alloc: A,
    objects: &O,
    listing: &Listing<A>,
    sink: &mut W,
) -> Result<(), KeptFault>
    requires listed { ListsIfTold (O.told objects.now) (O.stands objects.now) listing.now }
    ensures text { IfSome (O.told objects.now) (λ r. Rewrites (O.name_of objects.now) r
        (W.taken sink.old) (W.taken sink.new) result) }
    ensures named { SendsNamed (O.name_of objects.now) (W.taken sink.old) (W.taken sink.new) result }
    ensures fault { IsOnTheWay (O.told objects.now) result }
{
    objects.sound_if_told();
    growing_is_read();
    let count = listing.len();
    let marks = vec![in alloc; true; count]?;
    send_marked(alloc, objects, listing, marks.as_slice(), sink)
}
