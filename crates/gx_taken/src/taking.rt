//! What is offered, taken into a repository.

ghost use Rattle.std.specs.Prelude.{◌≡◌, ◌<◌, IfOk, length};
ghost use Rattle.gx_model.specs.Records.Sound.{IsSound};
ghost use Rattle.gx_offered.specs.Items.{shown_offer};
ghost use Rattle.gx_taken.specs.Calls.{AreGoodItems, IsTaken, IsTakenBy, IsUnplaced, IsWithin, TakesText, TellsUnplaced, object_refused};
ghost use Rattle.gx_taken.specs.Taking.{taken};

use crate::checking::check_refs;
use crate::fault::{Refused, TakeFault};
use crate::parts::{Label, number_of, parts_of};
use crate::setting::set_refs;
use gx_object::{Name, Namer};
use gx_offered::{Offered, read_offer};
use gx_placed::{ObjectFault, PlaceFault, place};
use gx_repo::Repo;
use gx_text::Source;
use std::alloc::Allocator;

/// A repository with the objects and refs of a text that a source gives, as `git for-each-ref` and `git cat-file --batch` print them.
///
/// All objects come first, each behind what it names; one that is held or given before isn't added again. Then the refs are set in
/// order: the last item of a ref wins, and forty zeros drop it. Without `force` no ref may lose a commit that it had before.
///
/// `ReadFailed`: the source failed, or gave more than 2^63 - 1 bytes, whatever stands before that. `Item`: the first fault, in
/// this order: the items that aren't read (`Unread`), objects that can't be placed (`BadObject`, `NameHeld`, `Dangling`), and refs
/// that may not be set (`DanglingRef`, `WrongKind`, `NotFastForward`). `OutOfMemory`: a growth was refused. After a fault nothing
/// is left.
/// Cost: one pass over the text, each body hashed twice, a look-up for each link, and for each ref that moves
/// `gx_rev::is_ancestor`. Memory: the text, and what is kept of each item.
/// Source: git-cat-file(1), "BATCH OUTPUT", git-for-each-ref(1), and git-fetch(1).
pub fn take_text<N: Namer + Drop, R: Source + Drop, A: Allocator + Copy>(
    alloc: A,
    namer: &N,
    repo: Repo<N, A>,
    source: R,
    force: bool,
) -> Result<Repo<N, A>, TakeFault<A>>
    requires same { N.name_of namer.now ≡ N.name_of repo.0 }
    ensures namer { IfOk result (λ left. left.0 ≡ repo.0) }
    ensures taken { TakesText (N.name_of repo.0) force repo.1 (R.coming source) result }
    ensures sound { IfOk result (λ left. IsSound (N.name_of repo.0) left.1) }
{
    let items = read_offer(alloc, namer, source)?;
    take(alloc, repo, items, force)
}

/// A repository with the objects and refs that items tell.
///
/// The faults are those of [`take_text`] but `ReadFailed` and `Unread`. Cost: a pass over the items, one over the bodies, a look-up
/// for each link, and for each ref that moves `gx_rev::is_ancestor`. Memory: what is kept of each item.
/// Source: gitglossary(7), "object database" and "ref".
pub fn take<N: Namer + Drop, A: Allocator + Copy>(
    alloc: A,
    repo: Repo<N, A>,
    items: Vec<Offered<A>, A>,
    force: bool,
) -> Result<Repo<N, A>, TakeFault<A>>
    requires good { AreGoodItems (N.name_of repo.0) (shown_offer items) }
    ensures namer { IfOk result (λ left. left.0 ≡ repo.0) }
    ensures taken { IsTaken (taken force repo.1 (shown_offer items)) result }
    ensures sound { IfOk result (λ left. IsSound (N.name_of repo.0) left.1) }
{
    let mut repo = repo;
    match take_all(alloc, &mut repo, items, force) {
        Ok(()) => {
            repo.sound();
            Ok(repo)
        }
        Err(fault) => Err(fault),
    }
}

/// Takes all that items tell. After a fault some of it may be there.
fn take_all<N: Namer, A: Allocator + Copy>(
    alloc: A,
    repo: &mut Repo<N, A>,
    items: Vec<Offered<A>, A>,
    force: bool,
) -> Result<(), TakeFault<A>>
    requires good { AreGoodItems (N.name_of repo.old.0) (shown_offer items) }
    ensures namer { repo.new.0 ≡ repo.old.0 }
    ensures taken { IsTakenBy (taken force repo.old.1 (shown_offer items)) repo.new.1 result }
{
    let parts = parts_of(alloc, items)?;
    if let Err(fault) = place(alloc, repo, parts.objects) {
        return Err(unplaced(parts.labels.as_slice(), fault));
    }
    let refs = parts.refs.as_slice();
    if let Err(fault) = check_refs(alloc, repo, refs, force) {
        return Err(fault);
    }
    set_refs(alloc, repo, refs)?;
    Ok(())
}

/// The refusal of objects of these labels that aren't placed.
fn unplaced<A: Allocator>(labels: &[Label], fault: PlaceFault) -> TakeFault<A>
    requires { IsWithin labels.now fault }
    ensures { TellsUnplaced labels.now fault result }
{
    match fault {
        PlaceFault::OutOfMemory => TakeFault::OutOfMemory,
        PlaceFault::Object(at, against) => refusal_at(labels, at, against),
    }
}

/// The refusal of the object at this place of those that are given.
fn refusal_at<A: Allocator>(labels: &[Label], at: usize, fault: ObjectFault) -> TakeFault<A>
    requires { at < length labels.now }
    ensures { IsUnplaced labels.now at fault result }
{
    let name = labels[at].name;
    TakeFault::Item {
        number: number_of(labels, &name),
        kind: refused(name, fault),
    }
}

/// The refusal of the object of this name.
fn refused<A: Allocator>(name: Name, fault: ObjectFault) -> Refused<A>
    ensures { result ≡ object_refused name fault }
{
    match fault {
        ObjectFault::BadObject => Refused::BadObject(name),
        ObjectFault::NameHeld => Refused::NameHeld(name),
        ObjectFault::Dangling(link) => Refused::Dangling(name, link),
    }
}
