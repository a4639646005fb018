//! How given objects are placed. Source: gitglossary(7), "reachable".

ghost use Rattle.std.specs.Prelude.{◌≡◌, ◌↔◌, ◌<◌, ◌++◌, ◌∷◌, [], List, IsTrue, OnErr, OnOk};
ghost use Rattle.gx_model.specs.Histories.{Record};
ghost use Rattle.gx_store.specs.Bodies.{bytes_of};
ghost use Rattle.gx_placed.specs.Machine.{work_left};
ghost use Rattle.gx_placed.specs.Places.{AreNamed, Extends, Places, shown_given};
ghost use Rattle.gx_placed.specs.Steps.{Finds, PlacesAt, Steps, Takes, all_begun, begun, slots};

use crate::fault::{ObjectFault, PlaceFault};
use crate::frame::Frame;
use crate::waiting::Waiting;
use gx_links::Link;
use gx_object::{Kind, Namer};
use gx_offered::OfferedObject;
use gx_repo::Repo;
use std::alloc::Allocator;

/// Places objects in a repository, in their order, each behind what it names: its links in its body's order, each in the same way.
/// One that is held already, or given before, isn't added again.
///
/// `Object`: the first that has something against it, in the order in which they are placed. `BadObject`: the body isn't a canonical
/// one of its kind that a stream can say, or what is below a tree is bad. `NameHeld`: another object is held under its name.
/// `Dangling`: a link is neither held nor given, or as another kind, or it is needed for itself. `OutOfMemory`: a growth was refused.
/// After a fault the repository is as it was.
/// Cost: the bodies, a look-up for each link, and the logarithm of the number of objects for each that isn't held. Memory: some words
/// for each object, and the links of those that others wait for; however deep they are, it is on the heap.
/// Source: gitglossary(7), "reachable".
pub fn place<N: Namer, A: Allocator + Copy>(
    alloc: A,
    repo: &mut Repo<N, A>,
    given: Vec<OfferedObject<A>, A>,
) -> Result<(), PlaceFault>
    requires named { AreNamed (N.name_of repo.now.0) (shown_given given) }
    ensures namer { repo.new.0 ≡ repo.old.0 }
    ensures refs { repo.new.1.refs ≡ repo.old.1.refs }
    ensures places { Places (shown_given given) repo.old.1.records repo.new.1.records result }
    ensures unchanged { OnErr result (repo.new ≡ repo.old) }
{
    repo.sound();
    let held = repo.store().len();
    match place_all(alloc, repo, given) {
        Ok(()) => Ok(()),
        Err(fault) => {
            repo.truncate(held);
            Err(fault)
        }
    }
}

/// Places all, and keeps those that were placed before a fault.
fn place_all<N: Namer, A: Allocator + Copy>(
    alloc: A,
    repo: &mut Repo<N, A>,
    given: Vec<OfferedObject<A>, A>,
) -> Result<(), PlaceFault>
    requires named { AreNamed (N.name_of repo.now.0) (shown_given given) }
    ensures namer { repo.new.0 ≡ repo.old.0 }
    ensures refs { repo.new.1.refs ≡ repo.old.1.refs }
    ensures extends { Extends repo.old.1.records repo.new.1.records }
    ensures places { Places (shown_given given) repo.old.1.records repo.new.1.records result }
{
    let mut waiting = Waiting::new(alloc, given)?;
    for place in 0..waiting.len() {
        place_at(alloc, repo, &mut waiting, place)?;
    }
    Ok(())
}

/// Places the object at a place, unless it is held.
fn place_at<N: Namer, A: Allocator + Copy>(
    alloc: A,
    repo: &mut Repo<N, A>,
    waiting: &mut Waiting<A>,
    place: usize,
) -> Result<(), PlaceFault>
    ensures namer { repo.new.0 ≡ repo.old.0 }
    ensures refs { repo.new.1.refs ≡ repo.old.1.refs }
    ensures extends { Extends repo.old.1.records repo.new.1.records }
    ensures places { (all : List Record) → PlacesAt (N.name_of repo.old.0) all waiting.old
        waiting.new repo.old.1.records repo.new.1.records place result }
{
    let Some(object) = waiting.take_at(place) else {
        return Ok(());
    };
    match repo.store().get(&object.name) {
        Some((kind, body)) => {
            if is_same(kind, body, &object) {
                Ok(())
            } else {
                Err(PlaceFault::Object(place, ObjectFault::NameHeld))
            }
        }
        None => {
            let frame = Frame::new(alloc, place, object)?;
            place_new(alloc, repo, waiting, frame)
        }
    }
}

/// Whether an object is of this kind and has this body.
fn is_same<A: Allocator + Copy>(kind: Kind, body: &[u8], object: &OfferedObject<A>) -> bool
    ensures { IsTrue result
        ↔ (kind ≡ object.now.kind) × (body.now ≡ bytes_of object.now.body) }
{
    kind == object.kind && body == object.body.as_slice()
}

/// Places an object that isn't held.
fn place_new<N: Namer, A: Allocator + Copy>(
    alloc: A,
    repo: &mut Repo<N, A>,
    waiting: &mut Waiting<A>,
    frame: Frame<A>,
) -> Result<(), PlaceFault>
    ensures namer { repo.new.0 ≡ repo.old.0 }
    ensures refs { repo.new.1.refs ≡ repo.old.1.refs }
    ensures extends { Extends repo.old.1.records repo.new.1.records }
    ensures steps { (all : List Record) → Steps (N.name_of repo.old.0) all waiting.old waiting.new
        repo.old.1.records repo.new.1.records (begun frame ∷ []) [] result }
{
    let mut frames = Vec::new(alloc);
    frames.push(frame)?;
    while let Some(frame) = frames.pop() {
        advance(alloc, repo, waiting, &mut frames, frame)?;
    }
    Ok(())
}

/// Looks at the next link of an object, or adds it where it has no more.
fn advance<N: Namer, A: Allocator + Copy>(
    alloc: A,
    repo: &mut Repo<N, A>,
    waiting: &mut Waiting<A>,
    frames: &mut Vec<Frame<A>, A>,
    frame: Frame<A>,
) -> Result<(), PlaceFault>
    ensures namer { repo.new.0 ≡ repo.old.0 }
    ensures refs { repo.new.1.refs ≡ repo.old.1.refs }
    ensures extends { Extends repo.old.1.records repo.new.1.records }
    ensures steps { (all : List Record) → Steps (N.name_of repo.old.0) all waiting.old waiting.new
        repo.old.1.records repo.new.1.records
        (all_begun frames.old ++ begun frame ∷ []) (all_begun frames.new) result }
    ensures less { OnOk result (work_left (slots waiting.new) (all_begun frames.new)
        < work_left (slots waiting.old) (all_begun frames.old ++ begun frame ∷ [])) }
{
    let mut frame = frame;
    let Some(link) = frame.next() else {
        return frame.put_into(repo);
    };
    let place = frame.place;
    frames.push(frame)?;
    match find(repo, waiting, link) {
        Found::Held => Ok(()),
        Found::Given(at, object) => {
            frames.push(Frame::new(alloc, at, object)?)?;
            Ok(())
        }
        Found::Lacking => Err(PlaceFault::Object(place, ObjectFault::Dangling(link.name))),
    }
}

/// Where what a link names is found.
#[derive(Drop)]
pub(crate) enum Found<A: Allocator> {
    /// It is held.
    Held,
    /// It is given, at this place, and was taken from there.
    Given(usize, OfferedObject<A>),
    /// Nowhere, or as another kind.
    Lacking,
}

/// Finds what a link names. Cost: a look-up, and the logarithm of the number of given objects. Takes no memory.
fn find<N: Namer, A: Allocator + Copy>(
    repo: &Repo<N, A>,
    waiting: &mut Waiting<A>,
    link: Link,
) -> Found<A>
    ensures found { Finds repo.now.1.records waiting.old link result }
    ensures slots { Takes (slots waiting.old) (slots waiting.new) result }
    ensures places { waiting.new.places ≡ waiting.old.places }
{
    match repo.store().get(&link.name) {
        Some((kind, _)) if kind == link.kind => Found::Held,
        Some(_) => Found::Lacking,
        None => match waiting.take_named(&link.name) {
            Some((at, object)) if object.kind == link.kind => Found::Given(at, object),
            _ => Found::Lacking,
        },
    }
}
