//! A new tree beside an earlier one: an entry that stands in a tree that is held is held, too, and needs no look-up.
ghost use Rattle.std.specs.Prelude.{◌≡◌, ◌<◌, IsTrue, OnErr};
ghost use Rattle.gx_model.specs.declared.objects.Kind.TheVariants as kinds;
ghost use Rattle.gx_model.specs.Objects.{Entry as TreeEntry};
ghost use Rattle.gx_object.specs.Entries.{shown};
ghost use Rattle.gx_object.specs.Trees.{IsEntryText};
ghost use Rattle.gx_repo.specs.Earlier.{AreLeftHeld, IsHeldTree, IsHeldWithBoth, IsTextThere, IsThereWithLeft, KeepsLeftHeld};
ghost use Rattle.gx_repo.specs.Repositories.{IsSoundStore};

use gx_object::{Entry, Kind, Namer, TreeEntries, held_tree};
use gx_store::Store;
use gx_text::cut;
use std::alloc::{AllocError, Allocator};

/// How many hints there are by the first entries of trees, and as many by the last.
const SLOTS: usize = 1024;

/// A place at which no record stands.
const NOWHERE: usize = usize::MAX;

/// Where trees stand that a new one may be like: for each front of a name the last tree whose first entry has a name that
/// begins so, and for each end of one the last tree whose last entry has a name that ends so.
///
/// A hint is any number, since what stands at its place is looked at where it is used. So hints are left as they are when
/// records are dropped. They are on the heap, since a repository is moved about.
#[derive(Drop)]
pub(crate) struct Hints<A: Allocator> {
    /// Those by the first entries, and behind them those by the last; or none, before there is a tree.
    places: Vec<usize, A>,
}

impl<A: Allocator + Copy> Hints<A> {
    /// Hints that lead to no tree. Takes no memory.
    pub(crate) fn new(alloc: A) -> Hints<A> {
        Hints {
            places: Vec::new(alloc),
        }
    }

    /// Takes the room for the hints, before the first tree is entered.
    pub(crate) fn make_room(&mut self, kind: Kind) -> Result<(), AllocError>
        ensures { OnErr result (kind ≡ kinds.Tree) }
    {
        if kind == Kind::Tree && self.places.is_empty() {
            self.places.resize(2 * SLOTS, NOWHERE)?;
        }
        Ok(())
    }

    fn place(&self, slot: usize) -> usize {
        match self.places.get(slot) {
            Some(place) => *place,
            None => NOWHERE,
        }
    }

    fn set(&mut self, slot: usize, place: usize) {
        if let Some(hint) = self.places.get_mut(slot) {
            *hint = place;
        }
    }

    /// The held tree to which the hints lead from a new one's body, and of two the one whose length is nearer; one without
    /// entries where they lead to none, or to longer ones than twice the body.
    ///
    /// Cost: the length of the first component, and two looks at records. Takes no memory.
    pub(crate) fn earlier<'a, N: Namer>(&self, store: &'a Store<N, A>, body: &[u8]) -> Earlier<'a>
        requires sound { IsSoundStore N.name_of store.now }
        ensures { AreLeftHeld store.now.1 result }
    {
        let first = tree_at(store, self.place(first_slot(body)));
        let last = tree_at(store, self.place(SLOTS + last_slot(body)));
        Earlier {
            next: None,
            rest: held_tree(nearer(body.len(), first, last)),
        }
    }

    /// Enters the place at which a tree with this body is to stand, and nothing for another kind.
    pub(crate) fn enter(&mut self, kind: Kind, body: &[u8], place: usize) {
        if kind == Kind::Tree {
            self.set(first_slot(body), place);
            self.set(SLOTS + last_slot(body), place);
        }
    }
}

/// What is left of an earlier tree's entries.
#[derive(Drop)]
pub(crate) struct Earlier<'a> {
    // The next entry, where it is read already.
    next: Option<Entry<'a>>,
    rest: TreeEntries<'a>,
}

impl<'a> Earlier<'a> {
    /// Whether an entry of this mode and name comes next, or next once those are passed whose components come before the
    /// entry's. It is then passed, too. The text is the entry's: where it comes next as it stands, nothing is read.
    ///
    /// Cost: each entry is passed once. Takes no memory.
    pub(crate) fn takes(&mut self, entry: &Entry<'_>, text: &[u8]) -> bool
        requires text { IsEntryText (shown entry.now) text.now }
        ensures left { KeepsLeftHeld self.old self.new }
        ensures held { IsTrue result → IsThereWithLeft self.old entry.now }
    {
        if self.passes(text) {
            return true;
        }
        if self.is_next(entry) {
            self.next = None;
            return true;
        }
        self.pass_before(entry.component);
        if self.is_next(entry) {
            self.next = None;
            return true;
        }
        false
    }

    /// Whether the next entry has this text. It is then passed, and else read, unless it is read already.
    fn passes(&mut self, text: &[u8]) -> bool
        requires text { (entry : TreeEntry) × IsEntryText entry text.now }
        ensures left { KeepsLeftHeld self.old self.new }
        ensures held { IsTrue result → IsTextThere self.old text.now }
    {
        if self.next.is_some() {
            return false;
        }
        if self.rest.pass(text) {
            return true;
        }
        self.next = self.rest.next();
        false
    }

    fn is_next(&self, entry: &Entry<'_>) -> bool
        ensures { IsTrue result → IsThereWithLeft self.now entry.now }
    {
        match &self.next {
            Some(next) => next.mode == entry.mode && next.name == entry.name,
            None => false,
        }
    }

    fn pass_before(&mut self, component: &[u8])
        ensures { KeepsLeftHeld self.old self.new }
    {
        if !self.is_before(component) {
            return;
        }
        self.next = None;
        while let Some(next) = self.rest.next() {
            if next.component >= component {
                self.next = Some(next);
                return;
            }
        }
    }

    fn is_before(&self, component: &[u8]) -> bool {
        match &self.next {
            Some(next) => next.component < component,
            None => false,
        }
    }
}

/// The body of the tree at a place; that of one without entries, where no tree stands there.
fn tree_at<N: Namer, A: Allocator + Copy>(store: &Store<N, A>, place: usize) -> &[u8]
    requires sound { IsSoundStore N.name_of store.now }
    ensures { IsHeldTree store.now.1 result.now }
{
    match store.record(place) {
        Some((_, Kind::Tree, body)) => body,
        _ => b"",
    }
}

/// Of two bodies the one whose length is nearer to this; an empty one where that is more than twice as long.
fn nearer<'a>(len: usize, first: &'a [u8], last: &'a [u8]) -> &'a [u8]
    ensures { IsHeldWithBoth first.now last.now result.now }
{
    let near = if first.len().abs_diff(len) <= last.len().abs_diff(len) {
        first
    } else {
        last
    };
    if near.len() / 2 > len { b"" } else { near }
}

/// The slot of the first entry's name, in what may be a tree's body.
fn first_slot(body: &[u8]) -> usize
    ensures { result < 1024 }
{
    match cut(body, 0) {
        Some((_, name)) => slot_of(name),
        None => 0,
    }
}

/// The slot of the last entry's name, in what may be a tree's body.
fn last_slot(body: &[u8]) -> usize
    ensures { result < 1024 }
{
    slot_of(&body[body.len().saturating_sub(2)..])
}

/// The slot of what begins with these bytes.
fn slot_of(bytes: &[u8]) -> usize
    ensures { result < 1024 }
{
    match bytes {
        [first, second, ..] => (usize::from(*first) * 256 + usize::from(*second)) % SLOTS,
        _ => 0,
    }
}
