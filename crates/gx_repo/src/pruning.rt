//! Objects that no ref reaches. The objects that refs hold are marked by their places, and those that are asked for beside them,
//! and one pass from the newest record on spreads the marks: what an object names stands before it.
//! Source: git-prune(1), and gitglossary(7), "reachable".
ghost use Rattle.std.specs.Prelude.{◌≡◌, ◌+◌, [], ◌∷◌, ◌++◌, false, length, replicate, IfOk, OnErr, OnOk};
ghost use Rattle.gx_model.specs.declared.objects.Kind.TheVariants as kinds;
ghost use Rattle.gx_model.specs.Laws.StoreLaws.{IsBody};
ghost use Rattle.gx_model.specs.Pruning.{is_reachable, links_of, pruned};
ghost use Rattle.gx_object.specs.Commits.{bytes_of_names};
ghost use Rattle.gx_repo.specs.Pruning.{MarksNames, Spreads, marks_by, objects_held, pruned_beside, tips_of, weight};
ghost use Rattle.gx_repo.specs.Repositories.{IsSoundStore};

use crate::fault::OutOfMemory;
use crate::ref_list::RefList;
use crate::repo::Repo;
use gx_object::{Kind, Mode, Name, Namer, decode_commit, decode_tag, held_tree};
use gx_store::Store;
use std::alloc::{AllocError, Allocator};

/// What goes where a repository lets the objects go that no ref reaches.
#[derive(Clone, Copy, Debug, PartialEq, Eq)]
pub struct Pruned {
    /// The number of objects.
    pub objects: usize,
    /// The number of bytes in their bodies.
    pub bytes: u128,
}

impl<N: Namer, A: Allocator + Copy> Repo<N, A> {
    /// Lets all objects go that neither a ref nor an object of one of these names reaches, which reaches itself, and answers how
    /// much that is. The others keep their order, and the refs stay. A name that no object has keeps nothing.
    ///
    /// `OutOfMemory`: a growth was refused; the repository is as it was.
    /// Cost: the number of objects, of refs and of names, and for each object that is reached its body, and a look-up for each
    /// object that it names. Nothing is named or hashed anew. Memory: a byte for each object. Source: git-prune(1), and
    /// gitglossary(7), "reachable".
    pub fn prune(&mut self, kept: &[Name]) -> Result<Pruned, OutOfMemory>
        ensures namer { self.new.0 ≡ self.old.0 }
        ensures pruned { OnOk result
            (self.new.1 ≡ pruned_beside (bytes_of_names kept.now) self.old.1) }
        ensures by_refs { OnOk result (kept.now ≡ [] → self.new.1 ≡ pruned self.old.1) }
        ensures objects { IfOk result
            (λ gone. gone.objects + length self.new.1.records ≡ length self.old.1.records) }
        ensures bytes { IfOk result
            (λ gone. gone.bytes + weight self.new.1.records ≡ weight self.old.1.records) }
        ensures unchanged { OnErr result (self.new ≡ self.old) }
    {
        let marks = reachable_marks(self.alloc, &self.store, &self.refs, kept)?;
        let held = self.store.len();
        let weighed = weight(&self.store);
        self.store.retain(&marks);
        self.rooms.clear();
        let objects = held - self.store.len();
        let bytes = weighed - weight(&self.store);
        Ok(Pruned { objects, bytes })
    }
}

/// Marks of the objects that refs or objects of these names reach, by place.
///
/// Cost: the number of objects, of refs and of names, and for each object that is reached its body, and a look-up for each
/// object that it names. Takes a byte for each object.
fn reachable_marks<N: Namer, A: Allocator + Copy>(
    alloc: A,
    store: &Store<N, A>,
    refs: &RefList<A>,
    kept: &[Name],
) -> Result<Vec<bool, A>, AllocError>
    requires { IsSoundStore N.name_of store.now }
    ensures { IfOk result (λ marks. marks.items
        ≡ marks_by (is_reachable (refs.now ++ tips_of (bytes_of_names kept.now)) store.now.1)
        store.now.1) }
{
    let count = store.len();
    let mut marks = vec![in alloc; false; count]?;
    mark_reachable(store, &mut marks, refs, kept);
    Ok(marks)
}

/// Marks what refs or objects of these names reach, where nothing is marked.
fn mark_reachable<N: Namer, A: Allocator + Copy>(
    store: &Store<N, A>,
    marks: &mut [bool],
    refs: &RefList<A>,
    kept: &[Name],
)
    requires sound { IsSoundStore N.name_of store.now }
    requires none { marks.old ≡ replicate (length store.now.1) false }
    ensures { marks.new
        ≡ marks_by (is_reachable (refs.now ++ tips_of (bytes_of_names kept.now)) store.now.1)
        store.now.1 }
{
    mark_tips(store, marks, refs);
    mark_names(store, marks, kept);
    spread(store, marks);
}

/// The number of bytes in the bodies of all objects. Takes no memory.
fn weight<N: Namer, A: Allocator + Copy>(store: &Store<N, A>) -> u128
    ensures { result ≡ weight store.now.1 }
{
    let mut bytes = 0;
    for place in 0..store.len() {
        let Some((_, _, body)) = store.record(place) else {
            unreachable!();
        };
        bytes += body.len() as u128;
    }
    bytes
}

/// Marks the objects that refs hold.
fn mark_tips<N: Namer, A: Allocator + Copy>(
    store: &Store<N, A>,
    marks: &mut [bool],
    refs: &RefList<A>,
)
    requires sound { IsSoundStore N.name_of store.now }
    requires long { length marks.old ≡ length store.now.1 }
    ensures { MarksNames store.now.1 (objects_held refs.now) marks.old marks.new }
{
    for held in refs.refs.as_slice() {
        mark(store, marks, &held.object);
    }
}

/// Marks the objects of these names, where they are held.
fn mark_names<N: Namer, A: Allocator + Copy>(
    store: &Store<N, A>,
    marks: &mut [bool],
    names: &[Name],
)
    requires sound { IsSoundStore N.name_of store.now }
    requires long { length marks.old ≡ length store.now.1 }
    ensures { MarksNames store.now.1 (bytes_of_names names.now) marks.old marks.new }
{
    for name in names {
        mark(store, marks, name);
    }
}

/// Marks what the marked objects reach.
fn spread<N: Namer, A: Allocator + Copy>(store: &Store<N, A>, marks: &mut [bool])
    requires sound { IsSoundStore N.name_of store.now }
    requires long { length marks.old ≡ length store.now.1 }
    ensures { Spreads store.now.1 marks.old marks.new }
{
    let mut left = marks.len();
    while left > 0 {
        left -= 1;
        if marks[left] {
            let Some((_, kind, body)) = store.record(left) else {
                unreachable!();
            };
            mark_links(store, marks, kind, body);
        }
    }
}

/// Marks what an object with this canonical body names.
fn mark_links<N: Namer, A: Allocator + Copy>(
    store: &Store<N, A>,
    marks: &mut [bool],
    kind: Kind,
    body: &[u8],
)
    requires sound { IsSoundStore N.name_of store.now }
    requires long { length marks.old ≡ length store.now.1 }
    requires canonical { IsBody kind body.now }
    ensures { MarksNames store.now.1 (links_of kind body.now) marks.old marks.new }
{
    match kind {
        Kind::Blob => (),
        Kind::Tree => mark_entries(store, marks, body),
        Kind::Commit => mark_tree_and_parents(store, marks, body),
        Kind::Tag => mark_tagged(store, marks, body),
    }
}

/// Marks what the entries of a tree name.
fn mark_entries<N: Namer, A: Allocator + Copy>(store: &Store<N, A>, marks: &mut [bool], body: &[u8])
    requires sound { IsSoundStore N.name_of store.now }
    requires long { length marks.old ≡ length store.now.1 }
    requires canonical { IsBody kinds.Tree body.now }
    ensures { MarksNames store.now.1 (links_of kinds.Tree body.now) marks.old marks.new }
{
    for entry in held_tree(body) {
        if entry.mode != Mode::Gitlink {
            mark(store, marks, &entry.name);
        }
    }
}

/// Marks the tree and the parents of a commit.
fn mark_tree_and_parents<N: Namer, A: Allocator + Copy>(
    store: &Store<N, A>,
    marks: &mut [bool],
    body: &[u8],
)
    requires sound { IsSoundStore N.name_of store.now }
    requires long { length marks.old ≡ length store.now.1 }
    requires canonical { IsBody kinds.Commit body.now }
    ensures { MarksNames store.now.1 (links_of kinds.Commit body.now) marks.old marks.new }
{
    let Ok(commit) = decode_commit(body) else {
        unreachable!();
    };
    mark(store, marks, &commit.tree());
    for number in 0..commit.parent_count() {
        let Some(parent) = commit.parent(number) else {
            unreachable!();
        };
        mark(store, marks, &parent);
    }
}

/// Marks the object of a tag.
fn mark_tagged<N: Namer, A: Allocator + Copy>(store: &Store<N, A>, marks: &mut [bool], body: &[u8])
    requires sound { IsSoundStore N.name_of store.now }
    requires long { length marks.old ≡ length store.now.1 }
    requires canonical { IsBody kinds.Tag body.now }
    ensures { MarksNames store.now.1 (links_of kinds.Tag body.now) marks.old marks.new }
{
    let Ok(tag) = decode_tag(body) else {
        unreachable!();
    };
    mark(store, marks, &tag.object());
}

/// Marks the object of this name, where one is held.
fn mark<N: Namer, A: Allocator + Copy>(store: &Store<N, A>, marks: &mut [bool], name: &Name)
    requires sound { IsSoundStore N.name_of store.now }
    requires long { length marks.old ≡ length store.now.1 }
    ensures { MarksNames store.now.1 (name.now.bytes ∷ []) marks.old marks.new }
{
    if let Some(place) = store.place(name) {
        marks[place] = true;
    }
}
