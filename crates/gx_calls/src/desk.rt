//! What calls are made on.

use crate::answers::{Heap, Room};
use crate::repositories::Repositories;
use crate::trees::Branch;
use crate::{devices, objects, repositories, revisions, stores, texts, trees};
use gx_object::Namer;
use gx_repo::Repo;
use gx_store::Store;
use gx_tree::PathTree;
use std::hash::RandomState;

/// What the calls of a script are made on.
#[derive(Drop)]
pub(crate) struct Desk<'a, N: Namer> {
    namer: N,
    state: RandomState,
    branch: Branch<'a, N>,
    repositories: Repositories<'a, N>,
}

impl<'a, N: Namer + Copy + Drop> Desk<'a, N> {
    /// No files, no objects, no refs.
    pub(crate) fn new(heap: &'a Heap, namer: N, state: RandomState) -> Desk<'a, N> {
        Desk {
            namer,
            state,
            branch: Branch {
                tree: PathTree::empty(heap),
                other: PathTree::empty(heap),
                store: Store::new(heap, namer, state),
            },
            repositories: Repositories {
                repo: Repo::new(heap, namer, state),
                other: Repo::new(heap, namer, state),
                copied: None,
            },
        }
    }

    /// Makes a call.
    pub(crate) fn make(&mut self, room: &mut Room<'a>, call: &str, given: &[u8]) {
        if call == "forget" {
            self.branch.store = Store::new(room.heap, self.namer, self.state);
            room.word("done");
        } else if !self.makes(room, call, given) {
            room.word("no such call");
        }
    }

    /// Makes the call of a layer. Answers whether there is such a call.
    fn makes(&mut self, room: &mut Room<'a>, call: &str, given: &[u8]) -> bool {
        let (branch, repositories) = (&mut self.branch, &mut self.repositories);
        texts::answer(room, call, given)
            || devices::answer(room, call, given)
            || objects::answer(room, &self.namer, call, given)
            || stores::answer(room, &mut branch.store, call, given)
            || trees::answer(room, branch, call, given)
            || repositories::answer(room, repositories, &mut branch.tree, call, given)
            || revisions::answer(room, &repositories.repo, call, given)
    }
}
