//! The refs that commits go out on: a branch that reaches the commit, where there is one.

ghost use Rattle.std.specs.Prelude.{◌≡◌, IfOk, IfSome};
ghost use Rattle.gx_model.specs.Changes.{is_branch};
ghost use Rattle.gx_objects.specs.Answers.{OnlyUntold, Tells};
ghost use Rattle.gx_branches.specs.Branches.{FindsBranches, all_reached, branch_at, candidates};
ghost use Rattle.gx_tips.specs.Spans.{AreNewestFirst};
ghost use Rattle.gx_tips.specs.Tips.{AreTips};

use crate::ranks::{front_of, ranks_of};
use gx_object::Name;
use gx_objects::{LookFault, Objects};
use gx_tips::Tip;
use std::alloc::{AllocError, Allocator};

/// The refs on which the commits of an export go out: those under `refs/heads/` come first and then all, each in byte order. A
/// commit goes out on the first that reaches it.
///
/// Memory: a number for each commit, and each ref twice at most.
#[derive(Drop)]
pub struct Branches<'a, A: Allocator> {
    candidates: Vec<Tip<'a>, A>,
    // for each commit the number of the first candidate that reaches it, or how many they are
    ranks: Vec<usize, A>,
}

impl<'a, A: Allocator + Copy> Branches<'a, A> {
    /// Those of some refs, for commits each of which stands behind the next.
    ///
    /// OutOfMemory: a growth is refused. ReadFailed: a read failed. Damaged: this is no repository.
    /// Cost: for each commit a look-up; and for each that a ref reaches and that stands behind the last of these its body, and a
    /// look-up for each of its parents. Memory: besides, the places that are still to be visited, and the room for a body.
    /// Source: git-fast-export(1).
    pub fn new<O: Objects>(
        alloc: A,
        objects: &O,
        room: &mut Vec<u8, A>,
        refs: &[Tip<'a>],
        sent: &[Name],
    ) -> Result<Branches<'a, A>, LookFault>
        requires refs { IfSome (O.told objects.now) (AreTips (O.stands objects.now) refs.now) }
        requires sent { IfSome (O.told objects.now) (AreNewestFirst sent.now) }
        ensures found { Tells (O.told objects.now) (FindsBranches refs.now sent.now) result }
        ensures fault { OnlyUntold (O.told objects.now) result }
    {
        objects.sound_if_told();
        let candidates = candidates(alloc, refs)?;
        let mut front = front_of(alloc, objects, &candidates)?;
        let ranks = ranks_of(alloc, objects, &mut front, sent, candidates.len(), room)?;
        Ok(Branches { candidates, ranks })
    }

    /// The name of the ref that the commit with this number, from 0, goes out on: that of an export's own, `refs/gx/export`, where
    /// no ref reaches it. Takes no memory.
    pub fn of(&self, number: usize) -> &'a [u8]
        ensures { result.now ≡ branch_at self.now number }
    {
        match self.ranks.get(number) {
            None => b"refs/gx/export",
            Some(rank) => match self.candidates.get(*rank) {
                None => b"refs/gx/export",
                Some(tip) => tip.name,
            },
        }
    }

    /// Whether the refs reach all of the commits. Takes no memory.
    pub fn reach_all(&self) -> bool
        ensures { result ≡ all_reached self.now }
    {
        for rank in &self.ranks {
            if *rank >= self.candidates.len() {
                return false;
            }
        }
        true
    }
}

/// Those refs that are branches, and then all.
fn candidates<'a, A: Allocator + Copy>(
    alloc: A,
    refs: &[Tip<'a>],
) -> Result<Vec<Tip<'a>, A>, AllocError>
    ensures { IfOk result (λ tips. tips.items ≡ candidates refs.now) }
{
    let mut tips = Vec::new(alloc);
    for tip in refs {
        if is_branch(tip.name) {
            tips.push(*tip)?;
        }
    }
    tips.extend_from_slice(refs)?;
    Ok(tips)
}

/// Whether a ref is a branch.
fn is_branch(name: &[u8]) -> bool
    ensures { result ≡ is_branch name.now }
{
    name.starts_with(b"refs/heads/")
}
