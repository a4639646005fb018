//! The refs that commits go out on: a branch that reaches the commit, where there is one.

ghost use Rattle.std.specs.List.{list_all};
ghost use Rattle.std.specs.Prelude.{◌≡◌, ◌≤◌, ℕ, Bool, IfOk, length, replicate};
ghost use Rattle.gx_model.specs.declared.objects.Kind.TheVariants as kinds;
ghost use Rattle.gx_model.specs.Changes.{is_branch};
ghost use Rattle.gx_model.specs.Export.{is_reached};
ghost use Rattle.gx_model.specs.Histories.Marks.{IsMarked, marks_of};
ghost use Rattle.gx_model.specs.Histories.Values.{Commit};
ghost use Rattle.gx_model.specs.Histories.{Records};
ghost use Rattle.gx_model.specs.Laws.HistoryLaws.{IsParent};
ghost use Rattle.gx_model.specs.Laws.RepositoryLaws.{values_of};
ghost use Rattle.gx_model.specs.Records.Sound.{IsTarget};
ghost use Rattle.gx_model.specs.Texts.{Bytes};
ghost use Rattle.gx_rev.specs.Objects.{IsHeldAs, commit_at, parents_at};
ghost use Rattle.gx_export.specs.Branches.{AreRankedBy, AreSet, AreTargets, FindsBranches, HaveTipsOf, IsLowered, branch_at, candidates, commit_of_ref, is_ranked, picked, refs_of, shown_tips};

use gx_object::{Name, Namer};
use gx_repo::Repo;
use gx_rev::{name_at, place_of, view_of};
use std::alloc::{AllocError, Allocator};

/// The refs that an export sets; and of these those under `refs/heads/` and then all, each in byte order. For the record of
/// each commit that is sent its rank is the number of the first of the latter that reaches it, or how many they are where
/// none does.
#[derive(Drop)]
pub(crate) struct Branches<'a, A: Allocator> {
    pub(crate) refs: Vec<(&'a [u8], Name), A>,
    tips: Vec<(&'a [u8], Name), A>,
    ranks: Vec<usize, A>,
}

impl<'a, A: Allocator + Copy> Branches<'a, A> {
    /// The refs of a repository whose commits are marked in `set`, for the commits that are marked in `sent`.
    ///
    /// Cost: the number of records, for each ref a look-up, and for each commit that a ref reaches and that isn't older than
    /// all that are sent its body and a look-up for each of its parents. Takes a number for each record, and three names for
    /// each ref.
    pub(crate) fn new<N: Namer>(
        alloc: A,
        repo: &'a Repo<N, A>,
        sent: &[bool],
        set: &[bool],
    ) -> Result<Branches<'a, A>, AllocError>
        requires { length set.now ≡ length (values_of repo.now.1) }
        ensures found { IfOk result (FindsBranches repo.now.1 sent.now) }
        ensures refs { IfOk result (λ branches. AreSet repo.now.1 set.now branches.refs.items) }
    {
        let refs = set_refs(alloc, repo, set)?;
        let tips = candidates(alloc, &refs)?;
        let mut ranks = vec![in alloc; tips.len(); repo.store().len()]?;
        rank_commits(repo, &mut ranks, &tips, first_marked(sent));
        Ok(Branches { refs, tips, ranks })
    }

    /// The ref that the commit at a place goes out on: that of an export's own where no ref reaches it. Takes no memory.
    pub(crate) fn of(&self, place: usize) -> &'a [u8]
        ensures { result.now ≡ branch_at self.now place }
    {
        match self.ranks.get(place) {
            None => b"refs/gx/export",
            Some(rank) => match self.tips.get(*rank) {
                None => b"refs/gx/export",
                Some(tip) => tip.0,
            },
        }
    }

    /// Whether the refs reach all commits that are sent. Takes no memory.
    pub(crate) fn reach_all(&self, sent: &[bool]) -> bool
        ensures { (repository : Records) (test : Commit → Bool)
            → FindsBranches repository sent.now self.now
            → sent.now ≡ marks_of test (values_of repository)
            → result ≡ list_all (is_reached (refs_of repository self.now)) (picked test (values_of
            repository)) }
    {
        for place in 0..sent.len() {
            if sent[place] && !self.reach(place) {
                return false;
            }
        }
        true
    }

    /// Whether the refs reach the commit at a place.
    fn reach(&self, place: usize) -> bool
        ensures { result ≡ is_ranked self.now place }
    {
        match self.ranks.get(place) {
            None => false,
            Some(rank) => *rank < self.tips.len(),
        }
    }
}

/// The refs whose commits are marked.
fn set_refs<'a, N: Namer, A: Allocator + Copy>(
    alloc: A,
    repo: &'a Repo<N, A>,
    set: &[bool],
) -> Result<Vec<(&'a [u8], Name), A>, AllocError>
    requires { length set.now ≡ length (values_of repo.now.1) }
    ensures set { IfOk result (λ refs. AreSet repo.now.1 set.now refs.items) }
    ensures targets { IfOk result (λ refs. AreTargets repo.now.1 refs.items) }
{
    let mut refs = Vec::new(alloc);
    for (name, object) in repo.refs() {
        if is_set(repo, set, &object) {
            refs.push((name, object))?;
        }
    }
    Ok(refs)
}

/// Whether the commit of a ref's object is marked.
fn is_set<N: Namer, A: Allocator + Copy>(repo: &Repo<N, A>, set: &[bool], object: &Name) -> bool
    requires target { (ref : Bytes) × IsTarget repo.now.1.records ref object.now.bytes }
    requires long { length set.now ≡ length (values_of repo.now.1) }
    ensures { (test : Commit → Bool) → set.now ≡ marks_of test (values_of repo.now.1)
        → result ≡ test (commit_of_ref repo.now.1 object.now.bytes) }
{
    repo.sound();
    let Some(commit) = repo.peel(object) else {
        return false;
    };
    let place = place_of(repo, &commit);
    set[place]
}

/// Those refs that are branches, and then all.
fn candidates<'a, A: Allocator + Copy>(
    alloc: A,
    refs: &[(&'a [u8], Name)],
) -> Result<Vec<(&'a [u8], Name), A>, AllocError>
    ensures { IfOk result (λ tips. shown_tips tips.items ≡ candidates (shown_tips refs.now)) }
{
    let mut tips = Vec::new(alloc);
    for tip in refs {
        if is_branch(tip.0) {
            tips.push(*tip)?;
        }
    }
    tips.extend_from_slice(refs)?;
    Ok(tips)
}

/// Whether a ref is a branch.
fn is_branch(name: &[u8]) -> bool
    ensures { result ≡ is_branch name.now }
{
    name.starts_with(b"refs/heads/")
}

/// The first place that is marked, or behind all where none is.
fn first_marked(marks: &[bool]) -> usize
    ensures { (place : ℕ) → IsMarked marks.now place → result ≤ place }
{
    for place in 0..marks.len() {
        if marks[place] {
            return place;
        }
    }
    marks.len()
}

/// Gives each commit from a place on the number of the first tip that reaches it. No rank was given yet.
fn rank_commits<N: Namer, A: Allocator + Copy>(
    repo: &Repo<N, A>,
    ranks: &mut [usize],
    tips: &[(&[u8], Name)],
    first: usize,
)
    requires tips { AreTargets repo.now.1 tips.now }
    requires none { ranks.old ≡ replicate (length (values_of repo.now.1)) (length tips.now) }
    ensures { AreRankedBy repo.now.1 tips.now first ranks.new }
{
    rank_tips(repo, ranks, tips);
    hand_down(repo, ranks, tips, first);
}

/// Gives each commit that tips hold the number of the first one that does.
fn rank_tips<N: Namer, A: Allocator + Copy>(
    repo: &Repo<N, A>,
    ranks: &mut [usize],
    tips: &[(&[u8], Name)],
)
    requires tips { AreTargets repo.now.1 tips.now }
    requires none { ranks.old ≡ replicate (length (values_of repo.now.1)) (length tips.now) }
    ensures { HaveTipsOf repo.now.1 tips.now ranks.new }
{
    repo.sound();
    for (rank, tip) in tips.iter().enumerate() {
        if let Some(commit) = repo.peel(&tip.1) {
            lower(repo, ranks, &commit, rank);
        }
    }
}

/// Hands the ranks of commits from a place on down to their ancestors. A commit's parents stand before it.
fn hand_down<N: Namer, A: Allocator + Copy>(
    repo: &Repo<N, A>,
    ranks: &mut [usize],
    tips: &[(&[u8], Name)],
    first: usize,
)
    requires { HaveTipsOf repo.now.1 tips.now ranks.old }
    ensures { AreRankedBy repo.now.1 tips.now first ranks.new }
{
    repo.sound();
    let mut left = ranks.len();
    while left > first {
        left -= 1;
        let rank = ranks[left];
        if rank < tips.len() {
            lower_parents(repo, ranks, &name_at(repo, left), rank);
        }
    }
}

/// Lowers the ranks of a held commit's parents to one.
fn lower_parents<N: Namer, A: Allocator + Copy>(
    repo: &Repo<N, A>,
    ranks: &mut [usize],
    commit: &Name,
    rank: usize,
)
    requires held { IsHeldAs kinds.Commit repo.now.1 commit.now }
    requires long { length ranks.old ≡ length (values_of repo.now.1) }
    ensures { IsLowered repo.now.1 (λ parent. IsParent parent (parents_at repo.now.1
        commit.now)) rank ranks.old ranks.new }
{
    repo.sound();
    let view = view_of(repo, commit);
    for number in 0..view.parent_count() {
        if let Some(parent) = view.parent(number) {
            lower(repo, ranks, &parent, rank);
        }
    }
}

/// Lowers the rank of a held commit to one.
fn lower<N: Namer, A: Allocator + Copy>(
    repo: &Repo<N, A>,
    ranks: &mut [usize],
    commit: &Name,
    rank: usize,
)
    requires held { IsHeldAs kinds.Commit repo.now.1 commit.now }
    requires long { length ranks.old ≡ length (values_of repo.now.1) }
    ensures { IsLowered repo.now.1 (λ lowered. lowered ≡ commit_at repo.now.1 commit.now) rank
        ranks.old ranks.new }
{
    repo.sound();
    let place = place_of(repo, commit);
    ranks[place] = ranks[place].min(rank);
}
