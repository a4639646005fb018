//! The commits that range words list. Each word marks the tips of what it includes and of what it excludes; one pass then
//! serves what all words include, and one what they exclude.

ghost use Rattle.std.specs.Prelude.{◌≡◌, ◌≢◌, Bool, Err, IfErr, IfOk, IsOk, List, OnOk, length, map};
ghost use Rattle.gx_model.specs.declared.objects.Kind.TheVariants as kinds;
ghost use Rattle.gx_model.specs.Revisions as words;
ghost use Rattle.gx_model.specs.Records.HistoryOf.{history_of};
ghost use Rattle.gx_model.specs.Revisions.Ranges.{listed, no_commit, word_denoted, words_denoted};
ghost use Rattle.gx_model.specs.Laws.RepositoryLaws.{values_of};
ghost use Rattle.gx_rev.specs.Objects.{IsHeldAs};
ghost use Rattle.gx_rev.specs.Parents.{HoldsParents};
ghost use Rattle.gx_model.specs.Faults.{NeedsNoMemory};
ghost use Rattle.gx_rev.specs.Views.{shown_range};
ghost use Rattle.gx_rev.specs.Tips.{AreTips};
ghost use Rattle.gx_rev.specs.RevFaults.{fault_of};
ghost use Rattle.gx_rev.specs.Walking.{AreListed, GivesNames, IsWordFault, MarksOfWords, MarksWord, MarksWords, TipsOfWords, WordsComeFirst, refused_at};

use crate::meetings::mark_common;
use crate::objects::parent_of;
use crate::reached::{mark, mark_parents, name_at, spread_by, unmarked};
use crate::shown::eval_commit;
use crate::{Parents, Range, RevFault, Revision, WalkFault};
use gx_object::{Name, Namer};
use gx_repo::Repo;
use std::alloc::{AllocError, Allocator};

/// The names of the commits that some word includes and none excludes, the newest made first.
///
/// The first word that is refused is answered with its number and the fault of its revisions, or NoParent of `r^-n`; and
/// OutOfMemory where none is and a growth is refused.
/// Cost: for each word what its revisions cost. All words share one pass over the records for what they include and one for
/// what they exclude; for `a...b` two walks go down from `a` and `b` until they meet. Each commit that is reached is decoded
/// once, and its parents are looked up then. Takes a byte for each record and each of two sets, two numbers for each record,
/// one for each parent, and the places that the two walks have before them.
/// Source: gitrevisions(7), "Specifying Ranges".
pub fn walk<N: Namer, A: Allocator + Copy>(
    alloc: A,
    repo: &Repo<N, A>,
    words: &[Range<A>],
) -> Result<Vec<Name, A>, WalkFault>
    ensures names { GivesNames result
        (listed (N.name_of repo.now.0) (history_of repo.now.1) (map shown_range words.now)) }
    ensures first { WordsComeFirst result
        (words_denoted (N.name_of repo.now.0) (history_of repo.now.1) (map shown_range words.now)) }
{
    let (included, excluded) = walked(alloc, repo, words)?;
    let names = names_marked(alloc, repo, &included, &excluded)?;
    Ok(names)
}

/// Marks, by the places of the records, of the commits that some word includes, and of those that some word excludes.
///
/// What is refused, and the cost: as of `walk`, without the names.
/// Source: gitrevisions(7), "Specifying Ranges".
pub fn walked<N: Namer, A: Allocator + Copy>(
    alloc: A,
    repo: &Repo<N, A>,
    words: &[Range<A>],
) -> Result<(Vec<bool, A>, Vec<bool, A>), WalkFault>
    ensures marks { MarksWords (N.name_of repo.now.0) repo.now.1
        (map shown_range words.now) result }
    ensures first { WordsComeFirst result
        (words_denoted (N.name_of repo.now.0) (history_of repo.now.1) (map shown_range words.now)) }
{
    match marked(alloc, repo, words) {
        Ok(marks) => Ok(marks),
        Err(fault) => {
            // want of memory hides no word that is refused
            check_words(repo, words)?;
            Err(fault)
        }
    }
}

/// Answers the first word that is refused, also for want of memory only.
fn marked<N: Namer, A: Allocator + Copy>(
    alloc: A,
    repo: &Repo<N, A>,
    words: &[Range<A>],
) -> Result<(Vec<bool, A>, Vec<bool, A>), WalkFault>
    ensures { MarksWords (N.name_of repo.now.0) repo.now.1 (map shown_range words.now) result }
{
    let mut included = unmarked(alloc, repo)?;
    let mut excluded = unmarked(alloc, repo)?;
    let mut parents = Parents::new(alloc);
    mark_walked(
        alloc,
        repo,
        &mut parents,
        words,
        &mut included,
        &mut excluded,
    )?;
    Ok((included, excluded))
}

/// The names of the commits that are marked as included and not as excluded, the newest made first.
///
/// Cost: the number of records. Takes memory for the names.
pub fn names_marked<N: Namer, A: Allocator + Copy>(
    alloc: A,
    repo: &Repo<N, A>,
    included: &[bool],
    excluded: &[bool],
) -> Result<Vec<Name, A>, AllocError>
    requires included { length included.now ≡ length (values_of repo.now.1) }
    requires excluded { length excluded.now ≡ length (values_of repo.now.1) }
    ensures { IfOk result (AreListed (N.name_of repo.now.0) repo.now.1 included.now excluded.now) }
{
    repo.sound();
    let mut names = Vec::new(alloc);
    let mut left = included.len();
    while left > 0 {
        left -= 1;
        if included[left] && !excluded[left] {
            names.push(name_at(repo, left))?;
        }
    }
    Ok(names)
}

/// Marks all that words include and all that they exclude. Nothing is marked yet.
fn mark_walked<N: Namer, A: Allocator + Copy>(
    alloc: A,
    repo: &Repo<N, A>,
    parents: &mut Parents<A>,
    words: &[Range<A>],
    wanted: &mut [bool],
    unwanted: &mut [bool],
) -> Result<(), WalkFault>
    requires holds { HoldsParents repo.now.1 parents.old }
    requires wanted { AreTips repo.now.1 no_commit wanted.old }
    requires unwanted { AreTips repo.now.1 no_commit unwanted.old }
    ensures { MarksOfWords (N.name_of repo.now.0) repo.now.1 (map shown_range words.now)
        wanted.new unwanted.new result }
{
    mark_words(alloc, repo, parents, words, wanted, unwanted)?;
    spread_by(repo, parents, wanted)?;
    spread_by(repo, parents, unwanted)?;
    Ok(())
}

/// Marks what words include and what they exclude, by their tips. Nothing is marked yet.
#[tactic(auto, unfolding(gx_model::specs::Revisions::Ranges::listed))]
fn mark_words<N: Namer, A: Allocator + Copy>(
    alloc: A,
    repo: &Repo<N, A>,
    parents: &mut Parents<A>,
    words: &[Range<A>],
    included: &mut [bool],
    excluded: &mut [bool],
) -> Result<(), WalkFault>
    requires holds { HoldsParents repo.now.1 parents.old }
    requires included { AreTips repo.now.1 no_commit included.old }
    requires excluded { AreTips repo.now.1 no_commit excluded.old }
    ensures holds { HoldsParents repo.now.1 parents.new }
    ensures tips { TipsOfWords (N.name_of repo.now.0) repo.now.1 (map shown_range words.now)
        included.new excluded.new result }
{
    for (place, word) in words.iter().enumerate() {
        match mark_word(alloc, repo, parents, word, included, excluded) {
            Ok(()) => {}
            Err(kind) => return Err(refused(place + 1, kind)),
        }
    }
    Ok(())
}

/// Answers the first word that is refused.
fn check_words<N: Namer, A: Allocator + Copy>(
    repo: &Repo<N, A>,
    words: &[Range<A>],
) -> Result<(), WalkFault>
    ensures right { OnOk result (IsOk (words_denoted (N.name_of repo.now.0) (history_of repo.now.1)
        (map shown_range words.now))) }
    ensures fault { IfErr result (λ fault. IsWordFault fault.word (fault_of fault.kind)
        (listed (N.name_of repo.now.0) (history_of repo.now.1) (map shown_range words.now))) }
    ensures memory { IfErr result (λ fault. fault.kind ≢ RevFault.OutOfMemory) }
{
    for (place, word) in words.iter().enumerate() {
        match check_word(repo, word) {
            Ok(()) => {}
            Err(kind) => return Err(refused(place + 1, kind)),
        }
    }
    Ok(())
}

/// Answers why a word is refused.
fn check_word<N: Namer, A: Allocator + Copy>(
    repo: &Repo<N, A>,
    word: &Range<A>,
) -> Result<(), RevFault>
    ensures right { OnOk result
        (IsOk (word_denoted (N.name_of repo.now.0) (history_of repo.now.1)
        (shown_range word.now))) }
    ensures fault { IfErr result
        (λ fault. word_denoted (N.name_of repo.now.0) (history_of repo.now.1)
        (shown_range word.now) ≡ Err (fault_of fault)) }
    ensures memory { NeedsNoMemory RevFault.OutOfMemory result }
{
    match word {
        Range::WithAncestors(revision)
        | Range::WithoutAncestors(revision)
        | Range::AllParents(revision)
        | Range::Alone(revision) => {
            let _commit = eval_commit(repo, revision)?;
        }
        Range::Between(left, right) | Range::Apart(left, right) => {
            let _left = eval_commit(repo, left)?;
            let _right = eval_commit(repo, right)?;
        }
        Range::WithoutOne(revision, number) => {
            let commit = eval_commit(repo, revision)?;
            let _parent = parent_of(repo, &commit, *number)?;
        }
    }
    Ok(())
}

/// The fault of a word. Want of memory is of none.
fn refused(word: usize, kind: RevFault) -> WalkFault
    ensures { result ≡ refused_at word kind }
{
    match kind {
        RevFault::OutOfMemory => WalkFault { word: 0, kind },
        _ => WalkFault { word, kind },
    }
}

/// Marks what a word includes and what it excludes, by their tips.
fn mark_word<N: Namer, A: Allocator + Copy>(
    alloc: A,
    repo: &Repo<N, A>,
    parents: &mut Parents<A>,
    word: &Range<A>,
    included: &mut [bool],
    excluded: &mut [bool],
) -> Result<(), RevFault>
    requires included { length included.old ≡ length (values_of repo.now.1) }
    requires excluded { length excluded.old ≡ length (values_of repo.now.1) }
    requires holds { HoldsParents repo.now.1 parents.old }
    ensures holds { HoldsParents repo.now.1 parents.new }
    ensures marks { MarksWord (N.name_of repo.now.0) repo.now.1 (shown_range word.now)
        (included.old, excluded.old) (included.new, excluded.new) result }
{
    match word {
        Range::WithAncestors(revision) => mark_revision(repo, revision, included),
        Range::WithoutAncestors(revision) => mark_revision(repo, revision, excluded),
        Range::Between(left, right) => mark_between(repo, left, right, included, excluded),
        Range::Apart(left, right) => mark_apart(
            alloc, repo, parents, left, right, included, excluded,
        ),
        Range::AllParents(revision) => mark_all_parents(repo, revision, included),
        Range::Alone(revision) => mark_alone(repo, revision, included, excluded),
        Range::WithoutOne(revision, number) => mark_without_one(
            repo, revision, *number, included, excluded,
        ),
    }
}

/// Marks the tip of `r`, and that of `^r`.
fn mark_revision<N: Namer, A: Allocator + Copy>(
    repo: &Repo<N, A>,
    revision: &Revision<A>,
    marks: &mut [bool],
) -> Result<(), RevFault>
    requires { length marks.old ≡ length (values_of repo.now.1) }
    ensures included { (rest : List Bool) → MarksWord (N.name_of repo.now.0) repo.now.1
        (words.WithAncestors revision.now) (marks.old, rest) (marks.new, rest) result }
    ensures excluded { (rest : List Bool) → MarksWord (N.name_of repo.now.0) repo.now.1
        (words.WithoutAncestors revision.now) (rest, marks.old) (rest, marks.new) result }
{
    let commit = eval_commit(repo, revision)?;
    mark(repo, marks, &commit);
    Ok(())
}

/// Marks the tips of `r^@`.
fn mark_all_parents<N: Namer, A: Allocator + Copy>(
    repo: &Repo<N, A>,
    revision: &Revision<A>,
    included: &mut [bool],
) -> Result<(), RevFault>
    requires { length included.old ≡ length (values_of repo.now.1) }
    ensures { (excluded : List Bool) → MarksWord (N.name_of repo.now.0) repo.now.1
        (words.AllParents revision.now) (included.old, excluded) (included.new, excluded) result }
{
    let commit = eval_commit(repo, revision)?;
    mark_parents(repo, included, &commit);
    Ok(())
}

/// Marks the tips of `r^!`.
fn mark_alone<N: Namer, A: Allocator + Copy>(
    repo: &Repo<N, A>,
    revision: &Revision<A>,
    included: &mut [bool],
    excluded: &mut [bool],
) -> Result<(), RevFault>
    requires included { length included.old ≡ length (values_of repo.now.1) }
    requires excluded { length excluded.old ≡ length (values_of repo.now.1) }
    ensures { MarksWord (N.name_of repo.now.0) repo.now.1 (words.Alone revision.now)
        (included.old, excluded.old) (included.new, excluded.new) result }
{
    let commit = eval_commit(repo, revision)?;
    mark(repo, included, &commit);
    mark_parents(repo, excluded, &commit);
    Ok(())
}

/// Marks the tips of `a..b`.
fn mark_between<N: Namer, A: Allocator + Copy>(
    repo: &Repo<N, A>,
    left: &Revision<A>,
    right: &Revision<A>,
    included: &mut [bool],
    excluded: &mut [bool],
) -> Result<(), RevFault>
    requires included { length included.old ≡ length (values_of repo.now.1) }
    requires excluded { length excluded.old ≡ length (values_of repo.now.1) }
    ensures marks { MarksWord (N.name_of repo.now.0) repo.now.1 (words.Between left.now right.now)
        (included.old, excluded.old) (included.new, excluded.new) result }
    ensures memory { NeedsNoMemory RevFault.OutOfMemory result }
{
    let left = eval_commit(repo, left)?;
    let right = eval_commit(repo, right)?;
    mark(repo, included, &right);
    mark(repo, excluded, &left);
    Ok(())
}

/// Marks the tips of `r^-n`.
fn mark_without_one<N: Namer, A: Allocator + Copy>(
    repo: &Repo<N, A>,
    revision: &Revision<A>,
    number: u64,
    included: &mut [bool],
    excluded: &mut [bool],
) -> Result<(), RevFault>
    requires included { length included.old ≡ length (values_of repo.now.1) }
    requires excluded { length excluded.old ≡ length (values_of repo.now.1) }
    ensures marks { MarksWord (N.name_of repo.now.0) repo.now.1
        (words.WithoutOne revision.now number)
        (included.old, excluded.old) (included.new, excluded.new) result }
    ensures memory { NeedsNoMemory RevFault.OutOfMemory result }
{
    let commit = eval_commit(repo, revision)?;
    let parent = parent_of(repo, &commit, number)?;
    mark(repo, included, &commit);
    mark(repo, excluded, &parent);
    Ok(())
}

/// Marks the tips of `a...b`, and those of what both reach, which takes two walks.
fn mark_apart<N: Namer, A: Allocator + Copy>(
    alloc: A,
    repo: &Repo<N, A>,
    parents: &mut Parents<A>,
    left: &Revision<A>,
    right: &Revision<A>,
    included: &mut [bool],
    excluded: &mut [bool],
) -> Result<(), RevFault>
    requires included { length included.old ≡ length (values_of repo.now.1) }
    requires excluded { length excluded.old ≡ length (values_of repo.now.1) }
    requires holds { HoldsParents repo.now.1 parents.old }
    ensures holds { HoldsParents repo.now.1 parents.new }
    ensures marks { MarksWord (N.name_of repo.now.0) repo.now.1 (words.Apart left.now right.now)
        (included.old, excluded.old) (included.new, excluded.new) result }
{
    let left = eval_commit(repo, left)?;
    let right = eval_commit(repo, right)?;
    mark_common(alloc, repo, parents, &left, &right, excluded)?;
    mark(repo, included, &left);
    mark(repo, included, &right);
    Ok(())
}
