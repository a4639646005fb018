//! The repository as a bundle. Source: git-bundle(1), and gitformat-bundle(5).

ghost use Rattle.std.specs.Prelude.{◌≡◌, ◌<◌, ◌^◌, length, map};
ghost use Rattle.gx_model.specs.declared.objects.Kind.TheVariants as kinds;
ghost use Rattle.gx_model.specs.Faults.{Gives};
ghost use Rattle.gx_model.specs.Records.RecordFaults.{is_held};
ghost use Rattle.gx_model.specs.Revisions.Denotation.{ref_names};
ghost use Rattle.gx_object.specs.Parts.{bytes_if};
ghost use Rattle.gx_objects.specs.Answers.{SpellsRefs};
ghost use Rattle.gx_kept.specs.Telling.{SpellsRefsOf};
ghost use Rattle.gx_repo.specs.Refs.{FindsFirst};
ghost use Rattle.gx_rev.specs.RevFaults.{fault_of};
ghost use Rattle.gx_rev.specs.Views.{shown_range};
ghost use Rattle.gx_c.specs.Bundles.{AnswersBundle, AnswersBundled, AnswersTold, head_given, why_of};

use crate::answer::{Answer, Why};
use gx_bundled::{Told, told_by};
use gx_kept::{BundleFault, Bundled, list};
use gx_object::{Kind, Name, Namer};
use gx_questions::AskFault;
use gx_repo::Repo;
use gx_rev::{Range, RevFault};
use gx_text::Growing;
use std::alloc::Allocator;
use std::hash::RandomState;

/// The bundle of the refs that range words name, or of all where there are no words, with the objects that they reach and
/// that what the words exclude doesn't. Where a ref is told that is to be HEAD, the bundle has the commit that it holds as
/// HEAD, too.
///
/// Refused by the first word that gives nothing, with its number; where words name no ref, and none is to be HEAD; by the
/// fault of that one, with the number behind the words; where 2^32 objects or more would go out; and for want of memory.
/// Cost: that of `gx_bundled::told_by` and `gx_kept::bundle`, a step for each object, and the bundle.
pub(crate) fn bundle<N: Namer, A: Allocator + Copy>(
    alloc: A,
    repo: &Repo<N, A>,
    state: RandomState,
    words: &[Range<A>],
    head: &[u8],
) -> Answer<A>
    requires few { length words.now < 2 ^ 63 }
    ensures { AnswersBundle (N.name_of repo.now.0) repo.now.1 (map shown_range words.now) head.now
        result }
{
    match told_by(alloc, repo, words, words.is_empty(), !head.is_empty()) {
        Ok(told) => bundle_told(alloc, repo, state, &told, words.len(), head),
        Err(fault) => Answer::refused(alloc, why_of(fault.kind), fault.word as u64),
    }
}

/// Why a word is refused. Of a repository in memory no read fails, and none is damaged.
fn why_of(kind: AskFault) -> Why
    ensures { result ≡ why_of kind }
{
    match kind {
        AskFault::Revision(fault) => Why::Revision(fault),
        AskFault::OutOfMemory | AskFault::ReadFailed | AskFault::Damaged => {
            Why::Revision(RevFault::OutOfMemory)
        }
    }
}

/// The bundle that tells what so many words have it tell.
fn bundle_told<N: Namer, A: Allocator + Copy>(
    alloc: A,
    repo: &Repo<N, A>,
    state: RandomState,
    told: &Told<A>,
    words: usize,
    head: &[u8],
) -> Answer<A>
    requires few { words < 2 ^ 63 }
    requires spelled { SpellsRefs told.now.refs.items }
    requires held { SpellsRefsOf told.now.refs.items repo.now.1 }
    ensures { AnswersTold repo.now.1 told.now words head.now result }
{
    if told.refs.is_empty() && head.is_empty() && words > 0 {
        return Answer::refused(alloc, Why::Empty, 0);
    }
    match commit_of_head(repo, head) {
        Ok(head) => bundle_of(alloc, repo, state, &told.bundled(repo, head)),
        Err(fault) => Answer::refused(alloc, Why::Revision(fault), words as u64 + 1),
    }
}

/// The commit that the ref holds which is to be HEAD; nothing where its name is empty.
fn commit_of_head<N: Namer, A: Allocator + Copy>(
    repo: &Repo<N, A>,
    head: &[u8],
) -> Result<Option<Name>, RevFault>
    ensures { Gives fault_of bytes_if result (head_given repo.now.1 head.now) }
{
    if head.is_empty() {
        return Ok(None);
    }
    let Some(name) = object_of_ref(repo, head) else {
        return Err(RevFault::UnknownRef);
    };
    if is_commit(repo, &name) {
        Ok(Some(name))
    } else {
        Err(RevFault::WrongKind)
    }
}

/// The object of the first ref among the six names that a name may stand for.
fn object_of_ref<N: Namer, A: Allocator + Copy>(repo: &Repo<N, A>, name: &[u8]) -> Option<Name>
    ensures { FindsFirst repo.now.1.refs (ref_names name.now) result }
{
    match repo.find_ref(name) {
        Ok(found) => found,
        Err(_) => None,
    }
}

/// Whether a commit of this name is held.
fn is_commit<N: Namer, A: Allocator + Copy>(repo: &Repo<N, A>, name: &Name) -> bool
    ensures { result ≡ is_held repo.now.1.records kinds.Commit name.now.bytes }
{
    match repo.store().get(name) {
        Some((kind, _)) => kind == Kind::Commit,
        None => false,
    }
}

/// The bundle that tells this.
fn bundle_of<N: Namer, A: Allocator + Copy>(
    alloc: A,
    repo: &Repo<N, A>,
    state: RandomState,
    bundled: &Bundled<'_>,
) -> Answer<A>
    requires spelled { SpellsRefs bundled.now.refs.now }
    requires held { SpellsRefsOf bundled.now.refs.now repo.now.1 }
    ensures { AnswersBundled repo.now.1 bundled.now result.why result }
{
    repo.sound();
    let Ok(listing) = list(alloc, repo, state) else {
        return Answer::refused(alloc, Why::Revision(RevFault::OutOfMemory), 0);
    };
    let mut text = Growing::new(alloc);
    match gx_kept::bundle(alloc, repo, &listing, bundled, &mut text) {
        Ok(()) => Answer::given(text.into_bytes(), 0),
        Err(BundleFault::Unsupported) => Answer::refused(alloc, Why::Unsupported, 0),
        Err(BundleFault::Stopped(_)) => {
            Answer::refused(alloc, Why::Revision(RevFault::OutOfMemory), 0)
        }
    }
}
