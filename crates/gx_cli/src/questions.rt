//! What is asked of a repository, in one question: a file, a commit, and the commits of range words.

ghost use Rattle.std.specs.Prelude.{◌≡◌, IfOk, map};
ghost use Rattle.gx_model.specs.Records.HistoryOf.{history_of};
ghost use Rattle.gx_model.specs.Revisions.Ranges.{listed};
ghost use Rattle.gx_rev.specs.Views.{shown_range};
ghost use Rattle.gx_cli.specs.Questions.{IsReply, ListsAs, ReadsAs, Replies, commit_read, shown_fields};

use crate::CliFault;
use crate::try_stream::look_in;
use crate::words::refused;
use gx_object::{CommitView, Mode, Name, Namer};
use gx_repo::Repo;
use gx_rev::{Range, Revision, commit, walk};
use gx_text::TreePath;
use std::alloc::{AllocError, Allocator};

/// A revision, a path in its tree, and range words.
#[derive(Drop)]
pub struct Question<A: Allocator> {
    pub revision: Revision<A>,
    pub path: TreePath<A>,
    pub ranges: Vec<Range<A>, A>,
}

/// What is answered to a question: each part of it, or why there is none.
#[derive(Drop)]
pub struct Reply<A: Allocator> {
    /// The mode and the bytes of the file at the path in the revision's tree.
    pub file: Result<(Mode, Vec<u8, A>), CliFault>,
    /// The fields of the commit that the revision gives after peeling.
    pub commit: Result<CommitFields<A>, CliFault>,
    /// The names of the commits that the range words list, the newest made first.
    pub listed: Result<Vec<Name, A>, CliFault>,
}

/// The fields of a commit's body. Source: gitglossary(7), "commit object".
#[derive(Drop)]
pub struct CommitFields<A: Allocator> {
    pub tree: Name,
    pub parents: Vec<Name, A>,
    pub author: Vec<u8, A>,
    pub committer: Vec<u8, A>,
    /// The header lines between its committer and its message.
    pub headers: Vec<u8, A>,
    pub message: Vec<u8, A>,
}

/// Answers a question, where one is asked. Where one part of it has no answer, the others have theirs.
///
/// Cost and memory: those of `look_in`, `commit_in` and `list_in`.
pub(crate) fn reply_asked<N: Namer, A: Allocator + Copy>(
    alloc: A,
    repo: &Repo<N, A>,
    question: &Option<Question<A>>,
) -> Option<Reply<A>>
    ensures { Replies (N.name_of repo.now.0) (history_of repo.now.1) question.now result }
{
    match question {
        Some(question) => Some(reply_to(alloc, repo, question)),
        None => None,
    }
}

fn reply_to<N: Namer, A: Allocator + Copy>(
    alloc: A,
    repo: &Repo<N, A>,
    question: &Question<A>,
) -> Reply<A>
    ensures { IsReply (N.name_of repo.now.0) (history_of repo.now.1) question.now result }
{
    Reply {
        file: look_in(alloc, repo, &question.revision, &question.path),
        commit: commit_in(alloc, repo, &question.revision),
        listed: list_in(alloc, repo, question.ranges.as_slice()),
    }
}

/// The fields of the commit that a revision gives after peeling: those that the repository's history has there.
///
/// `Revision`: the revision gives no commit. `OutOfMemory`: a growth was refused.
/// Cost: that of `gx_rev::commit`, and the body's length. Memory: the fields.
pub fn commit_in<N: Namer, A: Allocator + Copy>(
    alloc: A,
    repo: &Repo<N, A>,
    revision: &Revision<A>,
) -> Result<CommitFields<A>, CliFault>
    ensures { ReadsAs (commit_read (N.name_of repo.now.0) (history_of repo.now.1) revision.now)
        result }
{
    match commit(repo, revision) {
        Ok(view) => Ok(fields_of(alloc, &view)?),
        Err(kind) => Err(refused(1, kind)),
    }
}

/// The fields of a commit's body, copied.
fn fields_of<A: Allocator + Copy>(
    alloc: A,
    view: &CommitView<'_>,
) -> Result<CommitFields<A>, AllocError>
    ensures { IfOk result (λ fields. shown_fields fields ≡ view.now) }
{
    Ok(CommitFields {
        tree: view.tree(),
        parents: parents_of(alloc, view)?,
        author: Vec::from_slice(alloc, view.author())?,
        committer: Vec::from_slice(alloc, view.committer())?,
        headers: Vec::from_slice(alloc, view.headers())?,
        message: Vec::from_slice(alloc, view.message())?,
    })
}

/// The names of a commit's parents, in their order.
fn parents_of<A: Allocator + Copy>(
    alloc: A,
    view: &CommitView<'_>,
) -> Result<Vec<Name, A>, AllocError>
    ensures { IfOk result (λ names. map (λ name. name.bytes) names.items ≡ view.now.parents) }
{
    let mut parents = Vec::new(alloc);
    for place in 0..view.parent_count() {
        if let Some(parent) = view.parent(place) {
            parents.push(parent)?;
        }
    }
    Ok(parents)
}

/// The names of the commits that range words list, the newest made first: those that the repository's history lists.
///
/// `Revision`: the first word that is refused, by its number. `OutOfMemory`: a growth was refused.
/// Cost and memory: those of `gx_rev::walk`.
pub fn list_in<N: Namer, A: Allocator + Copy>(
    alloc: A,
    repo: &Repo<N, A>,
    ranges: &[Range<A>],
) -> Result<Vec<Name, A>, CliFault>
    ensures { ListsAs (listed (N.name_of repo.now.0) (history_of repo.now.1)
        (map shown_range ranges.now)) result }
{
    match walk(alloc, repo, ranges) {
        Ok(names) => Ok(names),
        Err(fault) => Err(refused(fault.word as u64, fault.kind)),
    }
}
