//! How commits are named in a stream: by their marks, or where they have none in it by their digits and `^0`.

ghost use Rattle.std.specs.Prelude.{◌≡◌, List, length};
ghost use Rattle.gx_model.specs.declared.objects.Kind.TheVariants as kinds;
ghost use Rattle.gx_model.specs.Changes.{named_in};
ghost use Rattle.gx_model.specs.Histories.Values.{Value};
ghost use Rattle.gx_model.specs.Laws.RepositoryLaws.{values_of};
ghost use Rattle.gx_rev.specs.Objects.{IsHeldAs, commit_at};
ghost use Rattle.gx_export.specs.Marks.{AreNumbers};
ghost use Rattle.gx_export.specs.Naming.{shown_commit};

use crate::written::{Written, mark_of};
use gx_object::{Name, Namer};
use gx_repo::Repo;
use gx_text::Sink;
use std::alloc::Allocator;

/// What names a commit in a stream. Source: git-fast-import(1), "from".
#[derive(Clone, Copy)]
pub enum CommitIsh {
    Marked(u64),
    Named(Name),
}

/// What names a held commit: its mark where it was written, else its name.
pub(crate) fn commit_ish<N: Namer, A: Allocator + Copy, W: Sink>(
    repo: &Repo<N, A>,
    written: &Written<'_, W, A>,
    commit: &Name,
) -> CommitIsh
    requires held { IsHeldAs kinds.Commit repo.now.1 commit.now }
    requires long { length written.now.marks.items ≡ length (values_of repo.now.1) }
    ensures { (ws : List Value)
        → AreNumbers (values_of repo.now.1) ws written.now.marks.items
        → shown_commit result ≡ named_in (N.name_of repo.now.0) ws
        (commit_at repo.now.1 commit.now) }
{
    repo.sound();
    let mark = mark_of(repo, written, commit);
    if mark > 0 {
        return CommitIsh::Marked(mark);
    }
    CommitIsh::Named(*commit)
}
