//! What a refusal is about.

ghost use Rattle.std.specs.Prelude.{◌≡◌, None, Some};
ghost use Rattle.std.specs.Option.{option_map};
ghost use Rattle.gx_command.specs.Views.{shown_commit_ish, shown_data};
ghost use Rattle.gx_import.specs.Asking.{of_commit_ish, of_data, shown_asked};

use gx_command::{CommitIsh, DataRef, Digits};
use gx_object::Name;
use gx_text::TreePath;
use std::alloc::Allocator;

/// What a refused import is about, besides the number of its command and its fault.
#[derive(Drop)]
pub struct Explanation<A: Allocator> {
    /// The change of the commit that is refused: its number within the commit, from 1.
    pub change: Option<u64>,
    /// The path of that change. Of a copy or a rename it is the source, and `deleteall` has none.
    pub path: Option<TreePath<A>>,
    /// What was asked for in vain: it isn't there, isn't the only one, or isn't of the kind that is wanted.
    pub asked: Option<Asked<A>>,
    /// The ref that would lose a commit, at a checkpoint or at the end.
    pub loss: Option<RefLoss<A>>,
}

/// What a command of a stream refers to. Source: git-fast-import(1), "from", "merge" and "filemodify".
#[derive(Drop)]
pub enum Asked<A: Allocator> {
    /// A mark's number.
    Mark(u64),
    /// A branch or a revision, as the stream has it.
    Text(Vec<u8, A>),
    /// The name of an object, as the stream has it.
    Object(Digits),
}

/// A ref that would move to a commit which doesn't reach the one where it stands.
#[derive(Drop)]
pub struct RefLoss<A: Allocator> {
    /// The whole name of the ref.
    pub name: Vec<u8, A>,
    /// The commit where it stands: of a ref that holds an annotated tag the commit that the tag names.
    pub old: Name,
    /// The commit to which it would move.
    pub new: Name,
}

impl<A: Allocator + Copy> Explanation<A> {
    /// Of nothing in particular. Takes no memory.
    pub fn none() -> Explanation<A>
        ensures change { result.change ≡ None }
        ensures path { result.path ≡ None }
        ensures asked { result.asked ≡ None }
        ensures loss { result.loss ≡ None }
    {
        Explanation {
            change: None,
            path: None,
            asked: None,
            loss: None,
        }
    }
}

impl<A: Allocator + Copy> Asked<A> {
    /// What a commit-ish refers to. Takes no memory.
    pub(crate) fn of_commit_ish(commit_ish: CommitIsh<A>) -> Asked<A>
        ensures { shown_asked result ≡ of_commit_ish (shown_commit_ish commit_ish) }
    {
        match commit_ish {
            CommitIsh::Mark(number) => Asked::Mark(number),
            CommitIsh::Text(text) => Asked::Text(text),
        }
    }

    /// What the commit-ish of a line refers to, where there is such a line. Takes no memory.
    pub(crate) fn of_line(commit_ish: Option<CommitIsh<A>>) -> Option<Asked<A>>
        ensures { option_map shown_asked result
            ≡ option_map of_commit_ish (option_map shown_commit_ish commit_ish) }
    {
        match commit_ish {
            Some(commit_ish) => Some(Asked::of_commit_ish(commit_ish)),
            None => None,
        }
    }

    /// What a data reference refers to, where its bytes don't stand in the stream. Takes no memory.
    pub(crate) fn of_data(data_ref: &DataRef<A>) -> Option<Asked<A>>
        ensures { option_map shown_asked result ≡ of_data (shown_data data_ref.now) }
    {
        match data_ref {
            DataRef::Mark(number) => Some(Asked::Mark(*number)),
            DataRef::Name(digits) => Some(Asked::Object(*digits)),
            DataRef::Inline(_) => None,
        }
    }
}
