//! What a command consists of.

ghost use Rattle.std.specs.Prelude.{IsTrue};
ghost use Rattle.gx_command.specs.DataRefs.{is_suited};

use crate::texts::{Digits, Encoding, Identity, RefName, TagName};
use gx_model::{Feature, Mode};
use gx_text::TreePath;
use std::alloc::Allocator;

/// A command of a stream. Source: git-fast-import(1), "Commands".
#[derive(Drop)]
pub enum Command<A: Allocator> {
    /// `blob`.
    Blob(Blob<A>),
    /// `commit`.
    Commit(Commit<A>),
    /// `tag`.
    Tag(Tag<A>),
    /// `reset`.
    Reset(Reset<A>),
    /// `checkpoint`.
    Checkpoint,
    /// `progress`, with the text after it.
    Progress(Vec<u8, A>),
    /// `feature`, one that is supported.
    Feature(Feature),
    /// `option`, with the text after it.
    OptionLine(Vec<u8, A>),
    /// `done`: the stream's last command.
    Done,
}

/// A blob. Its original object name isn't kept. Source: git-fast-import(1), "blob".
#[derive(Drop)]
pub struct Blob<A: Allocator> {
    /// The number that it is marked with, from 1.
    pub mark: Option<u64>,
    /// All of its bytes.
    pub bytes: Vec<u8, A>,
}

/// A commit on the branch of a ref. Its original object name isn't kept. Source: git-fast-import(1), "commit".
#[derive(Drop)]
pub struct Commit<A: Allocator> {
    /// The ref that it is made on.
    pub branch: RefName<A>,
    /// The number that it is marked with, from 1.
    pub mark: Option<u64>,
    /// Its author, where there is such a line.
    pub author: Option<Identity<A>>,
    pub committer: Identity<A>,
    /// The encoding of its message, where there is such a line.
    pub encoding: Option<Encoding<A>>,
    pub message: Vec<u8, A>,
    /// Its first parent, where there is such a line.
    pub from: Option<CommitIsh<A>>,
    /// Its further parents, in the order of their lines.
    pub merges: Vec<CommitIsh<A>, A>,
    /// The changes of its files, in the order of their lines.
    pub changes: Vec<Change<A>, A>,
}

/// An annotated tag. Its original object name isn't kept. Source: git-fast-import(1), "tag".
#[derive(Drop)]
pub struct Tag<A: Allocator> {
    pub name: TagName<A>,
    /// The number that it is marked with, from 1.
    pub mark: Option<u64>,
    /// The commit that it stands for.
    pub from: CommitIsh<A>,
    /// Who made it, where there is such a line.
    pub tagger: Option<Identity<A>>,
    pub message: Vec<u8, A>,
}

/// A branch that is set to a commit, or to none. Source: git-fast-import(1), "reset".
#[derive(Drop)]
pub struct Reset<A: Allocator> {
    pub branch: RefName<A>,
    pub from: Option<CommitIsh<A>>,
}

/// What names a commit. Source: git-fast-import(1), "from".
#[derive(Drop)]
pub enum CommitIsh<A: Allocator> {
    /// A mark's number, from 1.
    Mark(u64),
    /// A text that doesn't begin with a colon and isn't forty zeros. It is read when the command is applied.
    Text(Vec<u8, A>),
}

/// A change of a commit's files. Source: git-fast-import(1), "filemodify" to "filedeleteall".
#[derive(Drop)]
pub enum Change<A: Allocator> {
    /// `M`: a file is set.
    Modify(Modify<A>),
    /// `D`: what stands at or below a path is removed.
    Remove(TreePath<A>),
    /// `C`: what stands at or below the source is set at the destination too.
    Copy {
        source: TreePath<A>,
        destination: TreePath<A>,
    },
    /// `R`: what stands at or below the source is moved to the destination.
    Rename {
        source: TreePath<A>,
        destination: TreePath<A>,
    },
    /// `deleteall`: all files are removed.
    Clear,
}

/// A file that is set. Its mode isn't `Dir`, and a gitlink is given by digits. Source: git-fast-import(1), "filemodify".
#[derive(Drop)]
pub struct Modify<A: Allocator> {
    pub mode: Mode,
    pub data_ref: DataRef<A>,
    pub path: TreePath<A>,
    pub ghost suits: { IsTrue (is_suited mode data_ref) },
}

/// What a modified file gets. Source: git-fast-import(1), "filemodify".
#[derive(Drop)]
pub enum DataRef<A: Allocator> {
    /// The blob with this mark, from 1.
    Mark(u64),
    /// The object with these digits: a blob, or a gitlink's commit.
    Name(Digits),
    /// These bytes, which came in the block after the line.
    Inline(Vec<u8, A>),
}
