//! How often an import names an object: a commit names the directories that it changed and itself, and no other.

use crate::given::{object_of, refusal_of};
use gx_devices::CountingNamer;
use gx_object::{Kind, Name, Sha1Namer};
use gx_repo::Repo;
use std::alloc::Global;
use std::cell::Cell;
use std::hash::RandomState;

/// Two blobs, and a commit on main with a blob at many paths.
const FILES: &str = "\
blob
mark :1
data 3
one
blob
mark :2
data 3
two
commit refs/heads/main
mark :3
committer A <a@x> 1 +0000
data 0
M 644 :1 a/b/c
M 644 :1 a/b/d
M 644 :1 a/e
M 644 :1 f/g
M 644 :1 f/h/i/j
M 644 :1 k
M 644 :1 x/l
M 644 :1 x/m/n
M 644 :1 x/y/o
M 644 :1 x/y/z
";

/// A change of one file three directories deep, the root among them.
const CHANGE: &str = "M 644 :2 x/y/z\n";

/// Commits that come to one tree with this change: the revision of that, what is imported behind the files before the
/// commit, and its first lines, with a `%` between them, and a `&` before each.
const COMMITS: &str = "\
& # behind the last commit of its branch
%main^{tree}%%commit refs/heads/main
committer A <a@x> 2 +0000
data 0
& # on a new branch, behind the last commit of another
%fork^{tree}%%commit refs/heads/fork
committer A <a@x> 2 +0000
data 0
from :3
& # on a new branch, behind a commit where no branch stands any more
%fork^{tree}%commit refs/heads/main
committer A <a@x> 2 +0000
data 0
M 644 :2 a/b/c
%commit refs/heads/fork
committer A <a@x> 2 +0000
data 0
from :3
";

/// How many objects an import into an empty repository names, and the tree of a revision then.
fn counted(alloc: Global, state: RandomState, stream: &str, revision: &str) -> Option<(u64, Name)> {
    let named = Cell::new(0);
    let namer = CountingNamer {
        namer: Sha1Namer,
        named: &named,
    };
    let mut repo = Repo::new(alloc, namer, state);
    let refused = refusal_of(alloc, &mut repo, stream.as_bytes());
    let count = named.get();
    match object_of(alloc, &repo, revision.as_bytes()) {
        Some((Kind::Tree, tree)) if refused.is_none() => Some((count, tree)),
        _ => None,
    }
}

/// Whether a commit names no more than six objects, and has this tree.
fn is_counted(alloc: Global, state: RandomState, part: &str, tree: Name) -> Option<bool> {
    let mut fields = part.split('%').skip(1);
    let (revision, before, head) = (fields.next()?, fields.next()?, fields.next()?);
    let (first, _) = counted_of(alloc, state, (FILES, before, "", ""), "main^{tree}")?;
    let (both, changed) = counted_of(alloc, state, (FILES, before, head, CHANGE), revision)?;
    Some(first < both && both - first <= 6 && changed == tree)
}

/// The same of a stream in parts as of a stream.
fn counted_of(
    alloc: Global,
    state: RandomState,
    (files, before, head, change): (&str, &str, &str, &str),
    revision: &str,
) -> Option<(u64, Name)> {
    match format!(in alloc; "{files}{before}{head}{change}") {
        Ok(stream) => counted(alloc, state, stream.as_str(), revision),
        Err(_) => None,
    }
}

/// How many objects the files name, and the tree that they come to with the change.
fn all_named(alloc: Global, state: RandomState) -> Option<(u64, Name)> {
    let (all, _) = counted(alloc, state, FILES, "main^{tree}")?;
    let (_, tree) = counted_of(alloc, state, (FILES, CHANGE, "", ""), "main^{tree}")?;
    Some((all, tree))
}

#[test]
fn commit_names_what_it_changed(rt: HostRuntime) {
    let Ok(state) = RandomState::new(&rt) else {
        return assert!(rt; false);
    };
    let Some((all, tree)) = all_named(rt.alloc(), state) else {
        return assert!(rt; false);
    };
    // the trees of nine directories, the root among them, the blobs, and the commit
    assert!(rt; all == 12);
    for part in COMMITS.split('&').skip(1) {
        assert!(rt;
            is_counted(rt.alloc(), state, part, tree) == Some(true),
            "{part}"
        );
    }
}
