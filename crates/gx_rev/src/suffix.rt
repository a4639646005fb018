//! The suffixes of a revision.

ghost use Rattle.std.specs.Prelude.{◌≡◌, ◌∷◌, IfOk, map};
ghost use Rattle.std.specs.Map.{lookup};
ghost use Rattle.std.specs.Option.{option_map};
ghost use Rattle.gx_model.specs.Faults.{Gives, NeedsNoMemory};
ghost use Rattle.gx_model.specs.Texts.{same_bytes};
ghost use Rattle.gx_model.specs.Revisions as model;
ghost use Rattle.gx_model.specs.Revisions.{braced_suffixes, number_or_one, suffix_of};
ghost use Rattle.gx_model.specs.Revisions.Denotation.{all_suffixed, nth_ancestor, peel, suffixed};
ghost use Rattle.gx_model.specs.declared.objects.Kind.TheVariants as kinds;
ghost use Rattle.gx_rev.specs.FirstParents.{AreFirstParents};
ghost use Rattle.gx_rev.specs.Objects.{IsHeld, IsHeldAs, commit_at, only, value_at};
ghost use Rattle.gx_rev.specs.RevFaults.{fault_of};
ghost use Rattle.gx_rev.specs.Views.{shown_suffix};

use crate::objects::{ancestor_of, commit_of, kind_of, parent_of, tree_of};
use crate::{FirstParents, RevFault};
use gx_object::{Kind, Name, Namer};
use gx_repo::Repo;
use gx_text::decimal;
use std::alloc::Allocator;

/// A suffix of a revision. Source: gitrevisions(7), "Specifying Revisions".
#[derive(Clone, Copy, Debug, PartialEq, Eq, Drop)]
pub enum Suffix {
    /// `^n`: the nth parent, or the commit where n is 0.
    Parent(u64),
    /// `~n`: n first parents up.
    Ancestor(u64),
    /// `^{}`: the object with tags peeled.
    Peeled,
    /// `^{object}`: the object.
    Itself,
    /// `^{commit}`: the object with tags peeled, which is a commit.
    Commit,
    /// `^{blob}`: the object with tags peeled, which is a blob.
    Blob,
    /// `^{tree}`: the tree, or the peeled commit's tree.
    Tree,
    /// `^{tag}`: the object, which is a tag.
    Tag,
}

impl Suffix {
    /// The suffix that its first byte, a `^` or a `~`, and the text behind it give.
    pub(crate) fn read(mark: u8, text: &[u8]) -> Result<Suffix, RevFault>
        ensures suffix { Gives fault_of shown_suffix result (suffix_of (mark ∷ text.now)) }
        ensures memory { NeedsNoMemory RevFault.OutOfMemory result }
    {
        if mark != b'^' {
            return Ok(Suffix::Ancestor(number_or_one(text)?));
        }
        match braced(text) {
            Some(suffix) => Ok(suffix),
            None => Ok(Suffix::Parent(number_or_one(text)?)),
        }
    }

    /// What it gives of a held object.
    pub(crate) fn eval<N: Namer, A: Allocator + Copy>(
        self,
        repo: &Repo<N, A>,
        name: &Name,
    ) -> Result<Name, RevFault>
        requires { IsHeld repo.now.1 name.now }
        ensures value { Gives fault_of (value_at repo.now.1) result
            (suffixed (value_at repo.now.1 name.now) (shown_suffix self)) }
        ensures held { IfOk result (IsHeld repo.now.1) }
        ensures memory { NeedsNoMemory RevFault.OutOfMemory result }
    {
        match self {
            Suffix::Parent(number) => parent(repo, name, number),
            Suffix::Ancestor(number) => ancestor(repo, name, number),
            Suffix::Peeled => Ok(peeled(repo, name)),
            Suffix::Itself => Ok(*name),
            Suffix::Commit => of_kind(repo, &peeled(repo, name), Kind::Commit),
            Suffix::Blob => of_kind(repo, &peeled(repo, name), Kind::Blob),
            Suffix::Tree => {
                repo.sound();
                tree_of(repo, name)
            }
            Suffix::Tag => of_kind(repo, name, Kind::Tag),
        }
    }
}

impl Suffix {
    /// Does what `eval` does, where walks along first parents are shared.
    pub(crate) fn eval_with<N: Namer, A: Allocator + Copy>(
        self,
        repo: &Repo<N, A>,
        first_parents: &mut FirstParents<A>,
        name: &Name,
    ) -> Result<Name, RevFault>
        requires held { IsHeld repo.now.1 name.now }
        requires walk { AreFirstParents repo.now.1 first_parents.old }
        ensures walk { AreFirstParents repo.now.1 first_parents.new }
        ensures value { Gives fault_of (value_at repo.now.1) result
            (suffixed (value_at repo.now.1 name.now) (shown_suffix self)) }
        ensures held { IfOk result (IsHeld repo.now.1) }
        ensures memory { NeedsNoMemory RevFault.OutOfMemory result }
    {
        match self {
            Suffix::Ancestor(number) => ancestor_with(repo, first_parents, name, number),
            _ => self.eval(repo, name),
        }
    }
}

/// What suffixes give of a held object, from left to right.
pub(crate) fn eval_all<N: Namer, A: Allocator + Copy>(
    repo: &Repo<N, A>,
    name: &Name,
    suffixes: &[Suffix],
) -> Result<Name, RevFault>
    requires { IsHeld repo.now.1 name.now }
    ensures value { Gives fault_of (value_at repo.now.1) result
        (all_suffixed (value_at repo.now.1 name.now) (map shown_suffix suffixes.now)) }
    ensures held { IfOk result (IsHeld repo.now.1) }
    ensures memory { NeedsNoMemory RevFault.OutOfMemory result }
{
    let mut object = *name;
    for suffix in suffixes {
        object = suffix.eval(repo, &object)?;
    }
    Ok(object)
}

/// Does what `eval_all` does, where walks along first parents are shared.
pub(crate) fn eval_all_with<N: Namer, A: Allocator + Copy>(
    repo: &Repo<N, A>,
    first_parents: &mut FirstParents<A>,
    name: &Name,
    suffixes: &[Suffix],
) -> Result<Name, RevFault>
    requires held { IsHeld repo.now.1 name.now }
    requires walk { AreFirstParents repo.now.1 first_parents.old }
    ensures walk { AreFirstParents repo.now.1 first_parents.new }
    ensures value { Gives fault_of (value_at repo.now.1) result
        (all_suffixed (value_at repo.now.1 name.now) (map shown_suffix suffixes.now)) }
    ensures held { IfOk result (IsHeld repo.now.1) }
    ensures memory { NeedsNoMemory RevFault.OutOfMemory result }
{
    let mut object = *name;
    for suffix in suffixes {
        object = suffix.eval_with(repo, first_parents, &object)?;
    }
    Ok(object)
}

fn parent<N: Namer, A: Allocator + Copy>(
    repo: &Repo<N, A>,
    name: &Name,
    number: u64,
) -> Result<Name, RevFault>
    requires { IsHeld repo.now.1 name.now }
    ensures value { Gives fault_of (value_at repo.now.1) result
        (suffixed (value_at repo.now.1 name.now) (model.parent number)) }
    ensures held { IfOk result (IsHeld repo.now.1) }
    ensures memory { NeedsNoMemory RevFault.OutOfMemory result }
{
    repo.sound();
    let commit = commit_of(repo, name)?;
    let parent = parent_of(repo, &commit, number)?;
    Ok(parent)
}

fn ancestor<N: Namer, A: Allocator + Copy>(
    repo: &Repo<N, A>,
    name: &Name,
    number: u64,
) -> Result<Name, RevFault>
    requires { IsHeld repo.now.1 name.now }
    ensures value { Gives fault_of (value_at repo.now.1) result
        (suffixed (value_at repo.now.1 name.now) (model.ancestor number)) }
    ensures held { IfOk result (IsHeld repo.now.1) }
    ensures memory { NeedsNoMemory RevFault.OutOfMemory result }
{
    repo.sound();
    let commit = commit_of(repo, name)?;
    let ancestor = ancestor_of(repo, &commit, number)?;
    Ok(ancestor)
}

fn ancestor_with<N: Namer, A: Allocator + Copy>(
    repo: &Repo<N, A>,
    first_parents: &mut FirstParents<A>,
    name: &Name,
    number: u64,
) -> Result<Name, RevFault>
    requires held { IsHeld repo.now.1 name.now }
    requires walk { AreFirstParents repo.now.1 first_parents.old }
    ensures walk { AreFirstParents repo.now.1 first_parents.new }
    ensures value { Gives fault_of (value_at repo.now.1) result
        (suffixed (value_at repo.now.1 name.now) (model.ancestor number)) }
    ensures held { IfOk result (IsHeld repo.now.1) }
    ensures memory { NeedsNoMemory RevFault.OutOfMemory result }
{
    repo.sound();
    let commit = commit_of(repo, name)?;
    let ancestor = shared_ancestor(repo, first_parents, &commit, number)?;
    Ok(ancestor)
}

/// The commit that is n first parents up from a held one. Where the shared walk can't grow, none is shared.
fn shared_ancestor<N: Namer, A: Allocator + Copy>(
    repo: &Repo<N, A>,
    first_parents: &mut FirstParents<A>,
    commit: &Name,
    number: u64,
) -> Result<Name, RevFault>
    requires held { IsHeldAs kinds.Commit repo.now.1 commit.now }
    requires walk { AreFirstParents repo.now.1 first_parents.old }
    ensures walk { AreFirstParents repo.now.1 first_parents.new }
    ensures ancestor { Gives fault_of (commit_at repo.now.1) result
        (nth_ancestor number (commit_at repo.now.1 commit.now)) }
    ensures held { IfOk result (IsHeldAs kinds.Commit repo.now.1) }
    ensures memory { NeedsNoMemory RevFault.OutOfMemory result }
{
    match first_parents.ancestor(repo, commit, number) {
        Ok(ancestor) => Ok(ancestor),
        Err(RevFault::OutOfMemory) => ancestor_of(repo, commit, number),
        Err(fault) => Err(fault),
    }
}

/// The object with tags peeled.
fn peeled<N: Namer, A: Allocator + Copy>(repo: &Repo<N, A>, name: &Name) -> Name
    requires { IsHeld repo.now.1 name.now }
    ensures value { value_at repo.now.1 result ≡ peel (value_at repo.now.1 name.now) }
    ensures held { IsHeld repo.now.1 result }
{
    match repo.peel(name) {
        Some(commit) => commit,
        None => *name,
    }
}

/// An object of this kind, and no other.
fn of_kind<N: Namer, A: Allocator + Copy>(
    repo: &Repo<N, A>,
    name: &Name,
    kind: Kind,
) -> Result<Name, RevFault>
    requires { IsHeld repo.now.1 name.now }
    ensures value { Gives fault_of (value_at repo.now.1) result
        (only (N.name_of repo.now.0) kind (value_at repo.now.1 name.now)) }
    ensures held { IfOk result (IsHeld repo.now.1) }
    ensures memory { NeedsNoMemory RevFault.OutOfMemory result }
{
    if kind_of(repo, name) == kind {
        Ok(*name)
    } else {
        Err(RevFault::WrongKind)
    }
}

/// A suffix in braces.
fn braced(text: &[u8]) -> Option<Suffix>
    ensures { option_map shown_suffix result ≡ lookup (same_bytes text.now) braced_suffixes }
{
    if text == b"{}".as_slice() {
        Some(Suffix::Peeled)
    } else if text == b"{object}".as_slice() {
        Some(Suffix::Itself)
    } else if text == b"{commit}".as_slice() {
        Some(Suffix::Commit)
    } else if text == b"{blob}".as_slice() {
        Some(Suffix::Blob)
    } else if text == b"{tree}".as_slice() {
        Some(Suffix::Tree)
    } else if text == b"{tag}".as_slice() {
        Some(Suffix::Tag)
    } else {
        None
    }
}

/// A number in decimal, and 1 where it is left out.
pub(crate) fn number_or_one(text: &[u8]) -> Result<u64, RevFault>
    ensures number { Gives fault_of (λ n. n) result (number_or_one text.now) }
    ensures memory { NeedsNoMemory RevFault.OutOfMemory result }
{
    if text.is_empty() {
        return Ok(1);
    }
    decimal(text).ok_or(RevFault::BadRevision)
}
