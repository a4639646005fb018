//! What a revision shows in a repository.

ghost use Rattle.std.specs.Prelude.{◌≡◌, IfOk, Ok, Some};
ghost use Rattle.gx_model.specs.declared.objects.Kind.TheVariants as kinds;
ghost use Rattle.gx_model.specs.declared.objects.Mode.TheVariants as modes;
ghost use Rattle.gx_model.specs.Faults.{Gives, NeedsNoMemory, ◌>>=◌ as ◌and_then◌};
ghost use Rattle.gx_model.specs.Revisions.{revision_of};
ghost use Rattle.gx_model.specs.Revisions.Denotation.{commit_denoted, denoted, file_shown, files_in, looked_up, shown_at, value_denoted};
ghost use Rattle.gx_model.specs.Records.{parts_of_commit};
ghost use Rattle.gx_model.specs.Records.HistoryOf.{bytes_of_blob, history_of};
ghost use Rattle.gx_rev.specs.Answers.{AnswersTell, IsNamed, file_of, shown_as, shown_by, shown_file};
ghost use Rattle.gx_rev.specs.FirstParents.{AreFirstParents};
ghost use Rattle.gx_rev.specs.Objects.{IsHeld, IsHeldAs, commit_at, files_at, value_at};
ghost use Rattle.gx_rev.specs.RevFaults.{FaultsComeFirst, fault_of};
ghost use Rattle.gx_rev.specs.Views.{borrowed, shown_revision};

use crate::base::eval_base;
use crate::objects::{body_of, commit_of, kind_of, tree_of, view_of};
use crate::places::walk_down;
use crate::suffix::{Suffix, eval_all, eval_all_with};
use crate::{FirstParents, RevFault, Revision};
use gx_object::{CommitView, Kind, Mode, Name, Namer};
use gx_repo::Repo;
use gx_text::TreePath;
use std::alloc::Allocator;

/// What a revision shows: an object by its kind and name, or the commit that a gitlink names.
#[derive(Clone, Copy, Debug, PartialEq, Eq, Drop)]
pub enum Shown {
    Object(Kind, Name),
    Submodule(Name),
}

impl<A: Allocator + Copy> Revision<A> {
    /// What a text shows as a revision: it is read, and evaluated.
    ///
    /// The faults are those of `read`, and then those of `eval`. Cost and memory: those of both. Only the reading takes
    /// memory. Source: gitrevisions(7), "Specifying Revisions".
    pub fn eval_text<N: Namer>(alloc: A, repo: &Repo<N, A>, text: &[u8]) -> Result<Shown, RevFault>
        ensures shown { Gives fault_of (shown_by repo.now.1) result
            (revision_of text.now and_then denoted (N.name_of repo.now.0) (history_of repo.now.1)) }
        ensures named { IfOk result (IsNamed (N.name_of repo.now.0) repo.now.1) }
        ensures first { FaultsComeFirst result (revision_of text.now) }
    {
        Revision::read(alloc, text)?.eval(repo)
    }

    /// What the revision shows in a repository.
    ///
    /// UnknownRef, UnknownObject and Ambiguous are of its base, NoParent and WrongKind of a suffix; WrongKind and
    /// NoSuchPath of its path. Takes no memory.
    /// Cost: for the base, a search among the refs and a look-up; for each step of a suffix and each component of the path,
    /// an object's body and a look-up among the records. Source: gitrevisions(7), "Specifying Revisions".
    pub fn eval<N: Namer>(&self, repo: &Repo<N, A>) -> Result<Shown, RevFault>
        ensures shown { Gives fault_of (shown_by repo.now.1) result
            (denoted (N.name_of repo.now.0) (history_of repo.now.1) self.now) }
        ensures named { IfOk result (IsNamed (N.name_of repo.now.0) repo.now.1) }
        ensures memory { NeedsNoMemory RevFault.OutOfMemory result }
    {
        eval_parts(repo, &self.base, &self.suffixes, self.path.as_ref())
    }

    /// Does what `eval` does, where many revisions share walks along first parents: `r~1`, `r~2` and so on, in any order.
    ///
    /// Cost: that of `eval`; but `r~n` costs no step that the last such walk from the same commit took. Takes memory for the
    /// name of each commit of that walk; where that is refused, the walk isn't shared.
    pub fn eval_with<N: Namer>(
        &self,
        repo: &Repo<N, A>,
        first_parents: &mut FirstParents<A>,
    ) -> Result<Shown, RevFault>
        requires walk { AreFirstParents repo.now.1 first_parents.old }
        ensures walk { AreFirstParents repo.now.1 first_parents.new }
        ensures shown { Gives fault_of (shown_by repo.now.1) result
            (denoted (N.name_of repo.now.0) (history_of repo.now.1) self.now) }
        ensures named { IfOk result (IsNamed (N.name_of repo.now.0) repo.now.1) }
        ensures memory { NeedsNoMemory RevFault.OutOfMemory result }
    {
        eval_parts_with(
            repo,
            first_parents,
            &self.base,
            &self.suffixes,
            self.path.as_ref(),
        )
    }
}

/// What a base, suffixes and a path show, from left to right.
#[tactic(auto, unfolding(gx_model::specs::Revisions::Denotation::denoted))]
fn eval_parts<N: Namer, A: Allocator + Copy>(
    repo: &Repo<N, A>,
    base: &[u8],
    suffixes: &[Suffix],
    path: Option<&TreePath<A>>,
) -> Result<Shown, RevFault>
    ensures shown { Gives fault_of (shown_by repo.now.1) result (denoted (N.name_of repo.now.0)
        (history_of repo.now.1) (shown_revision base.now suffixes.now (borrowed path.entry))) }
    ensures named { IfOk result (IsNamed (N.name_of repo.now.0) repo.now.1) }
    ensures memory { NeedsNoMemory RevFault.OutOfMemory result }
{
    let base = eval_base(repo, base)?;
    let object = eval_all(repo, &base, suffixes)?;
    show(repo, &object, path)
}

/// The same, where walks along first parents are shared.
#[tactic(auto, unfolding(gx_model::specs::Revisions::Denotation::denoted))]
fn eval_parts_with<N: Namer, A: Allocator + Copy>(
    repo: &Repo<N, A>,
    first_parents: &mut FirstParents<A>,
    base: &[u8],
    suffixes: &[Suffix],
    path: Option<&TreePath<A>>,
) -> Result<Shown, RevFault>
    requires walk { AreFirstParents repo.now.1 first_parents.old }
    ensures walk { AreFirstParents repo.now.1 first_parents.new }
    ensures shown { Gives fault_of (shown_by repo.now.1) result (denoted (N.name_of repo.now.0)
        (history_of repo.now.1) (shown_revision base.now suffixes.now (borrowed path.entry))) }
    ensures named { IfOk result (IsNamed (N.name_of repo.now.0) repo.now.1) }
    ensures memory { NeedsNoMemory RevFault.OutOfMemory result }
{
    let base = eval_base(repo, base)?;
    let object = eval_all_with(repo, first_parents, &base, suffixes)?;
    show(repo, &object, path)
}

/// What a held object and the path behind it show.
fn show<N: Namer, A: Allocator + Copy>(
    repo: &Repo<N, A>,
    object: &Name,
    path: Option<&TreePath<A>>,
) -> Result<Shown, RevFault>
    requires { IsHeld repo.now.1 object.now }
    ensures shown { Gives fault_of (shown_by repo.now.1) result
        (shown_at (value_at repo.now.1 object.now) (borrowed path.entry)) }
    ensures named { IfOk result (IsNamed (N.name_of repo.now.0) repo.now.1) }
    ensures memory { NeedsNoMemory RevFault.OutOfMemory result }
{
    repo.sound();
    match path {
        None => Ok(Shown::Object(kind_of(repo, object), *object)),
        Some(path) => show_path(repo, object, path),
    }
}

/// What a path shows in the tree of a held object.
fn show_path<N: Namer, A: Allocator + Copy>(
    repo: &Repo<N, A>,
    object: &Name,
    path: &TreePath<A>,
) -> Result<Shown, RevFault>
    requires { IsHeld repo.now.1 object.now }
    ensures shown { Gives fault_of (shown_by repo.now.1) result
        (shown_at (value_at repo.now.1 object.now) (Some path.now)) }
    ensures named { IfOk result (IsNamed (N.name_of repo.now.0) repo.now.1) }
    ensures memory { NeedsNoMemory RevFault.OutOfMemory result }
{
    repo.sound();
    let tree = tree_of(repo, object)?;
    match walk_down(repo, &tree, path) {
        None => Err(RevFault::NoSuchPath),
        Some((mode, name)) => Ok(shown_as(mode, name)),
    }
}

/// What a tree's entry of this mode and name shows. Takes no memory. Source: gitrevisions(7), "<rev>:<path>".
pub fn shown_as(mode: Mode, name: Name) -> Shown
    ensures { result ≡ shown_as mode name }
{
    match mode {
        Mode::Dir => Shown::Object(Kind::Tree, name),
        Mode::Gitlink => Shown::Submodule(name),
        Mode::File | Mode::Exec | Mode::Link => Shown::Object(Kind::Blob, name),
    }
}

/// The commit that a revision gives after peeling, by its body. What gives none is WrongKind.
///
/// The faults and the cost are those of `Revision::eval`. Takes no memory. Source: gitrevisions(7), on commit-ish.
pub fn commit<'a, N: Namer, A: Allocator + Copy>(
    repo: &'a Repo<N, A>,
    revision: &Revision<A>,
) -> Result<CommitView<'a>, RevFault>
    ensures view { Gives fault_of (λ view. view) result
        (commit_denoted (N.name_of repo.now.0) (history_of repo.now.1) revision.now
        and_then λ made. Ok (parts_of_commit (N.name_of repo.now.0) made)) }
    ensures memory { NeedsNoMemory RevFault.OutOfMemory result }
{
    let commit = eval_commit(repo, revision)?;
    Ok(view_of(repo, &commit))
}

/// The name of the tree that a revision gives as `^{tree}` does: a tree itself, or that of the commit that it peels to.
/// What gives none is WrongKind.
///
/// The faults and the cost are those of `Revision::eval`. Takes no memory. Source: gitrevisions(7), on tree-ish.
pub fn tree<N: Namer, A: Allocator + Copy>(
    repo: &Repo<N, A>,
    revision: &Revision<A>,
) -> Result<Name, RevFault>
    ensures files { Gives fault_of (files_at repo.now.1) result
        (value_denoted (N.name_of repo.now.0) (history_of repo.now.1) revision.now
        and_then files_in) }
    ensures held { IfOk result (IsHeldAs kinds.Tree repo.now.1) }
    ensures memory { NeedsNoMemory RevFault.OutOfMemory result }
{
    let object = eval_object(repo, revision)?;
    tree_of(repo, &object)
}

/// The name of the tree that a text gives as a revision: it is read, and `tree` is asked.
///
/// The faults are those of `Revision::read`, and then those of `tree`. Cost and memory: those of both. Only the reading
/// takes memory. Source: gitrevisions(7), on tree-ish.
pub fn tree_of_text<N: Namer, A: Allocator + Copy>(
    alloc: A,
    repo: &Repo<N, A>,
    text: &[u8],
) -> Result<Name, RevFault>
    ensures files { Gives fault_of (files_at repo.now.1) result (revision_of text.now
        and_then λ r. value_denoted (N.name_of repo.now.0) (history_of repo.now.1) r
        and_then files_in) }
    ensures held { IfOk result (IsHeldAs kinds.Tree repo.now.1) }
    ensures first { FaultsComeFirst result (revision_of text.now) }
{
    tree(repo, &Revision::read(alloc, text)?)
}

/// The name of the commit that a revision gives after peeling.
pub(crate) fn eval_commit<N: Namer, A: Allocator + Copy>(
    repo: &Repo<N, A>,
    revision: &Revision<A>,
) -> Result<Name, RevFault>
    ensures commit { Gives fault_of (commit_at repo.now.1) result
        (commit_denoted (N.name_of repo.now.0) (history_of repo.now.1) revision.now) }
    ensures held { IfOk result (IsHeldAs kinds.Commit repo.now.1) }
    ensures memory { NeedsNoMemory RevFault.OutOfMemory result }
{
    let object = eval_object(repo, revision)?;
    commit_of(repo, &object)
}

/// The name of the object that a revision shows, which is no submodule.
fn eval_object<N: Namer, A: Allocator + Copy>(
    repo: &Repo<N, A>,
    revision: &Revision<A>,
) -> Result<Name, RevFault>
    ensures value { Gives fault_of (value_at repo.now.1) result
        (value_denoted (N.name_of repo.now.0) (history_of repo.now.1) revision.now) }
    ensures held { IfOk result (IsHeld repo.now.1) }
    ensures memory { NeedsNoMemory RevFault.OutOfMemory result }
{
    match revision.eval(repo)? {
        Shown::Object(_, name) => Ok(name),
        Shown::Submodule(_) => Err(RevFault::WrongKind),
    }
}

/// Two revisions of one repository are answered alike by `Revision::eval` exactly where they give one value, or one
/// submodule. Takes no memory.
pub fn answers_tell_values<N: Namer, A: Allocator + Copy>(repo: &Repo<N, A>)
    ensures { AnswersTell (N.name_of repo.now.0) repo.now.1 }
{
    repo.sound();
}

/// The mode and the bytes of the file at a path in the tree of a revision; a gitlink's bytes are its 40 digits.
///
/// Besides the faults of `Revision::eval`: WrongKind for the root and for a directory, and NoSuchPath; then OutOfMemory:
/// only the copy of a file that is there takes memory.
/// Cost: that of `Revision::eval`, and a copy of the file. Source: gitrevisions(7), "<rev>:<path>".
#[tactic(auto, unfolding(gx_model::specs::Revisions::Denotation::looked_up))]
pub fn look<N: Namer, A: Allocator + Copy>(
    alloc: A,
    repo: &Repo<N, A>,
    revision: &Revision<A>,
    path: &TreePath<A>,
) -> Result<(Mode, Vec<u8, A>), RevFault>
    ensures file { Gives fault_of shown_file result
        (looked_up (N.name_of repo.now.0) (history_of repo.now.1) revision.now path.now) }
    ensures first { FaultsComeFirst result
        (looked_up (N.name_of repo.now.0) (history_of repo.now.1) revision.now path.now) }
{
    let tree = tree(repo, revision)?;
    look_in(alloc, repo, &tree, path)
}

/// The mode and the bytes of the file at a path in a held tree.
fn look_in<N: Namer, A: Allocator + Copy>(
    alloc: A,
    repo: &Repo<N, A>,
    tree: &Name,
    path: &TreePath<A>,
) -> Result<(Mode, Vec<u8, A>), RevFault>
    requires { IsHeldAs kinds.Tree repo.now.1 tree.now }
    ensures file { Gives fault_of shown_file result
        (file_shown (files_at repo.now.1 tree.now) path.now) }
    ensures first { FaultsComeFirst result (file_shown (files_at repo.now.1 tree.now) path.now) }
{
    repo.sound();
    match walk_down(repo, tree, path) {
        None => Err(RevFault::NoSuchPath),
        Some((mode, name)) => read_file(alloc, repo, mode, &name),
    }
}

/// The mode and the bytes of a file of this mode and name; a directory is none.
fn read_file<N: Namer, A: Allocator + Copy>(
    alloc: A,
    repo: &Repo<N, A>,
    mode: Mode,
    name: &Name,
) -> Result<(Mode, Vec<u8, A>), RevFault>
    requires { IsNamed (N.name_of repo.now.0) repo.now.1 (shown_as mode name.now) }
    ensures file { Gives fault_of shown_file result (file_of repo.now.1 mode name.now) }
    ensures first { FaultsComeFirst result (file_of repo.now.1 mode name.now) }
{
    match mode {
        Mode::Dir => Err(RevFault::WrongKind),
        Mode::Gitlink => Ok((mode, Vec::from_slice(alloc, &name.hex())?)),
        Mode::File | Mode::Exec | Mode::Link => {
            Ok((mode, Vec::from_slice(alloc, blob_of(repo, name))?))
        }
    }
}

/// The bytes of a held blob.
fn blob_of<'a, N: Namer, A: Allocator + Copy>(repo: &'a Repo<N, A>, name: &Name) -> &'a [u8]
    requires { IsNamed (N.name_of repo.now.0) repo.now.1 (shown_as modes.File name.now) }
    ensures { result.now ≡ bytes_of_blob (value_at repo.now.1 name.now) }
{
    body_of(repo, name)
}
