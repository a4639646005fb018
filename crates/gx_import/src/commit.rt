//! Commit commands. Source: git-fast-import(1), "commit".

ghost use Rattle.gx_command.specs.Views.{shown_commit, shown_commit_ish};
ghost use Rattle.gx_import.specs.Asking.{AsksByMerge, AsksInVain, TellsVainIn};
ghost use Rattle.gx_import.specs.Explaining.{Tells, TellsNoChange};
ghost use Rattle.std.specs.Prelude.{◌≡◌, IfErr, IfOk, None, OnOk, [], map};
ghost use Rattle.std.specs.List.{cons_option};
ghost use Rattle.gx_model.specs.declared.faults.Fault.TheVariants.{OutOfMemory};
ghost use Rattle.gx_model.specs.declared.objects.Kind.TheVariants as kinds;
ghost use Rattle.gx_model.specs.Records.Sound.{Holds, IsNamedMap};
ghost use Rattle.gx_text.specs.Idents.{ident_bytes};
ghost use Rattle.gx_object.specs.Parts.{commit_parts as shown_parts};
ghost use Rattle.gx_tree.specs.Named.{IsAtHome};
ghost use Rattle.gx_import.specs.Objects.{AreHeldCommits, commit_object};
ghost use Rattle.gx_import.specs.Telling.{AskedByEditsFrom, TellsEditsFrom};
ghost use Rattle.gx_import.specs.Standing.{HasTipsAtHome, OnlyAdds, StandsForSome};
ghost use Rattle.gx_import.specs.Calls.{AddsCommitAlone, AddsWithTrees, AreParentsOf, EditsFrom, InEach, IsOwnCommit, IsSomeCommit, KeepsTipsAtHomeWith, Makes, NamesFirstParent, NamesParents, SetsCommit};

use crate::changes::change_all;
use crate::commit_ish::{committed_for, committed_with};
use crate::files::starting_files;
use crate::object::Object;
use crate::tables::Tables;
use crate::{Asked, Explanation, ImportKind};
use gx_command::{Change, Commit, Identity, RefName};
use gx_model::repository_laws::{puts_add_values, trees_add_file_maps};
use gx_object::{CommitParts, Kind, Name, Namer};
use gx_repo::Repo;
use gx_rev::FirstParents;
use gx_text::Ident;
use gx_tree::{PathTree, records_keep_home, records_keep_loaded};
use std::alloc::{AllocError, Allocator};
use std::mem;

/// Makes a commit: its parents, its changes in their order, its trees, itself, its mark, its branch. A refusal tells the
/// change that is refused, and what a parent or a change asks for.
pub(crate) fn apply_commit<N: Namer, A: Allocator + Copy>(
    repo: &mut Repo<N, A>,
    tables: &mut Tables<A>,
    mut commit: Commit<A>,
    told: &mut Explanation<A>,
) -> Result<(), ImportKind>
    requires blank { TellsNoChange told.now }
    requires unasked { told.now.asked ≡ None }
    requires stands { StandsForSome N.name_of repo.now tables.now }
    requires homes { HasTipsAtHome N.name_of repo.now tables.now }
    ensures homes { IfOk result (λ _. HasTipsAtHome N.name_of (repo.old.0, repo.new.1) tables.new) }
    ensures only { OnlyAdds repo.old repo.new }
    ensures steps { Makes N.name_of repo.old repo.new tables.old tables.new (shown_commit commit)
        result }
    ensures told { InEach N.name_of repo.old tables.old
        (λ s. Tells (N.name_of repo.old.0) s (shown_commit commit) result told.new) }
    ensures asked { InEach N.name_of repo.old tables.old
        (λ s. TellsVainIn (AsksInVain (N.name_of repo.old.0) s (shown_commit commit))
        result told.new.asked) }
    ensures loss { told.new.loss ≡ told.old.loss }
{
    let first = match first_parent(repo, tables, &commit) {
        Ok(first) => first,
        Err(kind) => {
            told.asked = Asked::of_line(commit.from);
            return Err(kind);
        }
    };
    let parents = parents(repo, tables, &mut commit, first, &mut told.asked)?;
    make_commit(repo, tables, commit, first, parents.as_slice(), told)
}

/// Makes a commit whose parents are known: all of them, and the first, if there is one.
fn make_commit<N: Namer, A: Allocator + Copy>(
    repo: &mut Repo<N, A>,
    tables: &mut Tables<A>,
    mut commit: Commit<A>,
    first: Option<Name>,
    parents: &[Name],
    told: &mut Explanation<A>,
) -> Result<(), ImportKind>
    requires blank { TellsNoChange told.now }
    requires unasked { told.now.asked ≡ None }
    requires stands { StandsForSome N.name_of repo.now tables.now }
    requires parents { AreParentsOf N.name_of repo.now tables.now commit first parents.now }
    requires homes { HasTipsAtHome N.name_of repo.now tables.now }
    ensures homes { IfOk result (λ _. HasTipsAtHome N.name_of (repo.old.0, repo.new.1) tables.new) }
    ensures only { OnlyAdds repo.old repo.new }
    ensures steps { Makes N.name_of repo.old repo.new tables.old tables.new (shown_commit commit)
        result }
    ensures told { InEach N.name_of repo.old tables.old
        (λ s. Tells (N.name_of repo.old.0) s (shown_commit commit) result told.new) }
    ensures asked { InEach N.name_of repo.old tables.old
        (λ s. TellsVainIn (AsksInVain (N.name_of repo.old.0) s (shown_commit commit))
        result told.new.asked) }
    ensures loss { told.new.loss ≡ told.old.loss }
{
    records_keep_home();
    records_keep_loaded();
    let changes = mem::replace(&mut commit.changes, Vec::new(tables.alloc));
    let branch = commit.branch.bytes.as_slice();
    let mut files = changed_files(repo, tables, branch, first, changes, told)?;
    repo.sound();
    let name = add(repo, &mut files, parents, &commit)?;
    set_mark_and_branch(tables, commit.mark, commit.branch, name, files)
}

/// The files that a commit with this first parent starts from, with these changes in their order.
fn changed_files<N: Namer, A: Allocator + Copy>(
    repo: &mut Repo<N, A>,
    tables: &mut Tables<A>,
    branch: &[u8],
    first: Option<Name>,
    changes: Vec<Change<A>, A>,
    told: &mut Explanation<A>,
) -> Result<PathTree<A>, ImportKind>
    requires blank { TellsNoChange told.now }
    requires unasked { told.now.asked ≡ None }
    requires stands { IsSomeCommit N.name_of repo.now tables.now first }
    requires homes { HasTipsAtHome N.name_of repo.now tables.now }
    ensures homes { IfOk result (λ _. HasTipsAtHome N.name_of (repo.old.0, repo.new.1) tables.new) }
    ensures home { IfOk result (IsAtHome (N.name_of repo.old.0) repo.new.1.records) }
    ensures only { OnlyAdds repo.old repo.new }
    ensures steps { EditsFrom N.name_of repo.old repo.new tables.old tables.new
        first changes result }
    ensures told { TellsEditsFrom N.name_of repo.old tables.old first changes result told.new }
    ensures asked { AskedByEditsFrom N.name_of repo.old tables.old first changes result told.new }
    ensures loss { told.new.loss ≡ told.old.loss }
{
    repo.sound();
    records_keep_home();
    records_keep_loaded();
    tables.make_room();
    let mut files = starting_files(repo, tables, branch, first)?;
    change_all(repo, tables, &mut files, changes, told)?;
    Ok(files)
}

/// Sets the mark of a commit, and its branch, which has the commit's files at hand.
fn set_mark_and_branch<A: Allocator + Copy>(
    tables: &mut Tables<A>,
    mark: Option<u64>,
    branch: RefName<A>,
    name: Name,
    files: PathTree<A>,
) -> Result<(), ImportKind>
    ensures homes { OnOk result (KeepsTipsAtHomeWith tables.old tables.new files) }
    ensures steps { OnOk result
        (SetsCommit tables.old tables.new mark branch.bytes.items name files) }
    ensures fault { IfErr result (λ fault. fault ≡ OutOfMemory) }
{
    let kind = Kind::Commit;
    tables.marks.set(mark, Object { kind, name })?;
    let files = tables.at_hand.unless_held(&name, files);
    Ok(tables.set_tip(branch.bytes, Some(name), files)?)
}

/// The first parent: that of `from`, or else the branch's own commit.
fn first_parent<N: Namer, A: Allocator + Copy>(
    repo: &Repo<N, A>,
    tables: &Tables<A>,
    commit: &Commit<A>,
) -> Result<Option<Name>, ImportKind>
    ensures { NamesFirstParent N.name_of repo.now tables.now commit.now result }
{
    let branch = commit.branch.bytes.as_slice();
    match &commit.from {
        Some(from) => Ok(Some(committed_for(repo, tables, branch, from)?)),
        None => Ok(own_commit(repo, tables, branch)),
    }
}

/// The commit of the branch.
fn own_commit<N: Namer, A: Allocator + Copy>(
    repo: &Repo<N, A>,
    tables: &Tables<A>,
    branch: &[u8],
) -> Option<Name>
    ensures { IsOwnCommit N.name_of repo.now tables.now branch.now result }
{
    repo.sound();
    match tables.branches.get(branch) {
        Some(tip) => tip.commit,
        None => None,
    }
}

/// The first parent, where there is one, and those that are merged. One that is refused is taken out of the commit and told.
fn parents<N: Namer, A: Allocator + Copy>(
    repo: &Repo<N, A>,
    tables: &Tables<A>,
    commit: &mut Commit<A>,
    first: Option<Name>,
    asked: &mut Option<Asked<A>>,
) -> Result<Vec<Name, A>, ImportKind>
    requires unasked { asked.now ≡ None }
    ensures names { NamesParents N.name_of repo.now tables.now commit.old first result }
    ensures kept { OnOk result (commit.new ≡ commit.old) }
    ensures unasked { OnOk result (asked.new ≡ None) }
    ensures asked { InEach N.name_of repo.now tables.now (λ s. TellsVainIn
        (AsksByMerge (N.name_of repo.now.0) commit.old.branch.bytes.items s
        (map shown_commit_ish commit.old.merges.items)) result asked.new) }
{
    let mut parents = first_alone(tables.alloc, first)?;
    // the ancestors of one commit, `merge p~1`, `merge p~2` and so on, are one walk
    let mut first_parents = FirstParents::new(tables.alloc);
    for place in 0..commit.merges.len() {
        let branch = &commit.branch;
        let branch = branch.bytes.as_slice();
        let merged = &commit.merges[place];
        match committed_with(repo, tables, &mut first_parents, branch, merged) {
            Ok(name) => parents.push(name)?,
            Err(kind) => {
                let merged = commit.merges.swap_remove(place);
                *asked = Some(Asked::of_commit_ish(merged));
                return Err(kind);
            }
        }
    }
    Ok(parents)
}

/// The first parent alone, or none.
fn first_alone<A: Allocator + Copy>(
    alloc: A,
    first: Option<Name>,
) -> Result<Vec<Name, A>, AllocError>
    ensures { IfOk result (λ names. names.items ≡ cons_option first []) }
{
    let mut alone = Vec::new(alloc);
    if let Some(name) = first {
        alone.push(name)?;
    }
    Ok(alone)
}

/// Adds the trees of these files, and then the commit with them and with these parents.
fn add<N: Namer, A: Allocator + Copy>(
    repo: &mut Repo<N, A>,
    files: &mut PathTree<A>,
    parents: &[Name],
    commit: &Commit<A>,
) -> Result<Name, ImportKind>
    requires named { IsNamedMap repo.now.1.records files.now.files }
    requires parents { AreHeldCommits repo.now.1 parents.now }
    requires home { IsAtHome (N.name_of repo.now.0) repo.now.1.records files.now }
    ensures home { IfOk result (λ _. IsAtHome (N.name_of repo.old.0) repo.new.1.records files.new) }
    ensures only { OnlyAdds repo.old repo.new }
    ensures files { files.new.files ≡ files.old.files }
    ensures steps { AddsWithTrees N.name_of repo.old repo.new files.old
        parents.now commit.now result }
{
    repo.sound();
    trees_add_file_maps();
    puts_add_values();
    records_keep_home();
    let tree = repo.add_tree_shared(files)?;
    add_alone(repo, tree, parents, commit)
}

/// Adds the commit with this tree and these parents.
fn add_alone<N: Namer, A: Allocator + Copy>(
    repo: &mut Repo<N, A>,
    tree: Name,
    parents: &[Name],
    commit: &Commit<A>,
) -> Result<Name, ImportKind>
    requires tree { Holds repo.now.1.records kinds.Tree tree.bytes }
    requires parents { AreHeldCommits repo.now.1 parents.now }
    ensures only { OnlyAdds repo.old repo.new }
    ensures steps { AddsCommitAlone N.name_of repo.old repo.new tree parents.now commit.now result }
{
    repo.sound();
    puts_add_values();
    Ok(repo.add_commit(&object_parts(tree, parents, commit))?)
}

/// The parts of a commit object. A missing author is the committer.
fn object_parts<'a, A: Allocator + Copy>(
    tree: Name,
    parents: &'a [Name],
    commit: &'a Commit<A>,
) -> CommitParts<'a>
    ensures { shown_parts result ≡ commit_object tree parents.now commit.now }
{
    let committer = ident(&commit.committer);
    let author = match &commit.author {
        Some(author) => ident(author),
        None => committer,
    };
    let encoding = match &commit.encoding {
        Some(encoding) => Some(encoding.name.as_slice()),
        None => None,
    };
    CommitParts {
        tree,
        parents,
        author,
        committer,
        encoding,
        further: b"",
        message: commit.message.as_slice(),
    }
}

/// An identity as an object's part.
pub(crate) fn ident<A: Allocator + Copy>(identity: &Identity<A>) -> Ident<'_>
    ensures { ident_bytes result ≡ identity.now.bytes.items }
{
    match Ident::read(identity.bytes.as_slice()) {
        Ok(ident) => ident,
        Err(_) => unreachable!(),
    }
}
