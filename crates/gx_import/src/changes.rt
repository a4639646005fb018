//! The changes of a commit's files. Source: git-fast-import(1), "filemodify" to "filedeleteall".

ghost use Rattle.gx_import.specs.Asking.{AsksByContent, AsksByOne, TellsVainIn};
ghost use Rattle.std.specs.Prelude.{◌≡◌, ◌≢◌, None, Ok, Some, IfOk, IsTrue, OnErr, OnOk};
ghost use Rattle.gx_model.specs.Histories.Edits.{copied, removed, renamed};
ghost use Rattle.gx_model.specs.declared.objects.Mode.TheVariants as modes;
ghost use Rattle.gx_command.specs.DataRefs.{is_suited};
ghost use Rattle.gx_command.specs.Views.{shown_change, shown_data, shown_modify};
ghost use Rattle.gx_tree.specs.Calls.{Becomes};
ghost use Rattle.gx_tree.specs.Named.{KeepsHome};
ghost use Rattle.gx_model.specs.Streams.Commands as model;
ghost use Rattle.gx_import.specs.Standing.{OnlyAdds, StayAtHome};
ghost use Rattle.gx_import.specs.Calls.{AddsContent, EditsAll, GivesBlob, InEach, MakesChange, NamesContent};
ghost use Rattle.gx_import.specs.Explaining.{TellsNoChange, TellsPath, path_of};
ghost use Rattle.gx_import.specs.Telling.{AskedByEdits, TellsEdits};

use crate::object::{Object, name_of_kind};
use crate::tables::Tables;
use crate::{Asked, Explanation, ImportKind};
use gx_command::{Change, DataRef, Digits, Modify};
use gx_model::repository_laws::puts_add_values;
use gx_object::{Kind, Mode, Name, Namer};
use gx_repo::Repo;
use gx_text::TreePath;
use gx_tree::{PathTree, TreeFault, records_keep_home};
use std::alloc::Allocator;

/// Makes these changes, in their order. A refusal tells the change.
pub(crate) fn change_all<N: Namer, A: Allocator + Copy>(
    repo: &mut Repo<N, A>,
    tables: &Tables<A>,
    files: &mut PathTree<A>,
    changes: Vec<Change<A>, A>,
    told: &mut Explanation<A>,
) -> Result<(), ImportKind>
    requires blank { TellsNoChange told.now }
    requires unasked { told.now.asked ≡ None }
    ensures only { OnlyAdds repo.old repo.new }
    ensures home { IfOk result (λ _. StayAtHome N.name_of repo.old repo.new files.old files.new) }
    ensures steps { EditsAll N.name_of repo.old repo.new tables.now files.old
        files.new changes result }
    ensures told { TellsEdits N.name_of repo.old tables.now files.old changes result told.new }
    ensures asked { AskedByEdits N.name_of repo.old tables.now files.old changes result told.new }
    ensures loss { told.new.loss ≡ told.old.loss }
{
    let count = changes.len();
    let mut left = count;
    for change in changes {
        left -= 1;
        if let Err(kind) = change_files(repo, tables, files, change, told) {
            told.change = Some((count - left) as u64);
            return Err(kind);
        }
    }
    Ok(())
}

/// Makes one change. A refusal tells its path, and what it asks for.
fn change_files<N: Namer, A: Allocator + Copy>(
    repo: &mut Repo<N, A>,
    tables: &Tables<A>,
    files: &mut PathTree<A>,
    change: Change<A>,
    told: &mut Explanation<A>,
) -> Result<(), ImportKind>
    requires unasked { told.now.asked ≡ None }
    ensures only { OnlyAdds repo.old repo.new }
    ensures home { IfOk result (λ _. StayAtHome N.name_of repo.old repo.new files.old files.new) }
    ensures steps { MakesChange N.name_of repo.old repo.new tables.now files.old files.new
        (shown_change change) result }
    ensures told { TellsPath (path_of (shown_change change)) result told.old told.new }
    ensures asked { InEach N.name_of repo.old tables.now
        (λ s. TellsVainIn (AsksByOne (N.name_of repo.old.0) s (shown_change change))
        result told.new.asked) }
{
    match change {
        Change::Modify(modify) => modify_files(repo, tables, files, modify, told)?,
        Change::Remove(path) => remove_files(files, path, told)?,
        Change::Copy {
            source,
            destination,
        } => copy_files(files, source, &destination, told)?,
        Change::Rename {
            source,
            destination,
        } => rename_files(files, source, &destination, told)?,
        Change::Clear => files.clear(),
    }
    files.name_map();
    Ok(())
}

/// Removes what stands at or below a path. A refusal tells it.
fn remove_files<A: Allocator + Copy>(
    files: &mut PathTree<A>,
    path: TreePath<A>,
    told: &mut Explanation<A>,
) -> Result<(), TreeFault>
    ensures map { Becomes files.new result (Ok (removed files.old.files path)) }
    ensures unchanged { OnErr result (files.new ≡ files.old) }
    ensures home { KeepsHome files.old files.new }
    ensures told { TellsPath (Some path) result told.old told.new }
    ensures asked { told.new.asked ≡ told.old.asked }
{
    let done = files.remove(&path);
    if done.is_err() {
        told.path = Some(path);
    }
    done
}

/// Copies what stands at or below the source. A refusal tells the source.
fn copy_files<A: Allocator + Copy>(
    files: &mut PathTree<A>,
    source: TreePath<A>,
    destination: &TreePath<A>,
    told: &mut Explanation<A>,
) -> Result<(), TreeFault>
    ensures map { Becomes files.new result (copied files.old.files source destination.now) }
    ensures unchanged { OnErr result (files.new ≡ files.old) }
    ensures home { KeepsHome files.old files.new }
    ensures told { TellsPath (Some source) result told.old told.new }
    ensures asked { told.new.asked ≡ told.old.asked }
{
    let done = files.copy(&source, destination);
    if done.is_err() {
        told.path = Some(source);
    }
    done
}

/// Moves what stands at or below the source. A refusal tells the source.
fn rename_files<A: Allocator + Copy>(
    files: &mut PathTree<A>,
    source: TreePath<A>,
    destination: &TreePath<A>,
    told: &mut Explanation<A>,
) -> Result<(), TreeFault>
    ensures map { Becomes files.new result (renamed files.old.files source destination.now) }
    ensures unchanged { OnErr result (files.new ≡ files.old) }
    ensures home { KeepsHome files.old files.new }
    ensures told { TellsPath (Some source) result told.old told.new }
    ensures asked { told.new.asked ≡ told.old.asked }
{
    let done = files.rename(&source, destination);
    if done.is_err() {
        told.path = Some(source);
    }
    done
}

/// Sets a file. A refusal tells its path, and what it asks for.
fn modify_files<N: Namer, A: Allocator + Copy>(
    repo: &mut Repo<N, A>,
    tables: &Tables<A>,
    files: &mut PathTree<A>,
    modify: Modify<A>,
    told: &mut Explanation<A>,
) -> Result<(), ImportKind>
    requires unasked { told.now.asked ≡ None }
    ensures only { OnlyAdds repo.old repo.new }
    ensures home { IfOk result (λ _. StayAtHome N.name_of repo.old repo.new files.old files.new) }
    ensures steps { MakesChange N.name_of repo.old repo.new tables.now files.old files.new
        (shown_modify modify) result }
    ensures told { TellsPath (Some modify.path) result told.old told.new }
    ensures asked { InEach N.name_of repo.old tables.now
        (λ s. TellsVainIn (AsksByOne (N.name_of repo.old.0) s (shown_modify modify))
        result told.new.asked) }
{
    let done = set_file(
        repo,
        tables,
        files,
        modify.mode,
        modify.data_ref,
        &modify.path,
        &mut told.asked,
    );
    if done.is_err() {
        told.path = Some(modify.path);
    }
    done
}

/// Sets the file at a path. What it gets is resolved first, and a refusal tells what that asks for.
fn set_file<N: Namer, A: Allocator + Copy>(
    repo: &mut Repo<N, A>,
    tables: &Tables<A>,
    files: &mut PathTree<A>,
    mode: Mode,
    data_ref: DataRef<A>,
    path: &TreePath<A>,
    asked: &mut Option<Asked<A>>,
) -> Result<(), ImportKind>
    requires suits { IsTrue (is_suited mode data_ref) }
    requires unasked { asked.now ≡ None }
    ensures only { OnlyAdds repo.old repo.new }
    ensures home { IfOk result (λ _. StayAtHome N.name_of repo.old repo.new files.old files.new) }
    ensures steps { MakesChange N.name_of repo.old repo.new tables.now files.old files.new
        (model.Modify mode (shown_data data_ref) path.now) result }
    ensures unasked { OnOk result (asked.new ≡ None) }
    ensures asked { InEach N.name_of repo.old tables.now
        (λ s. TellsVainIn (AsksByContent (N.name_of repo.old.0) s mode (shown_data data_ref))
        result asked.new) }
{
    records_keep_home();
    let name = told_content(repo, tables, mode, data_ref, asked)?;
    files.modify(path, mode, name)?;
    files.name_map();
    Ok(())
}

/// The name of what a file gets. A refusal tells what the data reference asks for.
fn told_content<N: Namer, A: Allocator + Copy>(
    repo: &mut Repo<N, A>,
    tables: &Tables<A>,
    mode: Mode,
    data_ref: DataRef<A>,
    asked: &mut Option<Asked<A>>,
) -> Result<Name, ImportKind>
    requires suits { IsTrue (is_suited mode data_ref) }
    requires unasked { asked.now ≡ None }
    ensures only { OnlyAdds repo.old repo.new }
    ensures steps { AddsContent N.name_of repo.old repo.new tables.now mode data_ref result }
    ensures unasked { OnOk result (asked.new ≡ None) }
    ensures asked { InEach N.name_of repo.old tables.now
        (λ s. TellsVainIn (AsksByContent (N.name_of repo.old.0) s mode (shown_data data_ref))
        result asked.new) }
{
    let refers = Asked::of_data(&data_ref);
    match content(repo, tables, mode, data_ref) {
        Ok(name) => Ok(name),
        Err(kind) => {
            *asked = refers;
            Err(kind)
        }
    }
}

/// The name of what a file gets. Bytes that came in the stream are put as a blob, by no copy, and nothing is looked up
/// for a gitlink.
fn content<N: Namer, A: Allocator + Copy>(
    repo: &mut Repo<N, A>,
    tables: &Tables<A>,
    mode: Mode,
    data_ref: DataRef<A>,
) -> Result<Name, ImportKind>
    requires suits { IsTrue (is_suited mode data_ref) }
    ensures only { OnlyAdds repo.old repo.new }
    ensures steps { AddsContent N.name_of repo.old repo.new tables.now mode data_ref result }
{
    repo.sound();
    puts_add_values();
    match data_ref {
        DataRef::Mark(number) => name_of_kind(tables.marks.object(number)?, Kind::Blob),
        DataRef::Name(digits) => named_content(repo, mode, &digits),
        DataRef::Inline(bytes) => Ok(repo.add_blob_owned(bytes)?),
    }
}

/// What digits name: a gitlink's commit, which needn't be held, or a held blob.
fn named_content<N: Namer, A: Allocator + Copy>(
    repo: &Repo<N, A>,
    mode: Mode,
    digits: &Digits,
) -> Result<Name, ImportKind>
    requires { mode ≢ modes.Dir }
    ensures { NamesContent N.name_of repo.now mode (model.Object digits.now.digits) result }
{
    repo.sound();
    let Some(name) = Name::read(&digits.digits) else {
        unreachable!();
    };
    match mode {
        Mode::Gitlink => Ok(name),
        _ => held_blob(repo, name),
    }
}

/// The blob of this name.
fn held_blob<N: Namer, A: Allocator + Copy>(
    repo: &Repo<N, A>,
    name: Name,
) -> Result<Name, ImportKind>
    ensures { GivesBlob N.name_of repo.now name result }
{
    match repo.store().get(&name) {
        Some((kind, _)) => name_of_kind(Object { kind, name }, Kind::Blob),
        None => Err(ImportKind::UnknownObject),
    }
}
