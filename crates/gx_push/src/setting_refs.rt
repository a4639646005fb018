//! Refs that are set, all of them or none. Source: git-update-ref(1), "--stdin".

ghost use Rattle.std.specs.Prelude.{◌≡◌, Bool, IfErr, IfOk, List, None, Ok, map};
ghost use Rattle.std.specs.List.{filter_map};
ghost use Rattle.gx_model.specs.Laws.RepositoryLaws.{with_refs};
ghost use Rattle.gx_model.specs.Records.Publishing.{changes_fault, with_changes};
ghost use Rattle.gx_model.specs.Records.Sound.{IsSound};
ghost use Rattle.gx_model.specs.Texts.{Bytes};
ghost use Rattle.gx_repo.specs.Dropping.{without};
ghost use Rattle.gx_repo.specs.Refs.{shown_update};
ghost use Rattle.gx_text.specs.Lent.{lent_texts};
ghost use Rattle.gx_push.specs.Calls.{SetsRefs, texts};
ghost use Rattle.gx_push.specs.declared.fault.SetFault.TheVariants.{OutOfMemory};
ghost use Rattle.gx_push.specs.Settings.{change_in, is_removed, removed, sets_in, shown_setting, shown_settings};

use crate::fault::SetFault;
use crate::setting::{After, Setting};
use crate::settings::settings_of;
use gx_object::Namer;
use gx_repo::{DropFault, PublishFault, RefChange, Repo};
use std::alloc::{AllocFailed, Allocator};

/// Sets and removes refs of a repository as lines tell, all of them or none.
///
/// Each line is `update REF NEW [OLD]`, `create REF NEW`, `delete REF [OLD]` or `verify REF [OLD]`, where NEW and OLD are 40 digits,
/// and 40 zeros are no object: as NEW they remove the ref. Where there is OLD, the ref has to hold it. `create`, and `verify` without
/// OLD, want no such ref. Without `forced` a ref that is set to an object moves forward.
///
/// `Line`: the first line that isn't one (`BadLine`), whose REF is no ref's name (`BadRefName`), whose ref another line before it has
/// (`BadLine`), whose ref isn't so (`RefMoved`), whose NEW isn't held (`UnknownObject`) or isn't a commit or a tag whose own name makes
/// the ref's (`WrongKind`), or whose ref would lose commits (`NotFastForward`). `OutOfMemory`: a growth was refused.
/// Cost: for each line some look-ups among the refs and objects, and `gx_rev::is_ancestor`; those of `Repo::drop_refs` and
/// `Repo::publish`.
pub fn set_refs<N: Namer + Drop, A: Allocator + Copy>(
    alloc: A,
    repo: Repo<N, A>,
    lines: &[Vec<u8, A>],
    forced: bool,
) -> Result<Repo<N, A>, SetFault>
    ensures namer { IfOk result (λ left. left.0 ≡ repo.0) }
    ensures refs { SetsRefs forced repo.1 (texts lines.now) result }
    ensures sound { IfOk result (λ left. IsSound (N.name_of repo.0) left.1) }
{
    let settings = settings_of(alloc, &repo, lines, forced)?;
    let mut repo = repo;
    remove(alloc, &mut repo, settings.as_slice())?;
    set(alloc, &mut repo, settings.as_slice())?;
    repo.sound();
    Ok(repo)
}

/// Removes the refs that are to be removed, and are there.
fn remove<N: Namer, A: Allocator + Copy>(
    alloc: A,
    repo: &mut Repo<N, A>,
    settings: &[Setting<'_>],
) -> Result<(), SetFault>
    requires { (lines : List Bytes) × (forced : Bool)
        × (sets_in forced repo.old.1 lines ≡ Ok (shown_settings settings.now)) }
    ensures namer { repo.new.0 ≡ repo.old.0 }
    ensures removed { IfOk result (λ _. repo.new.1 ≡ with_refs repo.old.1
        (without (removed repo.old.1.refs (shown_settings settings.now)) repo.old.1.refs)) }
    ensures memory { IfErr result (λ fault. fault ≡ OutOfMemory) }
{
    let names = removed(alloc, repo, settings)?;
    match repo.drop_refs(names.as_slice()) {
        Ok(()) => Ok(()),
        Err(DropFault::OutOfMemory) => Err(SetFault::OutOfMemory),
        Err(DropFault::UnknownRef { .. }) => unreachable!(),
    }
}

/// The names of the refs that are to be removed, and are there.
fn removed<'a, N: Namer, A: Allocator + Copy>(
    alloc: A,
    repo: &Repo<N, A>,
    settings: &[Setting<'a>],
) -> Result<Vec<&'a [u8], A>, AllocFailed<&'a [u8]>>
    ensures { IfOk result (λ names. lent_texts names.items
        ≡ removed repo.now.1.refs (shown_settings settings.now)) }
{
    let mut names = Vec::new(alloc);
    for setting in settings {
        if is_removed(repo, setting) {
            names.push(setting.name)?;
        }
    }
    Ok(names)
}

/// Whether a ref is to be removed, and is there.
fn is_removed<N: Namer, A: Allocator + Copy>(repo: &Repo<N, A>, setting: &Setting<'_>) -> bool
    ensures { result ≡ is_removed repo.now.1.refs (shown_setting setting.now) }
{
    match setting.after {
        After::Gone => repo.ref_near(0, setting.name).1.is_some(),
        After::Same | After::Object(_) => false,
    }
}

/// Sets the refs that are to hold an object, against which there is nothing.
fn set<N: Namer, A: Allocator + Copy>(
    alloc: A,
    repo: &mut Repo<N, A>,
    settings: &[Setting<'_>],
) -> Result<(), SetFault>
    requires { changes_fault repo.old.1.records (filter_map change_in (shown_settings settings.now))
        ≡ None }
    ensures namer { repo.new.0 ≡ repo.old.0 }
    ensures set { IfOk result (λ _. repo.new.1 ≡ with_refs repo.old.1
        (with_changes repo.old.1.refs (filter_map change_in (shown_settings settings.now)))) }
    ensures memory { IfErr result (λ fault. fault ≡ OutOfMemory) }
{
    let changes = changes_of(alloc, settings)?;
    match repo.publish(changes.as_slice()) {
        Ok(()) => Ok(()),
        Err(PublishFault::OutOfMemory) => Err(SetFault::OutOfMemory),
        Err(PublishFault::BadRefName) => unreachable!(),
        Err(PublishFault::UnknownObject) => unreachable!(),
        Err(PublishFault::WrongKind) => unreachable!(),
    }
}

/// The changes of the refs that are to hold an object.
fn changes_of<'a, A: Allocator + Copy>(
    alloc: A,
    settings: &[Setting<'a>],
) -> Result<Vec<RefChange<'a>, A>, AllocFailed<RefChange<'a>>>
    ensures { IfOk result (λ changes. map shown_update changes.items
        ≡ filter_map change_in (shown_settings settings.now)) }
{
    let mut changes = Vec::new(alloc);
    for setting in settings {
        if let After::Object(target) = setting.after {
            changes.push(RefChange {
                name: setting.name,
                target,
            })?;
        }
    }
    Ok(changes)
}
