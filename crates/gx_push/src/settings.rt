//! The lines that set refs, read and held against the refs and objects that are there. Source: git-update-ref(1), "--stdin".

ghost use Rattle.std.specs.Prelude.{◌≡◌, ◌<◌, ◌^◌, IfOk, false};
ghost use Rattle.std.specs.Option.{option_map};
ghost use Rattle.gx_object.specs.Parts.{bytes_if};
ghost use Rattle.gx_rev.specs.Parents.{HoldsParents};
ghost use Rattle.gx_model.specs.Records.Growth.{record_named};
ghost use Rattle.gx_model.specs.Records.Publishing.{change_fault};
ghost use Rattle.gx_repo.specs.Refs.{object_named};
ghost use Rattle.gx_model.specs.Stores.StoreReading.{is_target_of_kind};
ghost use Rattle.gx_push.specs.Calls.{AllowsLine, ReadsSets, set_refused, texts};
ghost use Rattle.gx_push.specs.Settings.{after_fault, becomes, is_before, move_fault, ref_fault, shown_after, shown_setting};
ghost use Rattle.gx_push.specs.declared.settings.Against.TheVariants.{OutOfMemory as no_memory};

use crate::fault::{RefFault, SetFault};
use crate::forward::is_forward;
use crate::setting::{After, Setting, setting_in};
use gx_object::{Name, Namer};
use gx_repo::{Repo, is_target};
use gx_rev::Parents;
use gx_text::is_ref_name;
use std::alloc::{AllocError, Allocator};
use std::collections::BTreeSet;

/// Why a line makes nothing of a ref.
#[derive(Clone, Copy, Debug, PartialEq, Eq)]
pub(crate) enum Against {
    Fault(RefFault),
    OutOfMemory,
}

impl From<AllocError> for Against {
    ghost from_gives = { λ _ against. against ≡ no_memory };

    fn from(_error: AllocError) -> Against {
        Against::OutOfMemory
    }
}

/// What these lines make of the refs of a repository. Without `forced` each that is set to an object moves forward.
pub(crate) fn settings_of<'a, N: Namer, A: Allocator + Copy>(
    alloc: A,
    repo: &Repo<N, A>,
    lines: &'a [Vec<u8, A>],
    forced: bool,
) -> Result<Vec<Setting<'a>, A>, SetFault>
    ensures { ReadsSets forced repo.now.1 (texts lines.now) result }
{
    let mut parents = Parents::new(alloc);
    let mut list = Vec::new(alloc);
    let mut names = BTreeSet::new(alloc);
    for (place, line) in lines.iter().enumerate() {
        match allowed(alloc, repo, &mut parents, &names, line.as_slice(), forced) {
            Ok(setting) => {
                names.insert(setting.name)?;
                list.push(setting)?;
            }
            Err(against) => return Err(refused(place, against)),
        }
    }
    Ok(list)
}

/// The refusal of the line at this place.
fn refused(place: usize, against: Against) -> SetFault
    requires { place < 2 ^ 63 }
    ensures { result ≡ set_refused place against }
{
    match against {
        Against::Fault(kind) => SetFault::Line {
            number: place as u64 + 1,
            kind,
        },
        Against::OutOfMemory => SetFault::OutOfMemory,
    }
}

/// What a line makes of a ref that has none of these names, where nothing is against it.
fn allowed<'a, N: Namer, A: Allocator + Copy>(
    alloc: A,
    repo: &Repo<N, A>,
    parents: &mut Parents<A>,
    names: &BTreeSet<&'a [u8], A>,
    line: &'a [u8],
    forced: bool,
) -> Result<Setting<'a>, Against>
    requires holds { HoldsParents repo.now.1 parents.old }
    ensures holds { HoldsParents repo.now.1 parents.new }
    ensures allowed { AllowsLine forced repo.now.1 names.now line.now result }
{
    let Some(setting) = setting_in(line) else {
        return Err(Against::Fault(RefFault::BadLine));
    };
    if !is_ref_name(setting.name) {
        return Err(Against::Fault(RefFault::BadRefName));
    }
    if names.contains(setting.name) {
        return Err(Against::Fault(RefFault::BadLine));
    }
    let (_, held) = repo.ref_near(0, setting.name);
    if !is_before(setting.old, held) {
        return Err(Against::Fault(RefFault::RefMoved));
    }
    match after_fault(alloc, repo, parents, &setting, forced)? {
        Some(fault) => Err(Against::Fault(fault)),
        None => Ok(setting),
    }
}

/// Whether a ref is what it has to be, where that is told.
fn is_before(old: Option<Option<Name>>, held: Option<Name>) -> bool
    ensures { result ≡ is_before (option_map bytes_if old) (bytes_if held) }
{
    match old {
        Some(old) => old == held,
        None => true,
    }
}

/// What is against what becomes of a ref.
fn after_fault<N: Namer, A: Allocator + Copy>(
    alloc: A,
    repo: &Repo<N, A>,
    parents: &mut Parents<A>,
    setting: &Setting<'_>,
    forced: bool,
) -> Result<Option<RefFault>, AllocError>
    requires holds { HoldsParents repo.now.1 parents.old }
    ensures holds { HoldsParents repo.now.1 parents.new }
    ensures fault { IfOk result (λ fault. fault
        ≡ after_fault forced repo.now.1 setting.now.name.now (shown_after setting.now.after)) }
{
    match setting.after {
        After::Same | After::Gone => Ok(None),
        After::Object(object) => {
            object_fault(alloc, repo, parents, setting.name, &object, forced)
        }
    }
}

/// What is against an object in a ref, or against the ref's move to it.
fn object_fault<N: Namer, A: Allocator + Copy>(
    alloc: A,
    repo: &Repo<N, A>,
    parents: &mut Parents<A>,
    name: &[u8],
    object: &Name,
    forced: bool,
) -> Result<Option<RefFault>, AllocError>
    requires holds { HoldsParents repo.now.1 parents.old }
    ensures holds { HoldsParents repo.now.1 parents.new }
    ensures fault { IfOk result (λ fault. fault
        ≡ after_fault forced repo.now.1 name.now (becomes object.now.bytes)) }
{
    let fault = target_fault(repo, name, object);
    if fault.is_some() || forced {
        return Ok(fault);
    }
    move_fault(alloc, repo, parents, name, object)
}

/// What is against the move of a ref to an object: that it isn't forward.
fn move_fault<N: Namer, A: Allocator + Copy>(
    alloc: A,
    repo: &Repo<N, A>,
    parents: &mut Parents<A>,
    name: &[u8],
    object: &Name,
) -> Result<Option<RefFault>, AllocError>
    requires holds { HoldsParents repo.now.1 parents.old }
    ensures holds { HoldsParents repo.now.1 parents.new }
    ensures fault { IfOk result (λ fault. fault
        ≡ move_fault false repo.now.1 (object_named repo.now.1.refs name.now) object.now.bytes) }
{
    let (_, Some(old)) = repo.ref_near(0, name) else {
        return Ok(None);
    };
    if is_forward(alloc, repo, parents, &old, object)? {
        Ok(None)
    } else {
        Ok(Some(RefFault::NotFastForward))
    }
}

/// What is against an object in a ref.
fn target_fault<N: Namer, A: Allocator + Copy>(
    repo: &Repo<N, A>,
    name: &[u8],
    object: &Name,
) -> Option<RefFault>
    ensures { result ≡ option_map ref_fault
        (change_fault repo.now.1.records (name.now, object.now.bytes)) }
{
    if !is_ref_name(name) {
        return Some(RefFault::BadRefName);
    }
    match may_hold(repo, name, object) {
        Some(true) => None,
        Some(false) => Some(RefFault::WrongKind),
        None => Some(RefFault::UnknownObject),
    }
}

/// Whether a ref may hold an object that is held.
fn may_hold<N: Namer, A: Allocator + Copy>(
    repo: &Repo<N, A>,
    name: &[u8],
    object: &Name,
) -> Option<bool>
    ensures { result ≡ option_map (λ held. is_target_of_kind name.now held.kind held.body)
        (record_named repo.now.1.records object.now.bytes) }
{
    let (kind, body) = repo.store().get(object)?;
    Some(is_target(name, kind, body))
}
