//! The lines of a push, read and held against the refs that are there. Source: git-push(1), "--force-with-lease".

ghost use Rattle.std.specs.Prelude.{◌≡◌, ◌+◌, ◌<◌, ◌^◌, IfOk};
ghost use Rattle.gx_text.specs.Lent.{lent_texts};
ghost use Rattle.gx_push.specs.Calls.{HoldsLine, ReadsWants, texts};
ghost use Rattle.gx_push.specs.Pushes.{is_vanishing, vanishing};
ghost use Rattle.gx_push.specs.Wants.{shown_want, shown_wants};
ghost use Rattle.gx_push.specs.declared.fault.PushFault.TheVariants.{Line};

use crate::fault::{PushFault, RefFault};
use crate::want::{Fate, Want, want_in};
use gx_object::Namer;
use gx_repo::Repo;
use std::alloc::{AllocFailed, Allocator};
use std::collections::BTreeSet;

/// What the lines want, in their order, and the names of the refs that they tell of.
#[derive(Drop)]
pub(crate) struct Wants<'a, A: Allocator> {
    pub(crate) list: Vec<Want<'a>, A>,
    pub(crate) names: BTreeSet<&'a [u8], A>,
}

/// What these lines want of the refs of a repository, which are as each line has them.
pub(crate) fn wants_of<'a, N: Namer, A: Allocator + Copy>(
    alloc: A,
    repo: &Repo<N, A>,
    lines: &'a [Vec<u8, A>],
) -> Result<Wants<'a, A>, PushFault>
    ensures { ReadsWants repo.now.1.refs (texts lines.now) result }
{
    let mut list = Vec::new(alloc);
    let mut names = BTreeSet::new(alloc);
    for (place, line) in lines.iter().enumerate() {
        match want_held(repo, &names, line.as_slice()) {
            Ok(want) => {
                names.insert(want.name)?;
                list.push(want)?;
            }
            Err(kind) => return Err(refused(place, kind)),
        }
    }
    Ok(Wants { list, names })
}

/// What a line wants, where the ref is as the line has it, and has none of these names.
fn want_held<'a, N: Namer, A: Allocator + Copy>(
    repo: &Repo<N, A>,
    names: &BTreeSet<&'a [u8], A>,
    line: &'a [u8],
) -> Result<Want<'a>, RefFault>
    ensures { HoldsLine repo.now.1.refs names.now line.now result }
{
    let Some(want) = want_in(line) else {
        return Err(RefFault::BadLine);
    };
    if names.contains(want.name) {
        return Err(RefFault::BadLine);
    }
    let (_, held) = repo.ref_near(0, want.name);
    if held == want.old {
        Ok(want)
    } else {
        Err(RefFault::RefMoved)
    }
}

/// The refusal of the line at this place.
pub(crate) fn refused(place: usize, kind: RefFault) -> PushFault
    requires { place < 2 ^ 63 }
    ensures { result ≡ Line (place + 1) kind }
{
    PushFault::Line {
        number: place as u64 + 1,
        kind,
    }
}

/// The names of the refs that are to be removed, and are there.
pub(crate) fn vanishing<'a, N: Namer, A: Allocator + Copy>(
    alloc: A,
    repo: &Repo<N, A>,
    wants: &[Want<'a>],
) -> Result<Vec<&'a [u8], A>, AllocFailed<&'a [u8]>>
    ensures { IfOk result (λ names. lent_texts names.items
        ≡ vanishing repo.now.1.refs (shown_wants wants.now)) }
{
    let mut names = Vec::new(alloc);
    for want in wants {
        if vanishes(repo, want) {
            names.push(want.name)?;
        }
    }
    Ok(names)
}

/// Whether a ref is to be removed, and is there.
fn vanishes<N: Namer, A: Allocator + Copy>(repo: &Repo<N, A>, want: &Want<'_>) -> bool
    ensures { result ≡ is_vanishing repo.now.1.refs (shown_want want.now) }
{
    match want.fate {
        Fate::Vanish => repo.ref_near(0, want.name).1.is_some(),
        Fate::Advance | Fate::Lose => false,
    }
}
