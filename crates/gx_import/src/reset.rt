//! Reset commands. Source: git-fast-import(1), "reset".

ghost use Rattle.gx_import.specs.Asking.{AsksInVain, TellsVainIn};
ghost use Rattle.std.specs.Prelude.{◌≡◌, None};
ghost use Rattle.gx_command.specs.Views.{shown_reset};
ghost use Rattle.gx_import.specs.Calls.{InEach, KeepsTipsAtHome, NamesTarget, Resets};

use crate::commit_ish::committed_for;
use crate::tables::Tables;
use crate::{Asked, ImportKind};
use gx_command::Reset;
use gx_object::{Name, Namer};
use gx_repo::Repo;
use std::alloc::Allocator;

/// Sets a branch to a commit, or to none. A refusal tells what its `from` asks for.
pub(crate) fn apply_reset<N: Namer, A: Allocator + Copy>(
    repo: &Repo<N, A>,
    tables: &mut Tables<A>,
    reset: Reset<A>,
    asked: &mut Option<Asked<A>>,
) -> Result<(), ImportKind>
    requires unasked { asked.now ≡ None }
    ensures homes { KeepsTipsAtHome tables.old tables.new result }
    ensures steps { Resets N.name_of repo.now tables.old tables.new reset result }
    ensures asked { InEach N.name_of repo.now tables.old
        (λ s. TellsVainIn (AsksInVain (N.name_of repo.now.0) s (shown_reset reset))
        result asked.new) }
{
    let commit = match target(repo, tables, &reset) {
        Ok(commit) => commit,
        Err(kind) => {
            *asked = Asked::of_line(reset.from);
            return Err(kind);
        }
    };
    Ok(tables.set_tip(reset.branch.bytes, commit, None)?)
}

/// The commit of its `from`.
fn target<N: Namer, A: Allocator + Copy>(
    repo: &Repo<N, A>,
    tables: &Tables<A>,
    reset: &Reset<A>,
) -> Result<Option<Name>, ImportKind>
    ensures { NamesTarget N.name_of repo.now tables.now reset.now result }
{
    match &reset.from {
        Some(from) => {
            let branch = reset.branch.bytes.as_slice();
            Ok(Some(committed_for(repo, tables, branch, from)?))
        }
        None => Ok(None),
    }
}
