//! Whether a stream can say the commits that are to go out.

ghost use Rattle.std.specs.Prelude.{◌∷◌, [], IfSome};
ghost use Rattle.gx_model.specs.declared.objects.Kind.TheVariants as kinds;
ghost use Rattle.gx_print.specs.Logs.{AreCommits};
ghost use Rattle.gx_rev.specs.Objects.{IsHeldAs, commit_at};
ghost use Rattle.gx_changes.specs.Sayable.{FindsSayable};
ghost use Rattle.gx_changes.specs.Texts.{commits_sent};

use gx_object::Name;
use gx_objects::Objects;
use gx_questions::commit_in;
use gx_sending::SendFault;
use std::alloc::Allocator;

/// Looks whether a stream can say commits: `Unsupported` where one has a header but that of an encoding. What is in the room
/// before and after stands for nothing.
///
/// Cost: the body of each. Source: git-fast-import(1), "commit".
pub(crate) fn check_sayable<O: Objects, A: Allocator + Copy>(
    objects: &O,
    room: &mut Vec<u8, A>,
    commits: &[Name],
) -> Result<(), SendFault>
    requires { IfSome (O.told objects.now) (λ r. AreCommits r commits.now) }
    ensures { IfSome (O.told objects.now)
        (λ r. FindsSayable (commits_sent r commits.now) result) }
{
    let mut left = commits.len();
    while left > 0 {
        left -= 1;
        check_commit(objects, room, &commits[left])?;
    }
    Ok(())
}

/// Looks whether a stream can say a held commit.
fn check_commit<O: Objects, A: Allocator + Copy>(
    objects: &O,
    room: &mut Vec<u8, A>,
    commit: &Name,
) -> Result<(), SendFault>
    requires { IfSome (O.told objects.now) (λ r. IsHeldAs kinds.Commit r commit.now) }
    ensures { IfSome (O.told objects.now)
        (λ r. FindsSayable (commit_at r commit.now ∷ []) result) }
{
    let (_, view) = commit_in(objects, commit, room)?;
    if view.has_encoding_alone() {
        Ok(())
    } else {
        Err(SendFault::Unsupported)
    }
}
