//! The change of a store that a command and what clap found for it give.

ghost use Rattle.std.specs.Prelude.{IfErr, IfNone, IfOk, IfSome, codes, false, true};
ghost use Rattle.clap.specs.Words.{found_of, rows_of};
ghost use Rattle.gx_line.specs.CommandLine as say;

use super::values::{
    ENDED_OBJECTS, FORCED_PUSH, PUSHED_OBJECTS, any_words_of, is_set, not_accepted, option_of,
    ref_change_of, word_of,
};
use crate::LineFault;
use clap::ArgMatches;
use gx_asks::Change;
use std::alloc::Global;

/// The change that a command makes, where it makes one.
#[tactic(auto, unfolding(crate::specs::CommandLine::Says, crate::specs::CommandLine::Asks, crate::specs::CommandLine::Alters, crate::specs::CommandLine::Tries))]
pub(super) fn change_of<'a>(
    alloc: Global,
    name: &'a str,
    matches: &ArgMatches<'a>,
) -> Result<Option<Change<'a>>, LineFault>
    requires other { say.IsNoneOf say.stream_names name.now }
    ensures change { IfOk result (λ found.
        IfSome found (say.Alters name.now (rows_of (found_of matches.now)))) }
    ensures none { IfOk result (λ found. IfNone found (say.IsNoneOf say.change_names name.now)) }
    ensures refused { IfErr result (say.IsRefused name.now (rows_of (found_of matches.now))) }
{
    match name {
        "init" => Ok(Some(Change::Init {
            growing: is_set(matches, "growing"),
        })),
        "grow" => Ok(Some(Change::Grow)),
        "import" => Ok(Some(import_of(alloc, matches)?)),
        "drop" => Ok(Some(Change::Drop {
            refs: any_words_of(alloc, matches, "ref")?,
            stdin: is_set(matches, "stdin"),
        })),
        "set-ref" => Ok(Some(Change::SetRef {
            change: ref_change_of(alloc, matches)?,
            force: is_set(matches, "force"),
        })),
        "put" => Ok(Some(Change::Put {
            stamp: word_of(alloc, matches, "expect-stamp")?,
        })),
        "gc" => Ok(Some(Change::Gc {
            report: is_set(matches, "report"),
            keep: option_of(matches, "keep"),
        })),
        _ => Ok(None),
    }
}

/// An import. Where each ref has what may become of it, no branch may lose commits by `--force`.
#[tactic(auto, unfolding(crate::specs::CommandLine::Says, crate::specs::CommandLine::Asks, crate::specs::CommandLine::Alters, crate::specs::CommandLine::Tries))]
fn import_of<'a>(alloc: Global, matches: &ArgMatches<'a>) -> Result<Change<'a>, LineFault>
    ensures change { IfOk result (say.Alters (codes "import") (rows_of (found_of matches.now))) }
    ensures refused { IfErr result
        (say.IsRefused (codes "import") (rows_of (found_of matches.now))) }
{
    if is_set(matches, "objects") {
        return objects_of(alloc, matches);
    }
    let done = is_set(matches, "done");
    let force = is_set(matches, "force");
    let report = is_set(matches, "report");
    let explain = is_set(matches, "explain");
    match option_of(matches, "push") {
        None => Ok(Change::Import {
            done,
            force,
            report,
            explain,
        }),
        Some(_) if force => Err(not_accepted(alloc, FORCED_PUSH)),
        Some(push) => Ok(Change::Push {
            push,
            done,
            report,
            explain,
        }),
    }
}

/// An import of refs and objects. These have no command `done`, and say themselves what refs become.
#[tactic(auto, unfolding(crate::specs::CommandLine::Says, crate::specs::CommandLine::Asks, crate::specs::CommandLine::Alters, crate::specs::CommandLine::Tries))]
fn objects_of<'a>(alloc: Global, matches: &ArgMatches<'a>) -> Result<Change<'a>, LineFault>
    requires objects { say.IsFlag (codes "objects") (rows_of (found_of matches.now)) true }
    ensures change { IfOk result (say.Alters (codes "import") (rows_of (found_of matches.now))) }
    ensures refused { IfErr result
        (say.IsRefused (codes "import") (rows_of (found_of matches.now))) }
{
    if is_set(matches, "done") {
        return Err(not_accepted(alloc, ENDED_OBJECTS));
    }
    match option_of(matches, "push") {
        None => Ok(Change::Objects {
            force: is_set(matches, "force"),
            report: is_set(matches, "report"),
            explain: is_set(matches, "explain"),
        }),
        Some(_) => Err(not_accepted(alloc, PUSHED_OBJECTS)),
    }
}
