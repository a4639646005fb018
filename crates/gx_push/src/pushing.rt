//! Imports that change the refs of their lines alone, and only from what these have to be. Source: git-push(1),
//! "--force-with-lease", "--force", "--delete" and "--atomic", and git-fast-import(1).

ghost use Rattle.std.specs.Prelude.{◌≡◌, ◌<◌, None, IfOk, IfSome, List, Ok, length};
ghost use Rattle.gx_model.specs.Records.Sound.{IsSound};
ghost use Rattle.gx_model.specs.Texts.{Bytes};
ghost use Rattle.gx_repo.specs.Dropping.{AreIn};
ghost use Rattle.gx_repo.specs.Reporting.{IsReport};
ghost use Rattle.gx_push.specs.Calls.{AreWants, SettlesRefs, TakesOther, answer_of, texts};
ghost use Rattle.gx_push.specs.Pushes.{Explains, Pushes, Retells, Settles, are_kept, pushed};
ghost use Rattle.gx_push.specs.Wants.{shown_wants};

use crate::fault::{PushFault, RefFault};
use crate::forward::want_forward;
use crate::wants::{Wants, refused, vanishing, wants_of};
use gx_import::{Explanation, Report, import_explained};
use gx_model::Features;
use gx_object::{Name, Namer};
use gx_repo::{DropFault, RefList, Refs, Repo, report_changes};
use gx_text::{Sink, Source};
use std::alloc::Allocator;
use std::collections::BTreeSet;

/// What a push leaves: the repository, the lines of the refs that it changed, as `gx_repo::report_changes` makes them, and what was
/// imported.
#[derive(Drop)]
pub struct Pushed<N: Namer, A: Allocator> {
    pub repo: Repo<N, A>,
    pub changes: Vec<u8, A>,
    pub report: Report,
}

/// Imports a stream into a repository whose refs are as the lines have them, and removes the refs whose lines say so. No other
/// ref changes.
///
/// Each line is `OLD REF`, where OLD is 40 digits, or 40 zeros where there is to be no such ref; the ref then moves forward, as far
/// as its commits go. Behind `+` it may lose commits, and behind `-` it is removed.
/// The lines are looked at before the stream is read, and where all is refused there is no repository, whatever checkpoints the
/// stream has. With `done` it has to end with that command. What a refused stream is about is told, as
/// `gx_import::import_explained` does.
///
/// `Line`: the first line that isn't one, or whose ref another line before it has (`BadLine`), whose ref isn't so (`RefMoved`), or,
/// behind the stream, whose ref would lose commits (`NotFastForward`). Where a ref would change that no line has, that is
/// `RefMoved` with the number of lines and one. `Import`: the stream is refused. `OutOfMemory`: a growth was refused.
///
/// Cost: that of the import, of a look-up among the refs for each line, and of `gx_rev::is_ancestor` for each ref that moves.
/// Memory: that of the import, a copy of the refs, and the lines of the changes.
pub fn push<N: Namer + Drop, A: Allocator + Copy, R: Source + Drop, W: Sink>(
    alloc: A,
    repo: Repo<N, A>,
    lines: &[Vec<u8, A>],
    source: R,
    sink: &mut W,
    done: bool,
    told: &mut Explanation<A>,
) -> Result<Pushed<N, A>, PushFault>
    ensures namer { IfOk result (λ pushed. pushed.repo.0 ≡ repo.0) }
    ensures pushed { Pushes (N.name_of repo.0) done repo.1 (texts lines.now) (R.coming source)
        (W.taken sink.old) (W.taken sink.new) (answer_of result) }
    ensures explained { Explains (N.name_of repo.0) done repo.1 (R.coming source)
        (answer_of result) told.new }
    ensures retold { R.coming source ≡ None → Retells (N.name_of repo.0) done repo.1
        (W.taken sink.old) (W.taken sink.new) (answer_of result) told.new }
    ensures changes { IfOk result
        (λ pushed. IsReport repo.1.refs pushed.repo.1.refs pushed.changes.items) }
    ensures sound { IfOk result (λ pushed. IsSound (N.name_of repo.0) pushed.repo.1) }
{
    *told = Explanation::none();
    let mut repo = repo;
    let wants = wants_of(alloc, &repo, lines)?;
    let Ok(before) = repo.copy_refs() else {
        return Err(PushFault::OutOfMemory);
    };
    let features = Features { done, force: true };
    let report = match import_explained(alloc, &mut repo, source, sink, features, told) {
        Ok(report) => report,
        Err(fault) => return Err(PushFault::Import(fault)),
    };
    left_by(alloc, repo, &wants, &before, report)
}

/// What a push leaves of the repository that an import made, where these were the refs before it.
fn left_by<N: Namer + Drop, A: Allocator + Copy>(
    alloc: A,
    repo: Repo<N, A>,
    wants: &Wants<'_, A>,
    before: &RefList<A>,
    report: Report,
) -> Result<Pushed<N, A>, PushFault>
    requires { (lines : List Bytes) × AreWants before.now lines wants.now }
    ensures namer { IfOk result (λ pushed. pushed.repo.0 ≡ repo.0) }
    ensures settled { Settles before.now repo.1 (shown_wants wants.now.list.items) (Ok report)
        (answer_of result) }
    ensures changes { IfOk result
        (λ pushed. IsReport before.now pushed.repo.1.refs pushed.changes.items) }
    ensures sound { IfOk result (λ pushed. IsSound (N.name_of repo.0) pushed.repo.1) }
{
    let mut repo = repo;
    if let Err(fault) = settle(alloc, &mut repo, wants, before) {
        return Err(fault);
    }
    repo.sound();
    match report_changes(alloc, before.refs(), repo.refs()) {
        Ok(changes) => Ok(Pushed {
            repo,
            changes,
            report,
        }),
        Err(_) => Err(PushFault::OutOfMemory),
    }
}

/// Removes the refs that are to vanish, where the others changed as they may.
fn settle<N: Namer, A: Allocator + Copy>(
    alloc: A,
    repo: &mut Repo<N, A>,
    wants: &Wants<'_, A>,
    before: &RefList<A>,
) -> Result<(), PushFault>
    requires { (lines : List Bytes) × AreWants before.now lines wants.now }
    ensures namer { repo.new.0 ≡ repo.old.0 }
    ensures settled { SettlesRefs repo.old.1 repo.new.1
        (pushed before.now repo.old.1 (shown_wants wants.now.list.items)) result }
{
    want_forward(alloc, repo, wants.list.as_slice())?;
    if !are_others_kept(before.refs(), repo.refs(), &wants.names) {
        return Err(refused(wants.list.len(), RefFault::RefMoved));
    }
    let names = vanishing(alloc, repo, wants.list.as_slice())?;
    match repo.drop_refs(names.as_slice()) {
        Ok(()) => Ok(()),
        Err(DropFault::OutOfMemory) => Err(PushFault::OutOfMemory),
        Err(DropFault::UnknownRef { .. }) => unreachable!(),
    }
}

/// Whether the refs that have none of these names are the same at two times.
fn are_others_kept<A: Allocator + Copy>(
    before: Refs<'_, A>,
    after: Refs<'_, A>,
    names: &BTreeSet<&[u8], A>,
) -> bool
    ensures { (others : List Bytes) → AreIn names.now others
        → result ≡ are_kept others before.entry after.entry }
{
    let mut before = before;
    let mut after = after;
    while let Some(new) = next_other(&mut after, names) {
        match next_other(&mut before, names) {
            Some(old) if old == new => {}
            _ => return false,
        }
    }
    next_other(&mut before, names).is_none()
}

/// The first of these refs that has none of these names.
fn next_other<'a, A: Allocator + Copy>(
    refs: &mut Refs<'a, A>,
    names: &BTreeSet<&[u8], A>,
) -> Option<(&'a [u8], Name)>
    ensures other { (others : List Bytes) → AreIn names.now others
        → TakesOther others refs.old refs.new result }
    ensures fewer { IfSome result (λ _. length refs.new < length refs.old) }
{
    while let Some((name, object)) = refs.next() {
        if !names.contains(name) {
            return Some((name, object));
        }
    }
    None
}
