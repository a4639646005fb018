//! Exports of changes. Source: git-fast-export(1).

ghost use Rattle.std.specs.List.{filter};
ghost use Rattle.std.specs.Prelude.{◌≡◌, [], Bool, List, length, map};
ghost use Rattle.gx_model.specs.Changes.{all_changes, carrier_reset, commits_with_changes, named_in};
ghost use Rattle.gx_model.specs.Export.{command_items, items_text, ref_by};
ghost use Rattle.gx_model.specs.Faults.{NeedsNoMemory};
ghost use Rattle.gx_model.specs.Histories.Marks.{marks_of};
ghost use Rattle.gx_model.specs.Histories.Values.{Commit, Value};
ghost use Rattle.gx_model.specs.Histories.{Records};
ghost use Rattle.gx_model.specs.Laws.RepositoryLaws.{values_of};
ghost use Rattle.gx_model.specs.Records.HistoryOf.{history_of, target_in};
ghost use Rattle.gx_model.specs.Records.Sound.{IsTarget};
ghost use Rattle.gx_model.specs.Replay.{peeled_at};
ghost use Rattle.gx_rev.specs.Objects.{value_at};
ghost use Rattle.gx_rev.specs.Views.{shown_range};
ghost use Rattle.gx_rev.specs.Walking.{AreWithout};
ghost use Rattle.gx_export.specs.Branches.{AreTargets, FindsBranches, picked, refs_of, shown_tips, targets};
ghost use Rattle.gx_export.specs.ChangedParts.{AreCommitMarks, AreEither, DeliversText, ExportsChanges, ExportsRange, RefusalsComeFirst, SendsText, closing, opening, sending_front, sending_rest};
ghost use Rattle.gx_export.specs.Marks.{Adds, HasWritten};
ghost use Rattle.gx_export.specs.Outputs.{Writes};
ghost use Rattle.gx_export.specs.Parts.{AddsItems};
ghost use Rattle.gx_export.specs.Texts.{items_of};

use crate::branches::Branches;
use crate::changed_commit::write_changed_commit;
use crate::changes::Changes;
use crate::commands::{write_reset, write_reset_to, write_tag};
use crate::naming::commit_ish;
use crate::output::Output;
use crate::sayable::check_sayable;
use crate::written::Written;
use crate::{ExportFault, RangeFault};
use gx_object::{Name, Namer};
use gx_repo::Repo;
use gx_rev::{Range, reached_from_refs, tag_of, walked};
use gx_text::Sink;
use std::alloc::Allocator;

/// Writes a repository as a stream, as it is made: the commits that refs reach in the order of their records, each by what
/// differs from its first parent, and then the refs. A commit goes out on the first branch that reaches it, else on the
/// first ref that does. A stream that isn't `closed` has neither `feature done` nor `done`, for readers that don't know
/// them.
///
/// Unsupported where a commit that is to go out has a header but that of an encoding, as a signature, which no stream can
/// say: nothing goes to the sink.
/// WriteFailed where the sink fails, or has taken 2^63 - 1 bytes of a longer text. What went to the sink stays there, and
/// is a front of the text.
///
/// Cost: the text's length, the number of records, for each commit the entries of the trees that aren't those of its first
/// parent at the same paths, for each file that differs its path's length and a look-up, and for each commit, parent and
/// ref up to seven look-ups. Memory: seventeen bytes for each record, three names for each ref, and the lines of two
/// commits. Source: git-fast-export(1).
pub fn export_changes<N: Namer, A: Allocator + Copy, W: Sink>(
    alloc: A,
    repo: &Repo<N, A>,
    sink: &mut W,
    closed: bool,
) -> Result<(), ExportFault>
    ensures { ExportsChanges (N.name_of repo.now.0) closed repo.now.1 (W.taken sink.old)
        (W.taken sink.new) result }
{
    let reached = reached_from_refs(alloc, repo)?;
    write_sent(alloc, repo, sink, &reached, &reached, closed)
}

/// Writes the commits that range words list as a stream, each by what differs from its first parent, and then the refs
/// whose commits some word includes or excludes. A commit goes out on the first branch among these refs that reaches it,
/// else on the first of them that does, else on `refs/gx/export`, which is then reset to nothing behind the commits. A
/// commit that isn't sent is named by its digits and `^0`, as no ref can be. So a repository that holds what the words
/// exclude receives the rest.
///
/// RangeFault: Walk where a word is refused, as by `walk`, and nothing went to the sink; Export where the export stops, as
/// `export_changes` does. Want of memory hides no word that is refused.
///
/// Cost: that of `walk` without its names, for each commit that a ref in range reaches and that isn't older than all that
/// are sent its body and a look-up for each of its parents, and for what is sent as of `export_changes`. Memory: of these
/// two the greater.
/// Source: git-fast-export(1), gitrevisions(7), "Specifying Ranges".
pub fn export_range<N: Namer, A: Allocator + Copy, W: Sink>(
    alloc: A,
    repo: &Repo<N, A>,
    words: &[Range<A>],
    sink: &mut W,
    closed: bool,
) -> Result<(), RangeFault>
    ensures range { ExportsRange (N.name_of repo.now.0) closed repo.now.1
        (map shown_range words.now)
        (W.taken sink.old) (W.taken sink.new) result }
    ensures first { RefusalsComeFirst (N.name_of repo.now.0) (history_of repo.now.1)
        (map shown_range words.now) result }
{
    let (mut sent, mut set) = walked(alloc, repo, words)?;
    part(&mut sent, &mut set);
    write_sent(alloc, repo, sink, &sent, &set, closed)?;
    Ok(())
}

/// Of marks of what is included and of what is excluded makes those of what is sent and of what is in range.
fn part(sent: &mut [bool], set: &mut [bool])
    requires { length sent.old ≡ length set.old }
    ensures sent { AreWithout sent.new sent.old set.old }
    ensures set { AreEither set.new sent.old set.old }
{
    for place in 0..sent.len() {
        if set[place] {
            sent[place] = false;
        } else {
            set[place] = sent[place];
        }
    }
}

/// Writes the commits that are to be sent, and the refs whose commits are marked.
fn write_sent<N: Namer, A: Allocator + Copy, W: Sink>(
    alloc: A,
    repo: &Repo<N, A>,
    sink: &mut W,
    sent: &[bool],
    set: &[bool],
    closed: bool,
) -> Result<(), ExportFault>
    requires sent { AreCommitMarks repo.now.1 sent.now }
    requires set { AreCommitMarks repo.now.1 set.now }
    ensures { (test wanted : Commit → Bool)
        → sent.now ≡ marks_of test (values_of repo.now.1)
        → set.now ≡ marks_of wanted (values_of repo.now.1)
        → SendsText (N.name_of repo.now.0) closed (picked test (values_of repo.now.1)) (filter (λ
        ref. wanted (peeled_at ref.1)) (history_of repo.now.1).refs) (W.taken sink.old) (W.taken
        sink.new) result }
{
    check_sayable(repo, sent)?;
    let branches = Branches::new(alloc, repo, sent, set)?;
    let marks = vec![in alloc; 0; repo.store().len()]?;
    let mut written = Written::new(sink, marks);
    let result = write_text(alloc, repo, &mut written, &branches, sent, closed);
    let _ = written.into_sink();
    result
}

/// Writes the whole text, of which nothing was written yet.
fn write_text<N: Namer, A: Allocator + Copy, W: Sink>(
    alloc: A,
    repo: &Repo<N, A>,
    written: &mut Written<'_, W, A>,
    branches: &Branches<'_, A>,
    sent: &[bool],
    closed: bool,
) -> Result<(), ExportFault>
    requires sent { AreCommitMarks repo.now.1 sent.now }
    requires branches { FindsBranches repo.now.1 sent.now branches.now }
    requires written { HasWritten repo.now.1 [] written.old }
    requires bytes { written.old.output.bytes ≡ 0 }
    ensures name { written.new.output.name ≡ written.old.output.name }
    ensures text { (test : Commit → Bool) → sent.now ≡ marks_of test (values_of repo.now.1)
        → DeliversText (N.name_of repo.now.0) closed (picked test (values_of repo.now.1))
        (refs_of repo.now.1 branches.now) written.old.output.taken written.new.output.taken result }
{
    write_front(alloc, repo, written, branches, sent, closed)?;
    write_rest(repo, written, branches, sent, closed)
}

/// Writes the text up to the last commit.
fn write_front<N: Namer, A: Allocator + Copy, W: Sink>(
    alloc: A,
    repo: &Repo<N, A>,
    written: &mut Written<'_, W, A>,
    branches: &Branches<'_, A>,
    sent: &[bool],
    closed: bool,
) -> Result<(), ExportFault>
    requires sent { AreCommitMarks repo.now.1 sent.now }
    requires branches { FindsBranches repo.now.1 sent.now branches.now }
    requires written { HasWritten repo.now.1 [] written.old }
    ensures { (test : Commit → Bool) → sent.now ≡ marks_of test (values_of repo.now.1)
        → Adds repo.now.1 (all_changes (picked test (values_of repo.now.1)))
        (sending_front (N.name_of repo.now.0) closed (picked test (values_of repo.now.1))
        (refs_of repo.now.1 branches.now)) written.old written.new result }
{
    write_opening(&mut written.output, closed)?;
    write_commits(alloc, repo, written, branches, sent)
}

/// Writes the line that tells that `done` comes, where it does.
fn write_opening<W: Sink>(output: &mut Output<'_, W>, closed: bool) -> Result<(), ExportFault>
    ensures text { Writes output.old output.new (items_text (opening closed)) result }
    ensures memory { NeedsNoMemory ExportFault.OutOfMemory result }
{
    if closed {
        return output.write(b"feature done\n");
    }
    Ok(())
}

/// Writes the commits that are marked.
fn write_commits<N: Namer, A: Allocator + Copy, W: Sink>(
    alloc: A,
    repo: &Repo<N, A>,
    written: &mut Written<'_, W, A>,
    branches: &Branches<'_, A>,
    sent: &[bool],
) -> Result<(), ExportFault>
    requires sent { AreCommitMarks repo.now.1 sent.now }
    requires branches { FindsBranches repo.now.1 sent.now branches.now }
    requires written { HasWritten repo.now.1 [] written.old }
    ensures { (test : Commit → Bool) → sent.now ≡ marks_of test (values_of repo.now.1)
        → Adds repo.now.1 (all_changes (picked test (values_of repo.now.1)))
        (items_of (commits_with_changes (N.name_of repo.now.0) (refs_of repo.now.1 branches.now) []
        (picked test (values_of repo.now.1)))) written.old written.new result }
{
    let mut changes = Changes::new(alloc);
    for place in 0..sent.len() {
        if sent[place] {
            let branch = branches.of(place);
            write_changed_commit(alloc, repo, written, &mut changes, branch, place)?;
        }
    }
    Ok(())
}

/// Writes the text behind the commits.
fn write_rest<N: Namer, A: Allocator + Copy, W: Sink>(
    repo: &Repo<N, A>,
    written: &mut Written<'_, W, A>,
    branches: &Branches<'_, A>,
    sent: &[bool],
    closed: bool,
) -> Result<(), ExportFault>
    requires sent { AreCommitMarks repo.now.1 sent.now }
    requires branches { FindsBranches repo.now.1 sent.now branches.now }
    requires written { (ws : List Value) × HasWritten repo.now.1 ws written.old }
    ensures adds { (test : Commit → Bool)
        → sent.now ≡ marks_of test (values_of repo.now.1)
        → AddsItems repo.now.1 (sending_rest (N.name_of repo.now.0) closed (picked test (values_of
        repo.now.1)) (refs_of repo.now.1 branches.now)) written.old written.new result }
    ensures memory { NeedsNoMemory ExportFault.OutOfMemory result }
{
    write_carrier(&mut written.output, branches, sent)?;
    write_refs(repo, written, &branches.refs)?;
    write_closing(&mut written.output, closed)
}

/// Writes the reset of the export's own branch, where a commit went out on it.
fn write_carrier<A: Allocator + Copy, W: Sink>(
    output: &mut Output<'_, W>,
    branches: &Branches<'_, A>,
    sent: &[bool],
) -> Result<(), ExportFault>
    ensures text { (repository : Records) (test : Commit → Bool)
        → FindsBranches repository sent.now branches.now
        → sent.now ≡ marks_of test (values_of repository)
        → Writes output.old output.new (items_text (items_of (carrier_reset (refs_of repository
        branches.now) (picked test (values_of repository))))) result }
    ensures memory { NeedsNoMemory ExportFault.OutOfMemory result }
{
    if branches.reach_all(sent) {
        return Ok(());
    }
    write_reset(output, b"refs/gx/export")
}

/// Writes the line that closes a stream, where it is to be closed.
fn write_closing<W: Sink>(output: &mut Output<'_, W>, closed: bool) -> Result<(), ExportFault>
    ensures text { Writes output.old output.new (items_text (closing closed)) result }
    ensures memory { NeedsNoMemory ExportFault.OutOfMemory result }
{
    if closed {
        return output.write(b"done\n");
    }
    Ok(())
}

/// Writes refs of the repository.
fn write_refs<N: Namer, A: Allocator + Copy, W: Sink>(
    repo: &Repo<N, A>,
    written: &mut Written<'_, W, A>,
    refs: &[(&[u8], Name)],
) -> Result<(), ExportFault>
    requires targets { AreTargets repo.now.1 refs.now }
    requires written { (ws : List Value) × HasWritten repo.now.1 ws written.old }
    ensures adds { AddsItems repo.now.1 (λ ws. items_of (map (ref_by (named_in (N.name_of
        repo.now.0) ws)) (targets repo.now.1 (shown_tips refs.now)))) written.old
        written.new result }
    ensures memory { NeedsNoMemory ExportFault.OutOfMemory result }
{
    for tip in refs {
        write_ref(repo, written, tip.0, &tip.1)?;
    }
    Ok(())
}

/// Writes a ref: a reset where it holds a commit, and a tag where it holds a tag.
fn write_ref<N: Namer, A: Allocator + Copy, W: Sink>(
    repo: &Repo<N, A>,
    written: &mut Written<'_, W, A>,
    name: &[u8],
    object: &Name,
) -> Result<(), ExportFault>
    requires target { IsTarget repo.now.1.records name.now object.now.bytes }
    requires written { (ws : List Value) × HasWritten repo.now.1 ws written.old }
    ensures adds { AddsItems repo.now.1 (λ ws. command_items (ref_by (named_in (N.name_of
        repo.now.0) ws) (name.now, target_in (value_at repo.now.1 object.now)))) written.old
        written.new result }
    ensures memory { NeedsNoMemory ExportFault.OutOfMemory result }
{
    repo.sound();
    match tag_of(repo, object) {
        None => {
            let commit = commit_ish(repo, written, object);
            write_reset_to(&mut written.output, name, commit)
        }
        Some(tag) => {
            let commit = commit_ish(repo, written, &tag.object());
            write_tag(&mut written.output, &tag, commit)
        }
    }
}
