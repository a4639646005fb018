//! The commands of a stream, applied one after the other. Source: git-fast-import(1), "Commands".

ghost use Rattle.gx_import.specs.Applying.{Applies};
ghost use Rattle.std.specs.Prelude.{◌≡◌, None, ◌<◌, ◌≤◌, ◌-◌, ◌^◌, length, ◌+◌, IfErr, IfOk, OnErr, OnOk};
ghost use Rattle.gx_command.specs.Reading.{ReadsSayable};
ghost use Rattle.gx_command.specs.Views.{shown_command};
ghost use Rattle.gx_import.specs.Calls.{AsksFor, InEach, KeepsTipsAtHome};
ghost use Rattle.gx_import.specs.Explaining.{ExplainsRead, TellsAll, TellsNothing};
ghost use Rattle.gx_import.specs.Exported.{MakesSayable};
ghost use Rattle.gx_import.specs.Imports.{line_of};
ghost use Rattle.gx_import.specs.Keeping.{AreNone, AreStill, IsLeft, IsNext, KeepsFromEach, Moves, left_of};
ghost use Rattle.gx_import.specs.Losing.{TellsLossInEach};
ghost use Rattle.gx_import.specs.Publishing.{PublishesInEach};
ghost use Rattle.gx_import.specs.Replaying.{FallsNext, ReadsNext, ReplaysRead, Writes};
ghost use Rattle.gx_import.specs.Retelling.{RetellsRead};
ghost use Rattle.gx_import.specs.Standing.{AreEmpty, Extends, HasTipsAtHome, StandsForSome};

use crate::blob::apply_blob;
use crate::checkpoints::Checkpoints;
use crate::commit::apply_commit;
use crate::publishing::publish;
use crate::reset::apply_reset;
use crate::tables::Tables;
use crate::tag::apply_tag;
use crate::{Explanation, ImportFault, ImportKind, RefLoss};
use gx_command::{Command, CommandReader, Feature};
use gx_object::Namer;
use gx_repo::Repo;
use gx_text::{Sink, Source, send};
use gx_tree::{records_keep_home, records_keep_loaded};
use std::alloc::Allocator;

/// Applies the commands of a reader that has given none yet, and answers their number.
pub(crate) fn replay_commands<N: Namer, A: Allocator + Copy, R: Source, W: Sink>(
    repo: &mut Repo<N, A>,
    tables: &mut Tables<A>,
    checkpoints: &mut Checkpoints,
    reader: &mut CommandReader<R, A>,
    sink: &mut W,
    told: &mut Explanation<A>,
) -> Result<u64, ImportFault>
    requires blank { TellsNothing told.now }
    requires empty { AreEmpty tables.now }
    requires none { AreNone repo.now.1 checkpoints.now }
    requires most { reader.now.most ≤ 2 ^ 63 - 1 }
    ensures namer { repo.new.0 ≡ repo.old.0 }
    ensures extends { Extends repo.old.1.records repo.new.1.records }
    ensures count { IfOk result (λ commands. commands ≤ 2 ^ 63 - 1) }
    ensures replayed { ReplaysRead N.name_of W.taken repo.old repo.new
        tables.old.is_forced tables.new
        checkpoints.new reader.old sink.old sink.new result }
    ensures explained { ExplainsRead N.name_of repo.old tables.old.is_forced
        reader.old result told.new }
    ensures retold { RetellsRead N.name_of W.taken repo.old repo.new
        tables.old.is_forced checkpoints.new
        reader.old sink.old sink.new result told.new }
    ensures left { IsLeft repo.old.1 repo.new.1 checkpoints.new }
    ensures counted { IfErr result (λ fault. fault.checkpoints ≡ checkpoints.new.count) }
    ensures gitlinks { OnOk result (MakesSayable repo.old.1 repo.new.1) }
    ensures gitlinks_left { MakesSayable repo.old.1 (left_of checkpoints.new repo.new.1) }
{
    let mut commands = 0;
    repo.sound();
    while let Some(command) = next_command(reader, commands, checkpoints.count)? {
        commands += 1;
        if let Err(kind) = apply(repo, tables, checkpoints, sink, command, told) {
            return Err(ImportFault {
                command: commands,
                kind,
                checkpoints: checkpoints.count,
            });
        }
    }
    Ok(commands)
}

/// The next command, after so many, of which some were checkpoints.
fn next_command<R: Source, A: Allocator + Copy>(
    reader: &mut CommandReader<R, A>,
    commands: u64,
    checkpoints: u64,
) -> Result<Option<Command<A>>, ImportFault>
    requires room { commands < 2 ^ 64 - 1 }
    ensures reads { ReadsNext commands checkpoints reader.old reader.new result }
    ensures falls { FallsNext reader.old.most reader.new.most result }
    ensures gitlinks { ReadsSayable result }
{
    match reader.next() {
        Ok(command) => Ok(command),
        Err(fault) => Err(ImportFault {
            command: commands + 1,
            kind: ImportKind::from(fault),
            checkpoints,
        }),
    }
}

/// Applies one command.
fn apply<N: Namer, A: Allocator + Copy, W: Sink>(
    repo: &mut Repo<N, A>,
    tables: &mut Tables<A>,
    checkpoints: &mut Checkpoints,
    sink: &mut W,
    command: Command<A>,
    told: &mut Explanation<A>,
) -> Result<(), ImportKind>
    requires blank { TellsNothing told.now }
    requires stands { StandsForSome N.name_of repo.now tables.now }
    requires homes { HasTipsAtHome N.name_of repo.now tables.now }
    requires fits { checkpoints.now.records ≤ length repo.now.1.records }
    requires room { checkpoints.now.count < 2 ^ 64 - 1 }
    ensures homes { IfOk result (λ _. HasTipsAtHome N.name_of (repo.old.0, repo.new.1) tables.new) }
    ensures namer { repo.new.0 ≡ repo.old.0 }
    ensures extends { Extends repo.old.1.records repo.new.1.records }
    ensures moves { Moves repo.old.1 repo.new.1 checkpoints.old checkpoints.new }
    ensures keeps { KeepsFromEach (N.name_of repo.old.0) repo.old.1 repo.new.1 tables.old
        checkpoints.old checkpoints.new (shown_command command) result }
    ensures steps { InEach N.name_of repo.old tables.old
        (λ s. Applies (N.name_of repo.old.0) repo.old.1 repo.new.1 tables.new s
        (shown_command command) (W.taken sink.old) (W.taken sink.new) result) }
    ensures told { InEach N.name_of repo.old tables.old
        (λ s. TellsAll (N.name_of repo.old.0) s (shown_command command) result told.new) }
{
    records_keep_home();
    records_keep_loaded();
    match command {
        Command::Blob(blob) => apply_blob(repo, tables, blob),
        Command::Commit(commit) => apply_commit(repo, tables, commit, told),
        Command::Tag(tag) => apply_tag(repo, tables, tag, &mut told.asked),
        Command::Reset(reset) => apply_reset(repo, tables, reset, &mut told.asked),
        Command::Progress(text) => apply_progress(sink, text.as_slice()),
        Command::Feature(feature) => {
            apply_feature(tables, feature);
            Ok(())
        }
        Command::Checkpoint => apply_checkpoint(repo, tables, checkpoints, &mut told.loss),
        Command::OptionLine(_) | Command::Done => Ok(()),
    }
}

/// Publishes what was made so far: after a later fault it is kept. `NotFastForward` tells the ref that would lose a commit.
fn apply_checkpoint<N: Namer, A: Allocator + Copy>(
    repo: &mut Repo<N, A>,
    tables: &mut Tables<A>,
    checkpoints: &mut Checkpoints,
    loss: &mut Option<RefLoss<A>>,
) -> Result<(), ImportKind>
    requires stands { StandsForSome N.name_of repo.now tables.now }
    requires room { checkpoints.now.count < 2 ^ 64 - 1 }
    requires blank { loss.now ≡ None }
    ensures homes { KeepsTipsAtHome tables.old tables.new result }
    ensures namer { repo.new.0 ≡ repo.old.0 }
    ensures records { repo.new.1.records ≡ repo.old.1.records }
    ensures next { OnOk result (IsNext repo.new.1 checkpoints.old checkpoints.new) }
    ensures still { OnErr result (AreStill repo.old.1 repo.new.1 checkpoints.old checkpoints.new) }
    ensures published { PublishesInEach N.name_of repo.old repo.new tables.old tables.new result }
    ensures loss { TellsLossInEach N.name_of repo.old tables.old result loss.new }
{
    publish(repo, tables, loss)?;
    checkpoints.count += 1;
    checkpoints.records = repo.store().len();
    Ok(())
}

/// Writes the whole line of a progress, and a line feed.
fn apply_progress<W: Sink>(sink: &mut W, text: &[u8]) -> Result<(), ImportKind>
    ensures { Writes (W.taken sink.old) (W.taken sink.new) (line_of text.now) result }
{
    write(sink, b"progress ")?;
    write(sink, text)?;
    write(sink, b"\n")
}

/// Writes all of these bytes.
fn write<W: Sink>(sink: &mut W, bytes: &[u8]) -> Result<(), ImportKind>
    ensures { Writes (W.taken sink.old) (W.taken sink.new) bytes.now result }
{
    match send(sink, bytes) {
        Ok(()) => Ok(()),
        Err(_) => Err(ImportKind::WriteFailed),
    }
}

/// The feature `force` lets branches lose commits.
fn apply_feature<A: Allocator + Copy>(tables: &mut Tables<A>, feature: Feature)
    ensures branches { tables.new.branches ≡ tables.old.branches }
    ensures loaded { tables.new.loaded ≡ tables.old.loaded }
    ensures steps { AsksFor tables.old tables.new feature }
{
    match feature {
        Feature::Force => tables.is_forced = true,
        Feature::Done | Feature::RawDates => {}
    }
}
