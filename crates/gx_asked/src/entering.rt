//! How what commands ask for is entered, one command after the other. Source: git-fast-import(1), "Commands".

ghost use Rattle.std.specs.Prelude.{map, IfErr, IfSome, OnOk};
ghost use Rattle.std.specs.List.{AllByRecursion};
ghost use Rattle.std.specs.Option.{option_map};
ghost use Rattle.gx_command.specs.Views.{commit_parts, shown_change, shown_command, shown_commit_ish, shown_modify, shown_reset};
ghost use Rattle.gx_stand_ins.specs.SmallRepositories.{BeginsOtherwise};
ghost use Rattle.gx_stand_ins.specs.declared.bodies.TheConstants.{NONCE};
ghost use Rattle.gx_asked.specs.Asking.{BringsOther, IsAmong, texts_of};
ghost use Rattle.gx_asked.specs.Entering.{Asks, AsksChange, AsksCommit, AsksCommitIsh, IsOtherChange, IsOtherCommit, IsWhy, Keeps, KeepsTexts};

use crate::{Asked, AskedFault};
use gx_command::{Change, Command, Commit, CommitIsh, DataRef, Modify, Reset};
use gx_model::Mode;
use gx_object::{Kind, Namer};
use gx_rev::{RevFault, Revision};
use gx_stand_ins::may_stand_in;
use std::alloc::{AllocError, Allocator};
use std::collections::BTreeSet;

impl<A: Allocator + Copy> Asked<A> {
    /// Enters what a command asks for and brings.
    pub(crate) fn enter<N: Namer>(
        &mut self,
        namer: &N,
        command: Command<A>,
    ) -> Result<(), AskedFault>
        ensures kept { Keeps self.old self.new }
        ensures asked { OnOk result (Asks self.new (shown_command command)) }
        ensures fault { IfErr result (IsWhy (BringsOther (shown_command command))) }
    {
        match command {
            Command::Blob(blob) => self.bring(namer, blob.bytes.as_slice()),
            Command::Commit(commit) => self.enter_commit(namer, &commit),
            Command::Tag(tag) => Ok(self.ask(&tag.from)?),
            Command::Reset(reset) => Ok(self.enter_reset(&reset)?),
            _ => Ok(()),
        }
    }

    /// Enters a branch that is set, and what it is set to.
    fn enter_reset(&mut self, reset: &Reset<A>) -> Result<(), AllocError>
        ensures kept { Keeps self.old self.new }
        ensures asked { OnOk result (Asks self.new (shown_reset reset.now)) }
    {
        enter_text(
            self.alloc,
            &mut self.branches,
            reset.branch.bytes.as_slice(),
        )?;
        self.ask_where(&reset.from)
    }

    /// Enters what a commit asks for and brings.
    fn enter_commit<N: Namer>(&mut self, namer: &N, commit: &Commit<A>) -> Result<(), AskedFault>
        ensures kept { Keeps self.old self.new }
        ensures asked { OnOk result (AsksCommit self.new (commit_parts commit.now)) }
        ensures fault { IfErr result (IsWhy (IsOtherCommit (commit_parts commit.now))) }
    {
        if may_stand_in(commit.message.as_slice()) {
            return Err(AskedFault::StandsForAnother);
        }
        enter_text(
            self.alloc,
            &mut self.branches,
            commit.branch.bytes.as_slice(),
        )?;
        self.ask_where(&commit.from)?;
        self.ask_all(commit.merges.as_slice())?;
        self.enter_changes(namer, commit.changes.as_slice())
    }

    /// Enters what changes ask for and bring.
    fn enter_changes<N: Namer>(
        &mut self,
        namer: &N,
        changes: &[Change<A>],
    ) -> Result<(), AskedFault>
        ensures kept { Keeps self.old self.new }
        ensures asked { OnOk result
            (AllByRecursion (AsksChange self.new) (map shown_change changes.now)) }
        ensures fault { IfErr result
            (IsWhy (AllByRecursion IsOtherChange (map shown_change changes.now))) }
    {
        for change in changes {
            self.enter_change(namer, change)?;
        }
        Ok(())
    }

    /// Enters what a change asks for and brings.
    fn enter_change<N: Namer>(&mut self, namer: &N, change: &Change<A>) -> Result<(), AskedFault>
        ensures kept { Keeps self.old self.new }
        ensures asked { OnOk result (AsksChange self.new (shown_change change.now)) }
        ensures fault { IfErr result (IsWhy (IsOtherChange (shown_change change.now))) }
    {
        match change {
            Change::Modify(modify) => self.enter_file(namer, modify),
            _ => Ok(()),
        }
    }

    /// Enters what a file that is set asks for or brings. A submodule's commit isn't asked for.
    fn enter_file<N: Namer>(&mut self, namer: &N, modify: &Modify<A>) -> Result<(), AskedFault>
        ensures kept { Keeps self.old self.new }
        ensures asked { OnOk result (AsksChange self.new (shown_modify modify.now)) }
        ensures fault { IfErr result (IsWhy (IsOtherChange (shown_modify modify.now))) }
    {
        match &modify.data_ref {
            DataRef::Inline(bytes) => self.bring(namer, bytes.as_slice()),
            DataRef::Name(digits) if modify.mode != Mode::Gitlink => {
                Ok(enter_text(self.alloc, &mut self.bases, &digits.digits)?)
            }
            _ => Ok(()),
        }
    }

    /// Enters what each of these asks for.
    fn ask_all(&mut self, commits: &[CommitIsh<A>]) -> Result<(), AllocError>
        ensures kept { Keeps self.old self.new }
        ensures asked { OnOk result
            (AllByRecursion (AsksCommitIsh self.new) (map shown_commit_ish commits.now)) }
    {
        for commit in commits {
            self.ask(commit)?;
        }
        Ok(())
    }

    /// Enters what one asks for, where there is one.
    fn ask_where(&mut self, commit: &Option<CommitIsh<A>>) -> Result<(), AllocError>
        ensures kept { Keeps self.old self.new }
        ensures asked { OnOk result
            (IfSome (option_map shown_commit_ish commit.now) (AsksCommitIsh self.new)) }
    {
        match commit {
            Some(commit) => self.ask(commit),
            None => Ok(()),
        }
    }

    /// Enters what a text asks for that names a commit. One that isn't a revision asks for nothing.
    fn ask(&mut self, commit: &CommitIsh<A>) -> Result<(), AllocError>
        ensures kept { Keeps self.old self.new }
        ensures asked { OnOk result (AsksCommitIsh self.new (shown_commit_ish commit.now)) }
    {
        let CommitIsh::Text(text) = commit else {
            return Ok(());
        };
        match Revision::read(self.alloc, text.as_slice()) {
            Ok(revision) => {
                enter_text(self.alloc, &mut self.texts, text.as_slice())?;
                enter_text(self.alloc, &mut self.bases, revision.base())
            }
            Err(RevFault::OutOfMemory) => Err(AllocError),
            Err(_) => Ok(()),
        }
    }

    /// Enters the name of a blob that is brought.
    fn bring<N: Namer>(&mut self, namer: &N, bytes: &[u8]) -> Result<(), AskedFault>
        ensures kept { Keeps self.old self.new }
        ensures other { OnOk result (BeginsOtherwise NONCE bytes.now) }
        ensures fault { IfErr result (IsWhy (BeginsOtherwise NONCE bytes.now)) }
    {
        if may_stand_in(bytes) {
            return Err(AskedFault::StandsForAnother);
        }
        self.brought.insert(namer.name(Kind::Blob, bytes))?;
        Ok(())
    }
}

/// Enters a text, where it isn't there.
fn enter_text<A: Allocator + Copy>(
    alloc: A,
    texts: &mut BTreeSet<Vec<u8, A>, A>,
    text: &[u8],
) -> Result<(), AllocError>
    ensures kept { KeepsTexts texts.old.keys texts.new.keys }
    ensures entered { OnOk result (IsAmong (texts_of texts.new.keys) text.now) }
{
    if !texts.contains(text) {
        texts.insert(Vec::from_slice(alloc, text)?)?;
    }
    Ok(())
}
