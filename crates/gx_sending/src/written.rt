//! What an export of changes has written so far.

ghost use Rattle.std.specs.Prelude.{◌≡◌, [], IfErr, OnOk};
ghost use Rattle.gx_model.specs.Histories.{Records};
ghost use Rattle.gx_sending.specs.Marks.{HasWritten, IsNextMark, NamesCommit, WritesValue, mark_at};
ghost use Rattle.gx_sending.specs.declared.fault.SendFault.TheVariants.{OutOfMemory};

use crate::SendFault;
use gx_export::{CommitIsh, Output};
use gx_object::Name;
use gx_text::Sink;
use std::alloc::Allocator;
use std::collections::BTreeMap;

/// The sink with the bytes that went there, how many marks were given, and the mark of each blob and commit that was written by
/// the bytes of its name.
#[derive(Drop)]
pub struct Written<'a, W: Sink, A: Allocator> {
    pub output: Output<'a, W>,
    count: u64,
    marks: BTreeMap<[u8; 20], u64, A>,
}

impl<'a, W: Sink, A: Allocator + Copy> Written<'a, W, A> {
    /// Nothing. Takes no memory.
    pub fn new(alloc: A, sink: &'a mut W) -> Written<'a, W, A>
        ensures name { result.output.name ≡ sink.entry.ghost_name }
        ensures taken { result.output.taken ≡ W.taken sink.old }
        ensures bytes { result.output.bytes ≡ 0 }
        ensures none { (r : Records) → HasWritten r [] result }
    {
        Written {
            output: Output::new(sink),
            count: 0,
            marks: BTreeMap::new(alloc),
        }
    }

    /// Gives the sink back. Takes no memory.
    pub fn into_sink(self) -> &'a mut W
        ensures name { result.ghost_name ≡ self.entry.output.name }
        ensures taken { W.taken result.now ≡ self.entry.output.taken }
    {
        let Written {
            output,
            count: _,
            marks: _,
        } = self;
        output.into_sink()
    }

    /// The mark of the next object. A text has fewer than 2^63 bytes, so there are fewer marks. Takes no memory.
    pub fn next_mark(&self) -> u64
        ensures { IsNextMark self.now result }
    {
        self.count.saturating_add(1)
    }

    /// The mark of an object that was written. Cost: the logarithm of the number of marks. Takes no memory.
    pub(crate) fn mark_of(&self, name: &Name) -> Option<u64>
        ensures { result ≡ mark_at self.now name.now.bytes }
    {
        self.marks.get(&name.bytes).copied()
    }

    /// Gives the next mark to an object that went out.
    ///
    /// OutOfMemory: a growth is refused; the sink stays as it was. Cost: the logarithm of the number of marks. Memory: a name and
    /// a mark. Source: git-fast-import(1), "mark".
    pub fn mark(&mut self, name: &Name) -> Result<(), SendFault>
        ensures value { OnOk result (WritesValue name.now self.old self.new) }
        ensures output { self.new.output ≡ self.old.output }
        ensures fault { IfErr result (λ fault. fault ≡ OutOfMemory) }
    {
        self.count = self.next_mark();
        self.marks.insert(name.bytes, self.count)?;
        Ok(())
    }

    /// What names a held commit: its mark where it was written, else its name. Takes no memory.
    ///
    /// Cost: the logarithm of the number of marks. Source: git-fast-import(1), "from".
    pub fn commit_ish(&self, commit: &Name) -> CommitIsh
        ensures { NamesCommit self.now commit.now result }
    {
        match self.mark_of(commit) {
            Some(mark) => CommitIsh::Marked(mark),
            None => CommitIsh::Named(*commit),
        }
    }
}
