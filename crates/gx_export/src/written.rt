//! What an export has written so far.

ghost use Rattle.std.specs.Prelude.{◌≡◌, ◌<◌, ◌+◌, ◌-◌, ◌^◌, List, length, slice_set};
ghost use Rattle.gx_model.specs.Export.{number_in};
ghost use Rattle.gx_model.specs.Histories.Values.{Value};
ghost use Rattle.gx_model.specs.Laws.RepositoryLaws.{values_of};
ghost use Rattle.gx_rev.specs.Objects.{IsHeld, value_at};
ghost use Rattle.gx_export.specs.Marks.{AreNumbers};

use crate::output::Output;
use gx_object::{Name, Namer};
use gx_repo::Repo;
use gx_rev::place_of;
use gx_text::Sink;
use std::alloc::Allocator;

/// The sink with the bytes that went there, how many marks were given, and the mark of each blob and commit by the place of
/// its record: 0 where it wasn't written.
#[derive(Drop)]
pub(crate) struct Written<'a, W: Sink, A: Allocator> {
    pub(crate) output: Output<'a, W>,
    pub(crate) count: u64,
    pub(crate) marks: Vec<u64, A>,
}

impl<'a, W: Sink, A: Allocator + Copy> Written<'a, W, A> {
    /// Nothing, where no mark was given.
    pub(crate) fn new(sink: &'a mut W, marks: Vec<u64, A>) -> Written<'a, W, A>
        ensures name { result.output.name ≡ sink.entry.ghost_name }
        ensures taken { result.output.taken ≡ W.taken sink.old }
        ensures bytes { result.output.bytes ≡ 0 }
        ensures count { result.count ≡ 0 }
        ensures marks { result.marks ≡ marks }
    {
        Written {
            output: Output::new(sink),
            count: 0,
            marks,
        }
    }

    /// Gives the sink back.
    pub(crate) fn into_sink(self) -> &'a mut W
        ensures name { result.ghost_name ≡ self.entry.output.name }
        ensures taken { W.taken result.now ≡ self.entry.output.taken }
    {
        let Written {
            output,
            count: _,
            marks: _,
        } = self;
        output.into_sink()
    }

    /// Gives the next mark to what stands at a place.
    pub(crate) fn mark(&mut self, place: usize)
        requires place { place < length self.old.marks.items }
        requires room { self.old.count < 2 ^ 64 - 1 }
        ensures output { self.new.output ≡ self.old.output }
        ensures count { self.new.count ≡ self.old.count + 1 }
        ensures marks { self.new.marks.items ≡ slice_set self.old.marks.items place
            (self.old.count + 1) }
    {
        self.count += 1;
        self.marks[place] = self.count;
    }
}

/// The mark of a held object, or 0.
pub(crate) fn mark_of<N: Namer, A: Allocator + Copy, W: Sink>(
    repo: &Repo<N, A>,
    written: &Written<'_, W, A>,
    name: &Name,
) -> u64
    requires held { IsHeld repo.now.1 name.now }
    requires long { length written.now.marks.items ≡ length (values_of repo.now.1) }
    ensures { (ws : List Value) → AreNumbers (values_of repo.now.1) ws written.now.marks.items
        → result ≡ number_in ws (value_at repo.now.1 name.now) }
{
    let place = place_of(repo, name);
    written.marks[place]
}
