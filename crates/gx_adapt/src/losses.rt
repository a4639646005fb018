//! The lines that are lost.

ghost use Rattle.std.specs.Prelude.{◌≡◌, [], IfOk, OnOk};
ghost use Rattle.gx_stream.specs.Reading.{item_of};
ghost use Rattle.gx_model.specs.Streams.Items.{Line};
ghost use Rattle.gx_adapt.specs.Adapting.{Loses, texts_of};
ghost use Rattle.gx_adapt.specs.Streams.{lost_line};

use crate::course::{Course, changes_marks, is_lost};
use crate::lot::is_reset_line;
use gx_stream::Item;
use std::alloc::{AllocError, Allocator};

/// The lines that are lost so far, and the reset that a deletion may stand behind.
#[derive(Drop)]
pub(crate) struct Losses<A: Allocator> {
    alloc: A,
    pub(crate) reset: Vec<u8, A>,
    pub(crate) lines: Vec<Vec<u8, A>, A>,
}

impl<A: Allocator + Copy> Losses<A> {
    /// Those before a stream: none. Takes no memory.
    pub(crate) fn new(alloc: A) -> Losses<A>
        ensures { texts_of result.lines ≡ [] }
    {
        Losses {
            alloc,
            reset: Vec::new(alloc),
            lines: Vec::new(alloc),
        }
    }

    /// Goes behind an item, which is so far in its stream.
    pub(crate) fn pass(&mut self, course: Course, item: Item<'_>) -> Result<(), AllocError>
        ensures { OnOk result (Loses course (item_of item.entry) self.old self.new) }
    {
        match item {
            Item::Line(line) => self.pass_line(course, line),
            Item::Data(_) => Ok(()),
        }
    }

    /// Keeps a line that is lost, and that of a reset.
    fn pass_line(&mut self, course: Course, line: &[u8]) -> Result<(), AllocError>
        ensures { OnOk result (Loses course (Line line.now) self.old self.new) }
    {
        if is_lost(course, line) {
            let lost = self.lost_line(line)?;
            self.lines.push(lost)?;
        }
        if is_reset_line(line) {
            self.reset.clear();
            self.reset.extend_from_slice(line)?;
        }
        Ok(())
    }

    /// What tells of a lost line: itself, or the reset of the ref that it deletes.
    fn lost_line(&self, line: &[u8]) -> Result<Vec<u8, A>, AllocError>
        ensures { IfOk result (λ lost. lost.items ≡ lost_line self.now.reset.items line.now) }
    {
        if changes_marks(line) {
            Vec::from_slice(self.alloc, line)
        } else {
            Vec::from_slice(self.alloc, self.reset.as_slice())
        }
    }
}
