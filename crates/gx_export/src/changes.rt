//! The lines of what differs between a commit's files and those of its first parent, gathered before they go out.

ghost use Rattle.std.specs.Prelude.{◌≡◌, [], OnOk};
ghost use Rattle.gx_export.specs.Compared.{AddsGone};
ghost use Rattle.gx_export.specs.FileTexts.{IsAlwaysKept, StaysKept};

use crate::lines::{Lines, append_all, end_line};
use gx_text::TreePath;
use std::alloc::{AllocError, Allocator};

/// The lines of the files that are gone, and those of the files that are new or another.
#[derive(Drop)]
pub(crate) struct Changes<'a, A: Allocator> {
    pub(crate) gone: Vec<u8, A>,
    pub(crate) files: Lines<'a, A>,
}

impl<'a, A: Allocator + Copy> Changes<'a, A> {
    /// No lines. Takes no memory.
    pub(crate) fn new(alloc: A) -> Changes<'a, A>
        ensures { IsAlwaysKept result.files }
    {
        Changes {
            gone: Vec::new(alloc),
            files: Lines::new(alloc),
        }
    }

    /// Begins the lines of the next commit.
    pub(crate) fn begin(&mut self)
        ensures gone { self.new.gone.items ≡ [] }
        ensures text { self.new.files.text.items ≡ [] }
        ensures kept { StaysKept self.old.files self.new.files }
    {
        self.gone.clear();
        self.files.begin();
    }

    /// Appends the line of a file that is gone.
    pub(crate) fn add_gone(&mut self, path: &TreePath<A>) -> Result<(), AllocError>
        ensures { OnOk result (AddsGone path.now self.old self.new) }
    {
        append_all(&mut self.gone, &[b"D ".as_slice()])?;
        end_line(&mut self.gone, path)
    }
}
