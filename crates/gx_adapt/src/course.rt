//! How far a stream is, and which of its lines are lost.

ghost use Rattle.std.specs.Prelude.{◌≡◌, ◌&&◌, ◌||◌, false, not};
ghost use Rattle.gx_stream.specs.Reading.{item_of};
ghost use Rattle.gx_adapt.specs.Lines.{changes_marks, is_null_from, is_reset};
ghost use Rattle.gx_adapt.specs.Streams.{course_of, is_done, is_lost, start};

use crate::lot::{Behind, behind_of, is_deletion};
use gx_stream::Item;

/// How far a stream is: what its next item stands directly behind, whether a line was left out that changes refs or files of
/// marks, and whether the line `done` came, behind which git reads nothing.
#[derive(Clone, Copy)]
pub(crate) struct Course {
    pub(crate) behind: Behind,
    pub(crate) lost: bool,
    pub(crate) done: bool,
}

impl Course {
    /// That of a stream of which nothing came.
    pub(crate) fn start() -> Course
        ensures { result ≡ start }
    {
        Course {
            behind: Behind::Other,
            lost: false,
            done: false,
        }
    }

    /// That behind an item.
    pub(crate) fn past(self, item: Item<'_>) -> Course
        ensures { result ≡ course_of self (item_of item.entry) }
    {
        let behind = behind_of(item);
        match item {
            Item::Line(line) => Course {
                behind,
                lost: self.lost || is_lost(self, line),
                done: self.done || is_done(line),
            },
            Item::Data(_) => Course { behind, ..self },
        }
    }
}

/// Whether a line is left out though git would change refs or files of marks by it.
pub(crate) fn is_lost(course: Course, line: &[u8]) -> bool
    ensures { result ≡ is_lost course line.now }
{
    !course.done && (changes_marks(line) || is_deletion(course.behind, line))
}

/// Whether a line has git read or write a file of marks.
pub(crate) fn changes_marks(line: &[u8]) -> bool
    ensures { result ≡ changes_marks line.now }
{
    line.starts_with(b"feature import-marks=")
        || line.starts_with(b"feature import-marks-if-exists=")
        || line.starts_with(b"feature export-marks=")
}

/// Whether a line ends a stream.
pub(crate) fn is_done(line: &[u8]) -> bool
    ensures { result ≡ is_done line.now }
{
    line == b"done".as_slice()
}
