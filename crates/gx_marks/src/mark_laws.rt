//! Laws of files of marks.
ghost use Rattle.gx_marks.specs.MarkLaws.{MarksAreRead, OneReading};

/// A text tells one list of marks, or has one line that is the first to tell none.
pub fn one_reading()
    ensures { OneReading }
{}

/// The text of marks tells these marks.
pub fn marks_are_read()
    ensures { MarksAreRead }
{}
