//! A law of the lines of texts.
ghost use Rattle.gx_batch.specs.LineLaws.{LinesSpell};

/// The lines of a text that fails stand in it one after the other, each with the byte at its end. What is left has no such byte:
/// where the text ends, it is the last line, unless it is empty.
pub fn lines_spell_texts()
    ensures { LinesSpell }
{}
