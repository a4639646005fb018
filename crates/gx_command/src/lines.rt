//! Lines: the word and the rest of each.

ghost use Rattle.std.specs.Prelude.{◌≡◌};
ghost use Rattle.gx_model.specs.Faults.{Gives, NeedsNoMemory};
ghost use Rattle.gx_model.specs.Streams.Lines.{words_of, is_word, rest_of};
ghost use Rattle.gx_stream.specs.Reading.{item_of};
ghost use Rattle.gx_command.specs.CommandFaults.{fault_of};
ghost use Rattle.gx_command.specs.Lines.{bare_as, lent_bytes, shown_words, shown_rest, rest_in};

use crate::fault::CommandFault;
use gx_stream::Item;
use gx_text::cut;

/// A line's word, and what follows the space after it.
#[derive(Clone, Copy)]
pub(crate) struct Words<'a> {
    pub(crate) word: &'a [u8],
    pub(crate) rest: Option<&'a [u8]>,
}

impl<'a> Words<'a> {
    pub(crate) fn of(line: &'a [u8]) -> Words<'a>
        ensures { shown_words result ≡ words_of line.now }
    {
        match cut(line, b' ') {
            Some((word, rest)) => Words {
                word,
                rest: Some(rest),
            },
            None => Words {
                word: line,
                rest: None,
            },
        }
    }

    pub(crate) fn is(self, word: &[u8]) -> bool
        ensures { result ≡ is_word (shown_words self.entry) word.now }
    {
        self.word == word
    }

    /// The rest of a line that needs one.
    pub(crate) fn rest(self) -> Result<&'a [u8], CommandFault>
        ensures rest { Gives fault_of lent_bytes result (rest_of (shown_words self.entry)) }
        ensures memory { NeedsNoMemory CommandFault.OutOfMemory result }
    {
        self.rest.ok_or(CommandFault::BadLine)
    }

    /// The value that a line without a rest stands for. Refuses a line with one.
    pub(crate) fn bare<T: Drop>(self, value: T) -> Result<T, CommandFault>
        ensures bare { Gives fault_of (λ x. x) result (bare_as value (shown_words self.entry)) }
        ensures memory { NeedsNoMemory CommandFault.OutOfMemory result }
    {
        match self.rest {
            Some(_) => Err(CommandFault::BadLine),
            None => Ok(value),
        }
    }
}

/// The rest of a line that has this word. Another item gives none.
pub(crate) fn rest_in<'a>(item: Item<'a>, word: &[u8]) -> Result<Option<&'a [u8]>, CommandFault>
    ensures rest { Gives fault_of shown_rest result (rest_in word.now (item_of item.entry)) }
    ensures memory { NeedsNoMemory CommandFault.OutOfMemory result }
{
    match item {
        Item::Line(line) => {
            let words = Words::of(line);
            if words.is(word) {
                Ok(Some(words.rest()?))
            } else {
                Ok(None)
            }
        }
        Item::Data(_) => Ok(None),
    }
}
