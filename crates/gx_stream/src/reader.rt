//! The reader of items.

ghost use Rattle.std.specs.Prelude.{◌≡◌, ◌-◌, ◌^◌, None};
ghost use Rattle.std.specs.Option.{option_map};
ghost use Rattle.std.specs.Borrow.{sem};
ghost use Rattle.std.specs.Io.BufRead.{Rests};
ghost use Rattle.gx_stream.specs.Heard.{items_from};
ghost use Rattle.gx_model.specs.Streams.Items.{Stream};
ghost use Rattle.gx_stream.specs.Input.{GivesBlock};
ghost use Rattle.gx_stream.specs.Reading.{Answers, AreOfText, MayCome};
ghost use Rattle.gx_stream.specs.contracts.reader.ItemReader.{the_row};

use crate::fault::StreamFault;
use crate::input::{Input, State};
use crate::item::Item;
use crate::places::{Found, Scan};
use crate::pulls::LIMIT;
use gx_text::Source;
use std::alloc::Allocator;
use std::marker::Model;

/// A reader of the items of a stream, seen as the items that are still to come, and how it is over.
#[derive(Drop)]
pub struct ItemReader<R: Source, A: Allocator> {
    input: Input<R, A>,
}

impl<R: Source, A: Allocator> Model for ItemReader<R, A> {
    ghost use Rattle.gx_stream.specs.Reading.{Seen};
    ghost use Rattle.gx_stream.specs.Input.{shown_input, IsSound};

    ghost Value = { Seen };

    ghost view = { λ r. shown_input r.input (R.coming r.input.source) };

    ghost invariant = { λ r. IsSound r.input };
}

impl<R: Source, A: Allocator + Copy> ItemReader<R, A> {
    /// A reader of all the items of a source. Takes no memory, and nothing is pulled yet.
    pub fn new(alloc: A, source: R) -> ItemReader<R, A>
        ensures stream { result.stream ≡ option_map items_from (R.coming source) }
        ensures most { result.most ≡ 2 ^ 63 - 1 }
        ensures over { result.over ≡ None }
        ensures explains { (items : Stream) → MayCome result items → AreOfText items }
    {
        ItemReader {
            input: Input {
                source,
                text: Vec::new(alloc),
                came: 0,
                at: 0,
                scan: Scan::from_line(0),
                room: LIMIT,
                state: State::Open,
            },
        }
    }

    /// The next item, lent from the reader's memory, or `None` at the end. Comments give no item.
    ///
    /// After a fault each call answers the same fault, and after the end each call answers `None`.
    /// `OutOfMemory`: there was no room for another piece of the source, so none was pulled; a failed read is never told so.
    /// `ReadFailed`: the source failed, or gave more than 2^63 - 1 bytes, before the item was complete.
    /// `TruncatedData`: the text ends within a block. `BadNumber`: a `data` line has neither a number nor `<<`.
    ///
    /// The source is asked for more only where no whole item is left, and for at most 64 KiB at a time. Memory: the longest
    /// item that came, whatever a count states, and a piece of 64 KiB. Cost: the bytes of the item and of the comments
    /// before it, however they are cut.
    /// Source: git-fast-import(1), "Comments" and "data".
    pub fn next(&mut self) -> Result<Option<Item<'_>>, StreamFault>
        ensures* reads { sem 𝓛 (Rests (the_row R.row A.row R.Source A.Allocator) self.entry
            (λ new. Answers self.old new result)) }
    {
        let found = self.input.take_next();
        let came = &self.input.text[..self.input.came];
        match found {
            Found::Line(place) => Ok(Some(Item::Line(&came[place.start..place.end]))),
            Found::Data(place) => Ok(Some(Item::Data(&came[place.start..place.end]))),
            Found::End(None) => Ok(None),
            Found::End(Some(fault)) => Err(fault),
        }
    }

    /// The next item where it is a block, given away: one of 1 MiB and more in the memory that it came to, so that it never
    /// stands there twice, and a shorter one as a copy. `None` where a line, the end or a fault comes, which `next` answers
    /// then.
    ///
    /// `OutOfMemory`: there was no memory for the block, and the reader lets go of its own.
    ///
    /// Cost: the bytes of the block. What stays isn't looked through again.
    /// Source: git-fast-import(1), "data".
    pub fn next_block(&mut self) -> Result<Option<Vec<u8, A>>, StreamFault>
        ensures gives { GivesBlock self.old self.new result }
    {
        self.input.take_block()
    }
}
