//! The items of a stream, with the one that was read ahead.

ghost use Rattle.std.specs.Prelude.{◌≡◌, ◌-◌, ◌^◌, IfErr, IfOk, OnOk, None};
ghost use Rattle.std.specs.Option.{option_map};
ghost use Rattle.gx_model.specs.Streams.Items.{Stream};
ghost use Rattle.gx_stream.specs.Heard.{items_from};
ghost use Rattle.gx_stream.specs.Reading.{AreOfText, MayCome, item_of};
ghost use Rattle.gx_command.specs.declared.fault.CommandFault.TheVariants.{OutOfMemory};
ghost use Rattle.gx_command.specs.Ahead.{AnswersRest, Takes, TakesLine, Falls, to_come, most, shown_held_item};
ghost use Rattle.gx_command.specs.Explaining.{ExplainsLine, ExplainsTaken, KeepsAhead, MayBeAhead};

use crate::fault::CommandFault;
use crate::lines::rest_in;
use gx_stream::{Item, ItemReader};
use gx_text::Source;
use std::alloc::{AllocError, Allocator};

/// An item that was read ahead.
#[derive(Drop)]
pub(crate) enum Held<A: Allocator> {
    Line(Vec<u8, A>),
    Data(Vec<u8, A>),
}

impl<A: Allocator + Copy> Held<A> {
    fn copy(alloc: A, item: Item<'_>) -> Result<Held<A>, AllocError>
        ensures { IfOk result (λ held. shown_held_item held ≡ item_of item.entry) }
    {
        Ok(match item {
            Item::Line(line) => Held::Line(Vec::from_slice(alloc, line)?),
            Item::Data(bytes) => Held::Data(Vec::from_slice(alloc, bytes)?),
        })
    }

    fn lent(&self) -> Item<'_>
        ensures { item_of result ≡ shown_held_item self.now }
    {
        match self {
            Held::Line(line) => Item::Line(line.as_slice()),
            Held::Data(bytes) => Item::Data(bytes.as_slice()),
        }
    }
}

/// The items of a stream, with the one that was read ahead.
#[derive(Drop)]
pub(crate) struct Ahead<R: Source, A: Allocator> {
    pub(crate) alloc: A,
    pub(crate) items: ItemReader<R, A>,
    pub(crate) held: Option<Held<A>>,
}

impl<R: Source, A: Allocator + Copy> Ahead<R, A> {
    /// All the items of a source.
    #[tactic(auto, unfolding(crate::specs::Ahead::to_come, crate::specs::Ahead::most))]
    pub(crate) fn new(alloc: A, source: R) -> Ahead<R, A>
        ensures comes { to_come result ≡ option_map items_from (R.coming source) }
        ensures most { most result ≡ 2 ^ 63 - 1 }
        ensures held { result.held ≡ None }
        ensures explains { (items : Stream) → MayCome result.items items → AreOfText items }
    {
        Ahead {
            alloc,
            items: ItemReader::new(alloc, source),
            held: None,
        }
    }

    /// Takes the next item where `read` reads it. Otherwise the item stays.
    #[tactic(auto, unfolding(crate::specs::Ahead::to_come, crate::specs::Ahead::most))]
    pub(crate) fn take<T: Drop, F>(&mut self, read: F) -> Result<Option<T>, CommandFault>
    where
        F: FnOnce(Item<'_>) -> Result<Option<T>, CommandFault>,
        requires { F.IsAlwaysCallable read }
        ensures takes { Takes (F.post read) (to_come self.old) (to_come self.new) result }
        ensures explains { ExplainsTaken (F.post read) (MayBeAhead self.old)
            (MayBeAhead self.new) result }
        ensures falls { Falls (most self.old) (most self.new) result }
    {
        if let Some(held) = &self.held {
            let taken = read(held.lent())?;
            if taken.is_some() {
                self.held = None;
            }
            return Ok(taken);
        }
        let Some(item) = self.items.next()? else {
            return Ok(None);
        };
        if let Some(taken) = read(item)? {
            return Ok(Some(taken));
        }
        self.held = Some(Held::copy(self.alloc, item)?);
        Ok(None)
    }

    /// Reads the next item ahead where it is a block, which is given away and not copied.
    #[tactic(auto, unfolding(crate::specs::Ahead::to_come, crate::specs::Ahead::most, crate::specs::Explaining::MayBeAhead))]
    fn hold_block(&mut self) -> Result<(), CommandFault>
        ensures keeps { OnOk result (KeepsAhead self.old self.new) }
        ensures fault { IfErr result (λ fault. fault ≡ OutOfMemory) }
    {
        if self.held.is_some() {
            return Ok(());
        }
        if let Some(bytes) = self.items.next_block()? {
            self.held = Some(Held::Data(bytes));
        }
        Ok(())
    }

    /// Takes the next line where it has this word, and reads its rest. Otherwise the item stays.
    #[tactic(auto, unfolding(gx_model::specs::Streams::Lines::rest_line_in))]
    pub(crate) fn optional<T: Drop, F>(
        &mut self,
        word: &[u8],
        read: F,
    ) -> Result<Option<T>, CommandFault>
    where
        F: FnOnce(&[u8]) -> Result<T, CommandFault>,
        requires { F.IsAlwaysCallable read }
        ensures takes { TakesLine word.now (F.post read) (to_come self.old)
            (to_come self.new) result }
        ensures explains { ExplainsLine word.now (F.post read) (MayBeAhead self.old)
            (MayBeAhead self.new) result }
        ensures falls { Falls (most self.old) (most self.new) result }
    {
        self.hold_block()?;
        self.take(|item| read_rest(item, word, read))
    }
}

/// The rest of a line that has this word, as `read` reads it. Another item gives none.
fn read_rest<T: Drop, F>(item: Item<'_>, word: &[u8], read: F) -> Result<Option<T>, CommandFault>
where
    F: FnOnce(&[u8]) -> Result<T, CommandFault>,
    requires { F.IsAlwaysCallable read }
    ensures { AnswersRest (F.post read) word.now item.entry result }
{
    match rest_in(item, word)? {
        Some(rest) => Ok(Some(read(rest)?)),
        None => Ok(None),
    }
}
