//! What a call answers.

ghost use Rattle.std.specs.Prelude.{◌≡◌, []};
ghost use Rattle.gx_c.specs.declared.answer.Why.TheVariants as why;
ghost use Rattle.gx_c.specs.Answers.{status_of, word_of_why};

use crate::store::{DONE, REFUSED};
use gx_growing::GrowingFault;
use gx_model::Fault;
use gx_rev::RevFault;
use std::alloc::Allocator;

/// Why a call was refused, if it was.
#[derive(Clone, Copy, Debug, PartialEq, Eq, Drop)]
pub enum Why {
    /// It wasn't.
    Done,
    /// A revision, a range word or a path, or want of memory.
    Revision(RevFault),
    /// A stream.
    Import(Fault),
    /// A store's text.
    Store(GrowingFault),
    /// An item of a text of refs and objects, by the word of what is against it.
    Item(&'static str),
    /// Range words of a bundle that name no ref.
    Empty,
    /// The number of a field.
    Field,
    /// An export, of a commit that has a header but that of an encoding: no stream can say it. Or a bundle, of 2^32 objects or more.
    Unsupported,
}

impl Why {
    /// The word of the fault, which is its name. Of a call that was accepted it is empty. Takes no memory.
    pub fn word(self) -> &'static str
        ensures { result.now ≡ word_of_why self }
    {
        match self {
            Why::Done => "",
            Why::Revision(fault) => fault.word(),
            Why::Import(fault) => fault.word(),
            Why::Store(fault) => fault.word(),
            Why::Item(word) => word,
            Why::Empty => "Empty",
            Why::Field => "UnknownField",
            Why::Unsupported => "Unsupported",
        }
    }

    /// The status of a call that ended so: 0 where it was accepted, and 1 where it was refused.
    pub fn status(self) -> u32
        ensures { result ≡ status_of self }
    {
        match self {
            Why::Done => DONE,
            Why::Revision(_)
            | Why::Import(_)
            | Why::Store(_)
            | Why::Item(_)
            | Why::Empty
            | Why::Field
            | Why::Unsupported => REFUSED,
        }
    }
}

/// Bytes and numbers, and why there are none.
#[derive(Drop)]
pub struct Answer<A: Allocator> {
    /// Why the call was refused.
    pub why: Why,
    /// The text that was asked for.
    pub bytes: Vec<u8, A>,
    /// The mode of a file, or the kind of an object; of an import its commands; the number of what is refused.
    pub number: u64,
    /// Of an import its new objects, or the checkpoints before its fault.
    pub count: u64,
}

impl<A: Allocator + Copy> Answer<A> {
    /// This text and this number.
    pub(crate) fn given(bytes: Vec<u8, A>, number: u64) -> Answer<A>
        ensures why { result.why ≡ why.Done }
        ensures bytes { result.bytes.items ≡ bytes.items }
        ensures number { result.number ≡ number }
    {
        Answer {
            why: Why::Done,
            bytes,
            number,
            count: 0,
        }
    }

    /// A refusal of what has this number. Takes no memory.
    pub(crate) fn refused(alloc: A, why: Why, number: u64) -> Answer<A>
        ensures why { result.why ≡ why }
        ensures bytes { result.bytes.items ≡ [] }
        ensures number { result.number ≡ number }
    {
        Answer {
            why,
            bytes: Vec::new(alloc),
            number,
            count: 0,
        }
    }
}
