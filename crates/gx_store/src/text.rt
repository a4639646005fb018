//! Bytes that several owners share, and ranges of them.
ghost use Rattle.std.specs.Prelude.{◌≡◌, ◌≤◌, length, IfOk};
ghost use Rattle.std.specs.List.{slice_range};

use std::alloc::{AllocError, Allocator};
use std::marker::Model;
use std::rc::Rc;

/// A whole text, which all that are made from one share. It goes with the last of them.
///
/// It is seen as its bytes.
#[derive(Drop)]
pub struct Text<A: Allocator> {
    bytes: Rc<Vec<u8, A>, A>,
}

impl<A: Allocator> Model for Text<A> {
    ghost use Rattle.gx_model.specs.Texts.{Bytes};

    ghost Value = { Bytes };

    ghost view = { λ t. t.bytes.value.items };
}

impl<A: Allocator> Text<A> {
    /// A text of these bytes, which are dropped where memory runs out.
    ///
    /// Cost: constant. Memory: the count of its owners; the bytes aren't copied.
    pub fn new(alloc: A, bytes: Vec<u8, A>) -> Result<Text<A>, AllocError>
        ensures { IfOk result (λ text. text ≡ bytes.items) }
    {
        let bytes = Rc::new(alloc, bytes)?;
        Ok(Text { bytes })
    }

    /// Its bytes. Takes no memory.
    pub fn as_slice(&self) -> &[u8]
        ensures { result.now ≡ self.now }
    {
        self.bytes.as_slice()
    }

    /// The same text once more, which is refused only where the count of its owners is full.
    fn shared(&self) -> Result<Text<A>, AllocError>
        ensures { IfOk result (λ text. text ≡ self.now) }
    {
        let bytes = self.bytes.clone()?;
        Ok(Text { bytes })
    }
}

/// The bytes of a text from one place up to another. The text stays for as long as this does.
///
/// It is seen as these bytes.
#[derive(Drop)]
pub struct TextRange<A: Allocator> {
    text: Text<A>,
    start: usize,
    end: usize,
}

impl<A: Allocator> Model for TextRange<A> {
    ghost use Rattle.std.specs.Prelude.{◌≤◌, length};
    ghost use Rattle.std.specs.List.{slice_range};
    ghost use Rattle.gx_model.specs.Texts.{Bytes};

    ghost Value = { Bytes };

    ghost view = { λ r. slice_range r.text r.start r.end };

    ghost invariant = { λ r. (r.start ≤ r.end) × (r.end ≤ length r.text) };
}

impl<A: Allocator> TextRange<A> {
    /// The bytes from `start` up to `end`, of which no copy is made. It is refused only where the count of the text's
    /// owners is full.
    ///
    /// Cost: constant. Takes no memory.
    pub fn new(text: &Text<A>, start: usize, end: usize) -> Result<TextRange<A>, AllocError>
        requires ordered { start ≤ end }
        requires within { end ≤ length text.now }
        ensures { IfOk result (λ range. range ≡ slice_range text.now start end) }
    {
        let text = text.shared()?;
        Ok(TextRange { text, start, end })
    }

    /// Its bytes. Takes no memory.
    pub fn as_slice(&self) -> &[u8]
        ensures { result.now ≡ self.now }
    {
        &self.text.as_slice()[self.start..self.end]
    }
}
