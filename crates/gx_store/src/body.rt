//! The bytes of an object, which are its own or stand in a text that others share.

ghost use Rattle.std.specs.Prelude.{◌≡◌};
ghost use Rattle.gx_store.specs.Bodies.{bytes_of};

use crate::TextRange;
use std::alloc::Allocator;

/// An object's body.
#[derive(Drop)]
pub enum Body<A: Allocator> {
    /// Bytes of its own.
    Own(Vec<u8, A>),
    /// Bytes of a text, which stay there.
    Within(TextRange<A>),
}

impl<A: Allocator> Body<A> {
    /// Its bytes. Takes no memory.
    pub fn as_slice(&self) -> &[u8]
        ensures { result.now ≡ bytes_of self.now }
    {
        match self {
            Body::Own(bytes) => bytes.as_slice(),
            Body::Within(range) => range.as_slice(),
        }
    }
}
