//! Random keys that a caller gives.

use std::hash::RandomState;
use std::io;
use std::random::RandomSource;

/// The keys of hashes, as they come from who opens a store. They decide how fast a look-up is, and nothing of what is
/// answered.
#[derive(Drop)]
struct Keys<'a> {
    bytes: &'a [u8],
}

impl<'a> RandomSource for Keys<'a> {
    /// The first of the keys' bytes. What is behind them stays as it is.
    fn fill_bytes(&self, buf: &mut [u8]) -> io::Result<()> {
        for (place, key) in buf.iter_mut().zip(self.bytes) {
            *place = *key;
        }
        Ok(())
    }
}

/// The hashing state of the first sixteen of these bytes; zeros stand for those that aren't there.
pub(crate) fn hashing_state(bytes: &[u8]) -> io::Result<RandomState> {
    RandomState::new(&Keys { bytes })
}
