//! A source that gives no more than is allowed, and a sink that allows it.

ghost use Rattle.std.specs.Prelude.{◌≡◌, ◌<◌, ◌≤◌, length, Some, None, Ok, IfOk, IsErr};
ghost use Rattle.gx_text.specs.Devices.{Pulls, PullsFrom, Pushes};

use gx_text::{Bytes, Failed, Sink, Source};
use std::cell::Cell;

/// A source over memory that takes one from `pulls` for each pull. The pull that finds none fails, and allows all that come behind it:
/// whoever asks again gets bytes, as no other source gives them.
#[derive(Drop)]
pub struct Allowed<'a> {
    /// What it gives.
    pub bytes: Bytes<'a>,
    /// How many pulls are allowed.
    pub pulls: &'a Cell<u64>,
}

impl<'a> Source for Allowed<'a> {
    ghost coming = { λ _. None };

    /// Gives what its bytes give, or fails and gives nothing. Cost: the number of bytes.
    fn pull(&mut self, buffer: &mut [u8]) -> Result<usize, Failed>
        requires nonempty { 0 < length buffer.old }
        ensures bound { IfOk result (λ n. n ≤ length buffer.new) }
        ensures bytes { Pulls None None buffer.new result }
        ensures given { IfOk result (λ n.
            PullsFrom self.old.bytes.coming (Some self.new.bytes.coming) buffer.new (Ok n)) }
        ensures few { IfOk result (λ n. n ≤ self.old.bytes.piece) }
        ensures piece { self.new.bytes.piece ≡ self.old.bytes.piece }
        ensures unchanged { IsErr result → self.new.bytes.coming ≡ self.old.bytes.coming }
    {
        match self.pulls.get().checked_sub(1) {
            Some(left) => {
                self.pulls.set(left);
                self.bytes.pull(buffer)
            }
            None => {
                self.pulls.set(u64::MAX);
                Err(Failed)
            }
        }
    }
}

/// A sink that allows so many pulls more for each text that ends with a line feed. It keeps no byte.
#[derive(Drop)]
pub struct Allowing<'a> {
    /// How many pulls are allowed.
    pub pulls: &'a Cell<u64>,
    /// How many more each time.
    pub more: u64,
}

impl<'a> Sink for Allowing<'a> {
    ghost taken = { λ _. None };

    /// Takes all bytes. Cost: the same for any number.
    fn push(&mut self, bytes: &[u8]) -> Result<usize, Failed>
        requires nonempty { 0 < length bytes.now }
        ensures bound { IfOk result (λ n. n ≤ length bytes.now) }
        ensures some { IfOk result (λ n. 0 < n) }
        ensures bytes { Pushes None None bytes.now result }
        ensures all { result ≡ Ok (length bytes.now) }
        ensures more { self.new.more ≡ self.old.more }
    {
        if bytes.ends_with(b"\n") {
            let pulls = self.pulls.get().saturating_add(self.more);
            self.pulls.set(pulls);
        }
        Ok(bytes.len())
    }
}
