//! Which calls of a disk fail.

/// Which calls of a disk fail: so many are done first, and so many fail then. All behind these are done.
#[derive(Clone, Copy, Debug)]
pub struct Plan {
    /// How many calls are done first.
    pub done: u64,
    /// How many fail then.
    pub failing: u64,
    /// How many bytes a write that fails has written, if it has as many.
    pub front: usize,
}

impl Plan {
    /// No call fails.
    pub const NONE: Plan = Plan {
        done: 0,
        failing: 0,
        front: 0,
    };

    /// Counts a call, and answers whether it fails.
    pub(crate) fn fails(&mut self) -> bool {
        if self.done > 0 {
            self.done -= 1;
            return false;
        }
        let fails = self.failing > 0;
        self.failing = self.failing.saturating_sub(1);
        fails
    }
}
